// The report: a book is settled, its lines are put together aside, and then into the buffer if they fit.
ghost use Rattle.std.specs.Prelude.{◌≡◌};
ghost use Rattle.lines.specs.Lines.{printed};
ghost use Rattle.text.specs.Buffer.{buffer_after, filled_said, fitting};
ghost use Rattle.report.specs.Report.{reporting_answer, reporting_buffer, report_answer, report_buffer, gas_report_answer, gas_report_buffer};
ghost use Rattle.calls.specs.Indicators.{indicators_of};
ghost use Rattle.lines.specs.Lines.{Printable};

use book::Book;
use calls::{Answer, Kind, Refusal};
use lines::put_lines;
use settlement::{Settlement, settle_as};
use text::put_word;

// A refusal leaves the buffer; otherwise the bytes after the text stay.
pub fn report(b: Book, buffer: &mut [u8]) -> Result<usize, Refusal>
    ensures result_value { filled_said result ≡ report_answer b buffer.old }
    ensures buffer_after { buffer.new ≡ report_buffer b buffer.old }
{
    report_as(Kind::Electricity, b, buffer)
}

// Of a book of gas, for which 02 wants calls of its own.
pub fn report_gas(b: Book, buffer: &mut [u8]) -> Result<usize, Refusal>
    ensures result_value { filled_said result ≡ gas_report_answer b buffer.old }
    ensures buffer_after { buffer.new ≡ gas_report_buffer b buffer.old }
{
    report_as(Kind::Gas, b, buffer)
}

// Of a book of a kind.
pub fn report_as(kind: Kind, b: Book, buffer: &mut [u8]) -> Result<usize, Refusal>
    ensures result_value { filled_said result ≡ reporting_answer (indicators_of kind) b buffer.old }
    ensures buffer_after { buffer.new ≡ reporting_buffer (indicators_of kind) b buffer.old }
{
    let settled = settle_as(kind, b);
    match settled.answer {
        Answer::Refused(refusal) => Err(refusal),
        _ => print(b, settled.settlement, buffer),
    }
}

// 13, or the lines.
fn print(b: Book, s: Settlement, buffer: &mut [u8]) -> Result<usize, Refusal>
    requires { Printable s }
    ensures result_value { filled_said result ≡ fitting buffer.old (printed b s) }
    ensures buffer_after { buffer.new ≡ buffer_after buffer.old (printed b s) (fitting buffer.old (printed b s)) }
{
    // An array, since there is no heap.
    let mut text = [0u8; 2048];
    let count = put_lines(&mut text, b, s);
    if buffer.len() < count {
        return Err(Refusal::BufferTooShort);
    }
    put_word(buffer, 0, &text[..count]);
    Ok(count)
}
