// From the bytes of a filing to its book written out: every decision of the programs that rewrite.
#![tactic(auto)]

ghost use Rattle.std.specs.Prelude.{◌≡◌, ◌≤◌, true, length};
ghost use Rattle.calls.specs.Indicators.{indicators_of};
ghost use Rattle.book.specs.Book.{in_range};
ghost use Rattle.text.specs.Buffer.{put_into};
ghost use Rattle.writing.specs.Written.{written_as};
ghost use Rattle.writing.specs.Laws.{written_most_as};
ghost use Rattle.rewriting.specs.Rewriting.{printout_as, printout_of, gas_printout_of, told_of};

use book::Book;
use calls::{Answer, Kind, number_of};
use lent::read_fresh_as;
use output::{LONGEST_FILING, put_refused_field};
use text::put_word;
use writer::{WRITTEN_MOST, WRITTEN_MOST_GAS, write_as};

// An own enum: both texts are what the program is to print, so neither is an error as a `Result` would say.
#[derive(Clone, Copy)]
pub enum Stream {
    Output,
    Error,
}

// Where a text goes, and how many bytes it has.
#[derive(Clone, Copy)]
pub struct Printed {
    pub stream: Stream,
    pub count: usize,
}

// Puts what is printed at the front of a buffer that every written filing fits, leaves the bytes after it, and answers how many there are
// and where they go.
pub fn rewritten(filing: &[u8], out: &mut [u8; WRITTEN_MOST]) -> Printed
    ensures count_value { (result.stream, result.count) ≡ told_of (printout_of filing.now) }
    ensures out_after { out.new ≡ put_into out.old (printout_of filing.now).text }
{
    rewritten_as(Kind::Electricity, filing, out)
}

// Of a filing of gas, for which 02 wants calls of its own.
pub fn rewritten_gas(filing: &[u8], out: &mut [u8; WRITTEN_MOST_GAS]) -> Printed
    ensures count_value { (result.stream, result.count) ≡ told_of (gas_printout_of filing.now) }
    ensures out_after { out.new ≡ put_into out.old (gas_printout_of filing.now).text }
{
    rewritten_as(Kind::Gas, filing, out)
}

// Of a filing of a kind, into a buffer that every written filing of the kind fits.
pub fn rewritten_as(kind: Kind, filing: &[u8], out: &mut [u8]) -> Printed
    requires { (2048 ≤ length out.old) × (written_most_as (indicators_of kind) ≤ length out.old) }
    ensures count_value { (result.stream, result.count) ≡ told_of (printout_as (indicators_of kind) filing.now) }
    ensures out_after { out.new ≡ put_into out.old (printout_as (indicators_of kind) filing.now).text }
{
    if LONGEST_FILING < filing.len() {
        let count = put_word(out, 0, b"too long\n");
        return Printed {
            stream: Stream::Error,
            count,
        };
    }
    let reading = read_fresh_as(kind, filing);
    let progress = reading.progress;
    match progress.answer {
        Answer::Refused(refusal) => Printed {
            stream: Stream::Error,
            count: put_refused_field(out, number_of(refusal), progress.offset),
        },
        _ => Printed {
            stream: Stream::Output,
            count: put_book(kind, out, reading.book),
        },
    }
}

// A book in range is written into a buffer that fits, so nothing is refused.
fn put_book(kind: Kind, out: &mut [u8], b: Book) -> usize
    requires { (in_range (indicators_of kind) b ≡ true) × (length (written_as (indicators_of kind) b) ≤ length out.old) }
    ensures value { result ≡ length (written_as (indicators_of kind) b) }
    ensures out_after { out.new ≡ put_into out.old (written_as (indicators_of kind) b) }
{
    write_as(kind, b, out).unwrap_or(0)
}
