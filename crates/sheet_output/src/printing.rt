// What is printed of a filing's sheet, put into a lent buffer.
ghost use Rattle.std.specs.Prelude.{◌≡◌, ◌+◌, ◌≤◌, length};
ghost use Rattle.text.specs.Buffer.{put_into};
ghost use Rattle.text.specs.Steps.{with_text_at};
ghost use Rattle.sheet_output.specs.SheetOutput.{count_line, count_lines, sheet_text, sheet_output_of};

use book::Book;
use calls::{Answer, OUTCOMES, number_of};
use lent::read_fresh;
use output::{LONGEST_FILING, put_refused_field, put_refused_line};
use sheets::sheet;
use text::{put_decimal, put_word};

// Puts what is printed at the front of a buffer, leaves the bytes after it, and answers how many there are.
pub fn sheet_output(filing: &[u8], operator: u8, year: u8, out: &mut [u8; 2048]) -> usize
    ensures value { result ≡ length (sheet_output_of operator year filing.now) }
    ensures out_after { out.new ≡ put_into out.old (sheet_output_of operator year filing.now) }
{
    if LONGEST_FILING < filing.len() {
        return put_word(out, 0, b"too long\n");
    }
    let reading = read_fresh(filing);
    let progress = reading.progress;
    match progress.answer {
        Answer::Refused(refusal) => put_refused_field(out, number_of(refusal), progress.offset),
        _ => put_sheet(out, reading.book, operator, year),
    }
}

// The lines of a sheet, or its refusal.
fn put_sheet(out: &mut [u8], b: Book, operator: u8, year: u8) -> usize
    requires { 2048 ≤ length out.old }
    ensures value { result ≡ length (sheet_text operator year b) }
    ensures out_after { out.new ≡ put_into out.old (sheet_text operator year b) }
{
    let asked = sheet(b, operator, year);
    match asked.answer {
        Answer::Refused(refusal) => put_refused_line(out, number_of(refusal)),
        _ => put_counts(out, asked.counts),
    }
}

fn put_counts(out: &mut [u8], counts: [u64; OUTCOMES]) -> usize
    requires { 2048 ≤ length out.old }
    ensures value { result ≡ length (count_lines counts) }
    ensures out_after { out.new ≡ put_into out.old (count_lines counts) }
{
    let second = put_count(out, 0, b"counted ", counts[0]);
    let third = put_count(out, second, b"short ", counts[1]);
    let fourth = put_count(out, third, b"planned ", counts[2]);
    let fifth = put_count(out, fourth, b"coupled ", counts[3]);
    put_count(out, fifth, b"exceptional ", counts[4])
}

fn put_count(out: &mut [u8], at: usize, word: &[u8], count: u64) -> usize
    requires { at + length word.now + 21 ≤ length out.old }
    ensures out_after { (out.new ≡ with_text_at out.old at (count_line word.now count)) × (result ≡ at + length (count_line word.now count)) }
    ensures upper_bound { result ≤ at + length word.now + 21 }
{
    let digits = put_word(out, at, word);
    let end = put_decimal(out, digits, count);
    put_word(out, end, b"\n")
}
