// From the bytes of a filing to the bytes that the program prints: every decision of the program.
#![tactic(auto)]

ghost use Rattle.std.specs.Prelude.{◌≡◌, ◌+◌, ◌≤◌, length};
ghost use Rattle.text.specs.Buffer.{put_into};
ghost use Rattle.text.specs.Steps.{with_text_at};
ghost use Rattle.output.specs.Output.{refused_by_number, refused_line, refused_field, settlement_text_as, output_as, output_of, gas_output_of};
ghost use Rattle.calls.specs.Indicators.{indicators_of};

use book::Book;
use calls::{Answer, Kind, number_of};
use lent::read_fresh_as;
use report::report_as;
use text::{put_decimal, put_word};

pub const LONGEST_FILING: usize = 65536;

// Puts what is printed at the front of a buffer, leaves the bytes after it, and answers how many there are.
pub fn output(filing: &[u8], out: &mut [u8; 2048]) -> usize
    ensures value { result ≡ length (output_of filing.now) }
    ensures out_after { out.new ≡ put_into out.old (output_of filing.now) }
{
    output_as(Kind::Electricity, filing, out)
}

// Of a filing of gas, for which 02 wants calls of its own.
pub fn output_gas(filing: &[u8], out: &mut [u8; 2048]) -> usize
    ensures value { result ≡ length (gas_output_of filing.now) }
    ensures out_after { out.new ≡ put_into out.old (gas_output_of filing.now) }
{
    output_as(Kind::Gas, filing, out)
}

// Of a filing of a kind.
pub fn output_as(kind: Kind, filing: &[u8], out: &mut [u8; 2048]) -> usize
    ensures value { result ≡ length (output_as (indicators_of kind) filing.now) }
    ensures out_after { out.new ≡ put_into out.old (output_as (indicators_of kind) filing.now) }
{
    if LONGEST_FILING < filing.len() {
        return put_word(out, 0, b"too long\n");
    }
    let reading = read_fresh_as(kind, filing);
    let progress = reading.progress;
    match progress.answer {
        Answer::Refused(refusal) => put_refused_field(out, number_of(refusal), progress.offset),
        _ => put_settlement(kind, out, reading.book),
    }
}

// The report of a book, or its refusal.
fn put_settlement(kind: Kind, out: &mut [u8], b: Book) -> usize
    requires { 2048 ≤ length out.old }
    ensures value { result ≡ length (settlement_text_as (indicators_of kind) b) }
    ensures out_after { out.new ≡ put_into out.old (settlement_text_as (indicators_of kind) b) }
{
    match report_as(kind, b, out) {
        Ok(count) => count,
        Err(refusal) => put_refused_line(out, number_of(refusal)),
    }
}

// A refusal without a place.
pub fn put_refused_line(out: &mut [u8], number: u8) -> usize
    requires { 2048 ≤ length out.old }
    ensures value { result ≡ length (refused_line number) }
    ensures out_after { out.new ≡ put_into out.old (refused_line number) }
{
    let last = put_refused(out, number);
    put_word(out, last, b"\n")
}

pub fn put_refused_field(out: &mut [u8], number: u8, offset: usize) -> usize
    requires { 2048 ≤ length out.old }
    ensures value { result ≡ length (refused_field number offset) }
    ensures out_after { out.new ≡ put_into out.old (refused_field number offset) }
{
    let first = put_refused(out, number);
    let second = put_word(out, first, b" at ");
    let last = put_decimal(out, second, offset as u64);
    put_word(out, last, b"\n")
}

fn put_refused(out: &mut [u8], number: u8) -> usize
    requires { 2048 ≤ length out.old }
    ensures { (out.new ≡ with_text_at out.old 0 (refused_by_number number)) × (result ≡ 0 + length (refused_by_number number)) }
{
    let next = put_word(out, 0, b"refused ");
    put_decimal(out, next, number as u64)
}
