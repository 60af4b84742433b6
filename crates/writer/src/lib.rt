// The writer: a book written out as a filing, in a lent buffer. How many bytes it needs is worked out first, then each field is put where the one before it ended.
#![tactic(auto)]

ghost use Rattle.std.specs.Prelude.{◌≡◌, ◌+◌, ◌≤◌, length};
ghost use Rattle.calls.specs.Indicators.{indicators_of};
ghost use Rattle.text.specs.Buffer.{filled_said, put_into};
ghost use Rattle.text.specs.Steps.{with_text_at};
ghost use Rattle.writing.specs.Written.{written_as};
ghost use Rattle.writer.specs.Writer.{writing_answer, writing_buffer, writer_answer, writer_buffer, gas_writer_answer, gas_writer_buffer};
ghost use Rattle.entries.specs.Entries.{entry_bytes};

use book::Book;
use calls::{Kind, Refusal};
use encoding::{Encoded, field_size, put_field};
use entries::{PLACES, entry_at};
use range::in_range;

// The most that a written filing has, of electricity and of gas.
pub const WRITTEN_MOST: usize = 11083;

pub const WRITTEN_MOST_GAS: usize = 3595;

// A refusal leaves the buffer; otherwise the bytes after the filing stay.
pub fn write(b: Book, buffer: &mut [u8]) -> Result<usize, Refusal>
    ensures result_value { filled_said result ≡ writer_answer b buffer.old }
    ensures buffer_after { buffer.new ≡ writer_buffer b buffer.old }
{
    write_as(Kind::Electricity, b, buffer)
}

// Of a book of gas, for which 02 wants calls of its own.
pub fn write_gas(b: Book, buffer: &mut [u8]) -> Result<usize, Refusal>
    ensures result_value { filled_said result ≡ gas_writer_answer b buffer.old }
    ensures buffer_after { buffer.new ≡ gas_writer_buffer b buffer.old }
{
    write_as(Kind::Gas, b, buffer)
}

// Of a book of a kind.
pub fn write_as(kind: Kind, b: Book, buffer: &mut [u8]) -> Result<usize, Refusal>
    ensures result_value { filled_said result ≡ writing_answer (indicators_of kind) b buffer.old }
    ensures buffer_after { buffer.new ≡ writing_buffer (indicators_of kind) b buffer.old }
{
    if !in_range(kind, b) {
        return Err(Refusal::OutOfRange);
    }
    let size = written_size(kind, &b);
    if buffer.len() < size {
        return Err(Refusal::BufferTooShort);
    }
    put_entries(kind, &b, buffer);
    Ok(size)
}

fn written_size(kind: Kind, b: &Book) -> usize
    ensures { result ≡ length (written_as (indicators_of kind) b.now) }
{
    let mut size = 0;
    for place in 0..PLACES {
        size += size_of(entry_at(kind, b, place));
    }
    size
}

fn size_of(entry: Option<Encoded>) -> usize
    requires { length (entry_bytes entry) ≤ 15 }
    ensures { result ≡ length (entry_bytes entry) }
{
    match entry {
        None => 0,
        Some(field) => field_size(field),
    }
}

// Puts the whole filing at the front of a buffer that has room for it.
fn put_entries(kind: Kind, b: &Book, out: &mut [u8])
    requires { length (written_as (indicators_of kind) b.now) ≤ length out.old }
    ensures { out.new ≡ put_into out.old (written_as (indicators_of kind) b.now) }
{
    let mut at = 0;
    for place in 0..PLACES {
        at = put_entry(out, at, entry_at(kind, b, place));
    }
}

fn put_entry(out: &mut [u8], at: usize, entry: Option<Encoded>) -> usize
    requires { at + length (entry_bytes entry) ≤ length out.old }
    ensures { (out.new ≡ with_text_at out.old at (entry_bytes entry)) × (result ≡ at + length (entry_bytes entry)) }
{
    match entry {
        None => at,
        Some(field) => put_field(out, at, field),
    }
}
