// Writes the book of case M into buffers of several lengths, and prints each as `length = answer` and every byte of the buffer around
// it: those past the lent part have to stay.
#![tactic(auto)]

ghost use Rattle.std.specs.Prelude.{◌≤◌};

use book::Book;
use calls::{Refusal, number_of};
use lent::read_fresh;
use std::io;
use writer::write;

// Case M with cap rate 10,000: joins, settings, amounts, cleared marks and rates.
const CASE_M: [u8; 251] = [
    1, 0, 1, 0, 1, 0, 1, 1, 2, 0, 10, 0, 0, 0, 0, 0, 0, 0, 0, 0, 100, 2, 0, 10, 1, 0, 0, 0, 0, 0,
    0, 0, 0, 100, 2, 0, 10, 0, 1, 0, 0, 0, 0, 0, 0, 3, 232, 2, 0, 10, 1, 1, 0, 0, 0, 0, 0, 0, 11,
    184, 2, 0, 10, 0, 2, 0, 0, 0, 0, 5, 245, 225, 0, 2, 0, 10, 1, 2, 0, 0, 0, 0, 11, 235, 194, 0,
    2, 0, 10, 0, 3, 0, 0, 0, 0, 0, 0, 0, 100, 2, 0, 10, 1, 3, 0, 0, 0, 0, 0, 0, 0, 100, 2, 0, 10,
    0, 4, 0, 0, 0, 0, 0, 0, 0, 100, 2, 0, 10, 1, 4, 0, 0, 0, 0, 0, 0, 0, 100, 4, 0, 12, 1, 0, 4, 0,
    0, 0, 0, 0, 0, 0, 195, 80, 4, 0, 12, 1, 0, 5, 0, 0, 0, 0, 0, 0, 0, 0, 100, 5, 0, 3, 0, 0, 0, 5,
    0, 3, 0, 1, 0, 5, 0, 3, 0, 2, 0, 5, 0, 3, 0, 3, 0, 5, 0, 3, 0, 4, 0, 5, 0, 3, 0, 5, 0, 5, 0, 3,
    1, 0, 0, 5, 0, 3, 1, 1, 0, 5, 0, 3, 1, 2, 0, 5, 0, 3, 1, 3, 0, 5, 0, 3, 1, 4, 0, 5, 0, 3, 1, 5,
    0, 6, 0, 8, 0, 0, 19, 136, 0, 0, 39, 16,
];

fn main(rt: HostRuntime) -> io::Result<()> {
    let reading = read_fresh(&CASE_M);
    let b = reading.book;
    show(&rt, b, 0)?;
    show(&rt, b, 250)?;
    show(&rt, b, 251)?;
    show(&rt, b, 254)
}

// A buffer of 254 bytes, all 170, of which so many are lent.
fn show(rt: &impl Print, b: Book, length: usize) -> io::Result<()>
    requires { length ≤ 254 }
{
    let mut buffer = [170u8; 254];
    let answer = write(b, &mut buffer[..length]);
    print!(rt; "{length} = ")?;
    print_answer(rt, answer)?;
    print_bytes(rt, &buffer)
}

fn print_answer(rt: &impl Print, answer: Result<usize, Refusal>) -> io::Result<()> {
    match answer {
        Ok(count) => print!(rt; "{count} "),
        Err(refusal) => print!(rt; "refused {} ", number_of(refusal)),
    }
}

fn print_bytes(rt: &impl Print, bytes: &[u8; 254]) -> io::Result<()> {
    for byte in bytes {
        print_byte(rt, *byte)?;
    }
    println!(rt)
}

fn print_byte(rt: &impl Print, byte: u8) -> io::Result<()> {
    print!(rt; "{byte:02x}")
}
