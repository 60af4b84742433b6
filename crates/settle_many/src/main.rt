// Settles a full book of sixteen operators as often as it has arguments, each time with another income, and prints the sum of
// operator 0's returns. It is for counting the instructions of one settlement: docs/SPEED.md says how.
#![tactic(auto)]

ghost use Rattle.std.specs.Prelude.{◌<◌};
ghost use Rattle.calls.specs.Limits.{operators, setting_count};

use book::Book;
use calls::{Answer, SETTINGS};
use std::env::FillError;
use std::rt::Env;
use std::{array, io};

fn main(rt: HostRuntime) -> io::Result<()> {
    let b = full_book();
    let times = argument_count(&rt);
    let mut sum = 0u64;
    for i in 0..times {
        sum = sum.wrapping_add(settled(b, i));
    }
    print!(rt; "{sum}")
}

// How many arguments there are, the program's name among them.
fn argument_count(rt: &impl Env) -> usize {
    let mut text = [0u8; 16];
    for i in 0..usize::MAX {
        if let Err(FillError::NotPresent) = rt.arg(i, &mut text) {
            return i;
        }
    }
    usize::MAX
}

// What operator 0 gets back from the book with one income changed.
fn settled(b: Book, i: usize) -> u64 {
    let mut next = b;
    next.settings[2] = 1000000000 + (i % 1000) as u64;
    let s = settlement::settle(next);
    match s.answer {
        Answer::Yes => s.settlement.returns[0],
        _ => 0,
    }
}

// Sixteen operators with large and distinct values.
fn full_book() -> Book {
    let mut b = book::fresh();
    b.joined = 65535;
    b.settings = array::from_fn(|i| setting((i / SETTINGS) as u64, (i % SETTINGS) as u64));
    b.figures = array::from_fn(|i| 100000000000 - 1234567 * i as u64);
    b.pot_rate = 20000;
    b.cap_rate = 10000;
    b
}

// Access points, income, or the cabins of a year, which differ from year to year.
fn setting(operator: u64, which: u64) -> u64
    requires { (operator < operators) × (which < setting_count) }
{
    match which {
        1 => 4000000 - 10007 * operator,
        2 => 100000000000 - 12345 * operator,
        _ => 1000 + 37 * operator + 500 * which,
    }
}
