// Reads commands as bytes from standard input and does them one after the other, first by value, then with the book lent. Each is
// printed as `command = answer`. A command is a field of a filing: tags 1 to 7 are the filing calls, those from 208 on are its own. A run
// starts with a fresh book of electricity; calls and settlements are of the kind that was named last.
#![tactic(auto)]

mod asked;
mod commands;
mod routes;
mod show;
mod stores;
mod words;

ghost use Rattle.std.specs.Prelude.{◌≤◌, length};

use book::Book;
use bookkeeping::Answered;
use calls::{Call, Kind};
use commands::{Command, Commands, HEADER};
use fields::{Field, field_at};
use printing::arguments;
use printing::print::answered;
use std::io;
use std::io::Read;

const FRESH: u8 = 208;

const SHOW: u8 = 209;

const SETTLE: u8 = 210;

// Its content is a field of tag 4: kind of value, up to three numbers that give the place, and the value.
const STORE: u8 = 211;

// Its content is a field of tag 4, with the operator and the year.
const SHEET: u8 = 212;

const GAS: u8 = 213;

const ELECTRICITY: u8 = 214;

fn main(rt: HostRuntime) -> io::Result<()> {
    // Fixed memory: the programs have no heap.
    let mut bytes = [0u8; 65536];
    let count = read_input(&mut rt.reader(), &mut bytes);
    run(&rt, &bytes[..count], routes::by_value)?;
    run(&rt, &bytes[..count], routes::lent)
}

// As much of the input as there is room for. Where it cannot be read on it ends.
fn read_input<R: Read>(reader: &mut R, bytes: &mut [u8]) -> usize
    ensures { result ≤ length bytes.new }
{
    // Where the next read puts its bytes: `read_to_end`, which keeps count itself, wants a Vec.
    let mut count = 0;
    while let Ok(more @ 1..) = reader.read(&mut bytes[count..]) {
        count += more;
    }
    count
}

// Filing calls are done by a route.
fn run<F: Fn(Kind, Book, Call) -> Answered>(
    rt: &impl Print,
    bytes: &[u8],
    route: F,
) -> io::Result<()>
    requires { F.IsAlwaysCallable route }
{
    let mut kind = Kind::Electricity;
    let mut b = book::fresh();
    for command in Commands(bytes) {
        print!(rt; "{}", words::word_of(command.tag % 200))?;
        match field_at(command.bytes, 0) {
            Field::CallThen { filing_call, .. } => {
                arguments::print(rt, filing_call)?;
                let filed = route(kind, b, filing_call);
                b = filed.book;
                answered(rt, filed.answer)?;
            }
            _ => {
                kind = kind_by(command.tag, kind);
                other(rt, kind, &mut b, command)?;
            }
        }
        println!(rt)?;
    }
    Ok(())
}

// The kind that a command names, or the one before.
fn kind_by(command: u8, kind: Kind) -> Kind {
    match command {
        GAS => Kind::Gas,
        ELECTRICITY => Kind::Electricity,
        _ => kind,
    }
}

// A command that is no filing call; bytes that are none do nothing.
fn other(rt: &impl Print, kind: Kind, b: &mut Book, command: Command) -> io::Result<()> {
    match command.tag {
        FRESH => {
            *b = book::fresh();
            show::book(rt, b)
        }
        SHOW => show::book(rt, b),
        SETTLE => show::settled(rt, kind, *b),
        STORE => stores::stored(rt, b, field_at(command.bytes, HEADER)),
        SHEET => asked::sheet(rt, *b, field_at(command.bytes, HEADER)),
        // Naming a kind has no answer, and leaves the book.
        GAS | ELECTRICITY => print!(rt; " = "),
        _ => Ok(()),
    }
}
