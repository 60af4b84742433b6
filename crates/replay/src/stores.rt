// Puts a raw value into a book, so that one out of range can be made.
use crate::show;
use crate::words::{self, word_of};
use book::{Book, figure_slot, setting_slot};
use calls::{Call, FIGURES, INDICATORS, INDICES, OPERATORS, SETTINGS, YEARS};
use fields::Field;
use std::io;

// The kinds of values, numbers of the input: one that there is not has some other word, and its value becomes a setting.
const JOINED: u8 = 0;

const MARKS: u8 = 1;

const FIGURE: u8 = 2;

const POT: u8 = 3;

const CAP: u8 = 4;

const INDEX: u8 = 5;

const SETTING: u8 = 6;

// The field inside a store: in place of an amount's operator the kind, of year, figure and sign the place.
pub(crate) fn stored(rt: &impl Print, b: &mut Book, field: Field) -> io::Result<()> {
    let Field::CallThen {
        filing_call: Call::Amount {
            operator: kind,
            year: first,
            figure: second,
            sign: third,
            value,
        },
        ..
    } = field
    else {
        return Ok(());
    };
    print_place(rt, kind, first, second, third)?;
    print!(rt; " {value}")?;
    store(b, kind, first, second, third, value);
    show::book(rt, b)
}

fn print_place(rt: &impl Print, kind: u8, first: u8, second: u8, third: u8) -> io::Result<()> {
    print!(rt; " {}", word_of(words::JOINED + kind % 64))?;
    match kind {
        JOINED | POT | CAP => Ok(()),
        FIGURE => print!(rt; " {first} {second} {third}"),
        SETTING => print!(rt; " {first} {second}"),
        _ => print!(rt; " {first}"),
    }
}

fn store(b: &mut Book, kind: u8, first: u8, second: u8, third: u8, value: u64) {
    match kind {
        JOINED => b.joined = (value % 65536) as u16,
        MARKS => b.marks[first as usize % INDICATORS] = (value % 65536) as u16,
        FIGURE => {
            let slot = figure_slot(
                first % OPERATORS as u8,
                second % YEARS as u8,
                third % FIGURES as u8,
            );
            b.figures[slot] = value;
        }
        POT => b.pot_rate = (value % 4294967296) as u32,
        CAP => b.cap_rate = (value % 4294967296) as u32,
        INDEX => b.indices[first as usize % INDICES] = (value % 4294967296) as u32,
        _ => {
            let slot = setting_slot(first % OPERATORS as u8, second % SETTINGS as u8);
            b.settings[slot] = value;
        }
    }
}
