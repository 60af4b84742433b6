// The program that tells what becomes of each field, of either kind: reads `filing.q` from the folder that it is run in, files its calls one by
// one, and prints for each the field's offset and the answer, up to the first refusal.
#![tactic(auto)]

use book::Book;
use calls::{Answer, Kind};
use fields::Field;
use load::load_filing;
use std::fs::File;
use std::rt::Files;

pub fn print_outcomes<R: Files<File = File> + Print + Eprint>(rt: &R, kind: Kind) {
    // One byte more than a filing may have, so that a longer one shows.
    let mut filing = [0u8; 65537];
    if let Ok(length) = load_filing(rt, &mut filing) {
        tell(rt, kind, &filing[..length]);
    }
}

fn tell<R: Print>(rt: &R, kind: Kind, filing: &[u8]) {
    if 65536 < filing.len() {
        let _ = println!(rt; "too long");
        return;
    }
    let mut book = book::fresh();
    let mut offset = 0;
    // A filing has fewer fields than bytes.
    for _ in filing {
        let Some(next) = step(rt, kind, &mut book, filing, offset) else {
            return;
        };
        offset = next;
    }
}

// One field: where the next one starts, or none after the end and after a field that is refused.
fn step<R: Print>(
    rt: &R,
    kind: Kind,
    book: &mut Book,
    filing: &[u8],
    offset: usize,
) -> Option<usize> {
    match fields::field_in(kind, filing, offset) {
        Field::CallThen { filing_call, next } => {
            let filed = bookkeeping::file_as(kind, *book, filing_call);
            *book = filed.book;
            put_answer(rt, offset, filed.answer);
            if let Answer::Refused(_) = filed.answer {
                return None;
            }
            Some(next)
        }
        Field::End => None,
        Field::Refused(refusal) => {
            put_answer(rt, offset, Answer::Refused(refusal));
            None
        }
    }
}

fn put_answer<R: Print>(rt: &R, offset: usize, answer: Answer) {
    let _ = match answer {
        Answer::Yes => println!(rt; "{offset} yes"),
        Answer::Counted { year } => println!(rt; "{offset} counted {year}"),
        Answer::LeftOut(reason) => println!(rt; "{offset} {reason}"),
        Answer::Refused(refusal) => println!(rt; "{offset} refused {}", calls::number_of(refusal)),
    };
}
