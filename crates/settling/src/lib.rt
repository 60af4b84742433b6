// The program that settles, of either kind: reads `filing.q` from the folder that it is run in, and prints its settlement or its refusal. What is
// printed for the bytes of a filing is `output`'s to say.
#![tactic(auto)]

use calls::Kind;
use load::{Begun, Told, begin_filing, load_rest};
use output::output_as;
use std::fs::File;
use std::rt::Files;

// Most filings are shorter, and to clear a buffer for the longest takes more instructions than to settle them.
const FRONT: usize = 2048;

pub fn print_settlement<R: Files<File = File> + Print + Eprint>(rt: &R, kind: Kind) {
    let mut front = [0u8; FRONT];
    match begin_filing(rt, &mut front) {
        Ok(Begun::Whole(length)) => print_output(rt, kind, &front[..length]),
        Ok(Begun::Full(file)) => print_long(rt, kind, file, &front),
        Err(Told) => {}
    }
}

// A filing that goes on after its first bytes.
fn print_long<R: Print + Eprint>(rt: &R, kind: Kind, file: File, front: &[u8; FRONT]) {
    // One byte more than a filing may have, so that a longer one shows.
    let mut filing = [0u8; 65537];
    if let Ok(length) = load_rest(rt, file, front, &mut filing) {
        print_output(rt, kind, &filing[..length]);
    }
}

fn print_output<R: Print + Eprint>(rt: &R, kind: Kind, filing: &[u8]) {
    let mut text = [0u8; 2048];
    let count = output_as(kind, filing, &mut text);
    if let Err(e) = rt.write_all(&text[..count]) {
        let _ = eprintln!(rt; "standard output: {e}");
    }
}
