// The program that prints a yearly sheet: reads `filing.q` from the folder that it is run in, and prints the sheet of the operator and year
// that its two arguments give. What is printed for them is `sheet_output`'s to say.
#![tactic(auto)]

use load::load_filing;
use sheet_output::{argument_of, sheet_output};
use std::fs::File;
use std::rt::{Env, Files};

fn main(rt: HostRuntime) {
    match (argument(&rt, 1), argument(&rt, 2)) {
        (Some(operator), Some(year)) => print_sheet(&rt, operator, year),
        _ => tell_usage(&rt),
    }
}

// One that is missing, or longer than four bytes, comes as empty, which is no number.
fn argument<R: Env>(rt: &R, i: usize) -> Option<u8> {
    let mut text = [0u8; 4];
    let length = rt.arg(i, &mut text).unwrap_or(0);
    argument_of(&text[..length])
}

fn print_sheet<R: Files<File = File> + Print + Eprint>(rt: &R, operator: u8, year: u8) {
    // One byte more than a filing may have, so that a longer one shows.
    let mut filing = [0u8; 65537];
    if let Ok(length) = load_filing(rt, &mut filing) {
        print_output(rt, &filing[..length], operator, year);
    }
}

fn print_output<R: Print + Eprint>(rt: &R, filing: &[u8], operator: u8, year: u8) {
    let mut text = [0u8; 2048];
    let count = sheet_output(filing, operator, year, &mut text);
    if let Err(e) = rt.write_all(&text[..count]) {
        let _ = eprintln!(rt; "standard output: {e}");
    }
}

fn tell_usage<R: Eprint>(rt: &R) {
    let _ = eprintln!(rt; "usage: sheet OPERATOR YEAR, each a number from 0 to 255");
}
