// The program that writes a book out, of either kind: reads `filing.q` from the folder that it is run in, and puts the book's written filing on
// standard output. A filing that is refused is told on standard error, by the line that the program prints that settles, and nothing goes to
// standard output.
#![tactic(auto)]

use calls::Kind;
use load::load_filing;
use rewriting::{Stream, rewritten_as};
use std::fs::File;
use std::rt::Files;
use writer::WRITTEN_MOST;

pub fn print_book<R: Files<File = File> + Print + Eprint>(rt: &R, kind: Kind) {
    // One byte more than a filing may have, so that a longer one shows.
    let mut filing = [0u8; 65537];
    if let Ok(length) = load_filing(rt, &mut filing) {
        print_rewritten(rt, kind, &filing[..length]);
    }
}

fn print_rewritten<R: Print + Eprint>(rt: &R, kind: Kind, filing: &[u8]) {
    // The longest of either kind.
    let mut text = [0u8; WRITTEN_MOST];
    let printed = rewritten_as(kind, filing, &mut text);
    let count = printed.count;
    let bytes = &text[..count];
    let put = match printed.stream {
        Stream::Output => rt.write_all(bytes),
        // A refusal's line is of ASCII letters, so it is text.
        Stream::Error => rt.eprint(str::from_utf8(bytes).unwrap()),
    };
    if let Err(e) = put {
        let _ = eprintln!(rt; "output: {e}");
    }
}
