// A filing from the folder that a program is run in: its bytes, or that it could not be read. What is read no contract can say.
// The buffers are the caller's, of a fixed size: the programs have no heap.
#![tactic(auto)]

ghost use Rattle.std.specs.Prelude.{◌≤◌, length};
ghost use Rattle.load.specs.Loading.{LoadedIn, BegunIn};

use std::fs::File;
use std::io::{ErrorKind, Read};
use std::rt::Files;
use std::{fs, io};

// That a filing could not be read, which has been told on standard error.
#[derive(Clone, Copy)]
pub struct Told;

// What a filing's first bytes come to: all of it, or a buffer that is full and the file that goes on after it. An own enum, since neither
// case is a failure.
#[derive(Drop)]
pub enum Begun {
    Whole(usize),
    Full(File),
}

const NAME: &str = "filing.q";

// How many bytes were read. A missing filing counts as an empty one.
pub fn load_filing<R: Files<File = File> + Eprint>(rt: &R, filing: &mut [u8]) -> Result<usize, Told>
    ensures { LoadedIn filing.new result }
{
    match open_filing(rt)? {
        Some(mut file) => fill(rt, &mut file, filing, 0),
        None => Ok(0),
    }
}

// The same by a buffer that most filings leave room in. Who finds it full goes on with a larger one; with room left it has all of the file.
pub fn begin_filing<R: Files<File = File> + Eprint>(rt: &R, front: &mut [u8]) -> Result<Begun, Told>
    ensures { BegunIn front.new result }
{
    let Some(mut file) = open_filing(rt)? else {
        return Ok(Begun::Whole(0));
    };
    let count = fill(rt, &mut file, front, 0)?;
    if count == front.len() {
        return Ok(Begun::Full(file));
    }
    Ok(Begun::Whole(count))
}

// The bytes that have been read, and those after them.
pub fn load_rest<R: Eprint>(
    rt: &R,
    mut file: File,
    front: &[u8],
    filing: &mut [u8],
) -> Result<usize, Told>
    requires { length front.now ≤ length filing.old }
    ensures { LoadedIn filing.new result }
{
    filing[..front.len()].copy_from_slice(front);
    fill(rt, &mut file, filing, front.len())
}

// A missing filing is none.
fn open_filing<R: Files<File = File> + Eprint>(rt: &R) -> Result<Option<File>, Told> {
    match fs::open(rt, NAME) {
        Ok(file) => Ok(Some(file)),
        Err(e) if e.kind() == ErrorKind::NotFound => Ok(None),
        Err(e) => Err(tell(rt, e)),
    }
}

// Reads on behind the first bytes until the buffer is full or the file ends, and answers how many bytes there are then. A read that fails
// is told: a part of a filing must not be taken for the whole.
fn fill<R: Eprint>(rt: &R, file: &mut File, filing: &mut [u8], from: usize) -> Result<usize, Told>
    requires { from ≤ length filing.old }
    ensures { LoadedIn filing.new result }
{
    // Where the next read puts its bytes: `read_to_end`, which keeps count itself, wants a Vec.
    let mut done = from;
    while done < filing.len() {
        match file.read(&mut filing[done..]) {
            Ok(0) => break,
            Ok(more) => done += more,
            Err(e) => return Err(tell(rt, e)),
        }
    }
    Ok(done)
}

// Why the filing could not be read. Where that cannot be told there is nowhere left to say so.
fn tell<R: Eprint>(rt: &R, error: io::Error) -> Told {
    let _ = eprintln!(rt; "{NAME}: {error}");
    Told
}
