// Reading a filing into a book, on slice and number: its fields from an offset on, applied in order, up to the first refusal. The book is
// lent to each field's call and altered in place.
#![tactic(auto)]

ghost use Rattle.std.specs.Prelude.{◌≡◌, ◌<◌, ◌≤◌};
ghost use Rattle.calls.specs.Answers.{is_refused, said};
ghost use Rattle.calls.specs.Indicators.{indicators_of};
ghost use Rattle.book.specs.declared.Book.{Book as Declared-as-Book};
ghost use Rattle.ledger.specs.Calls.{apply};
ghost use Rattle.fields.specs.Field.{field_in};
ghost use Rattle.filing.specs.Reader.{reached_by, told, read_from_as, read_from, read_from_gas, read_gas};
ghost use Rattle.reader.specs.Steps.{told_turn, stopped, advanced, stepped};

use book::Book;
use bookkeeping::apply_in;
use calls::{Answer, Call, Kind, Refusal};
use fields::{Field, field_in};
use filing::{Progress, Reading};
use range::Ranged;
use std::ops::ControlFlow;

// Into a book of electricity.
pub fn read_from(b: Book, bytes: &[u8], at: usize) -> Reading
    ensures { told result ≡ read_from b bytes.now at }
{
    read_from_as(Kind::Electricity, b, bytes, at)
}

// Into a book of gas, for which 02 wants calls of its own.
pub fn read_from_gas(b: Book, bytes: &[u8], at: usize) -> Reading
    ensures { told result ≡ read_from_gas b bytes.now at }
{
    read_from_as(Kind::Gas, b, bytes, at)
}

// A whole filing of gas.
pub fn read_gas(b: Book, bytes: &[u8]) -> Reading
    ensures { told result ≡ read_gas b bytes.now }
{
    read_from_gas(b, bytes, 0)
}

fn read_from_as(kind: Kind, b: Book, bytes: &[u8], at: usize) -> Reading
    ensures { told result ≡ read_from_as (indicators_of kind) b bytes.now at }
{
    match Ranged::new(kind, b) {
        None => {
            let progress = Progress {
                applied: 0,
                offset: at,
                answer: Answer::Refused(Refusal::OutOfRange),
            };
            Reading { book: b, progress }
        }
        Some(mut ranged) => {
            let progress = read_fields(&mut ranged, bytes, at);
            Reading {
                book: ranged.book,
                progress,
            }
        }
    }
}

// The fields of a filing, into a book in range.
fn read_fields(ranged: &mut Ranged, bytes: &[u8], at: usize) -> Progress
    ensures { reached_by ranged.new.book result ≡ read_from_as (indicators_of ranged.old.kind) ranged.old.book bytes.now at }
{
    let mut reached = Progress {
        applied: 0,
        offset: at,
        answer: Answer::Yes,
    };
    loop {
        match step(ranged, reached, bytes) {
            ControlFlow::Continue(further) => reached = further,
            ControlFlow::Break(progress) => return progress,
        }
    }
}

// The field at the offset: how far the reading has come then, and whether it goes on with a next field. There are no more fields than bytes.
fn step(ranged: &mut Ranged, reached: Progress, bytes: &[u8]) -> ControlFlow<Progress, Progress>
    requires { reached.applied ≤ reached.offset }
    ensures turned { told_turn ranged.new.book result ≡ stepped (indicators_of ranged.old.kind) (reached_by ranged.old.book reached) (field_in (indicators_of ranged.old.kind) bytes.now reached.offset) }
    ensures kind_stays { ranged.new.kind ≡ ranged.old.kind }
{
    match field_in(ranged.kind, bytes, reached.offset) {
        Field::CallThen { filing_call, next } => advance(ranged, reached, filing_call, next),
        Field::End => stop(reached, Answer::Yes),
        Field::Refused(refusal) => stop(reached, Answer::Refused(refusal)),
    }
}

// A call applied; one that is refused leaves the book, the number applied and the offset.
fn advance(
    ranged: &mut Ranged,
    reached: Progress,
    filing_call: Call,
    next: usize,
) -> ControlFlow<Progress, Progress>
    requires { reached.applied < next }
    ensures turned { told_turn ranged.new.book result ≡ advanced (reached_by ranged.old.book reached) next (apply (indicators_of ranged.old.kind) ranged.old.book filing_call) }
    ensures kind_stays { ranged.new.kind ≡ ranged.old.kind }
{
    let answer = apply_in(ranged, filing_call);
    if is_refused(answer) {
        return stop(reached, answer);
    }
    ControlFlow::Continue(Progress {
        applied: reached.applied + 1,
        offset: next,
        answer,
    })
}

// The end, or a field that is refused by its bytes or by its call.
fn stop(reached: Progress, answer: Answer) -> ControlFlow<Progress, Progress>
    ensures { (b : Declared-as-Book) → told_turn b result ≡ stopped (reached_by b reached) (said answer) }
{
    ControlFlow::Break(Progress { answer, ..reached })
}

fn is_refused(answer: Answer) -> bool
    ensures { result ≡ is_refused (said answer) }
{
    matches!(answer, Answer::Refused(_))
}
