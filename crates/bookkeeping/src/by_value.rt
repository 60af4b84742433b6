// The filing calls on any book: one that is out of range gets 5, before any other check, and is left as it is.
ghost use Rattle.calls.specs.Indicators.{indicators_of};
ghost use Rattle.ledger.specs.Filed.{FilesAs, Files};

use crate::Answered;
use crate::dispatch::apply_in;
use book::Book;
use calls::{Answer, Call, Kind, Refusal};
use range::{Ranged, in_range};

// A call that is at hand as a value, on a book of a kind. Never in line: each call that passes a book on by value would then clear and copy it
// once more.
#[inline(never)]
pub fn file_as(kind: Kind, b: Book, filing_call: Call) -> Answered
    ensures { FilesAs (indicators_of kind) b filing_call result.answer result.book }
{
    if !in_range(kind, b) {
        return Answered {
            book: b,
            answer: Answer::Refused(Refusal::OutOfRange),
        };
    }
    // Not by `Ranged::new`, whose Option is one more book to copy.
    let mut ranged = Ranged { kind, book: b };
    let answer = apply_in(&mut ranged, filing_call);
    Answered {
        book: ranged.book,
        answer,
    }
}

// The same on a book of electricity, as all calls that follow.
pub fn file(b: Book, filing_call: Call) -> Answered
    ensures { Files b filing_call result.answer result.book }
{
    file_as(Kind::Electricity, b, filing_call)
}

// An operator, 0 to 15, joins.
pub fn join(b: Book, operator: u8) -> Answered
    ensures { Files b (Call.Join operator) result.answer result.book }
{
    file(b, Call::Join { operator })
}

// The latest value of an operator's cabins (which 0), active access points (1) or income in cents (2).
pub fn setting(b: Book, operator: u8, which: u8, value: u64) -> Answered
    ensures { Files b (Call.Setting operator which value) result.answer result.book }
{
    file(
        b,
        Call::Setting {
            operator,
            which,
            value,
        },
    )
}

// An interruption is filed (sign 0) or withdrawn (1), of the medium (level 0) or low voltage network (1). Causes: 0 own network, 1 planned, 2
// coupled network, 3 exceptional with outside attestation, 4 exceptional without. Times are seconds from the start of 2017; weight is the
// number of cabins, for low voltage 1. Counted or left out, it moves the count of its outcome by 1.
pub fn interruption(
    b: Book,
    operator: u8,
    sign: u8,
    level: u8,
    cause: u8,
    start: i64,
    end: i64,
    weight: u32,
) -> Answered
    ensures { Files b (Call.Interruption operator sign level cause start end weight) result.answer result.book }
{
    file(
        b,
        Call::Interruption {
            operator,
            sign,
            level,
            cause,
            start,
            end,
            weight,
        },
    )
}

// An amount is filed to (sign 0) or withdrawn from (1) a figure, 0 to 12, of an operator and year, 0 to 2.
pub fn amount(b: Book, operator: u8, year: u8, figure: u8, sign: u8, value: u64) -> Answered
    ensures { Files b (Call.Amount operator year figure sign value) result.answer result.book }
{
    file(
        b,
        Call::Amount {
            operator,
            year,
            figure,
            sign,
            value,
        },
    )
}

// An operator is marked unreliable (mark 1), or not (0), at an indicator, 0 to 5.
pub fn mark(b: Book, operator: u8, indicator: u8, mark: u8) -> Answered
    ensures { Files b (Call.Mark operator indicator mark) result.answer result.book }
{
    file(
        b,
        Call::Mark {
            operator,
            indicator,
            mark,
        },
    )
}

// Pot rate and cap rate, in millionths.
pub fn rates(b: Book, pot: u32, cap: u32) -> Answered
    ensures { Files b (Call.Rates pot cap) result.answer result.book }
{
    file(b, Call::Rates { pot, cap })
}

// An index in hundredths: numbers 0 to 2 for the June before each year, 3 for June 2013.
pub fn index(b: Book, number: u8, value: u32) -> Answered
    ensures { Files b (Call.Index number value) result.answer result.book }
{
    file(b, Call::Index { number, value })
}
