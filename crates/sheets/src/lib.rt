// The yearly sheet of an operator, by value: the five figures that count interruptions, or a refusal.
#![tactic(auto)]

ghost use Rattle.std.specs.Prelude.{◌≡◌, ◌<◌};
ghost use Rattle.calls.specs.Limits.{operators, years};
ghost use Rattle.calls.specs.Answers.{said};
ghost use Rattle.sheets.specs.Sheet.{counts_of, sheet_told, sheet_of};

use admission::admit;
use arguments::amount_in_range;
use book::{Book, figure_slot};
use calls::{Answer, FIRST_COUNT, Kind, OUTCOMES, Refusal};
use range::in_range;

// Of interruptions in a year: how many counted, and how many were left out as short, planned, coupled, exceptional. All 0 on refusal.
#[derive(Clone, Copy)]
pub struct YearlySheet {
    pub answer: Answer,
    pub counts: [u64; OUTCOMES],
}

// Refused as an amount field with that operator and year would be.
pub fn sheet(b: Book, operator: u8, year: u8) -> YearlySheet
    ensures answer_value { said result.answer ≡ (sheet_of b operator year).said }
    ensures counts_value { result.counts ≡ (sheet_of b operator year).counts }
{
    match counts_asked(&b, operator, year) {
        Ok(counts) => YearlySheet {
            answer: Answer::Yes,
            counts,
        },
        Err(refusal) => YearlySheet {
            answer: Answer::Refused(refusal),
            counts: [0u64; OUTCOMES],
        },
    }
}

// The counts, where nothing refuses them.
fn counts_asked(b: &Book, operator: u8, year: u8) -> Result<[u64; OUTCOMES], Refusal>
    ensures { sheet_told result ≡ sheet_of b.now operator year }
{
    let ranged = in_range(Kind::Electricity, *b);
    let valid = amount_in_range(Kind::Electricity, year, FIRST_COUNT, 0);
    if !ranged {
        return Err(Refusal::OutOfRange);
    }
    admit(b.joined, operator, valid)?;
    Ok(counts_of(b, operator, year))
}

// They stand one after the other. Written out: a closure over five places is no shorter, and needs a law of its own.
fn counts_of(b: &Book, operator: u8, year: u8) -> [u64; OUTCOMES]
    requires { (operator < operators) × (year < years) }
    ensures { result ≡ counts_of b.now operator year }
{
    let at = figure_slot(operator, year, FIRST_COUNT);
    [
        b.figures[at],
        b.figures[at + 1],
        b.figures[at + 2],
        b.figures[at + 3],
        b.figures[at + 4],
    ]
}
