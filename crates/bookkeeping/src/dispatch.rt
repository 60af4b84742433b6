// The calls on a book in range that is lent: which one a value names, and its answer.
ghost use Rattle.std.specs.Prelude.{◌≡◌};
ghost use Rattle.calls.specs.Indicators.{indicators_of};
ghost use Rattle.posting.specs.Parts.{Leaves, answer_or};

use book::Book;
use calls::{Answer, Call, Kind, Refusal};
use range::Ranged;

// `file` has just tested the book, and the reader of filings tests a book once: each call keeps it in range. Nobody can apply a call to a
// book that would get 5.
pub fn apply_in(ranged: &mut Ranged, filing_call: Call) -> Answer
    ensures leaves { Leaves (indicators_of ranged.old.kind) ranged.old.book filing_call result ranged.new.book }
    ensures kind_stays { ranged.new.kind ≡ ranged.old.kind }
{
    match post(ranged.kind, &mut ranged.book, filing_call) {
        Ok(answer) => answer,
        Err(refusal) => Answer::Refused(refusal),
    }
}

// All but an interruption are answered yes.
fn post(kind: Kind, b: &mut Book, filing_call: Call) -> Result<Answer, Refusal>
    ensures { Leaves (indicators_of kind) b.old filing_call (answer_or result) b.new }
{
    match filing_call {
        Call::Join { operator } => posting::join(kind, b, operator)?,
        Call::Setting {
            operator,
            which,
            value,
        } => posting::setting(kind, b, operator, which, value)?,
        Call::Interruption {
            operator,
            sign,
            level,
            cause,
            start,
            end,
            weight,
        } => {
            return posting::interruption(kind, b, operator, sign, level, cause, start, end, weight);
        }
        Call::Amount {
            operator,
            year,
            figure,
            sign,
            value,
        } => posting::amount(kind, b, operator, year, figure, sign, value)?,
        Call::Mark {
            operator,
            indicator,
            mark,
        } => posting::mark_indicator(kind, b, operator, indicator, mark)?,
        Call::Rates { pot, cap } => posting::rates(b, pot, cap)?,
        Call::Index { number, value } => posting::index(b, number, value)?,
    }
    Ok(Answer::Yes)
}
