// A book in the range of its kind: the fact goes with the value, and no contract has to repeat it. Who writes a field shows it again.
ghost use Rattle.std.specs.Prelude.{◌≡◌, false, true, MatchOption};
ghost use Rattle.calls.specs.Indicators.{indicators_of};
ghost use Rattle.book.specs.Book.{in_range};

use crate::taken::in_range;
use book::Book;
use calls::Kind;

#[derive(Debug, Clone, Copy, PartialEq, Eq)]
pub struct Ranged {
    pub kind: Kind,
    pub book: Book,
    ghost ranged: { in_range (indicators_of kind) book ≡ true },
}

impl Ranged {
    // The book with its kind, exactly where it is in range.
    pub fn new(kind: Kind, book: Book) -> Option<Ranged>
        ensures { MatchOption result (in_range (indicators_of kind) book ≡ false) (λ r. (r.kind ≡ kind) × (r.book ≡ book)) }
    {
        if !in_range(kind, book) {
            return None;
        }
        Some(Ranged { kind, book })
    }
}
