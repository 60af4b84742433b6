// The seven filing calls on a book that is lent, altered in place.
#![tactic(auto)]

mod in_place;

pub use in_place::{amount, index, interruption, join, mark_indicator, rates, setting};
