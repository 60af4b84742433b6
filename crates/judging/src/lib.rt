// What is judged before anything is entered: an interruption's year and length, why it is left out if it is and in which figure it is
// counted, and whether a figure takes a value.
#![tactic(auto)]

mod figures;
mod interruptions;

pub use figures::move_figure;
pub use interruptions::{count_figure, judge, seconds_of, year_of};
