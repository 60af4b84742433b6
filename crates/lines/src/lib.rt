// The lines of a printed settlement in a lent slice.
#![tactic(auto)]

mod lines;

pub use lines::put_lines;
