// What the test program `replay` prints: lists of numbers, answers and the arguments of calls.
#![tactic(auto)]

pub mod arguments;
pub mod print;
