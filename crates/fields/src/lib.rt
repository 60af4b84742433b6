// A field of a filing: its bytes, and the call that they give. The functions take a slice and a number: 01's walker stands above such ones.
#![tactic(auto)]

mod fields;
mod tags;

use calls::{Call, Refusal};
pub use fields::{field_at, field_in};

// What stands in a filing at an offset. An own enum: in a Result of an Option the end, which is no failure, would be a None inside an Ok, and
// each match would name two cases for one.
#[derive(Clone, Copy)]
pub enum Field {
    // A call, and the offset after it.
    CallThen { filing_call: Call, next: usize },
    End,
    Refused(Refusal),
}
