// The content of a field: its numbers, and the call that a tag's content gives.
#![tactic(auto)]

mod contents;
mod numbers;

pub use contents::call_at;
pub use numbers::unsigned_at;
