// Whether a book is in the range of its kind, which every call that takes a book asks first.
#![tactic(auto)]

mod limits;
mod ranged;
mod taken;

pub use ranged::Ranged;
pub use taken::in_range;
