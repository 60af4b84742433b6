// A walk over a filing: the lent bytes and the offset of the next tag in one record, with thin functions over it.
#![tactic(auto)]

mod readings;
mod steps;
mod walkers;
mod walks;

use fields::Field;
pub use readings::{read, read_on};
pub use walkers::{next, offset, walker_over};
pub use walks::walk;

// A walk under way: the filing's bytes, and the offset of the next tag.
#[derive(Clone, Copy)]
pub struct Walker<'a> {
    bytes: &'a [u8],
    offset: usize,
}

// What stood at a walker, and the walker after it.
#[derive(Clone, Copy)]
pub struct Taken<'a> {
    pub field: Field,
    pub walker: Walker<'a>,
}

// What a walk over a filing comes to: how many fields are well formed, the offset where the walk ends, and what stands there, the end
// or the refusal.
#[derive(Clone, Copy)]
pub struct Walked {
    pub fields: usize,
    pub offset: usize,
    pub field: Field,
}
