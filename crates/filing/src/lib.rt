// What reading a filing into a book gives, defined in specs/. The code is in the crate `reader`.
#![tactic(auto)]

use book::Book;
use calls::Answer;

// How far a reading has come: how many fields were applied, the offset of the next tag, and yes or the refusal. Of a reading that has
// ended the offset is that of the refused tag (the filing's length if none). 01 wants all three of a refused reading too.
#[derive(Clone, Copy)]
pub struct Progress {
    pub applied: usize,
    pub offset: usize,
    pub answer: Answer,
}

// What reading gives: the book afterwards, and how far the reading came.
#[derive(Clone, Copy)]
pub struct Reading {
    pub book: Book,
    pub progress: Progress,
}
