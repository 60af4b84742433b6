// The filing calls on whole books: a call as a value on a book that is lent, and the calls by value, of electricity and of gas.
#![tactic(auto)]

mod by_value;
mod dispatch;
mod gas;

use book::Book;
pub use by_value::{amount, file, file_as, index, interruption, join, mark, rates, setting};
use calls::Answer;
pub use dispatch::apply_in;
pub use gas::{amount_gas, file_gas, index_gas, join_gas, mark_gas, rates_gas, setting_gas};

// What a call gives: the book afterwards, and the answer. Both, since a refused call gives the book as well.
#[derive(Clone, Copy)]
pub struct Answered {
    pub book: Book,
    pub answer: Answer,
}
