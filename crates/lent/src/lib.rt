// The filing calls, and reading a filing, with the book lent by `&mut`: it is altered where it stands. `held` has the same for code that holds a
// book by value.
#![tactic(auto)]

mod fresh;
mod gas;
pub mod held;
mod lending;
mod reading;

pub use fresh::{read_fresh, read_fresh_as, read_fresh_gas};
pub use gas::{
    amount_gas, file_gas, index_gas, join_gas, mark_gas, rates_gas, read_gas, setting_gas,
};
pub use lending::{amount, index, interruption, join, mark, rates, setting};
pub use reading::read;
