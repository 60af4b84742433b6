// What the filing calls do to a book, defined in specs/, and entries made in its figures.
#![tactic(auto)]

mod entries;

pub use entries::{Admitted, Entry, enter, enter_counted};
