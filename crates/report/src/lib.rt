// The printed settlement of a book, in a lent buffer.
#![tactic(auto)]

mod reporting;

pub use reporting::{report, report_as, report_gas};
