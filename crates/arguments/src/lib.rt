// Whether the arguments of a filing call are in range, each by 01's limits; an interruption's times have numbers of their own.
#![tactic(auto)]

mod arguments;
mod interruptions;

pub use arguments::{
    amount_in_range, index_in_range, mark_in_range, rates_in_range, setting_in_range, setting_limit,
};
pub use interruptions::details_in_range;
