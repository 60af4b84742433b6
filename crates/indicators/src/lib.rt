// The indicators: pools, weights and points.
#![tactic(auto)]

mod interruptions;
mod pools;
mod weights;

pub use pools::{points_of, pool_of};
