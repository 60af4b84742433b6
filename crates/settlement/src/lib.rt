// Settling a book: points of each indicator, the pot, contributions, returns and each operator's adjustment.
#![tactic(auto)]

mod settling;

use calls::{Answer, INDICATORS};
pub use gathering::POINT_PLACES;
pub use settling::{settle, settle_as, settle_gas};

// All 0 on refusal and for operators not joined.
#[derive(Clone, Copy, Default)]
pub struct Settlement {
    // In hundredths, by the indicators' numbers; 0 where the kind has none.
    pub pools: [u64; INDICATORS],
    // In hundredths, at indicator * 16 + operator.
    pub points: [u64; POINT_PLACES],
    // Money in cents, by operator: a list each, as 01 has them.
    pub pot: u64,
    pub contributions: [u64; 16],
    pub returns: [u64; 16],
    pub limits: [u64; 16],
    pub adjustments: [i64; 16],
}

// Both, and not a Result: 01 asks for the numbers all 0 beside a refusal.
#[derive(Clone, Copy)]
pub struct Settled {
    pub settlement: Settlement,
    pub answer: Answer,
}
