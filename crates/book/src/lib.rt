// The book of operators, settings, marks and figures, and what it holds by name.
#![tactic(auto)]

mod access;

pub use access::{figure_of, figure_slot, fresh, is_joined, setting_of, setting_slot};
use calls::{FIGURE_PLACES, INDICATORS, INDICES, SETTING_PLACES};

#[derive(Debug, Clone, Copy, PartialEq, Eq)]
pub struct Book {
    // Sixteen bits, one an operator.
    pub joined: u16,
    // Sixteen bits for each indicator: 1 is unreliable.
    pub marks: [u16; INDICATORS],
    // At setting_slot(operator, which): cabins, active access points, income in cents.
    pub settings: [u64; SETTING_PLACES],
    // At figure_slot(operator, year, figure).
    pub figures: [u64; FIGURE_PLACES],
    // Rates in millionths.
    pub pot_rate: u32,
    pub cap_rate: u32,
    // In hundredths; the last is that of June 2013.
    pub indices: [u32; INDICES],
}
