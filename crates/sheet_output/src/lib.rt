// From the bytes of a filing, an operator and a year to the bytes that the program `sheet` prints: every decision of the program.
#![tactic(auto)]

mod asked;
mod printing;

pub use asked::argument_of;
pub use printing::sheet_output;
