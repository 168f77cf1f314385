// The lesson sheet of paper 01, run through the proved libraries and compared, and what other lessons share with it.
#![tactic(auto)]

pub mod expected;
pub mod places;
pub mod sheet;
pub mod tally;
