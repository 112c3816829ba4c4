// Decimal numbers in 64 bits: a number as a sign and a magnitude, and a magnitude moved to another scale. No
// function has a `requires`: each contract says what comes out for every input.
#![tactic(auto)]

pub mod align;
pub mod sign;
