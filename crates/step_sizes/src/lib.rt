// Step sizes: the table of steps, division by a step, and single numbers quantised and restored.
#![tactic(auto)]

pub mod division; // division.rt: division by a step, as a multiplication and a shift
pub mod nearest; // nearest.rt: one number quantised and restored at once
pub mod number; // number.rt: one number quantised, and one restored
pub mod table; // table.rt: the steps by their index
