// What users take from the exported calls, in their own words: nothing is required, and each clause of a call's contract is used.
#![tactic(auto)]

pub mod files; // files.rt: header, load and save
pub mod pictures; // pictures.rt: inverse, forward, quarter view and forecast
mod ranges; // ranges.rt: the numbers of a slice are of 32 bits
pub mod steps; // steps.rt: steps, quantise, restore and the step finder
