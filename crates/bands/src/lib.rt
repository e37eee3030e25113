// The three bands, DC, low-pass and high-pass, each with its own step: their checks, and one plane quantised, restored, or both in place.
#![tactic(auto)]

pub mod in_place; // in_place.rt: one plane quantised and restored in its own cells
pub mod plane; // plane.rt: one plane quantised, and one restored
pub mod steps; // steps.rt: the step indices of the bands, and the checks that quantising and restoring share
