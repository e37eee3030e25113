// Pictures: which levels a mode filters, counts that carry their unit, sizes, planes, and the checks that the operations share.
#![tactic(auto)]

pub mod answer; // answer.rt: what inverse, forward and quarter view answer in C
pub mod area; // area.rt: the macroblocks of a picture
pub mod counts; // counts.rt: counts of macroblocks, blocks and samples
pub mod frame; // frame.rt: a picture's mode and size, once both are checked
pub mod mode; // mode.rt: the modes
pub mod picture_size; // picture_size.rt: a size that a picture may have
pub mod planes; // planes.rt: the three planes, and the checks of their lengths
pub mod refusals; // refusals.rt: the refusals and their numbers
pub mod size; // size.rt: the size record
