// The size of a picture as a record that anyone may fill in, and sizes in blocks and in samples.
use crate::counts::{Blocks, Macroblocks, Samples};

#[repr(C)]
#[derive(Clone, Copy)]
pub struct Size {
    pub width: Macroblocks,
    pub height: Macroblocks,
}

#[derive(Clone, Copy)]
pub struct BlockSize {
    pub width: Blocks,
    pub height: Blocks,
}

#[derive(Clone, Copy)]
pub struct SampleSize {
    pub width: Samples,
    pub height: Samples,
}
