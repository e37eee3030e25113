// A picture's mode and size, once both are checked.
ghost use Rattle.std.specs.Prelude.{◌≡◌, IfOk};
ghost use Rattle.picture.specs.Refusals.{number_of};
ghost use Rattle.picture.specs.Modes.{mode_of};
ghost use Rattle.picture.specs.Numbers.{first_of, shape_checks};

use crate::mode::Mode;
use crate::picture_size::PictureSize;
use crate::refusals::Refusal;
use crate::size::Size;

#[derive(Clone, Copy)]
pub struct Frame {
    pub mode: Mode,
    pub size: PictureSize,
}

impl Frame {
    pub fn new(mode: u32, size: Size) -> Result<Frame, Refusal>
        ensures number { number_of result ≡ first_of (shape_checks mode size) }
        ensures mode { IfOk result (λ frame. frame.mode ≡ mode_of mode) }
        ensures size { IfOk result (λ frame. frame.size ≡ size) }
    {
        let mode = Mode::try_from(mode)?;
        let size = PictureSize::try_from(size)?;
        Ok(Frame { mode, size })
    }
}
