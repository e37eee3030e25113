// A size that a picture may have, W from 1 to 525 and H from 1 to 413: whoever holds one need not ask again. Contracts see it as the plain size.
ghost use Rattle.std.specs.Prelude.{◌≡◌, ◌*◌};
ghost use Rattle.picture.specs.Sizes.{Sized, macroblocks};
ghost use Rattle.picture.specs.Numbers.{GivesSize};

use crate::area::Area;
use crate::refusals::Refusal;
use crate::size::{BlockSize, SampleSize, Size};
use std::marker::Model;

#[derive(Clone, Copy)]
pub struct PictureSize {
    size: Size,
}

impl Model for PictureSize {
    ghost use Rattle.picture.specs.declared.size.Size.{Size};

    ghost Value = { Size };

    ghost use Rattle.picture.specs.Sizes.{Sized};

    ghost view = { λ picture. picture.size };

    ghost invariant = { λ picture. Sized picture.size };

    ghost inverse = { λ size. record { size = size } };
}

impl TryFrom<Size> for PictureSize {
    type Error = Refusal;

    ghost try_from_gives = { GivesSize };

    fn try_from(size: Size) -> Result<PictureSize, Refusal> {
        let width = size.width.0;
        if width < 1 || 525 < width {
            return Err(Refusal::WidthRange);
        }
        let height = size.height.0;
        if height < 1 || 413 < height {
            return Err(Refusal::HeightRange);
        }
        Ok(PictureSize { size })
    }
}

impl PictureSize {
    pub fn get(self) -> Size
        ensures value { result ≡ self }
        ensures sized { Sized self }
    {
        self.size
    }

    // The macroblocks across a picture, and down it.
    pub fn across(self) -> usize
        ensures value { result ≡ self.width.0 }
        ensures sized { Sized self }
    {
        self.size.width.0 as usize
    }

    pub fn down(self) -> usize
        ensures value { result ≡ self.height.0 }
        ensures sized { Sized self }
    {
        self.size.height.0 as usize
    }

    pub fn macroblocks(self) -> Area
        ensures value { result ≡ macroblocks self }
        ensures sized { Sized self }
    {
        let width = self.size.width.0;
        let height = self.size.height.0;
        Area::new(width * height)
    }

    pub fn blocks(self) -> BlockSize
        ensures width { result.width.0 ≡ 4 * self.width.0 }
        ensures height { result.height.0 ≡ 4 * self.height.0 }
        ensures sized { Sized self }
    {
        BlockSize {
            width: self.size.width.blocks(),
            height: self.size.height.blocks(),
        }
    }

    pub fn samples(self) -> SampleSize
        ensures width { result.width.0 ≡ 16 * self.width.0 }
        ensures height { result.height.0 ≡ 16 * self.height.0 }
        ensures sized { Sized self }
    {
        let size = self.blocks();
        SampleSize {
            width: size.width.samples(),
            height: size.height.samples(),
        }
    }
}
