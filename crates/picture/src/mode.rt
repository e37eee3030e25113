// The modes: each knows which of the two levels it filters.
ghost use Rattle.picture.specs.Modes.{GivesMode};

use crate::refusals::Refusal;

#[derive(Clone, Copy)]
pub struct Mode {
    pub first: bool,
    pub second: bool,
}

impl Mode {
    pub const UNFILTERED: Mode = Mode {
        first: false,
        second: false,
    };

    pub const SECOND_LEVEL: Mode = Mode {
        first: false,
        second: true,
    };

    pub const BOTH_LEVELS: Mode = Mode {
        first: true,
        second: true,
    };
}

impl TryFrom<u32> for Mode {
    type Error = Refusal;

    ghost try_from_gives = { GivesMode };

    fn try_from(number: u32) -> Result<Mode, Refusal> {
        match number {
            0 => Ok(Mode::UNFILTERED),
            1 => Ok(Mode::SECOND_LEVEL),
            2 => Ok(Mode::BOTH_LEVELS),
            _ => Err(Refusal::ModeRange),
        }
    }
}
