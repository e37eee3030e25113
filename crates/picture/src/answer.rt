// What inverse, forward and quarter view answer in C: the number of the first check that fails, or 0, and whether a sum wrapped. A refused call says no.
ghost use Rattle.picture.specs.Answers.{GivesAnswer};

use crate::refusals::Refusal;

#[repr(C)]
#[derive(Clone, Copy)]
pub struct Answer {
    pub number: u32,
    pub wrapped: bool,
}

impl From<Result<bool, Refusal>> for Answer {
    ghost from_gives = { GivesAnswer };

    fn from(told: Result<bool, Refusal>) -> Answer {
        match told {
            Ok(wrapped) => Answer { number: 0, wrapped },
            Err(refusal) => Answer {
                number: refusal.into(),
                wrapped: false,
            },
        }
    }
}
