// What C is given: the number, and, where that is 0, the index that answers.
ghost use Rattle.find_step.specs.FindStep.{GivesFound};

use picture::refusals::Refusal;

#[repr(C)]
#[derive(Clone, Copy)]
pub struct Found {
    pub number: u32,
    pub index: u32,
}

impl From<Result<u8, Refusal>> for Found {
    ghost from_gives = { GivesFound };

    fn from(answer: Result<u8, Refusal>) -> Found {
        match answer {
            Ok(index) => Found {
                number: 0,
                index: u32::from(index),
            },
            Err(refusal) => Found {
                number: refusal.into(),
                index: 0,
            },
        }
    }
}
