// The refusals, one for each check, and the number of each. The definitions have the same names (specs/Refusals.antt).
ghost use Rattle.std.specs.Prelude.{◌≡◌};
ghost use Rattle.picture.specs.Refusals.{number_of_refusal, number_of as numberOf};

#[derive(Clone, Copy, Debug, PartialEq, Eq)]
pub enum Refusal {
    ModeRange,
    WidthRange,
    HeightRange,
    DcLength,
    LowPassLength,
    HighPassLength,
    SamplesLength,
    ViewLength,
    FileTooShort,
    LastWord,
    Offsets,
    FileLength,
    TooManyMacroblocks,
    StepIndex,
    Product,
}

impl From<Refusal> for u32 {
    ghost from_gives = { λ refusal number. number ≡ number_of_refusal refusal };

    fn from(refusal: Refusal) -> u32 {
        match refusal {
            Refusal::ModeRange => 1,
            Refusal::WidthRange => 2,
            Refusal::HeightRange => 3,
            Refusal::DcLength => 4,
            Refusal::LowPassLength => 5,
            Refusal::HighPassLength => 6,
            Refusal::SamplesLength => 7,
            Refusal::ViewLength => 8,
            Refusal::FileTooShort => 9,
            Refusal::LastWord => 10,
            Refusal::Offsets => 11,
            Refusal::FileLength => 12,
            Refusal::TooManyMacroblocks => 13,
            Refusal::StepIndex => 14,
            Refusal::Product => 15,
        }
    }
}

// The number of a call that gives nothing else: 0 where it is done.
pub fn number_of(done: Result<(), Refusal>) -> u32
    ensures { result ≡ numberOf done }
{
    match done {
        Ok(()) => 0,
        Err(refusal) => refusal.into(),
    }
}
