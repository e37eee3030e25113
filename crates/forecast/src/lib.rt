// The forecast: how much work a picture will be, from its mode and its size alone.
#![tactic(auto)]

ghost use Rattle.std.specs.Prelude.{◌≡◌};
ghost use Rattle.transform.specs.Level.{level};
ghost use Rattle.forecast.specs.Forecast.{work_by, GivesNoWork, forecast_answer};
ghost use Rattle.forecast.specs.Parts.{uses_in, Squares, Few};

use picture::frame::Frame;
use picture::refusals::Refusal;
use picture::size::Size;

// The number, and, where that is 0, how often the inverse uses each operator of a level, and the bytes of the planes and of the samples.
// All fit 32 bits: for each of at most 216,825 macroblocks there are 1024 bytes, 222,028,800 in all, and at most 32 uses of an operator.
#[repr(C)]
#[derive(Clone, Copy)]
pub struct Work {
    pub number: u32,
    pub cores: u32,
    pub square_filters: u32,
    pub four_filters: u32,
    pub plane_bytes: u32,
    pub sample_bytes: u32,
}

// A refused forecast: its number, and every figure zero.
impl From<Refusal> for Work {
    ghost from_gives = { GivesNoWork };

    fn from(refusal: Refusal) -> Work {
        Work {
            number: refusal.into(),
            cores: 0,
            square_filters: 0,
            four_filters: 0,
            plane_bytes: 0,
            sample_bytes: 0,
        }
    }
}

// How often a level uses each of its operators.
#[derive(Clone, Copy)]
struct LevelUses {
    cores: u32,
    square_filters: u32,
    four_filters: u32,
}

// A level of p squares across and q down; a square is a macroblock at level one and a block at level two.
fn level_uses(filtered: bool, p: u32, q: u32) -> LevelUses
    requires { Squares p q }
    ensures value { result ≡ uses_in (level filtered p q) }
    ensures few { Few result }
{
    let cores = p * q;
    if filtered {
        return LevelUses {
            cores,
            square_filters: (p - 1) * (q - 1),
            four_filters: 4 * (p - 1) + 4 * (q - 1) + 4,
        };
    }
    LevelUses {
        cores,
        square_filters: 0,
        four_filters: 0,
    }
}

// Both levels together, and the bytes.
fn work_of(frame: Frame) -> Work
    ensures { result ≡ work_by frame.mode frame.size }
{
    let mode = frame.mode;
    let size = frame.size.get();
    let blocks = frame.size.blocks();
    let one = level_uses(mode.first, size.width.0, size.height.0);
    let two = level_uses(mode.second, blocks.width.0, blocks.height.0);
    let bytes = 1024 * frame.size.macroblocks().get();
    Work {
        number: 0,
        cores: one.cores + two.cores,
        square_filters: one.square_filters + two.square_filters,
        four_filters: one.four_filters + two.four_filters,
        plane_bytes: bytes,
        sample_bytes: bytes,
    }
}

// The work of a picture, or the number of the first check that fails with every figure zero.
pub fn forecast(mode: u32, size: Size) -> Work
    ensures { result ≡ forecast_answer mode size }
{
    match Frame::new(mode, size) {
        Ok(frame) => work_of(frame),
        Err(refusal) => refusal.into(),
    }
}
