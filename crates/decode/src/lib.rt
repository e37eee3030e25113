// From the bytes of a plane file of at most 16 macroblocks to its samples.
#![tactic(auto)]

pub mod text; // text.rt: what the program prints

ghost use Rattle.std.specs.Prelude.{◌≡◌, ◌*◌, ◌++◌, IfOk, length};
ghost use Rattle.picture.specs.Numbers.{first_of, settled};
ghost use Rattle.picture.specs.Planes.{Lengths, planes};
ghost use Rattle.picture.specs.Refusals.{number_of};
ghost use Rattle.plane_file.specs.Header.{words_of, start_of};
ghost use Rattle.plane_file.specs.Numbers.{start_checks, count_in, header_number};
ghost use Rattle.decode.specs.Program.{count_check, program_number, planes_of, samples_of, left};

use inverse::inverse;
use picture::planes::Planes;
use picture::refusals::Refusal;
use plane_file::header::{Start, read_start};
use plane_file::load::load_planes;

// The header by its words, of at most 16 macroblocks: whether the bytes are as many as they say is not looked at.
fn read_small(bytes: &[u8]) -> Result<Start, Refusal>
    ensures number { number_of result ≡ first_of (start_checks bytes.now ++ count_check (count_in bytes.now)) }
    ensures said { IfOk result (λ start. start ≡ start_of (words_of bytes.now)) }
{
    let start = read_start(bytes)?;
    if 16 < start.size.macroblocks().get() {
        return Err(Refusal::TooManyMacroblocks);
    }
    Ok(start)
}

// The planes and the samples of a file, into slices of their lengths. What a sound file holds passes the inverse's checks.
fn transform(
    bytes: &[u8],
    dc: &mut [i32],
    low: &mut [i32],
    high: &mut [i32],
    samples: &mut [i32],
) -> Result<Start, Refusal>
    requires lengths { Lengths (count_in bytes.now) (planes dc.old low.old high.old) }
    requires samples_len { length samples.old ≡ 256 * count_in bytes.now }
    ensures number { number_of result ≡ header_number bytes.now }
    ensures said { IfOk result (λ start. start ≡ start_of (words_of bytes.now)) }
    ensures planes_after { planes dc.new low.new high.new ≡
        settled (header_number bytes.now) (planes_of bytes.now) (planes dc.old low.old high.old) }
    ensures samples_after { samples.new ≡ settled (header_number bytes.now) (samples_of bytes.now) samples.old }
{
    let start = load_planes(bytes, dc, low, high)?;
    let planes = Planes { dc, low, high };
    inverse(start.mode, start.size.get(), &planes, samples)?;
    Ok(start)
}

// The samples of a file, with its mode and size. The lent memory has room for 16 macroblocks; the file's planes and samples are put at
// its front.
pub fn decode(
    bytes: &[u8],
    dc: &mut [i32; 16],
    low: &mut [i32; 240],
    high: &mut [i32; 3840],
    samples: &mut [i32; 4096],
) -> Result<Start, Refusal>
    ensures number { number_of result ≡ program_number bytes.now }
    ensures said { IfOk result (λ start. start ≡ start_of (words_of bytes.now)) }
    ensures dc_after { dc.new ≡ left bytes.now (count_in bytes.now) (planes_of bytes.now).dc dc.old }
    ensures low_after { low.new ≡ left bytes.now (15 * count_in bytes.now) (planes_of bytes.now).low low.old }
    ensures high_after { high.new ≡
        left bytes.now (240 * count_in bytes.now) (planes_of bytes.now).high high.old }
    ensures samples_after { samples.new ≡
        left bytes.now (256 * count_in bytes.now) (samples_of bytes.now) samples.old }
{
    let start = read_small(bytes)?;
    let n = start.size.macroblocks();
    let count = n.numbers(1);
    let lows = n.numbers(15);
    let highs = n.numbers(240);
    let all = n.numbers(256);
    transform(
        bytes,
        &mut dc[..count],
        &mut low[..lows],
        &mut high[..highs],
        &mut samples[..all],
    )
}
