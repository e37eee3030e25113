// Loading: the planes of a plane file.
ghost use Rattle.std.specs.Prelude.{◌≡◌, ◌+◌, ◌*◌, ◌≤◌, IfOk, length};
ghost use Rattle.picture.specs.Planes.{planes};
ghost use Rattle.picture.specs.Refusals.{number_of};
ghost use Rattle.plane_file.specs.Words.{numbers_at};
ghost use Rattle.plane_file.specs.Header.{words_of, start_of};
ghost use Rattle.plane_file.specs.Numbers.{load_number};
ghost use Rattle.plane_file.specs.Calls.{load_answer, loaded};

use crate::header::{Header, Start, read_whole};
use crate::layout::Layout;
use crate::word::number_at;
use picture::planes::Planes;
use picture::refusals::Refusal;

// Fills a plane with the numbers from `at` on. By index: of a plane that is written through a zip a proof knows the length alone.
fn load_plane(bytes: &[u8], at: usize, plane: &mut [i32])
    requires { at + 4 * length plane.old ≤ length bytes.now }
    ensures { plane.new ≡ numbers_at bytes.now at (length plane.old) }
{
    for (i, number) in plane.iter_mut().enumerate() {
        *number = number_at(bytes, at + 4 * i);
    }
}

// The planes of a file, with its mode and size.
pub fn load_planes(
    bytes: &[u8],
    dc: &mut [i32],
    low: &mut [i32],
    high: &mut [i32],
) -> Result<Start, Refusal>
    ensures number { number_of result ≡ load_number bytes.now (planes dc.old low.old high.old) }
    ensures said { IfOk result (λ start. start ≡ start_of (words_of bytes.now)) }
    ensures planes_after { planes dc.new low.new high.new ≡ loaded bytes.now (planes dc.old low.old high.old) }
{
    let start = read_whole(bytes)?;
    let n = start.size.macroblocks();
    Planes { dc, low, high }.check(n)?;
    let starts = Layout::new(n);
    load_plane(bytes, starts.dc as usize, dc);
    load_plane(bytes, starts.low as usize, low);
    load_plane(bytes, starts.high as usize, high);
    Ok(start)
}

// The same as C is given it: mode and size, or the number of the first check that fails.
pub fn load(bytes: &[u8], dc: &mut [i32], low: &mut [i32], high: &mut [i32]) -> Header
    ensures value { result ≡ load_answer bytes.now (planes dc.old low.old high.old) }
    ensures high_after { planes dc.new low.new high.new ≡
        loaded bytes.now (planes dc.old low.old high.old) }
{
    load_planes(bytes, dc, low, high).into()
}
