// Header, load and save, as they are used.
ghost use Rattle.std.specs.Prelude.{◌≡◌, ◌+◌, ◌*◌, length};
ghost use Rattle.picture.specs.Planes.{planes};
ghost use Rattle.clients.specs.Right.{Right, Room, count};
ghost use Rattle.plane_file.specs.Layout.{file, planes_in};
ghost use Rattle.clients.specs.Faults.{HeaderFaults, LoadFaults, SaveFaults};
ghost use Rattle.clients.specs.Header.{HeaderSaid};

use crate::ranges::in_range;
use lapped::{lapped_load, lapped_read_header, lapped_save};
use picture::size::Size;
use plane_file::header::{Header, refused};

// A header gives mode, W and H, or zeros.
pub fn client_read_header(bytes: &[u8]) -> Header
    ensures number { HeaderFaults bytes.now result.number }
    ensures said { HeaderSaid bytes.now result }
{
    lapped_read_header(bytes)
}

// Load gives what the header gives, and the planes that follow it in the file, or leaves the planes as they were.
pub fn client_load(bytes: &[u8], dc: &mut [i32], low: &mut [i32], high: &mut [i32]) -> Header
    ensures number { LoadFaults bytes.now (planes dc.old low.old high.old) result.number }
    ensures said { HeaderSaid bytes.now result }
    ensures done { result.number ≡ 0 → planes dc.new low.new high.new ≡
        planes_in bytes.now (result.size.width.0 * result.size.height.0) }
    ensures refused { (result.number ≡ 0 → ⊥)
        → planes dc.new low.new high.new ≡ planes dc.old low.old high.old }
{
    lapped_load(bytes, dc, low, high)
}

// Save writes the whole file, or leaves the bytes as they were.
pub fn client_save(
    mode: u32,
    size: Size,
    dc: &[i32],
    low: &[i32],
    high: &[i32],
    bytes: &mut [u8],
) -> u32
    ensures number { SaveFaults mode size (planes dc.now low.now high.now) bytes.old result }
    ensures done { result ≡ 0 → bytes.new ≡ file mode size (planes dc.now low.now high.now) }
    ensures refused { (result ≡ 0 → ⊥) → bytes.new ≡ bytes.old }
{
    lapped_save(mode, size, dc, low, high, bytes)
}

// What was saved is loaded: mode, size and every number.
pub fn client_save_and_load(
    mode: u32,
    size: Size,
    dc: &[i32],
    low: &[i32],
    high: &[i32],
    bytes: &mut [u8],
    dc_again: &mut [i32],
    low_again: &mut [i32],
    high_again: &mut [i32],
) -> Header
    ensures { Right mode size
        → Room (count size) (planes dc.now low.now high.now)
        → Room (count size) (planes dc_again.old low_again.old high_again.old)
        → length bytes.old ≡ 32 + 1024 * count size
        → (result.number ≡ 0) × (result.mode ≡ mode) × (result.size ≡ size)
        × (planes dc_again.new low_again.new high_again.new ≡ planes dc.now low.now high.now) }
{
    in_range(dc);
    in_range(low);
    in_range(high);
    let number = lapped_save(mode, size, dc, low, high, bytes);
    if number != 0 {
        return refused(number);
    }
    lapped_load(bytes, dc_again, low_again, high_again)
}
