// What the program prints for the bytes that it reads, as text in lent bytes.
ghost use Rattle.std.specs.Prelude.{◌≡◌, ◌+◌, ◌*◌, ◌<◌, ◌≤◌, length, take, drop};
ghost use Rattle.lifting.specs.Row.{Row};
ghost use Rattle.decimal.specs.Text.{row, over};
ghost use Rattle.decode.specs.Shown.{rows, shown};

use crate::decode;
use decimal::{write_refused, write_row};

// Writes the row of w numbers that starts at `from` as a line at `at`, and returns how many bytes that is.
fn write_line(numbers: &[i32], from: usize, w: usize, out: &mut [u8], at: usize) -> usize
    requires row { Row (length numbers.now) numbers.now }
    requires w_nonzero { (0 < w) × (from + w ≤ length numbers.now) × (at + 12 * w ≤ length out.old) }
    ensures value { (result ≡ length (row (take w (drop from numbers.now)))) × (result ≤ 12 * w) }
    ensures out_after { out.new ≡ over out.old at (row (take w (drop from numbers.now))) }
{
    let end = from + w;
    write_row(&numbers[from..end], &mut out[at..])
}

// Writes h rows of w numbers as lines to the front of `out`, and returns how many bytes that is.
fn write_rows(numbers: &[i32], w: usize, h: usize, out: &mut [u8]) -> usize
    requires row { Row (h * w) numbers.now }
    requires w_nonzero { (0 < w) × (12 * (h * w) ≤ length out.old) }
    ensures value { (result ≡ length (rows h w numbers.now)) × (result ≤ 12 * (h * w)) }
    ensures out_after { out.new ≡ over out.old 0 (rows h w numbers.now) }
{
    let mut at = 0;
    for y in 0..h {
        at += write_line(numbers, y * w, w, out, at);
    }
    at
}

// Writes what the program prints for these bytes to the front of `out`, a refusal or the picture's rows, and returns how many bytes
// that is. 12 bytes for each of 4096 samples are always enough.
pub fn show(bytes: &[u8], out: &mut [u8]) -> usize
    requires { 49152 ≤ length out.old }
    ensures value { (result ≡ length (shown bytes.now)) × (result ≤ 49152) }
    ensures out_after { out.new ≡ over out.old 0 (shown bytes.now) }
{
    let mut dc = [0; 16];
    let mut low = [0; 240];
    let mut high = [0; 3840];
    let mut samples = [0; 4096];
    match decode(bytes, &mut dc, &mut low, &mut high, &mut samples) {
        Err(refusal) => write_refused(refusal.into(), out),
        Ok(start) => {
            let side = start.size.samples();
            let w = side.width.0 as usize;
            let h = side.height.0 as usize;
            let all = h * w;
            write_rows(&samples[..all], w, h, out)
        }
    }
}
