// Numbers as decimal text in lent bytes.
#![tactic(auto)]

ghost use Rattle.std.specs.Prelude.{◌≡◌, ◌+◌, ◌≤◌, leb, length};
ghost use Rattle.decimal.specs.Text.{digits, decimal, row, refused_line, over, written, count};

use itoa::{Buffer, Integer};

// How many digits n has.
fn digits_len(n: u32) -> usize
    ensures value { result ≡ length (digits n) }
    ensures most { result ≤ 10 }
{
    match n.checked_ilog10() {
        Some(power) => power as usize + 1,
        None => 1,
    }
}

// How many bytes x has as text.
fn decimal_len(x: i32) -> usize
    ensures value { result ≡ length (decimal x) }
    ensures most { result ≤ 11 }
{
    let k = digits_len(x.unsigned_abs());
    if x < 0 { k + 1 } else { k }
}

// Whether the row fits in `room` bytes. Behind each number is one byte more, a space or the newline.
fn row_fits(numbers: &[i32], room: usize) -> bool
    ensures { result ≡ leb (length (row numbers.now)) room }
{
    let mut left = room;
    for x in numbers {
        let Some(rest) = left.checked_sub(decimal_len(*x) + 1) else {
            return false;
        };
        left = rest;
    }
    0 < room
}

// The bytes of `text`, from `at` on. The place behind them is returned.
fn write_bytes(out: &mut [u8], at: usize, text: &[u8]) -> usize
    requires { at + length text.now ≤ length out.old }
    ensures value { result ≡ at + length text.now }
    ensures out_after { out.new ≡ over out.old at text.now }
{
    let end = at + text.len();
    out[at..end].copy_from_slice(text);
    end
}

// x as text, from `at` on. The place behind it is returned.
fn write_number<I: Integer>(out: &mut [u8], at: usize, x: I) -> usize
    requires { at + length (I.text x) ≤ length out.old }
    ensures value { result ≡ at + length (I.text x) }
    ensures out_after { out.new ≡ over out.old at (I.text x) }
{
    write_bytes(out, at, Buffer::new().format(x).as_bytes())
}

// Writes the numbers as a line of text to the front of `out`, and returns how many bytes that is.
// Where the line does not fit, nothing is written, and 0 is returned. 12 bytes for each number, and at least 1, are always enough.
pub fn write_row(numbers: &[i32], out: &mut [u8]) -> usize
    ensures value { result ≡ count (row numbers.now) (length out.old) }
    ensures out_after { out.new ≡ written (row numbers.now) out.old }
{
    if !row_fits(numbers, out.len()) {
        return 0;
    }
    let mut at = 0;
    for (i, x) in numbers.iter().enumerate() {
        at = write_number(out, at, *x);
        if i + 1 < numbers.len() {
            at = write_bytes(out, at, b" ");
        }
    }
    write_bytes(out, at, b"\n")
}

// Writes the line that refuses with the number k to the front of `out`, and returns how many bytes that is.
// Where the line does not fit, nothing is written, and 0 is returned.
pub fn write_refused(k: u32, out: &mut [u8]) -> usize
    ensures value { result ≡ count (refused_line k) (length out.old) }
    ensures out_after { out.new ≡ written (refused_line k) out.old }
{
    let mut buffer = Buffer::new();
    let digits = buffer.format(k);
    if out.len() < digits.len() + 9 {
        return 0;
    }
    let word = write_bytes(out, 0, b"refused ");
    let end = write_bytes(out, word, digits.as_bytes());
    write_bytes(out, end, b"\n")
}
