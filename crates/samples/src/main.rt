// The program: one plane file in from standard input, its samples out as rows of decimals, or the number that refuses it.
#![tactic(auto)]

ghost use Rattle.std.specs.Prelude.{◌≤◌, IfOk, length};

use decode::text::show;
use std::io;
use std::io::{Read, Write};

// Reads until `bytes` is full or the input ends, and returns how many bytes it put at their front. The library's own ways fail where the
// input ends early, or need a heap.
fn read_full<R: Read>(input: &mut R, bytes: &mut [u8]) -> io::Result<usize>
    ensures { IfOk result (λ got. got ≤ length bytes.new) }
{
    let mut got = 0;
    while got < bytes.len() {
        let n = input.read(&mut bytes[got..])?;
        if n == 0 {
            break;
        }
        got += n;
    }
    Ok(got)
}

// A file of 16 macroblocks has 16416 bytes. One more is read, so that a longer input is seen to be longer.
fn main(rt: HostRuntime) -> io::Result<()> {
    let mut bytes = [0u8; 16417];
    let got = read_full(&mut rt.stdin(), &mut bytes)?;
    let mut out = [0u8; 49152];
    let n = show(&bytes[..got], &mut out);
    rt.stdout().write_all(&out[..n])
}
