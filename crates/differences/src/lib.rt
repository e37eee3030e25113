// How far two pictures are apart: whether all samples are within a tolerance.
#![tactic(auto)]

ghost use Rattle.std.specs.Prelude.{◌≡◌, not, ◌*◌, length};
ghost use Rattle.lifting.specs.Tests.{all};
ghost use Rattle.differences.specs.Near.{near};

use picture::area::Area;

// Whether two samples at the same place are further apart than the tolerance, over whole numbers. The walk has no early end, so that it goes by fours.
fn some_far(tolerance: u32, a: &[i32], b: &[i32]) -> bool
    requires { length a.now ≡ length b.now }
    ensures { result ≡ not (all (length a.now) (near tolerance a.now b.now)) }
{
    let mut far = false;
    for (x, y) in a.iter().zip(b) {
        far |= tolerance < x.abs_diff(*y);
    }
    far
}

// Whether every sample of n macroblocks is within the tolerance; it ends at the first macroblock in which one is not.
pub fn all_near(n: Area, tolerance: u32, a: &[i32], b: &[i32]) -> bool
    requires a_len { length a.now ≡ 256 * n }
    requires b_len { length b.now ≡ 256 * n }
    ensures { result ≡ all (256 * n) (near tolerance a.now b.now) }
{
    (0..n.numbers(1)).all(|m| {
        let (from, to) = (256 * m, 256 * (m + 1));
        !some_far(tolerance, &a[from..to], &b[from..to])
    })
}
