// The one search for what is in force: a road's point and an edge's piece are both the last whose second is at most x.
ghost use Rattle.std.specs.Prelude.{◌≡◌, ◌+◌, ◌*◌};
ghost use Rattle.travel.specs.Last.{last_le};
ghost use Rattle.travel.specs.Row.{Row, row_at};

use block::content;

// The content word at which the last stands, of n records of `stride` words from word `base` on, whose first word is at most x: one of the
// `rest` records from word w on, of which half are left out in each turn. Both turns go on with as many, so that the comparison moves w
// and decides nothing else. The library's binary search wants a list of seconds; these stand between other words, and between sums.
pub fn last_at(v: &[u8], base: usize, stride: usize, n: usize, x: u32) -> usize
    requires { Row v.now base stride n x }
    ensures { result ≡ base + stride * last_le (row_at v.now base stride) n x }
{
    let mut w = base;
    let mut rest = n;
    while 1 < rest {
        let half = rest / 2;
        let middle = w + stride * half;
        if content(v, middle) <= x {
            w = middle;
        }
        rest -= half;
    }
    w
}
