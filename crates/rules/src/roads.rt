// The road rules.
ghost use Rattle.std.specs.Prelude.{◌≡◌, ◌+◌, ◌^◌, ◌≤◌, ◌<◌};
ghost use Rattle.block.specs.First.{all_below};
ghost use Rattle.records.specs.Format.{volume_of, day};
ghost use Rattle.rules.specs.Rules.{ends_fit, placed, begins, point_fits, point_rule, road_rule};

use records::readers::Records;
use records::tables::PERIOD;

const LONGEST: u64 = 86400;

// Do two ends differ and lie below n?
// By themselves, since a road and an edge have them among their fields.
pub fn ends_fit(n: usize, from: usize, to: usize) -> bool
    ensures { result ≡ ends_fit n from to }
{
    from != to && (from < n && to < n)
}

// Do the parts of a record begin at `begin` and lie inside the table?
pub fn is_placed(begin: usize, total: usize, first: usize, number: usize) -> bool
    requires { (first < 2 ^ 32) × (number < 2 ^ 32) }
    ensures { result ≡ placed begin total first number }
{
    1 <= number && (first == begin && first + number <= total)
}

// Does the point (t0, f0) fit before the point (t1, f1)? Seconds and durations by themselves, since the second point may be one of the
// next period.
fn point_fits(t0: u64, f0: u64, t1: u64, f1: u64) -> bool
    requires { (t1 < 2 ^ 33) × (f1 < 2 ^ 32) }
    ensures { result ≡ point_fits day t0 f0 t1 f1 }
{
    t0 < PERIOD && (1 <= f0 && (f0 <= LONGEST && (t0 < t1 && f0 <= f1 + (t1 - t0))))
}

// Do the n points from `first` on obey? Each fits before the next one, and the last before the first of the next period.
fn points_fit(r: &Records<'_>, first: usize, n: usize) -> bool
    requires { (1 ≤ n) × (first + n ≤ (volume_of r.now.bytes.now).points) × (first < 2 ^ 32) × (n < 2 ^ 32) }
    ensures { result ≡ all_below n (point_rule (volume_of r.now.bytes.now) first n) }
{
    let mut a = r.point(first);
    for i in 0..n - 1 {
        let b = r.point(first + (i + 1));
        if !point_fits(a.second, a.duration, b.second, b.duration) {
            return false;
        }
        a = b;
    }
    let again = r.point(first);
    point_fits(a.second, a.duration, again.second + PERIOD, again.duration)
}

// Does road k obey? Its points are to begin at `begin`.
pub fn road_fits(r: &Records<'_>, k: usize, begin: usize) -> bool
    requires k_bound { k < (volume_of r.now.bytes.now).roads }
    requires begin_value { begin ≡ begins (volume_of r.now.bytes.now).road_first (volume_of r.now.bytes.now).road_points k }
    ensures { result ≡ road_rule (volume_of r.now.bytes.now) k }
{
    let road = r.road(k);
    ends_fit(r.counts.junctions, road.from, road.to)
        && (is_placed(begin, r.counts.points, road.first, road.points)
            && points_fit(r, road.first, road.points))
}
