// How long a road takes at a second: document 01, "Travel time". A road's points are a row of the table of points.
ghost use Rattle.std.specs.Prelude.{◌≡◌, ◌^◌, ◌<◌};
ghost use Rattle.records.specs.Format.{volume_of};
ghost use Rattle.travel.specs.Road.{between};
ghost use Rattle.travel.specs.PointsFrom.{PointsFrom, LineFrom, duration_on, Ends};
ghost use Rattle.travel.specs.Network.{road_time};

use crate::last::last_at;
use records::readers::Records;
use records::tables::{PERIOD, POINT_WORDS};
use volume::sound::Opened;

// The duration at x between the points (t0, f0) and (t1, f1).
// Seconds and durations by themselves, since the second point may be one of the next period.
fn line(t0: u64, f0: u64, t1: u64, f1: u64, x: u64) -> u64
    requires ends { Ends t0 f0 t1 f1 x }
    requires t1_bound { t1 < 2 ^ 34 }
    ensures { result ≡ between t0 f0 t1 f1 x }
{
    (f0 * (t1 - x) + f1 * (x - t0)) / (t1 - t0)
}

// The duration at x between point i, of the n points from point first on, and its right neighbour.
fn from_point(r: &Records<'_>, first: usize, n: usize, i: usize, x: u64) -> u64
    requires points_from { PointsFrom (volume_of r.now.bytes.now) first n }
    requires line_from { LineFrom (volume_of r.now.bytes.now) first n i x }
    ensures { result ≡ duration_on (volume_of r.now.bytes.now) first n i x }
{
    let a = r.point(first + i);
    if i + 1 < n {
        let b = r.point(first + i + 1);
        return line(a.second, a.duration, b.second, b.duration, x);
    }
    let again = r.point(first);
    line(
        a.second,
        a.duration,
        again.second + PERIOD,
        again.duration,
        x,
    )
}

// The duration of road k for who enters it at x.
pub fn road_duration(opened: &Opened<'_>, k: usize, x: u64) -> u64
    requires { k < (volume_of opened.now.records.bytes.now).roads }
    ensures { result ≡ road_time (volume_of opened.now.records.bytes.now) k x }
{
    let r = &opened.records;
    let road = r.road(k);
    let first = road.first;
    let n = road.points;
    let start = r.point(first);
    if n == 1 {
        return start.duration;
    }
    let y = x % PERIOD;
    if y < start.second {
        return from_point(r, first, n, n - 1, y + PERIOD);
    }
    let begin = r.tables.points + POINT_WORDS * first;
    let w = last_at(r.bytes, begin, POINT_WORDS, n, y as u32);
    from_point(r, first, n, (w - begin) / POINT_WORDS, y)
}
