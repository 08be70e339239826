// The path of a trail: its edges unfolded to roads in driving order, each at its own departure. The roads are counted first, so that a
// path list with too little room is refused before a single place is written. `Chain` is about a trail and a departure, and is asked of
// both at once.
ghost use Rattle.std.specs.Prelude.{◌≡◌, ◌≤◌, length};
ghost use Rattle.records.specs.Format.{volume_of};
ghost use Rattle.travel.specs.Written.{with_roads};
ghost use Rattle.search.specs.Path.{Chain, path_of};

use travel::path::{count_roads, unfold_edge};
use volume::sound::Opened;

// How many roads the edges of the trail unfold to for who leaves at x.
pub fn count_path(opened: &Opened<'_>, trail: &[u16], x: u64) -> usize
    requires chain { Chain (volume_of opened.now.records.bytes.now) trail.now x }
    ensures { result ≡ length (path_of (volume_of opened.now.records.bytes.now) trail.now x) }
{
    let mut y = x;
    let mut n: usize = 0;
    for e in trail {
        let u = count_roads(opened, *e as usize, y);
        n += u.roads;
        y += u.duration;
    }
    n
}

// Writes the roads that the edges of the trail unfold to for who leaves at x to the first places of path.
pub fn write_path(opened: &Opened<'_>, trail: &[u16], x: u64, path: &mut [u32])
    requires chain { Chain (volume_of opened.now.records.bytes.now) trail.now x }
    requires x_in_bounds { length (path_of (volume_of opened.now.records.bytes.now) trail.now x) ≤ length path.old }
    ensures { path.new ≡ with_roads (path_of (volume_of opened.now.records.bytes.now) trail.now x) path.old }
{
    let mut y = x;
    let mut n: usize = 0;
    for e in trail {
        let u = unfold_edge(opened, *e as usize, y, &mut path[n..]);
        n += u.roads;
        y += u.duration;
    }
}
