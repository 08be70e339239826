// The roads of an edge at a departure: document 01, "The settling rule", on the path. An edge is unfolded by its piece in force, the
// left half first, and the right half's roads are written directly after it.
ghost use Rattle.std.specs.Prelude.{◌≡◌, ◌%◌, ◌≤◌, ◌<◌, length};
ghost use Rattle.records.specs.Format.{volume_of};
ghost use Rattle.travel.specs.Network.{piece_at, Enters, roads_of};
ghost use Rattle.travel.specs.Digest.{piece_word};
ghost use Rattle.travel.specs.Unfolds.{Unfolds};
ghost use Rattle.travel.specs.Written.{with_roads};

use crate::edge::word_in_force;
use crate::road::road_duration;
use records::readers::way_at;
use records::tables::{PIECE_WORDS, Way};
use volume::sound::Opened;

// How many roads an edge unfolds to, and how long they take. Both in one answer: the right half is entered when the left one arrives,
// and asking for the left half's duration by itself would walk that half again at every level.
#[derive(Clone, Copy)]
pub struct Unfolded {
    pub roads: usize,
    pub duration: u64,
}

// How edge e's piece in force at x goes. Where the pieces stand is read from the sealed words: only short edges and those of a path are
// unfolded, too few for a digest.
fn word_of(opened: &Opened<'_>, e: usize, x: u64) -> usize
    requires { e < (volume_of opened.now.records.bytes.now).edges }
    ensures { result ≡ piece_word (volume_of opened.now.records.bytes.now) (piece_at (volume_of opened.now.records.bytes.now) e (x % (volume_of opened.now.records.bytes.now).period)) }
{
    let edge = opened.records.edge(e);
    let at = opened.records.tables.pieces + PIECE_WORDS * edge.first;
    let end = at + PIECE_WORDS * edge.pieces;
    word_in_force(opened, e, at, end, x)
}

// The number of roads of edge e for who enters it at x, and its duration.
pub fn count_roads(opened: &Opened<'_>, e: usize, x: u64) -> Unfolded
    requires { Enters (volume_of opened.now.records.bytes.now) e x }
    ensures { Unfolds (volume_of opened.now.records.bytes.now) e x result }
{
    let w = word_of(opened, e, x);
    match way_at(opened.records.bytes, w) {
        Way::Road(k) => {
            let duration = road_duration(opened, k, x);
            Unfolded { roads: 1, duration }
        }
        Way::Turn(left, right) => {
            let a = count_roads(opened, left, x);
            let b = count_roads(opened, right, x + a.duration);
            let roads = a.roads + b.roads;
            let duration = a.duration + b.duration;
            Unfolded { roads, duration }
        }
    }
}

// Writes the roads of edge e, for who enters it at x, to the first places of path: answers their number, and the edge's duration.
pub fn unfold_edge(opened: &Opened<'_>, e: usize, x: u64, path: &mut [u32]) -> Unfolded
    requires enters { Enters (volume_of opened.now.records.bytes.now) e x }
    requires x_in_bounds { length (roads_of (volume_of opened.now.records.bytes.now) e x) ≤ length path.old }
    ensures unfolds { Unfolds (volume_of opened.now.records.bytes.now) e x result }
    ensures path_after { path.new ≡ with_roads (roads_of (volume_of opened.now.records.bytes.now) e x) path.old }
{
    let w = word_of(opened, e, x);
    match way_at(opened.records.bytes, w) {
        Way::Road(k) => {
            path[0] = k as u32;
            let duration = road_duration(opened, k, x);
            Unfolded { roads: 1, duration }
        }
        Way::Turn(left, right) => {
            let a = unfold_edge(opened, left, x, path);
            let n = a.roads;
            let b = unfold_edge(opened, right, x + a.duration, &mut path[n..]);
            let roads = n + b.roads;
            let duration = a.duration + b.duration;
            Unfolded { roads, duration }
        }
    }
}
