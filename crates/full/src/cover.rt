// How the edges cover one road, or two edges in turn: document 01, "Full". Both are a `Way`, as a piece goes, so that one search serves
// both. `Known` is asked of a volume and a way together, and a volume has many ways, so no struct says it.
ghost use Rattle.std.specs.Prelude.{◌≡◌, ◌+◌, ◌≤◌, ◌<◌};
ghost use Rattle.records.specs.Format.{volume_of};
ghost use Rattle.block.specs.First.{Found};
ghost use Rattle.full.specs.Cover.{arrival_by, not_after, edge_with, first_late, cover_of};
ghost use Rattle.full.specs.Turns.{Known, way_of};
ghost use Rattle.full.specs.Parts.{piece_end};
ghost use Rattle.full.specs.Runs.{first_from};

use records::readers::Records;
use records::tables::{PERIOD, Way};
use travel::digest::Timetable;
use travel::roadmap::Roadmap;

// Why the edges do not cover a road or two edges in turn: none has its two ends, or the one that has them is late, first at a second.
#[derive(Clone, Copy)]
pub enum Flaw {
    Missing,
    Late(u64),
}

// The edge from u to w. Only edges that begin at u are looked at.
fn find_edge(map: &Roadmap<'_>, u: usize, w: usize) -> Option<usize>
    requires { u < (volume_of map.now.times.opened.records.bytes.now).junctions }
    ensures { Found result (edge_with (volume_of map.now.times.opened.records.bytes.now) u w) (volume_of map.now.times.opened.records.bytes.now).edges }
{
    let mut at = map.first(u);
    while let Some(e) = at {
        if map.times.opened.records.edge(e).to == w {
            return at;
        }
        at = map.next(e);
    }
    None
}

// How long a road, or two edges in turn, take for who enters at x.
fn in_turn(times: &Timetable<'_>, way: Way, x: u64) -> u64
    requires known { Known (volume_of times.now.opened.records.bytes.now) way }
    requires x_bound { x < (volume_of times.now.opened.records.bytes.now).period }
    ensures { x + result ≡ arrival_by (volume_of times.now.opened.records.bytes.now) (way_of way) x }
{
    match way {
        Way::Road(k) => times.road_lasts(k, x),
        Way::Turn(left, right) => {
            let a = times.edge_duration(left, x);
            let b = times.edge_duration(right, x + a);
            a + b
        }
    }
}

// The first second, from `from` up to `end`, at which a piece arrives later than `way`. Where the two are the same they are equal by
// definition, and no second is looked at.
fn first_slower(times: &Timetable<'_>, piece: Way, way: Way, from: u64, end: u64) -> Option<u64>
    requires piece_known { Known (volume_of times.now.opened.records.bytes.now) piece }
    requires way_known { Known (volume_of times.now.opened.records.bytes.now) way }
    requires from_le_end { (from ≤ end) × (end ≤ (volume_of times.now.opened.records.bytes.now).period) }
    ensures { Found result (first_from (not_after (volume_of times.now.opened.records.bytes.now) (way_of piece) (way_of way)) from end) end }
{
    if piece == way {
        return None;
    }
    for x in from..end {
        let rival = in_turn(times, way, x);
        let own = in_turn(times, piece, x);
        if rival < own {
            return Some(x);
        }
    }
    None
}

// The second at which piece i, of the n pieces from piece `first` on, ends: where the next starts, or with the period.
fn piece_end(r: &Records<'_>, first: usize, n: usize, i: usize) -> u64
    requires { (i < n) × (first + n ≤ (volume_of r.now.bytes.now).pieces) }
    ensures { result ≡ piece_end (volume_of r.now.bytes.now) first n i }
{
    if i + 1 < n {
        return r.piece(first + i + 1).start;
    }
    PERIOD
}

// The first second of the period at which edge e arrives later than `way`. It goes from piece to piece.
fn first_late(times: &Timetable<'_>, e: usize, way: Way) -> Option<u64>
    requires e_bound { e < (volume_of times.now.opened.records.bytes.now).edges }
    requires known { Known (volume_of times.now.opened.records.bytes.now) way }
    ensures { Found result (first_late (volume_of times.now.opened.records.bytes.now) e (way_of way)) (volume_of times.now.opened.records.bytes.now).period }
{
    let records = &times.opened.records;
    let edge = records.edge(e);
    let mut x: u64 = 0;
    for i in 0..edge.pieces {
        let piece = records.piece(edge.first + i).way;
        let end = piece_end(records, edge.first, edge.pieces, i);
        if let Some(y) = first_slower(times, piece, way, x, end) {
            return Some(y);
        }
        x = end;
    }
    None
}

// How the edges cover `way`, which leads from u to w: the flaw, or none.
pub fn cover_of(map: &Roadmap<'_>, way: Way, u: usize, w: usize) -> Option<Flaw>
    requires u_bound { u < (volume_of map.now.times.opened.records.bytes.now).junctions }
    requires known { Known (volume_of map.now.times.opened.records.bytes.now) way }
    ensures { result ≡ cover_of (volume_of map.now.times.opened.records.bytes.now) u w (way_of way) }
{
    let Some(e) = find_edge(map, u, w) else {
        return Some(Flaw::Missing);
    };
    let x = first_late(&map.times, e, way)?;
    Some(Flaw::Late(x))
}
