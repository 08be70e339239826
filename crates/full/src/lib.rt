// The full check: is every road, and every two edges in turn through a lower middle, covered by an edge no slower at every second?
// Answers to document 01, "Full".
#![tactic(auto)]

ghost use Rattle.std.specs.Prelude.{◌≡◌, ◌<◌};
ghost use Rattle.records.specs.Format.{volume_of};
ghost use Rattle.full.specs.Fault.{of_road, of_pair, road_fault, pair_fault, rights_fault, lefts_fault, roads_fault, fault_of, verdict_of};

use crate::cover::{Flaw, cover_of};
use block::refusal::Refusal;
use records::index::index_edges;
use records::tables::Way;
use std::fmt;
use travel::digest::{LONG, Timetable, make_digest};
use travel::roadmap::Roadmap;
use volume::read;
use volume::sound::Opened;

pub mod cover;

// Why a volume is not full. A road is named by its number, a pair by its left and its right edge; the number beside them is the earliest
// late second.
#[derive(Clone, Copy)]
pub enum Fault {
    RoadMissing(usize),
    RoadLate(usize, u64),
    PairMissing(usize, usize),
    PairLate(usize, usize, u64),
}

impl fmt::Display for Fault {
    fn fmt<W: fmt::Write>(&self, f: &mut fmt::Formatter<W>) -> fmt::Result {
        match self {
            Fault::RoadMissing(k) => write!(f, "road {k} has no edge"),
            Fault::RoadLate(k, second) => write!(f, "road {k} late at {second}"),
            Fault::PairMissing(l, r) => write!(f, "edges {l} and {r} have no edge"),
            Fault::PairLate(l, r, second) => write!(f, "edges {l} and {r} late at {second}"),
        }
    }
}

// The fault of road k, by how the edges cover it.
fn of_road(k: usize, flaw: Option<Flaw>) -> Option<Fault>
    ensures { result ≡ of_road k flaw }
{
    match flaw? {
        Flaw::Missing => Some(Fault::RoadMissing(k)),
        Flaw::Late(x) => Some(Fault::RoadLate(k, x)),
    }
}

// The fault of the edges l and r in turn, by how the edges cover them.
fn of_pair(l: usize, r: usize, flaw: Option<Flaw>) -> Option<Fault>
    ensures { result ≡ of_pair l r flaw }
{
    match flaw? {
        Flaw::Missing => Some(Fault::PairMissing(l, r)),
        Flaw::Late(x) => Some(Fault::PairLate(l, r, x)),
    }
}

// The fault of road k.
fn road_fault(map: &Roadmap<'_>, k: usize) -> Option<Fault>
    requires { k < (volume_of map.now.times.opened.records.bytes.now).roads }
    ensures { result ≡ road_fault (volume_of map.now.times.opened.records.bytes.now) k }
{
    let road = map.times.opened.records.road(k);
    let flaw = cover_of(map, Way::Road(k), road.from, road.to);
    of_road(k, flaw)
}

// The fault of the edges l, from u to m, and r, which begins at m, in turn.
fn pair_fault(map: &Roadmap<'_>, l: usize, u: usize, m: usize, r: usize) -> Option<Fault>
    requires l_bound { (l < (volume_of map.now.times.opened.records.bytes.now).edges) × (r < (volume_of map.now.times.opened.records.bytes.now).edges) }
    requires u_value { (u ≡ (volume_of map.now.times.opened.records.bytes.now).edge_from l) × (m ≡ (volume_of map.now.times.opened.records.bytes.now).edge_to l) }
    requires m_value { (m ≡ (volume_of map.now.times.opened.records.bytes.now).edge_from r) × (m < u) }
    ensures { result ≡ pair_fault (volume_of map.now.times.opened.records.bytes.now) l r }
{
    let w = map.times.opened.records.edge(r).to;
    if w <= m {
        return None;
    }
    if w == u {
        return None;
    }
    let flaw = cover_of(map, Way::Turn(l, r), u, w);
    of_pair(l, r, flaw)
}

// The first fault of edge l and an edge after it in turn.
fn rights_fault(map: &Roadmap<'_>, l: usize) -> Option<Fault>
    requires { l < (volume_of map.now.times.opened.records.bytes.now).edges }
    ensures { result ≡ rights_fault (volume_of map.now.times.opened.records.bytes.now) l }
{
    let left = map.times.opened.records.edge(l);
    let m = left.to;
    if left.from <= m {
        return None;
    }
    let mut at = map.first(m);
    while let Some(r) = at {
        if let Some(fault) = pair_fault(map, l, left.from, m, r) {
            return Some(fault);
        }
        at = map.next(r);
    }
    None
}

// The first fault of two edges in turn, by the left one's number and then by the right one's.
fn lefts_fault(map: &Roadmap<'_>) -> Option<Fault>
    ensures { result ≡ lefts_fault (volume_of map.now.times.opened.records.bytes.now) }
{
    (0..map.times.opened.records.counts.edges).find_map(|l| rights_fault(map, l))
}

// The first fault of a road.
fn roads_fault(map: &Roadmap<'_>) -> Option<Fault>
    ensures { result ≡ roads_fault (volume_of map.now.times.opened.records.bytes.now) }
{
    (0..map.times.opened.records.counts.roads).find_map(|k| road_fault(map, k))
}

// The first fault of an opened volume: roads, then pairs, by an index of the edges that is made once.
fn fault_of(opened: &Opened<'_>) -> Option<Fault>
    ensures { result ≡ fault_of (volume_of opened.now.records.bytes.now) }
{
    let mut first = [0u16; 1024];
    let mut next = [0u16; 16384];
    let mut digest = [0u32; LONG];
    index_edges(&opened.records, &mut first, &mut next);
    make_digest(opened, &mut digest);
    let times = Timetable {
        opened: *opened,
        digest: &digest,
    };
    let map = Roadmap::new(times, &first, &next);
    if let Some(fault) = roads_fault(&map) {
        return Some(fault);
    }
    lefts_fault(&map)
}

// Is the volume full? If not, the first fault; if it does not open, the refusal. The answer is the one over every second.
pub fn check(v: &[u8]) -> Result<Option<Fault>, Refusal>
    ensures { result ≡ verdict_of v.now }
{
    let opened = read(v)?;
    Ok(fault_of(&opened))
}
