// The edge rules.
ghost use Rattle.std.specs.Prelude.{◌≡◌, ◌+◌, ◌≤◌, ◌<◌};
ghost use Rattle.records.specs.Format.{volume_of, day};
ghost use Rattle.rules.specs.Rules.{begins, road_joins, meet, pair_joins, start_fits, edge_rule};
ghost use Rattle.rules.specs.EdgeSteps.{piece_fit, pieces_fit, Fresh};

use crate::kept::{Earlier, Ends};
use crate::roads::{ends_fit, is_placed};
use records::readers::Records;
use records::tables::{PERIOD, Way};

const MOST_SPAN: usize = 4096;

// Is k a road that leads from and to as `over` says?
fn road_joins(r: &Records<'_>, k: usize, over: Ends) -> bool
    ensures { result ≡ road_joins (volume_of r.now.bytes.now) k over.from over.to }
{
    if r.counts.roads <= k {
        return false;
    }
    let road = r.road(k);
    road.from == over.from && road.to == over.to
}

// Do an edge with the ends l and one with the ends r lead in turn from and to as `over` says, and meet below both?
fn do_meet(l: Ends, r: Ends, over: Ends) -> bool
    ensures { result ≡ meet l.from l.to r.from r.to over.from over.to }
{
    l.from == over.from
        && (r.to == over.to && (l.to == r.from && (l.to < over.from && l.to < over.to)))
}

// Have l and r passed, and do they lead in turn from and to as `over` says, and meet below both? Their four ends are read before any is
// compared, so that no read waits for a comparison.
fn pair_joins(passed: &Earlier<'_>, l: usize, r: usize, over: Ends) -> bool
    ensures { result ≡ pair_joins (volume_of passed.now.records.bytes.now) passed.now.edge l r over.from over.to }
{
    if passed.edge <= l {
        return false;
    }
    if passed.edge <= r {
        return false;
    }
    do_meet(passed.ends(l), passed.ends(r), over)
}

// The span of piece p of the edge, whose ends are `over`, if it fits.
fn piece_fit(passed: &Earlier<'_>, p: usize, over: Ends) -> Option<usize>
    requires p_bound { p < (volume_of passed.now.records.bytes.now).pieces }
    requires over_value { (over.from ≡ (volume_of passed.now.records.bytes.now).edge_from passed.now.edge) × (over.to ≡ (volume_of passed.now.records.bytes.now).edge_to passed.now.edge) }
    ensures { result ≡ piece_fit (volume_of passed.now.records.bytes.now) passed.now.edge p }
{
    match passed.records.piece(p).way {
        Way::Road(k) => road_joins(&passed.records, k, over).then_some(1),
        Way::Turn(left, right) => {
            if pair_joins(passed, left, right, over) {
                Some(passed.span(left) + passed.span(right))
            } else {
                None
            }
        }
    }
}

// Does piece i start when it must, where the piece before it starts at `before`?
fn start_fits(i: usize, before: u64, start: u64) -> bool
    ensures { result ≡ start_fits day i before start }
{
    if i == 0 {
        return start == 0;
    }
    if start <= before {
        return false;
    }
    start < PERIOD
}

// The greatest span of the pieces of the edge, if they all fit.
fn pieces_fit(passed: &Earlier<'_>) -> Option<usize>
    requires { (passed.now.edge < (volume_of passed.now.records.bytes.now).edges) × ((volume_of passed.now.records.bytes.now).edge_first passed.now.edge + (volume_of passed.now.records.bytes.now).edge_pieces passed.now.edge ≤ (volume_of passed.now.records.bytes.now).pieces) }
    ensures { result ≡ pieces_fit (volume_of passed.now.records.bytes.now) passed.now.edge }
{
    let edge = passed.records.edge(passed.edge);
    let over = Ends {
        from: edge.from,
        to: edge.to,
    };
    let mut greatest: usize = 0;
    let mut before: u64 = 0;
    for i in 0..edge.pieces {
        let p = edge.first + i;
        let start = passed.records.piece(p).start;
        if !start_fits(i, before, start) {
            return None;
        }
        let span = piece_fit(passed, p, over)?;
        greatest = greatest.max(span);
        before = start;
    }
    Some(greatest)
}

// Does the edge obey, where no earlier one has its ends? Its pieces are to begin at `begin`.
pub fn edge_fits(passed: &Earlier<'_>, begin: usize) -> bool
    requires e_bound { passed.now.edge < (volume_of passed.now.records.bytes.now).edges }
    requires fresh { Fresh (volume_of passed.now.records.bytes.now) passed.now.edge }
    requires begin_value { begin ≡ begins (volume_of passed.now.records.bytes.now).edge_first (volume_of passed.now.records.bytes.now).edge_pieces passed.now.edge }
    ensures { result ≡ edge_rule (volume_of passed.now.records.bytes.now) passed.now.edge }
{
    let counts = passed.records.counts;
    let edge = passed.records.edge(passed.edge);
    if !ends_fit(counts.junctions, edge.from, edge.to) {
        return false;
    }
    if !is_placed(begin, counts.pieces, edge.first, edge.pieces) {
        return false;
    }
    let Some(greatest) = pieces_fit(passed) else {
        return false;
    };
    edge.span == greatest && edge.span <= MOST_SPAN
}
