// The trail of a closed answer: from the destination back to the start, by the arc of each state's label.
ghost use Rattle.std.specs.Prelude.{◌≡◌, ◌*◌, ◌≤◌, ◌<◌, length};
ghost use Rattle.theory.specs.Settling.{arc_of};
ghost use Rattle.records.specs.Format.{volume_of};
ghost use Rattle.settle.specs.Work.{labels};
ghost use Rattle.search.specs.Trail.{Walkable, came_from_in, Trailed};

use settle::Query;
use settle::labels::{ARC, NO_LABEL, STATE};
use volume::sound::Opened;

// The arc of state s's label, 0 where it has none. Arcs are numbers and no options, because they stand in the memory that the host
// lends.
#[tactic(auto, using(crate::specs::Trail::arc_cases))]
fn arc_at(work: &[u64], states: usize, s: usize) -> u64
    requires { (s < states) × (4 * states ≤ length work.now) }
    ensures { result ≡ arc_of (labels states work.now s) }
{
    let at = STATE * s;
    if work[at] == NO_LABEL {
        return 0;
    }
    work[at + ARC]
}

// The state from which an arc leads to state s: the turn (arc 0) from its own junction, arc 1 + e from the start of edge e.
#[tactic(auto, using(crate::specs::Trail::back_cases))]
fn came_from(opened: &Opened<'_>, s: usize, arc: u64) -> usize
    requires { arc ≤ (volume_of opened.now.records.bytes.now).edges }
    ensures { result ≡ came_from_in (volume_of opened.now.records.bytes.now) s arc }
{
    let n = opened.records.counts.junctions;
    if arc == 0 {
        if s < n {
            return 0;
        }
        return s - n;
    }
    let from = opened.records.edge((arc - 1) as usize).from;
    if s < n {
        return from;
    }
    n + from
}

// Writes the edges of the trail, at most `used` of them, to the last places of `trail`, and answers where they begin: the list has a
// fixed length, since the library has no heap.
pub fn walk_back(
    opened: &Opened<'_>,
    query: Query,
    used: usize,
    work: &[u64],
    trail: &mut [u16],
) -> usize
    requires walkable { Walkable (volume_of opened.now.records.bytes.now) opened.now.records.counts.junctions query.to work.now }
    requires used_in_bounds { used ≤ length trail.old }
    ensures { Trailed (volume_of opened.now.records.bytes.now) query.from query.to used work.now trail.new result }
{
    let n = opened.records.counts.junctions;
    let mut at = trail.len();
    let mut s = n + query.to;
    for _walked in 0..used {
        if s == query.from {
            return at;
        }
        let arc = arc_at(work, n + n, s);
        s = came_from(opened, s, arc);
        if arc != 0 {
            at -= 1;
            trail[at] = (arc - 1) as u16;
        }
    }
    at
}
