// The offers of a settled state. The lent work area and the first of the chain are two parameters: labels.rt says why. That the work area
// is long enough is asked where it is lent.
ghost use Rattle.std.specs.Prelude.{◌≡◌, ℕ, suc, ◌+◌, ◌*◌, ◌^◌, ◌≤◌, ◌<◌, length};
ghost use Rattle.theory.specs.Settling.{offer, relax, settle};
ghost use Rattle.records.specs.Format.{volume_of};
ghost use Rattle.settle.specs.Chain.{WaitsAt, Chained, Precedes, Rechained};
ghost use Rattle.settle.specs.Marked.{MarksBelow};
ghost use Rattle.settle.specs.Arcs.{Does, place_of, web_of, lead_of, LeadsBelow};
ghost use Rattle.settle.specs.Walk.{turned};

use crate::labels::{SETTLED, STATE, offer_to, take_out};
use crate::seen::Waiting;
use travel::roadmap::Roadmap;

// The map, with the junctions marked for a destination: what the rule makes its offers by.
#[derive(Clone, Copy)]
pub struct Ground<'a> {
    pub map: Roadmap<'a>,
    pub marks: &'a [bool],
    pub ghost room: { map.times.opened.records.counts.junctions ≤ length marks.now },
}

// The junction at which state s stands.
#[tactic(auto, using(crate::specs::Arcs::place_cases))]
fn place(n: usize, s: usize) -> usize
    ensures { result ≡ place_of n s }
{
    if s < n {
        return s;
    }
    s - n
}

// The state to which edge e leads state s, if s offers it: a climbing state to higher rank, a descending one to a lower marked junction.
#[tactic(auto, using(crate::specs::Arcs::lead_cases))]
fn lead_of(ground: &Ground<'_>, s: usize, e: usize) -> Option<usize>
    requires s_bound { s < ground.now.map.times.opened.records.counts.junctions + ground.now.map.times.opened.records.counts.junctions }
    requires e_bound { (e < (volume_of ground.now.map.times.opened.records.bytes.now).edges) × ((volume_of ground.now.map.times.opened.records.bytes.now).edge_from e ≡ place_of ground.now.map.times.opened.records.counts.junctions s) }
    ensures leads_below { LeadsBelow (ground.now.map.times.opened.records.counts.junctions + ground.now.map.times.opened.records.counts.junctions) result }
    ensures by_index { (d : ℕ) → MarksBelow (volume_of ground.now.map.times.opened.records.bytes.now) d (volume_of ground.now.map.times.opened.records.bytes.now).junctions ground.now.marks.now → result ≡ lead_of (web_of (volume_of ground.now.map.times.opened.records.bytes.now) d) s (suc e) }
{
    let n = ground.map.times.opened.records.counts.junctions;
    let w = ground.map.times.opened.records.edge(e).to;
    if s < n {
        if s < w {
            return Some(w);
        }
        return None;
    }
    if w < s - n && ground.marks[w] {
        return Some(n + w);
    }
    None
}

// Offers edge e from state s, which is settled at `arrival`. The time of an edge to a settled state is not asked. Returns the first of the
// chain, as every function here that makes offers does.
#[tactic(auto, using(crate::specs::Arcs::arc_steps))]
fn offer_edge(
    ground: &Ground<'_>,
    s: usize,
    e: usize,
    arrival: u64,
    head: usize,
    work: &mut [u64],
) -> usize
    requires s_bound { s < ground.now.map.times.opened.records.counts.junctions + ground.now.map.times.opened.records.counts.junctions }
    requires e_bound { (e < (volume_of ground.now.map.times.opened.records.bytes.now).edges) × ((volume_of ground.now.map.times.opened.records.bytes.now).edge_from e ≡ place_of ground.now.map.times.opened.records.counts.junctions s) }
    requires arrival_bound { (arrival < 2 ^ 62) × (8 * ground.now.map.times.opened.records.counts.junctions ≤ length work.old) }
    ensures does { Does (volume_of ground.now.map.times.opened.records.bytes.now) ground.now.marks.now work.old work.new (λ W. offer W s arrival (suc e)) }
    ensures rechained { Rechained (ground.now.map.times.opened.records.counts.junctions + ground.now.map.times.opened.records.counts.junctions) work.old head work.new result }
{
    let Some(to) = lead_of(ground, s, e) else {
        return head;
    };
    let at = STATE * to;
    if work[at] < SETTLED {
        let later = arrival + ground.map.times.edge_duration(e, arrival);
        return offer_to(work, head, to, later, e as u64 + 1);
    }
    head
}

// Offers the turn from state s, which is settled at `arrival`: a climbing state its own junction, descending, if marked.
#[tactic(auto, using(crate::specs::Walk::turn_cases))]
fn offer_turn(ground: &Ground<'_>, s: usize, arrival: u64, head: usize, work: &mut [u64]) -> usize
    requires { (s < ground.now.map.times.opened.records.counts.junctions + ground.now.map.times.opened.records.counts.junctions) × (8 * ground.now.map.times.opened.records.counts.junctions ≤ length work.old) }
    ensures work_after { work.new ≡ turned ground.now.marks.now ground.now.map.times.opened.records.counts.junctions s arrival head work.old }
    ensures rechained { Rechained (ground.now.map.times.opened.records.counts.junctions + ground.now.map.times.opened.records.counts.junctions) work.old head work.new result }
{
    let n = ground.map.times.opened.records.counts.junctions;
    if s < n && ground.marks[s] {
        return offer_to(work, head, n + s, arrival, 0);
    }
    head
}

// All offers of state s, which is settled at `arrival`: the turn, then its own edges in rising order.
#[tactic(auto, using(crate::specs::Arcs::place_below))]
fn offer_arcs(ground: &Ground<'_>, s: usize, arrival: u64, head: usize, work: &mut [u64]) -> usize
    requires s_bound { s < ground.now.map.times.opened.records.counts.junctions + ground.now.map.times.opened.records.counts.junctions }
    requires arrival_bound { (arrival < 2 ^ 62) × (8 * ground.now.map.times.opened.records.counts.junctions ≤ length work.old) }
    ensures does { Does (volume_of ground.now.map.times.opened.records.bytes.now) ground.now.marks.now work.old work.new (λ W. relax W s arrival W.arcs) }
    ensures rechained { Rechained (ground.now.map.times.opened.records.counts.junctions + ground.now.map.times.opened.records.counts.junctions) work.old head work.new result }
{
    let counts = ground.map.times.opened.records.counts;
    let u = place(counts.junctions, s);
    let mut front = offer_turn(ground, s, arrival, head, work);
    let mut at = ground.map.first(u);
    while let Some(e) = at {
        front = offer_edge(ground, s, e, arrival, front, work);
        at = ground.map.next(e);
    }
    front
}

// One unit: settles the state that waits, and makes its offers.
pub fn settle_state(ground: &Ground<'_>, waiting: Waiting, head: usize, work: &mut [u64]) -> usize
    requires s_bound { waiting.state < ground.now.map.times.opened.records.counts.junctions + ground.now.map.times.opened.records.counts.junctions }
    requires arrival_bound { (waiting.arrival < 2 ^ 62) × (8 * ground.now.map.times.opened.records.counts.junctions ≤ length work.old) }
    requires waits_at { WaitsAt work.old waiting.state }
    requires chained { Chained (ground.now.map.times.opened.records.counts.junctions + ground.now.map.times.opened.records.counts.junctions) work.old head }
    requires precedes { Precedes (ground.now.map.times.opened.records.counts.junctions + ground.now.map.times.opened.records.counts.junctions) work.old head waiting.before waiting.state }
    ensures does { Does (volume_of ground.now.map.times.opened.records.bytes.now) ground.now.marks.now work.old work.new (λ W. settle W waiting.state waiting.arrival) }
    ensures chained_2 { Chained (ground.now.map.times.opened.records.counts.junctions + ground.now.map.times.opened.records.counts.junctions) work.new result }
{
    let n = ground.map.times.opened.records.counts.junctions;
    let front = take_out(work, n + n, head, waiting.state, waiting.before);
    offer_arcs(ground, waiting.state, waiting.arrival, front, work)
}
