// The settling rule over a lent work area: document 01, "The settling rule". A run marks the junctions, settles state by state, and
// leaves the labels in the work area for whoever follows the trail back. The path, the refusals and the cleared work area after a
// search are the crate `search`'s.
#![tactic(auto)]

ghost use Rattle.std.specs.Prelude.{◌≡◌, ◌+◌, ◌^◌, ◌≤◌, ◌<◌, length};
ghost use Rattle.records.specs.Format.{volume_of};
ghost use Rattle.settle.specs.Marked.{MarksBelow};
ghost use Rattle.settle.specs.Outcome.{Ran};
ghost use Rattle.settle.specs.Units.{Question};
ghost use Rattle.settle.specs.Work.{cleared};

use crate::arcs::{Ground, settle_state};
use crate::labels::{STATE, offer_to};
use crate::marks::mark;
use crate::seen::{View, see, upper};
use records::index::{Index, index_edges};
use travel::digest::{LONG, SHORT, Timetable, make_digest};
use travel::roadmap::Roadmap;
use volume::sound::Opened;

pub mod arcs;
pub mod labels;
pub mod marks;
pub mod seen;

// A question: the earliest arrival from one junction to another at a departure, in at most so many units. What may be asked of a volume is
// the fact `Question` of specs/Units; it speaks of the volume and of the work area too, so it stands in the contracts and not here.
#[derive(Clone, Copy)]
pub struct Query {
    pub from: usize,
    pub to: usize,
    pub departure: u64,
    pub budget: u64,
}

// What a run ends with: units used; arrival and units used; lower end, upper end or none, and units used.
#[derive(Clone, Copy)]
pub enum Outcome {
    NoWay(u64),
    Closed(u64, u64),
    Open(u64, Option<u64>, u64),
}

// Zeroes in the first n places.
pub fn clear(work: &mut [u64], n: usize)
    requires { n ≤ length work.old }
    ensures { work.new ≡ cleared work.old n }
{
    work[..n].fill(0);
}

// The rule with the edges indexed and the junctions marked. Before each unit the tests run in the document's order.
fn units(ground: &Ground<'_>, query: Query, work: &mut [u64]) -> Outcome
    requires marked { MarksBelow (volume_of ground.now.map.times.opened.records.bytes.now) query.to (volume_of ground.now.map.times.opened.records.bytes.now).junctions ground.now.marks.now }
    requires question { Question (volume_of ground.now.map.times.opened.records.bytes.now) query.from query.to query.departure query.budget work.old }
    ensures { Ran (volume_of ground.now.map.times.opened.records.bytes.now) query.from query.to query.departure query.budget work.old work.new result }
{
    let n = ground.map.times.opened.records.counts.junctions;
    let states = n + n;
    let home = n + query.to;
    clear(work, STATE * states);
    let mut head = offer_to(work, states, query.from, query.departure, 0);
    let mut used: u64 = 0;
    // No `for` over the budget: it would need an answer after its end, which is never reached.
    loop {
        let view = see(work, states, head, home);
        match view {
            View::NothingWaits => return Outcome::NoWay(used),
            View::Destination(arrival) => return Outcome::Closed(arrival, used),
            View::Next(waiting) => {
                if used == query.budget {
                    return Outcome::Open(waiting.arrival, upper(work, home), used);
                }
                head = settle_state(ground, waiting, head, work);
                used += 1;
            }
        }
    }
}

// Runs the rule with room for so many edges in the index, and for so many edges and roads, and one place more, in the digest.
fn run_with<const INDEX: usize, const DIGEST: usize>(
    opened: &Opened<'_>,
    query: Query,
    work: &mut [u64],
) -> Outcome
    requires edges_in_bounds { (opened.now.records.counts.edges ≤ INDEX) × (opened.now.records.counts.edges + opened.now.records.counts.roads < DIGEST) }
    requires lists_fit { (INDEX < 2 ^ 32) × (DIGEST < 2 ^ 32) }
    requires question { Question (volume_of opened.now.records.bytes.now) query.from query.to query.departure query.budget work.old }
    ensures { Ran (volume_of opened.now.records.bytes.now) query.from query.to query.departure query.budget work.old work.new result }
{
    let mut first = [0u16; 1024];
    let mut next = [0u16; INDEX];
    let mut digest = [0u32; DIGEST];
    let mut marks = [false; 1024];
    index_edges(&opened.records, &mut first, &mut next);
    make_digest(opened, &mut digest);
    let times = Timetable {
        opened: *opened,
        digest: &digest,
    };
    let index = Index {
        records: opened.records,
        first: &first,
        next: &next,
    };
    mark(&index, query.to, &mut marks);
    let map = Roadmap::new(times, &first, &next);
    let ground = Ground { map, marks: &marks };
    units(&ground, query, work)
}

// Runs the rule on a question: what it ends with, and the labels in the first 8 N work numbers, whatever they held before. Few
// roads and edges get short lists for the index and the digest.
pub fn run(opened: &Opened<'_>, query: Query, work: &mut [u64]) -> Outcome
    requires { Question (volume_of opened.now.records.bytes.now) query.from query.to query.departure query.budget work.old }
    ensures { Ran (volume_of opened.now.records.bytes.now) query.from query.to query.departure query.budget work.old work.new result }
{
    let counts = opened.records.counts;
    if counts.edges + counts.roads < SHORT {
        run_with::<SHORT, SHORT>(opened, query, work)
    } else {
        run_with::<16384, LONG>(opened, query, work)
    }
}
