// The tests before each unit: document 01, "Before each unit, budget 0 included".
ghost use Rattle.std.specs.Prelude.{◌≡◌, ◌+◌, ◌*◌, ◌≤◌, ◌<◌, length};
ghost use Rattle.theory.specs.Settling.{least, view_from, upper_end};
ghost use Rattle.settle.specs.Work.{label_at, labels};
ghost use Rattle.settle.specs.Chain.{Chained};
ghost use Rattle.settle.specs.Scan.{pick_of, PickLinked, sooner_of};
ghost use Rattle.settle.specs.Seen.{view_of, ViewLinked};
ghost use Rattle.settle.specs.Outcome.{upper_of};

use crate::labels::{ARRIVAL, NEXT, STATE, WAITING};

// A waiting state with its arrival and the state before it in the chain, which is the number of states for the first: a number and no
// option, as the chain itself has it.
#[derive(Clone, Copy)]
pub struct Waiting {
    pub state: usize,
    pub arrival: u64,
    pub before: usize,
}

// What is seen before a unit: nothing waits, the destination waits with the least arrival, or a state to settle.
#[derive(Clone, Copy)]
pub enum View {
    NothingWaits,
    Destination(u64),
    Next(Waiting),
}

// The pick so far, with one waiting state more beside it, which is taken where its arrival is less, or as early and its number lower.
#[tactic(auto, using(crate::specs::Scan::sooner_cases))]
fn sooner(best: Option<Waiting>, found: Waiting) -> Option<Waiting>
    ensures { result ≡ sooner_of best found }
{
    let Some(least) = best else {
        return Some(found);
    };
    if (found.arrival, found.state) < (least.arrival, least.state) {
        return Some(found);
    }
    best
}

// The waiting state with the least arrival, the lowest number among equals, from the chain of those that wait. The chain is of numbers
// and ends with the number of states, because it stands in the memory that the host lends.
#[tactic(auto, using(crate::specs::Scan::scan_first, crate::specs::Scan::scan_more))]
pub fn least_waiting(work: &[u64], states: usize, head: usize) -> Option<Waiting>
    requires { (4 * states ≤ length work.now) × Chained states work.now head }
    ensures result_value { pick_of result ≡ least states (labels states work.now) }
    ensures pick_linked { PickLinked states work.now head result }
{
    let mut best = None;
    let mut before = states;
    let mut t = head;
    while t < states {
        let at = STATE * t;
        let found = Waiting {
            state: t,
            arrival: work[at + ARRIVAL],
            before,
        };
        best = sooner(best, found);
        before = t;
        t = work[at + NEXT] as usize;
    }
    best
}

// What is seen, where `home` is the descending destination.
#[tactic(auto, using(crate::specs::Seen::see_cases))]
pub fn see(work: &[u64], states: usize, head: usize, home: usize) -> View
    requires { (4 * states ≤ length work.now) × (home < states) × Chained states work.now head }
    ensures result_value { view_of result ≡ view_from (labels states work.now home) (least states (labels states work.now)) }
    ensures view_linked { ViewLinked states work.now head result }
{
    let best = least_waiting(work, states, head);
    let Some(least) = best else {
        return View::NothingWaits;
    };
    let at = STATE * home;
    if work[at] == WAITING && work[at + ARRIVAL] == least.arrival {
        return View::Destination(least.arrival);
    }
    View::Next(least)
}

// The arrival that waits at state s, or none.
pub fn upper(work: &[u64], s: usize) -> Option<u64>
    requires { 4 * s + 4 ≤ length work.now }
    ensures { upper_of result ≡ upper_end (label_at work.now s) }
{
    let at = STATE * s;
    if work[at] == WAITING {
        return Some(work[at + ARRIVAL]);
    }
    None
}
