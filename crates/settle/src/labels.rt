// Labels in the work area, and the chain of the states that wait: the last number of a state leads to the next one, and the number of
// states ends the chain. That they are chained is asked in each contract and is no struct's invariant, since it does not hold between
// the two numbers that an offer writes: a struct of the list and its first state would be taken apart at each write, and no plainer.
ghost use Rattle.std.specs.Prelude.{◌≡◌, ◌+◌, ◌*◌, ◌≤◌, ◌<◌, length};
ghost use Rattle.theory.specs.Settling.{put, settle_label};
ghost use Rattle.settle.specs.Work.{store, labels, Holds};
ghost use Rattle.settle.specs.Chain.{WaitsAt, Chained, Precedes};
ghost use Rattle.settle.specs.Offered.{offer_to, head_to};

// The numbers of a state: its kind, and then, so far after it, its arrival, its arc and the state after it in the chain.
pub const STATE: usize = 4;

pub const ARRIVAL: usize = 1;

pub const ARC: usize = 2;

pub const NEXT: usize = 3;

// The kinds of a label. They are numbers and no enum, because they stand in the memory that the host lends. A state with no label has
// kind 0.
pub const NO_LABEL: u64 = 0;

pub const WAITING: u64 = 1;

pub const SETTLED: u64 = 2;

// Writes the label of state s.
pub fn put_label(work: &mut [u64], s: usize, kind: u64, arrival: u64, arc: u64)
    requires { 4 * s + 4 ≤ length work.old }
    ensures { work.new ≡ store work.old s kind arrival arc }
{
    let at = STATE * s;
    work[at] = kind;
    work[at + ARRIVAL] = arrival;
    work[at + ARC] = arc;
}

// Offers an arrival by an arc to state s: it counts for a state that is not settled, if none or a strictly later arrival waits there. A
// state that begins to wait goes in front of the chain. Returns the first of the chain.
#[tactic(auto, using(crate::specs::Offered::offer_cases))]
pub fn offer_to(work: &mut [u64], head: usize, s: usize, arrival: u64, arc: u64) -> usize
    requires { 4 * s + 4 ≤ length work.old }
    ensures work_after { work.new ≡ offer_to work.old head s arrival arc }
    ensures value { result ≡ head_to work.old head s }
{
    let at = STATE * s;
    let kind = work[at];
    if kind == NO_LABEL {
        put_label(work, s, WAITING, arrival, arc);
        work[at + NEXT] = head as u64;
        return s;
    }
    if kind == WAITING && arrival < work[at + ARRIVAL] {
        put_label(work, s, WAITING, arrival, arc);
    }
    head
}

// Settles state s, which waits, and takes it out of the chain, where it comes after `before`. Returns the first of the chain.
#[tactic(auto, using(crate::specs::Chain::out_cases))]
pub fn take_out(work: &mut [u64], states: usize, head: usize, s: usize, before: usize) -> usize
    requires s_lt_states { (s < states) × (4 * states ≤ length work.old) }
    requires waits_at { WaitsAt work.old s }
    requires chained { Chained states work.old head }
    requires precedes { Precedes states work.old head before s }
    ensures holds { Holds states work.old work.new (put (labels states work.old) s (settle_label (labels states work.old s))) }
    ensures chained_2 { Chained states work.new result }
{
    let at = STATE * s;
    work[at] = SETTLED;
    let after = work[at + NEXT];
    if before < states {
        let link = STATE * before;
        work[link + NEXT] = after;
        return head;
    }
    after as usize
}
