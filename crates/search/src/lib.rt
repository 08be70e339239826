// The earliest-arrival search with a budget: document 01, "The settling rule" and "What comes back". The rule itself, over the lent
// work area, is the crate `settle`'s; here are the trail, the path, the refusals and the answer.
#![tactic(auto)]

ghost use Rattle.std.specs.Prelude.{◌≡◌, ◌^◌, ◌≤◌, ◌<◌};
ghost use Rattle.records.specs.Format.{volume_of};
ghost use Rattle.volume.specs.Open.{open_of};
ghost use Rattle.settle.specs.Units.{Question};
ghost use Rattle.search.specs.Trail.{Walkable, trail_of};
ghost use Rattle.search.specs.Path.{Chain};
ghost use Rattle.search.specs.Answer.{Searched};
ghost use Rattle.search.specs.Steps.{closed_by, Reported, Applied};

use crate::path::{count_path, write_path};
use crate::trail::walk_back;
use block::refusal::Refusal;
use settle::{Outcome, Query, clear, run};
use std::fmt;
use volume::read;
use volume::sound::Opened;

pub mod path;
pub mod trail;

// Closed: arrival, units used, number of roads. No way: units used. Open: lower end, upper end or none, units used.
#[derive(Clone, Copy)]
pub enum Answer {
    Closed(u64, u64, usize),
    NoWay(u64),
    Open(u64, Option<u64>, u64),
}

// The roads of a closed answer stand in the path list, and are not its own to write.
impl fmt::Display for Answer {
    fn fmt<W: fmt::Write>(&self, f: &mut fmt::Formatter<W>) -> fmt::Result {
        match self {
            Answer::Closed(arrival, used, _) => write!(f, "arrive {arrival} used {used} roads"),
            Answer::NoWay(used) => write!(f, "no way used {used}"),
            Answer::Open(lower, Some(upper), used) => {
                write!(f, "open {lower} to {upper} used {used}")
            }
            Answer::Open(lower, None, used) => write!(f, "open {lower} to - used {used}"),
        }
    }
}

// The answer where the rule has closed: the path is written, or refused where it has more roads than room. Its six parameters meet in
// no other function.
fn close(
    opened: &Opened<'_>,
    query: Query,
    arrival: u64,
    used: usize,
    work: &[u64],
    path: &mut [u32],
) -> Result<Answer, Refusal>
    requires walkable { Walkable (volume_of opened.now.records.bytes.now) opened.now.records.counts.junctions query.to work.now }
    requires used_bound { (used ≤ 2048) × Chain (volume_of opened.now.records.bytes.now) (trail_of (volume_of opened.now.records.bytes.now) query.from query.to used work.now) query.departure }
    ensures { Reported (volume_of opened.now.records.bytes.now) query.departure (closed_by (volume_of opened.now.records.bytes.now) query.from query.to arrival used work.now) path.old result path.new }
{
    let mut trail = [0u16; 2048];
    let at = walk_back(opened, query, used, work, &mut trail);
    let roads = count_path(opened, &trail[at..], query.departure);
    if path.len() < roads {
        return Err(Refusal::Path(roads));
    }
    write_path(opened, &trail[at..], query.departure, path);
    Ok(Answer::Closed(arrival, used as u64, roads))
}

// The settling rule's answer, with the path written where it closes. The work area is left with the rule's labels.
fn apply_rule(
    opened: &Opened<'_>,
    query: Query,
    work: &mut [u64],
    path: &mut [u32],
) -> Result<Answer, Refusal>
    requires { Question (volume_of opened.now.records.bytes.now) query.from query.to query.departure query.budget work.old }
    ensures { Applied (volume_of opened.now.records.bytes.now) query.from query.to query.departure query.budget work.old path.old result work.new path.new }
{
    let outcome = run(opened, query, work);
    match outcome {
        Outcome::NoWay(used) => Ok(Answer::NoWay(used)),
        Outcome::Open(lower, upper, used) => Ok(Answer::Open(lower, upper, used)),
        Outcome::Closed(arrival, used) => close(opened, query, arrival, used as usize, work, path),
    }
}

// The search of a volume that opens: refusals 7 and 8, then the rule's answer, and the work area cleared.
fn search_open(
    opened: &Opened<'_>,
    query: Query,
    work: &mut [u64],
    path: &mut [u32],
) -> Result<Answer, Refusal>
    requires opens { open_of opened.now.records.bytes.now ≡ Ok opened.now.records.counts }
    requires x_bound { (query.departure < 2 ^ 32) × (query.budget < 2 ^ 32) }
    ensures { Searched opened.now.records.bytes.now query.from query.to query.departure query.budget work.old path.old result work.new path.new }
{
    let n = opened.records.counts.junctions;
    if n <= query.from {
        return Err(Refusal::Unknown);
    }
    if n <= query.to {
        return Err(Refusal::UnknownDestination);
    }
    if work.len() < 8 * n {
        return Err(Refusal::Work);
    }
    let r = apply_rule(opened, query, work, path);
    clear(work, 8 * n);
    r
}

// The earliest arrival from `from` to `to` at a departure, or how far the budget went, with the roads to drive in the path list. Its
// parameters are the C name's.
pub fn search(
    v: &[u8],
    from: u32,
    to: u32,
    departure: u32,
    budget: u32,
    work: &mut [u64],
    path: &mut [u32],
) -> Result<Answer, Refusal>
    ensures { Searched v.now from to departure budget work.old path.old result work.new path.new }
{
    let query = Query {
        from: from as usize,
        to: to as usize,
        departure: departure as u64,
        budget: budget as u64,
    };
    let opened = read(v)?;
    search_open(&opened, query, work, path)
}
