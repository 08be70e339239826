// The sweep: every ordered pair of junctions of four full volumes at many departures, over midnight and several days, each question put
// to the hierarchy search and to the search over the bare roads.
#![tactic(auto)]

use crate::bare::{Trip, junctions};
use full::check;
use search::{Answer, search};
use std::fmt::{self, Display};
use std::io;
use telling::line::{heading, told};
use telling::networks::{FERRY, HILL, RING, SAMPLE};
use telling::page::lay;
use telling::say::{Checked, Said};

mod bare;

// How the two searches compare: both arrive at one time, and so do the roads of the path; both find no way; or they differ.
#[derive(Clone, Copy)]
enum Seen {
    Arrives,
    NoWay,
    Differs,
}

// How many questions came out in each way.
#[derive(Clone, Copy, Default)]
struct Tally {
    arrive: u64,
    no_way: u64,
    differ: u64,
}

impl Tally {
    fn count(&mut self, seen: Seen) {
        let n = match seen {
            Seen::Arrives => &mut self.arrive,
            Seen::NoWay => &mut self.no_way,
            Seen::Differs => &mut self.differ,
        };
        *n = n.saturating_add(1);
    }
}

impl Display for Tally {
    fn fmt<W: fmt::Write>(&self, f: &mut fmt::Formatter<W>) -> fmt::Result {
        let Tally {
            arrive,
            no_way,
            differ,
        } = *self;
        write!(f, "{arrive} arrive, {no_way} no way, {differ} differ")
    }
}

fn compare(v: &[u8], trip: Trip) -> Seen {
    let mut work = [0u64; 64];
    let mut path = [0u32; 64];
    let Trip {
        from,
        to,
        departure,
    } = trip;
    let bare = trip.arrival(v);
    let a = search(v, from, to, departure, u32::MAX, &mut work, &mut path);
    match a {
        Ok(Answer::Closed(at, _, n))
            if bare == Some(at) && trip.driven(v, &path[..n]) == Some(at) => { Seen::Arrives }
        Ok(Answer::NoWay(_)) if bare.is_none() => Seen::NoWay,
        _ => Seen::Differs,
    }
}

// Departures around midnight and at the end of 32 bits.
const BOUNDARIES: [u32; 10] = [
    1,
    59,
    3600,
    86399,
    86400,
    86401,
    172799,
    4294900000,
    4294967294,
    u32::MAX,
];

// Asks from one junction to another at 54 departures: four days in steps, and the boundaries.
fn compare_pair(v: &[u8], from: u32, to: u32, t: &mut Tally) {
    let steps = (0..44).map(|i: u32| i * 7919);
    for departure in steps.chain(BOUNDARIES) {
        let trip = Trip {
            from,
            to,
            departure,
        };
        t.count(compare(v, trip));
    }
}

// Asks from one junction to each of n.
fn compare_from(v: &[u8], from: u32, n: u32, t: &mut Tally) {
    for to in 0..n {
        compare_pair(v, from, to, t);
    }
}

// All questions to a volume of at most 8 junctions.
fn compare_all(v: &[u8]) -> Tally {
    let n = junctions(v).min(8);
    let mut t = Tally::default();
    for from in 0..n {
        compare_from(v, from, n, &mut t);
    }
    t
}

// The lines of a volume: is it full, and how did the questions come out?
fn swept(rt: &impl Print, label: &str, v: &[u8]) -> io::Result<()> {
    told(rt, label, Said(check(v).map(Checked)), "full")?;
    told(rt, label, compare_all(v), "0 differ")
}

fn main(rt: HostRuntime) -> io::Result<()> {
    heading(
        &rt,
        "Every pair of junctions at 54 departures, beside a search over the bare roads",
    )?;
    let mut v = [0u8; 512];
    lay(&mut v, SAMPLE);
    swept(&rt, "the sample", &v)?;
    lay(&mut v, HILL);
    swept(&rt, "round the hill", &v)?;
    lay(&mut v, RING);
    swept(&rt, "the ring", &v)?;
    let mut v = [0u8; 1024];
    lay(&mut v, FERRY);
    swept(&rt, "the ferry", &v)
}
