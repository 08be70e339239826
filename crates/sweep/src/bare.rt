// The independent search: the earliest arrival over the bare roads, in rounds over all of them, and the time that a path takes driven
// road by road. It shares nothing with the hierarchy search: words are read here from their bytes, and a duration is reckoned in
// document 01's words. Every function answers something for any bytes; the remainders keep sums small and change no number of a
// sound volume.

ghost use Rattle.std.specs.Prelude.{◌≤◌, ◌<◌};

const DAY: u64 = 86400;

const FAR: u64 = 1099511627776;

// Content word w, behind two check words for each 126; 0 past the end.
fn word(v: &[u8], w: usize) -> u32 {
    let at = w % 1000000;
    let i = 512 * (at / 126) + 4 * (at % 126);
    v.get(i..)
        .and_then(|rest| rest.first_chunk())
        .map_or(0, |bytes| u32::from_le_bytes(*bytes))
}

pub(crate) fn junctions(v: &[u8]) -> u32 {
    word(v, 1)
}

fn roads(v: &[u8]) -> u32
    ensures { result < 5000 }
{
    word(v, 2) % 5000
}

// Word i of road k: from, to, first point, number of points.
fn of_road(v: &[u8], k: u32, i: usize) -> u32
    ensures { result < 70000 }
{
    word(v, 6 + 4 * (k as usize % 5000) + i % 4) % 70000
}

// Word i of point p: second, duration.
fn of_point(v: &[u8], p: u32, i: usize) -> u64 {
    u64::from(word(
        v,
        6 + 4 * roads(v) as usize + 2 * (p as usize % 70000) + i % 2,
    ))
}

fn second(v: &[u8], p: u32) -> u64
    ensures { result < 86400 }
{
    of_point(v, p, 0) % DAY
}

fn duration(v: &[u8], p: u32) -> u64
    ensures { result < 100000 }
{
    of_point(v, p, 1) % 100000
}

// Where a road's points stand: the first of them, and how many there are.
#[derive(Clone, Copy)]
struct Points {
    first: u32,
    count: u32,
    ghost first_small: { first < 70000 },
    ghost count_small: { count < 70000 },
}

impl Points {
    // How many of them stand at second x or before.
    fn passed(self, v: &[u8], x: u64) -> u32
        ensures { result ≤ self.count }
    {
        for c in 0..self.count {
            if x < second(v, self.first + c) {
                return c;
            }
        }
        self.count
    }

    // Where c have passed: the last that has, or the last of the day before.
    fn left(self, c: u32) -> u32
        requires { (0 < self.count) × (c ≤ self.count) }
    {
        let place = if c == 0 { self.count } else { c };
        self.first + place - 1
    }

    // The next one, or the first of the next day.
    fn right(self, c: u32) -> u32
        requires { c ≤ self.count }
    {
        let place = if c == self.count { 0 } else { c };
        self.first + place
    }
}

fn points_of(v: &[u8], k: u32) -> Points {
    Points {
        first: of_road(v, k, 2),
        count: of_road(v, k, 3),
    }
}

// From f0 to f1 in w seconds, after i of them: up by a part rounded down, or down by a part rounded up.
fn between(f0: u64, f1: u64, i: u64, w: u64) -> u64
    requires { (f0 < 100000) × (f1 < 100000) × (i < 86400) × (0 < w) × (w ≤ 86400) }
    ensures { result < 20000000000 }
{
    if f0 <= f1 {
        f0 + (f1 - f0) * i / w
    } else {
        f0.saturating_sub(((f0 - f1) * i).div_ceil(w))
    }
}

// How long road k takes at time t.
fn lasts(v: &[u8], k: u32, t: u64) -> u64
    ensures { result < 20000000000 }
{
    let x = t % DAY;
    let points = points_of(v, k);
    if points.count == 0 {
        return 0;
    }
    let c = points.passed(v, x);
    let left = points.left(c);
    let right = points.right(c);
    let since = (x + DAY - second(v, left)) % DAY;
    let width = (second(v, right) + DAY - second(v, left) - 1) % DAY + 1;
    between(duration(v, left), duration(v, right), since, width)
}

// When road k, entered at time t, is left; none where there is no such time.
fn leaves(v: &[u8], k: u32, t: u64) -> Option<u64> {
    if t < FAR {
        return Some(t + lasts(v, k, t));
    }
    None
}

// The earliest arrival found at each of 8 junctions, none where no way is found yet.
type Arrivals = [Option<u64>; 8];

fn get(best: &Arrivals, i: u32) -> Option<u64> {
    best.get(i as usize).copied().flatten()
}

// Keeps t as the arrival at i if it is earlier.
fn offer(best: &mut Arrivals, i: u32, t: u64) {
    if let Some(known) = best.get_mut(i as usize) {
        *known = Some(known.map_or(t, |earlier| earlier.min(t)));
    }
}

// Offers road k, if there is a way to where it starts.
fn offer_road(v: &[u8], best: &mut Arrivals, k: u32) {
    let left = get(best, of_road(v, k, 0)).and_then(|t| leaves(v, k, t));
    if let Some(t) = left {
        offer(best, of_road(v, k, 1), t);
    }
}

// Offers every road once.
fn round(v: &[u8], best: &mut Arrivals) {
    for k in 0..roads(v) {
        offer_road(v, best, k);
    }
}

// What is asked: the way from one junction to another that begins at the departure.
#[derive(Clone, Copy)]
pub(crate) struct Trip {
    pub(crate) from: u32,
    pub(crate) to: u32,
    pub(crate) departure: u32,
}

impl Trip {
    // The earliest arrival over the bare roads of a volume of at most 8 junctions: as many rounds as junctions, since a later start
    // never arrives earlier and so no junction comes twice.
    pub(crate) fn arrival(self, v: &[u8]) -> Option<u64> {
        let mut best = [None; 8];
        offer(&mut best, self.from, u64::from(self.departure));
        for _ in 0..8 {
            round(v, &mut best);
        }
        get(&best, self.to)
    }

    // When a path's roads, driven one after the other, arrive; none where they do not join.
    pub(crate) fn driven(self, v: &[u8], path: &[u32]) -> Option<u64> {
        let mut at = self.from;
        let mut t = u64::from(self.departure);
        for &k in path {
            if of_road(v, k, 0) != at {
                return None;
            }
            t = leaves(v, k, t)?;
            at = of_road(v, k, 1);
        }
        if at == self.to { Some(t) } else { None }
    }
}
