// A digest of the roads and edges, made once for whoever asks for many travel times, since reading a short list is cheaper than reading
// the sealed words. Of a road with one point, which takes as long at every second, it has the duration, of any other road 0; of an edge
// the content word at which its pieces begin, and behind the last edge the one at which they end. The edges stand from the first place
// on and the roads from the last place back, so that a list of any length serves that has a place more than there are roads and edges.
// Its places are numbers and no options, since the list lies in the fixed memory of a call; `steady` reads them as options.
ghost use Rattle.std.specs.Prelude.{◌≡◌, ◌+◌, ◌-◌, ◌^◌, ◌≤◌, ◌<◌, ◌≢◌, get_or, length, MatchOption};
ghost use Rattle.records.specs.Format.{volume_of};
ghost use Rattle.travel.specs.Digest.{steady_of, steady_back, pieces_from, listed, digest_of, Digest};

use records::tables::PIECE_WORDS;
use volume::sound::Opened;

// How long the list of a digest is where a volume has few roads and edges, and where it may have as many as it can.
pub const SHORT: usize = 1024;

pub const LONG: usize = 4096 + 16384 + 1;

// The duration of road k where it has one point, else 0.
fn steady(opened: &Opened<'_>, k: usize) -> u64
    requires { k < (volume_of opened.now.records.bytes.now).roads }
    ensures { (result ≡ steady_of (volume_of opened.now.records.bytes.now) k) × (result < 2 ^ 32) }
{
    let road = opened.records.road(k);
    if road.points == 1 {
        return opened.records.point(road.first).duration;
    }
    0
}

// Writes the roads, of which the last stands first.
fn list_roads(opened: &Opened<'_>, digest: &mut [u32])
    requires { opened.now.records.counts.roads ≤ length digest.old }
    ensures { digest.new ≡ listed (length digest.old - opened.now.records.counts.roads) (steady_back (volume_of opened.now.records.bytes.now)) opened.now.records.counts.roads digest.old }
{
    let roads = opened.records.counts.roads;
    let begin = digest.len() - roads;
    for i in 0..roads {
        digest[begin + i] = steady(opened, roads - 1 - i) as u32;
    }
}

// Writes the edges: the pieces of each begin where those of the edge before end.
fn list_edges(opened: &Opened<'_>, digest: &mut [u32])
    requires { opened.now.records.counts.edges < length digest.old }
    ensures { digest.new ≡ listed 0 (pieces_from (volume_of opened.now.records.bytes.now)) (opened.now.records.counts.edges + 1) digest.old }
{
    let mut word = opened.records.tables.pieces;
    digest[0] = word as u32;
    for e in 0..opened.records.counts.edges {
        word += PIECE_WORDS * opened.records.edge(e).pieces;
        digest[e + 1] = word as u32;
    }
}

// Writes the digest.
pub fn make_digest(opened: &Opened<'_>, digest: &mut [u32])
    requires { opened.now.records.counts.edges + opened.now.records.counts.roads < length digest.old }
    ensures { digest.new ≡ digest_of (volume_of opened.now.records.bytes.now) digest.old }
{
    list_edges(opened, digest);
    list_roads(opened, digest);
}

// What a digest has of road k. It and `pieces_at` stand beside the methods of `Timetable`, since they say it of any list.
pub fn steady_at(digest: &[u32], k: usize) -> u64
    requires { k < length digest.now }
    ensures { result ≡ get_or digest.now (length digest.now - 1 - k) 0 }
{
    digest[digest.len() - 1 - k] as u64
}

// What a digest has of edge e.
pub fn pieces_at(digest: &[u32], e: usize) -> usize
    requires { e < length digest.now }
    ensures { (result ≡ get_or digest.now e 0) × (result < 2 ^ 32) }
{
    digest[e] as usize
}

// A volume that has opened, with its digest in a list that someone lends.
#[derive(Clone, Copy)]
pub struct Timetable<'a> {
    pub opened: Opened<'a>,
    pub digest: &'a [u32],
    pub ghost told: { Digest (volume_of opened.records.bytes.now) digest.now },
}

impl Timetable<'_> {
    // The duration of road k, if the digest has it.
    pub fn steady(&self, k: usize) -> Option<u64>
        requires { k < (volume_of self.now.opened.records.bytes.now).roads }
        ensures { MatchOption result (steady_of (volume_of self.now.opened.records.bytes.now) k ≡ 0) (λ d. (d ≡ steady_of (volume_of self.now.opened.records.bytes.now) k) × (d ≢ 0)) }
    {
        match steady_at(self.digest, k) {
            0 => None,
            d => Some(d),
        }
    }

    // The content word at which the pieces of edge e begin, or at which the last pieces end.
    pub fn pieces(&self, e: usize) -> usize
        requires { e ≤ (volume_of self.now.opened.records.bytes.now).edges }
        ensures { (result ≡ pieces_from (volume_of self.now.opened.records.bytes.now) e) × (result < 2 ^ 32) }
    {
        pieces_at(self.digest, e)
    }
}
