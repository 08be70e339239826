// Travel times: how long a road and an edge take at a departure, and the roads that an edge unfolds to. Answers to document 01,
// "Travel time", and to its sentences on the unfolded path. What a volume holds is the crate `records`'.
#![tactic(auto)]

ghost use Rattle.std.specs.Prelude.{◌≡◌, ◌+◌, ◌≤◌, ◌<◌};
ghost use Rattle.records.specs.Format.{volume_of};
ghost use Rattle.travel.specs.Network.{Enters, arrival};
ghost use Rattle.travel.specs.Times.{road_time_of, edge_time_of};

use crate::digest::{LONG, SHORT, Timetable, make_digest};
use crate::path::count_roads;
use crate::road::road_duration;
use block::refusal::Refusal;
use volume::read;
use volume::sound::Opened;

pub mod digest;
pub mod edge;
pub mod last;
pub mod path;
pub mod road;
pub mod roadmap;

// How long a road takes, entered at any departure.
pub fn road_time(v: &[u8], road: u32, departure: u32) -> Result<u64, Refusal>
    ensures { result ≡ road_time_of v.now road departure }
{
    let opened = read(v)?;
    let k = road as usize;
    if opened.records.counts.roads <= k {
        return Err(Refusal::Unknown);
    }
    Ok(road_duration(&opened, k, departure as u64))
}

// The duration of edge e for who enters it at x, by a digest in a list of N numbers.
fn edge_digested<const N: usize>(opened: &Opened<'_>, e: usize, x: u64) -> u64
    requires enters { Enters (volume_of opened.now.records.bytes.now) e x }
    requires n_bound { (opened.now.records.counts.edges + opened.now.records.counts.roads < N) × (N ≤ LONG) }
    ensures { x + result ≡ arrival (volume_of opened.now.records.bytes.now) e x }
{
    let mut digest = [0u32; N];
    make_digest(opened, &mut digest);
    let times = Timetable {
        opened: *opened,
        digest: &digest,
    };
    times.edge_duration(e, x)
}

// The same for any edge. A short one is unfolded where its pieces stand, since a digest of all roads and edges would take longer than
// the walk itself: making a short list takes what a digest saves for 16 roads, and 16 edges are listed in what it saves for one more. Few
// roads and edges get a short list. It is not drawn into its callers: the lists would then lie in their frames while the volume is opened.
#[inline(never)]
fn edge_lasts(opened: &Opened<'_>, e: usize, x: u64) -> u64
    requires { Enters (volume_of opened.now.records.bytes.now) e x }
    ensures { x + result ≡ arrival (volume_of opened.now.records.bytes.now) e x }
{
    let counts = opened.records.counts;
    if 16 * opened.records.edge(e).span <= counts.edges + 256 {
        count_roads(opened, e, x).duration
    } else if counts.edges + counts.roads < SHORT {
        edge_digested::<SHORT>(opened, e, x)
    } else {
        edge_digested::<LONG>(opened, e, x)
    }
}

// How long an edge takes, entered at any departure.
pub fn edge_time(v: &[u8], edge: u32, departure: u32) -> Result<u64, Refusal>
    ensures { result ≡ edge_time_of v.now edge departure }
{
    let opened = read(v)?;
    let e = edge as usize;
    if opened.records.counts.edges <= e {
        return Err(Refusal::Unknown);
    }
    Ok(edge_lasts(&opened, e, departure as u64))
}
