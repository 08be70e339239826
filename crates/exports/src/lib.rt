// The C names, for hosts, tests and benchmarks: each function of the face with its answer as a number and a list of 64-bit numbers.
// host/breezeflint.h declares them. The numbers and the parameter lists are the C interface's.
#![tactic(auto)]

ghost use Rattle.std.specs.Prelude.{◌≡◌, ◌≤◌, length};
ghost use Rattle.block.specs.Seal.{sealed};
ghost use Rattle.volume.specs.Open.{open_of};
ghost use Rattle.travel.specs.Times.{road_time_of, edge_time_of};
ghost use Rattle.exports.specs.Told.{told_number, told_places};
ghost use Rattle.exports.specs.Numbers.{sealing_number, opening_told, timing_told};

use crate::tell::{refuse, tell};
use block::refusal::Refusal;

pub mod checking;
pub mod searching;
pub mod tell;

// Seals a volume: 0, or the refusal's number.
#[unsafe(no_mangle)]
pub extern "C" fn bf_seal(v: &mut [u8]) -> u32
    ensures { (result ≡ sealing_number v.old) × (v.new ≡ sealed v.old) }
{
    match block::seal(v) {
        Ok(()) => 0,
        Err(why) => why.number(),
    }
}

// Opens a volume: 0 and N, R, P, E, Q; or the refusal's number and its place.
#[unsafe(no_mangle)]
pub extern "C" fn bf_open(v: &[u8], out: &mut [u64]) -> u32
    ensures { (result ≡ told_number out.old (opening_told (open_of v.now))) × (out.new ≡ told_places out.old (opening_told (open_of v.now))) }
{
    if out.len() < 8 {
        return 9;
    }
    match volume::open(v) {
        Ok(c) => tell(
            out,
            &[
                c.junctions as u64,
                c.roads as u64,
                c.points as u64,
                c.edges as u64,
                c.pieces as u64,
            ],
        ),
        Err(why) => refuse(out, why),
    }
}

// Writes a travel time: 0 and the duration, or the refusal's number and its place.
fn tell_time(timing: Result<u64, Refusal>, out: &mut [u64]) -> u32
    requires { 8 ≤ length out.old }
    ensures { (result ≡ told_number out.old (timing_told timing)) × (out.new ≡ told_places out.old (timing_told timing)) }
{
    match timing {
        Ok(duration) => tell(out, &[duration]),
        Err(why) => refuse(out, why),
    }
}

// How long a road takes at a departure.
#[unsafe(no_mangle)]
pub extern "C" fn bf_road_time(v: &[u8], road: u32, departure: u32, out: &mut [u64]) -> u32
    ensures { (result ≡ told_number out.old (timing_told (road_time_of v.now road departure))) × (out.new ≡ told_places out.old (timing_told (road_time_of v.now road departure))) }
{
    if out.len() < 8 {
        return 9;
    }
    tell_time(travel::road_time(v, road, departure), out)
}

// How long an edge takes at a departure.
#[unsafe(no_mangle)]
pub extern "C" fn bf_edge_time(v: &[u8], edge: u32, departure: u32, out: &mut [u64]) -> u32
    ensures { (result ≡ told_number out.old (timing_told (edge_time_of v.now edge departure))) × (out.new ≡ told_places out.old (timing_told (edge_time_of v.now edge departure))) }
{
    if out.len() < 8 {
        return 9;
    }
    tell_time(travel::edge_time(v, edge, departure), out)
}
