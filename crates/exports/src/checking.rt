// The full check under its C name.
ghost use Rattle.std.specs.Prelude.{◌≡◌, ◌≤◌, Ok, length};
ghost use Rattle.full.specs.Fault.{verdict_of};
ghost use Rattle.exports.specs.Told.{told_number, told_places, with_first};
ghost use Rattle.exports.specs.Numbers.{verdict_told};

use crate::tell::{refuse, tell};
use full::Fault;

// Writes what the check found: kind, road or left edge, right edge, second.
fn tell_found(out: &mut [u64], found: Option<Fault>) -> u32
    requires { 8 ≤ length out.old }
    ensures { (result ≡ (verdict_told (Ok found)).number) × (out.new ≡ with_first (verdict_told (Ok found)).values out.old) }
{
    match found {
        None => tell(out, &[0, 0, 0, 0]),
        Some(Fault::RoadMissing(k)) => tell(out, &[1, k as u64, 0, 0]),
        Some(Fault::RoadLate(k, x)) => tell(out, &[2, k as u64, 0, x]),
        Some(Fault::PairMissing(l, r)) => tell(out, &[3, l as u64, r as u64, 0]),
        Some(Fault::PairLate(l, r, x)) => tell(out, &[4, l as u64, r as u64, x]),
    }
}

// Checks that a volume is full: 0 and kind, road or left edge, right edge, second; or the refusal's number and its place.
#[unsafe(no_mangle)]
pub extern "C" fn bf_check(v: &[u8], out: &mut [u64]) -> u32
    ensures { (result ≡ told_number out.old (verdict_told (verdict_of v.now))) × (out.new ≡ told_places out.old (verdict_told (verdict_of v.now))) }
{
    if out.len() < 8 {
        return 9;
    }
    match full::check(v) {
        Ok(found) => tell_found(out, found),
        Err(why) => refuse(out, why),
    }
}
