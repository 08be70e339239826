// The search under its C name.
ghost use Rattle.std.specs.Prelude.{◌≡◌, ◌≤◌, length};
ghost use Rattle.exports.specs.Searched.{HostSearched};
ghost use Rattle.exports.specs.Told.{with_first};
ghost use Rattle.exports.specs.Numbers.{answer_told};

use crate::tell::{refuse, tell};
use block::refusal::Refusal;
use search::Answer;

// Writes a search's answer: 0 and its kind and values, or the refusal's number and its place.
fn tell_answer(reply: Result<Answer, Refusal>, out: &mut [u64]) -> u32
    requires { 8 ≤ length out.old }
    ensures { (result ≡ (answer_told reply).number) × (out.new ≡ with_first (answer_told reply).values out.old) }
{
    match reply {
        Ok(Answer::Closed(arrival, used, roads)) => tell(out, &[0, arrival, used, roads as u64]),
        Ok(Answer::NoWay(used)) => tell(out, &[1, used]),
        Ok(Answer::Open(lower, Some(most), used)) => tell(out, &[2, lower, 1, most, used]),
        Ok(Answer::Open(lower, None, used)) => tell(out, &[2, lower, 0, 0, used]),
        Err(why) => refuse(out, why),
    }
}

// Searches for the earliest arrival: 0 and kind and values, the roads in `path`; or the refusal's number and its place.
#[unsafe(no_mangle)]
pub extern "C" fn bf_search(
    v: &[u8],
    from: u32,
    to: u32,
    departure: u32,
    budget: u32,
    work: &mut [u64],
    path: &mut [u32],
    out: &mut [u64],
) -> u32
    ensures { HostSearched v.now from to departure budget work.old path.old out.old result work.new path.new out.new }
{
    if out.len() < 8 {
        return 9;
    }
    let reply = search::search(v, from, to, departure, budget, work, path);
    tell_answer(reply, out)
}
