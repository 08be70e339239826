// Document 01's cases as a program runs them: sealing, and the sample network. Each line says what came out and what should. The rules at
// their boundaries are the crate `boundaries`', and questions beside an independent search `sweep`'s.
#![tactic(auto)]

use crate::fullness::fullness;
use crate::questions::questions;
use crate::sealing::sealing;
use crate::times::times;
use std::io;

mod fullness;
mod questions;
mod sealing;
mod times;

fn main(rt: HostRuntime) -> io::Result<()> {
    println!(rt; "Document 01 as programs run it: what comes out, and what should")?;
    sealing(&rt)?;
    times(&rt)?;
    questions(&rt)?;
    fullness(&rt)
}
