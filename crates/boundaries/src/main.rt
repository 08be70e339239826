// Document 01's rules at their boundaries: what just opens and what is just refused, and edges of the greatest span. Each line says what
// came out and what should.
#![tactic(auto)]

use crate::opening::openings;
use crate::spans::spans;
use std::io;

mod opening;
mod spans;

fn main(rt: HostRuntime) -> io::Result<()> {
    openings(&rt)?;
    spans(&rt)
}
