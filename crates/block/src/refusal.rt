// Why a call is refused: the refusals of document 01, with their numbers and places. Every crate above refuses by one of these.
ghost use Rattle.std.specs.Prelude.{◌≡◌};
ghost use Rattle.block.specs.Refusal.{refusal_number, refusal_place};

use std::error::Error;
use std::fmt;

#[derive(Clone, Copy, Debug, PartialEq, Eq)]
pub enum Refusal {
    // the bytes are not 1 to 3,381 whole blocks
    Length,
    // the first block whose sums differ
    Sums(usize),
    // another edition than 1
    Edition,
    // a limit of the head, the number of blocks, or the filler
    Head,
    // the first road at fault, or the number of roads where points are left over
    Road(usize),
    // the first edge at fault, or the number of edges where pieces are left over
    Edge(usize),
    // the road, the edge or the junction to start from is none of the volume
    Unknown,
    // the junction to go to is none of the volume
    UnknownDestination,
    // the work area is too short
    Work,
    // the path list is too short for so many roads
    Path(usize),
    // an arrival does not fit
    Arrival,
}

impl Refusal {
    // The document's number of the refusal.
    pub fn number(self) -> u32
        ensures { result ≡ refusal_number self }
    {
        match self {
            Refusal::Length => 1,
            Refusal::Sums(_) => 2,
            Refusal::Edition => 3,
            Refusal::Head => 4,
            Refusal::Road(_) => 5,
            Refusal::Edge(_) => 6,
            Refusal::Unknown => 7,
            Refusal::UnknownDestination => 7,
            Refusal::Work => 8,
            Refusal::Path(_) => 9,
            Refusal::Arrival => 10,
        }
    }

    // Where the refusal lies: a block, a road, an edge, or how many roads the path has; 1 for the destination, else 0.
    pub fn place(self) -> u64
        ensures { result ≡ refusal_place self }
    {
        match self {
            Refusal::Sums(block) => block as u64,
            Refusal::Road(k) => k as u64,
            Refusal::Edge(e) => e as u64,
            Refusal::UnknownDestination => 1,
            Refusal::Path(roads) => roads as u64,
            _ => 0,
        }
    }
}

impl fmt::Display for Refusal {
    fn fmt<W: fmt::Write>(&self, f: &mut fmt::Formatter<W>) -> fmt::Result {
        write!(f, "refused {} {}", self.number(), self.place())
    }
}

impl Error for Refusal {}
