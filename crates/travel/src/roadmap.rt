// A volume for whoever walks it from edge to edge: the edges of each junction, and the times.
ghost use Rattle.std.specs.Prelude.{◌≡◌, ◌+◌, ◌<◌};
ghost use Rattle.block.specs.First.{Found};
ghost use Rattle.records.specs.Format.{volume_of};
ghost use Rattle.records.specs.Index.{Linked, next_from};

use crate::digest::Timetable;
use records::index::Index;

// The times of an opened volume, with the index of its edges in lists that someone lends. With an `Index` in it the records would stand
// in it twice, and it would have to say that the two are one.
#[derive(Clone, Copy)]
pub struct Roadmap<'a> {
    pub times: Timetable<'a>,
    pub first: &'a [u16],
    pub next: &'a [u16],
    pub ghost linked: { Linked (volume_of times.opened.records.bytes.now) first.now next.now },
}

impl<'a> Roadmap<'a> {
    // The times of a volume with the index of its edges. That the lists link the edges is asked here, once.
    pub fn new(times: Timetable<'a>, first: &'a [u16], next: &'a [u16]) -> Self
        requires { Linked (volume_of times.opened.records.bytes.now) first.now next.now }
        ensures times { (result.times.opened.records.bytes.now ≡ times.entry.opened.records.bytes.now) × (result.times.digest.now ≡ times.entry.digest.now) }
        ensures lists { (result.first.now ≡ first.now) × (result.next.now ≡ next.now) }
    {
        Roadmap { times, first, next }
    }
}

impl Roadmap<'_> {
    // The index of its edges.
    fn index(&self) -> Index<'_>
        ensures { result.records.bytes.now ≡ self.now.times.opened.records.bytes.now }
    {
        Index {
            records: self.times.opened.records,
            first: self.first,
            next: self.next,
        }
    }

    // The first edge from junction u.
    pub fn first(&self, u: usize) -> Option<usize>
        requires { u < (volume_of self.now.times.opened.records.bytes.now).junctions }
        ensures { Found result (next_from (volume_of self.now.times.opened.records.bytes.now) u 0) (volume_of self.now.times.opened.records.bytes.now).edges }
    {
        self.index().first(u)
    }

    // The edge after e from the same junction.
    pub fn next(&self, e: usize) -> Option<usize>
        requires e_bound { e < (volume_of self.now.times.opened.records.bytes.now).edges }
        requires from_bound { (volume_of self.now.times.opened.records.bytes.now).edge_from e < (volume_of self.now.times.opened.records.bytes.now).junctions }
        ensures { Found result (next_from (volume_of self.now.times.opened.records.bytes.now) ((volume_of self.now.times.opened.records.bytes.now).edge_from e) (e + 1)) (volume_of self.now.times.opened.records.bytes.now).edges }
    {
        self.index().next(e)
    }
}
