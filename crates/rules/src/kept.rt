// What the pass over the edges keeps of those that have passed: start, end and span. A pair asks them of its two edges, and reading
// them from a short list is much cheaper than from the sealed words. They are numbers in a list and no structs, because the list is the
// one that held the index of the edges: the library has no heap, and the two are never needed at once.
ghost use Rattle.std.specs.Prelude.{◌≡◌, ◌+◌, ◌*◌, ◌^◌, ◌<◌, get_or, length};
ghost use Rattle.records.specs.Format.{volume_of};
ghost use Rattle.rules.specs.Kept.{keeping, Kept, Short};

use records::readers::Records;

// The numbers kept of an edge, and how many there are.
pub const START: usize = 0;

pub const END: usize = 1;

pub const SPAN: usize = 2;

const PARTS: usize = 3;

// Where an edge, a road or two edges in turn lead from and to.
#[derive(Clone, Copy)]
pub struct Ends {
    pub from: usize,
    pub to: usize,
}

// The edges before edge `edge` have passed, and this is kept of them.
#[derive(Clone, Copy)]
pub struct Earlier<'a> {
    pub records: Records<'a>,
    pub edge: usize,
    pub kept: &'a [u16],
    pub ghost holds: { Kept (volume_of records.bytes.now) edge kept.now },
}

// Number i of those kept of edge d. It stands beside the methods of `Earlier`, since it says it of any list.
pub fn kept_part(kept: &[u16], d: usize, i: usize) -> usize
    requires { 3 * d + i < length kept.now }
    ensures { (result ≡ get_or kept.now (3 * d + i) 0) × (result < 2 ^ 16) }
{
    kept[PARTS * d + i] as usize
}

impl Earlier<'_> {
    // The ends of edge d.
    pub fn ends(&self, d: usize) -> Ends
        requires { d < self.now.edge }
        ensures from_value { (result.from ≡ (volume_of self.now.records.bytes.now).edge_from d) × (result.from < 2 ^ 16) }
        ensures to_value { (result.to ≡ (volume_of self.now.records.bytes.now).edge_to d) × (result.to < 2 ^ 16) }
    {
        Ends {
            from: kept_part(self.kept, d, START),
            to: kept_part(self.kept, d, END),
        }
    }

    // The span of edge d.
    pub fn span(&self, d: usize) -> usize
        requires { d < self.now.edge }
        ensures { (result ≡ (volume_of self.now.records.bytes.now).edge_span d) × (result < 2 ^ 16) }
    {
        kept_part(self.kept, d, SPAN)
    }
}

// Keeps edge e.
pub fn keep(r: &Records<'_>, kept: &mut [u16], e: usize)
    requires e_bound { e < (volume_of r.now.bytes.now).edges }
    requires short { Short (volume_of r.now.bytes.now) e }
    requires e_in_bounds { 3 * e + 2 < length kept.old }
    ensures { kept.new ≡ keeping (volume_of r.now.bytes.now) e kept.old }
{
    let edge = r.edge(e);
    kept[PARTS * e + START] = edge.from as u16;
    kept[PARTS * e + END] = edge.to as u16;
    kept[PARTS * e + SPAN] = edge.span as u16;
}
