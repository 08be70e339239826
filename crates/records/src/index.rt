// The edges of each junction, in rising order, made in one pass for whoever would look through all
// edges otherwise: opening, the full check and the search.
ghost use Rattle.std.specs.Prelude.{◌≡◌, ◌+◌, ◌^◌, ◌≤◌, ◌<◌, length};
ghost use Rattle.block.specs.First.{Found};
ghost use Rattle.records.specs.Format.{volume_of};
ghost use Rattle.records.specs.Index.{Indexed, Linked, next_from};

use crate::readers::Records;

// For each junction its first edge, and for each edge the next one of the same start; E for none. In the lists they are numbers and no
// options, two bytes an edge, since they lie in the fixed memory of a call; `Index` reads them as options.
pub fn index_edges(r: &Records<'_>, first: &mut [u16], next: &mut [u16])
    requires edges_bound { r.now.counts.edges < 2 ^ 16 }
    requires junctions_in_bounds { (r.now.counts.junctions ≤ length first.old) × (r.now.counts.edges ≤ length next.old) }
    ensures { Indexed (volume_of r.now.bytes.now) first.old next.old first.new next.new 0 }
{
    let n = r.counts.junctions;
    let edges = r.counts.edges;
    first[..n].fill(edges as u16);
    for e in (0..edges).rev() {
        let from = r.edge(e).from;
        if from < n {
            next[e] = first[from];
            first[from] = e as u16;
        }
    }
}

// The records with their edges indexed, in lists that someone lends. Who walks the edges of a junction goes by `first` and `next`, with a
// `while let` and no `for`: an iterator would be no plainer, since each step asks what the last one found.
#[derive(Clone, Copy)]
pub struct Index<'a> {
    pub records: Records<'a>,
    pub first: &'a [u16],
    pub next: &'a [u16],
    pub ghost linked: { Linked (volume_of records.bytes.now) first.now next.now },
}

impl Index<'_> {
    // The first edge from junction u.
    pub fn first(&self, u: usize) -> Option<usize>
        requires { u < (volume_of self.now.records.bytes.now).junctions }
        ensures { Found result (next_from (volume_of self.now.records.bytes.now) u 0) (volume_of self.now.records.bytes.now).edges }
    {
        let e = self.first[u] as usize;
        (e < self.records.counts.edges).then_some(e)
    }

    // The edge after e from the same junction.
    pub fn next(&self, e: usize) -> Option<usize>
        requires e_bound { e < (volume_of self.now.records.bytes.now).edges }
        requires from_bound { (volume_of self.now.records.bytes.now).edge_from e < (volume_of self.now.records.bytes.now).junctions }
        ensures { Found result (next_from (volume_of self.now.records.bytes.now) ((volume_of self.now.records.bytes.now).edge_from e) (e + 1)) (volume_of self.now.records.bytes.now).edges }
    {
        let e = self.next[e] as usize;
        (e < self.records.counts.edges).then_some(e)
    }
}
