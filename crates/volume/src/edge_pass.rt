// The pass over the edges, and the lists that it works with.
ghost use Rattle.std.specs.Prelude.{◌≡◌, ◌*◌, ◌≤◌, length};
ghost use Rattle.records.specs.Format.{volume_of, Few};
ghost use Rattle.volume.specs.Passes.{edges_pass};
ghost use Rattle.volume.specs.Repeats.{FirstRepeat};

use crate::repeats::first_repeat;
use block::refusal::Refusal;
use records::index::{Index, index_edges};
use records::readers::Records;
use rules::edges::edge_fits;
use rules::kept::{Earlier, keep};

// The pass over all edges, of which `repeat` is the first whose ends an earlier one has: refuses the first edge at fault, or E where
// pieces are left over. It keeps what later pairs ask of an edge.
fn pass_keeping(r: &Records<'_>, repeat: usize, kept: &mut [u16]) -> Result<(), Refusal>
    requires first_repeat { FirstRepeat (volume_of r.now.bytes.now) repeat }
    requires junctions_bound { r.now.counts.junctions ≤ 1024 }
    requires edges_in_bounds { 3 * r.now.counts.edges ≤ length kept.old }
    ensures { result ≡ edges_pass (volume_of r.now.bytes.now) }
{
    let mut begin: usize = 0;
    for e in 0..repeat {
        let passed = Earlier {
            records: *r,
            edge: e,
            kept,
        };
        if !edge_fits(&passed, begin) {
            return Err(Refusal::Edge(e));
        }
        begin += r.edge(e).pieces;
        keep(r, kept, e);
    }
    if repeat < r.counts.edges {
        return Err(Refusal::Edge(repeat));
    }
    if begin != r.counts.pieces {
        return Err(Refusal::Edge(repeat));
    }
    Ok(())
}

// The pass over all edges, with lists for J junctions and L numbers. One list holds the index until the first repeat is found, and then
// what is kept of the edges that passed.
fn pass_with<const J: usize, const L: usize>(r: &Records<'_>) -> Result<(), Refusal>
    requires j_bound { (r.now.counts.junctions ≤ J) × (J ≤ 1024) }
    requires l_bound { (3 * r.now.counts.edges ≤ L) × (L ≤ 49152) }
    ensures { result ≡ edges_pass (volume_of r.now.bytes.now) }
{
    let mut first = [0u16; J];
    let mut stamps = [0u16; J];
    let mut list = [0u16; L];
    index_edges(r, &mut first, &mut list);
    let index = Index {
        records: *r,
        first: &first,
        next: &list,
    };
    let repeat = first_repeat(&index, &mut stamps);
    pass_keeping(r, repeat, &mut list)
}

// The pass over all edges: refuses the first at fault, or E where pieces are left over. Long lists take longer to make than a small
// volume takes to read, so fewer edges get shorter lists. That the counts are few is asked here and is no field of `Records`, since the
// pass over the roads may not ask it.
pub fn edges_pass(r: &Records<'_>) -> Result<(), Refusal>
    requires { Few r.now.counts }
    ensures { result ≡ edges_pass (volume_of r.now.bytes.now) }
{
    let edges = r.counts.edges;
    if edges <= 64 && r.counts.junctions <= 64 {
        pass_with::<64, 192>(r)
    } else if edges <= 1024 {
        pass_with::<1024, 3072>(r)
    } else if edges <= 4096 {
        pass_with::<1024, 12288>(r)
    } else {
        pass_with::<1024, 49152>(r)
    }
}
