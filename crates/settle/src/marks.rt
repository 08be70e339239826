// Marks: document 01, "a junction is marked if it is the destination or has an edge to a marked junction of lower rank". An edge to
// lower rank leads to a junction whose mark is known already, since junctions go in rising order.
ghost use Rattle.std.specs.Prelude.{◌≡◌, ◌≤◌, ◌<◌, length};
ghost use Rattle.records.specs.Format.{volume_of};
ghost use Rattle.settle.specs.Marked.{mark_of, MarksBelow, Marks};

use records::index::Index;

// The mark of junction u, where the marks of all lower junctions are known.
fn mark_of(index: &Index<'_>, to: usize, u: usize, marks: &[bool]) -> bool
    requires u_bound { (u < (volume_of index.now.records.bytes.now).junctions) × (u < length marks.now) }
    requires marks_below { MarksBelow (volume_of index.now.records.bytes.now) to u marks.now }
    ensures { result ≡ mark_of (volume_of index.now.records.bytes.now) to u }
{
    if u == to {
        return true;
    }
    let mut at = index.first(u);
    while let Some(e) = at {
        let w = index.records.edge(e).to;
        if w < u && marks[w] {
            return true;
        }
        at = index.next(e);
    }
    false
}

// The mark of every junction.
pub fn mark(index: &Index<'_>, to: usize, marks: &mut [bool])
    requires { index.now.records.counts.junctions ≤ length marks.old }
    ensures { Marks (volume_of index.now.records.bytes.now) to (volume_of index.now.records.bytes.now).junctions marks.old marks.new }
{
    for u in 0..index.records.counts.junctions {
        marks[u] = mark_of(index, to, u, marks);
    }
}
