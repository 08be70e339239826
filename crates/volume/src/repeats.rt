// The first edge whose two ends an earlier edge has, found in one walk over the edges of each junction: a junction that an edge
// reaches is stamped with where the edge begins, so that a second such edge finds the stamp.
ghost use Rattle.std.specs.Prelude.{◌≡◌, ◌+◌, ◌-◌, ◌^◌, ◌≤◌, ◌<◌, length};
ghost use Rattle.records.specs.Format.{volume_of};
ghost use Rattle.volume.specs.Repeats.{bears, stamped_on, Stamped, LeastBelow, FirstRepeat};

use records::index::Index;

// Stamps junction w, if it lies below n: did it bear the stamp already?
fn stamp_on(stamps: &mut [u16], n: usize, w: usize, stamp: u16) -> bool
    requires { n ≤ length stamps.old }
    ensures { (result ≡ bears stamps.old n w stamp) × (stamps.new ≡ stamped_on stamps.old n w stamp) }
{
    if n <= w {
        return false;
    }
    if stamps[w] == stamp {
        return true;
    }
    stamps[w] = stamp;
    false
}

// The first edge from u that repeats an earlier one's ends, or `least` if none before it does.
fn repeat_from(index: &Index<'_>, u: usize, stamps: &mut [u16], least: usize) -> usize
    requires u_bound { (u < index.now.records.counts.junctions) × (u < 2 ^ 16 - 1) }
    requires stamped { Stamped index.now.records.counts.junctions u stamps.old }
    requires least_below { LeastBelow (volume_of index.now.records.bytes.now) u least }
    ensures least_below_2 { LeastBelow (volume_of index.now.records.bytes.now) (u + 1) result }
    ensures stamped_2 { Stamped index.now.records.counts.junctions (u + 1) stamps.new }
{
    let n = index.records.counts.junctions;
    let stamp = (u + 1) as u16;
    let mut at = index.first(u);
    while let Some(e) = at {
        if least <= e {
            return least;
        }
        if stamp_on(stamps, n, index.records.edge(e).to, stamp) {
            return e;
        }
        at = index.next(e);
    }
    least
}

// The first edge whose two ends an earlier edge has, or E. It is a number and no option, since the pass over the edges ends there in
// either case. The stamps are to be clean: that is asked and is no field, since the list is lent to be changed.
pub fn first_repeat(index: &Index<'_>, stamps: &mut [u16]) -> usize
    requires junctions_bound { index.now.records.counts.junctions < 2 ^ 16 }
    requires stamped { Stamped index.now.records.counts.junctions 0 stamps.old }
    ensures first_repeat { FirstRepeat (volume_of index.now.records.bytes.now) result }
    ensures stamped_2 { Stamped index.now.records.counts.junctions index.now.records.counts.junctions stamps.new }
{
    let mut least = index.records.counts.edges;
    for u in 0..index.records.counts.junctions {
        least = repeat_from(index, u, stamps, least);
    }
    least
}
