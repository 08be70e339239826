// The pass over the roads.
ghost use Rattle.std.specs.Prelude.{◌≡◌};
ghost use Rattle.records.specs.Format.{volume_of};
ghost use Rattle.volume.specs.Passes.{roads_pass};

use block::refusal::Refusal;
use records::readers::Records;
use rules::roads::road_fits;

// The pass over all roads: refuses the first at fault, or R where points are left over.
pub fn roads_pass(r: &Records<'_>) -> Result<(), Refusal>
    ensures { result ≡ roads_pass (volume_of r.now.bytes.now) }
{
    let n = r.counts.roads;
    let mut begin: usize = 0;
    for k in 0..n {
        if !road_fits(r, k, begin) {
            return Err(Refusal::Road(k));
        }
        let road = r.road(k);
        begin = road.first + road.points;
    }
    if begin != r.counts.points {
        return Err(Refusal::Road(n));
    }
    Ok(())
}
