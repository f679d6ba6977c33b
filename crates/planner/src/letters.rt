// The letters of a schedule, written back from its last quarter along the trail.
ghost use Rattle.std.specs.Prelude.{◌≡◌, ◌+◌, ◌*◌, ◌<◌, ◌≤◌, List, [], ◌∷◌, ◌++◌, map, length, take, drop};
ghost use Rattle.duty.specs.declared.Duty.{Duty};
ghost use Rattle.duty.specs.declared.Duty.TheVariants.{Work};
ghost use Rattle.duty.specs.Duties.{letter_of};
ghost use Rattle.planner.specs.Trail.{Path};

use crate::trail::decode;
use duty::Duty;

// Writes the statuses that lead to the label at `place` of layer `t`, and then the last quarter of work.
pub(crate) fn write_letters(trail: &[u16], width: usize, t: usize, place: usize, output: &mut [u8])
    requires led { (ls : List Duty) × Path trail.now width t place ls }
    requires place_within { place < width }
    requires trail_within { t * width ≤ length trail.now }
    requires room { t < length output.old }
    ensures written { (ls : List Duty) → Path trail.now width t place ls → take (t + 1) output.new ≡ map letter_of (ls ++ Work ∷ []) }
    ensures beyond { drop (t + 1) output.new ≡ drop (t + 1) output.old }
{
    output[t] = u8::from(Duty::Work);
    let mut label = place;
    // By place, in the lent trail of `width` notes a layer: each note names the label of the layer before, and layers in chunks, turned round and zipped with the output, say that less plainly.
    for i in (0..t).rev() {
        let (from, duty) = decode(trail[i * width + label]);
        output[i] = u8::from(duty);
        label = from;
    }
}
