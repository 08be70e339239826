// Writing an answer to the first places of the list `out` that a host lends. That it has 8 places the functions under C names test, and
// those below them ask.
ghost use Rattle.std.specs.Prelude.{◌≡◌, ◌≤◌, [], ◌∷◌, length};
ghost use Rattle.block.specs.Refusal.{refusal_number, refusal_place};
ghost use Rattle.exports.specs.Told.{with_first};

use block::refusal::Refusal;

// Writes the values to the first places, and answers 0: not refused.
pub fn tell(out: &mut [u64], values: &[u64]) -> u32
    requires { length values.now ≤ length out.old }
    ensures { (result ≡ 0) × (out.new ≡ with_first values.now out.old) }
{
    out[..values.len()].copy_from_slice(values);
    0
}

// Writes the refusal's place to the first place, and answers its number.
pub fn refuse(out: &mut [u64], why: Refusal) -> u32
    requires { 1 ≤ length out.old }
    ensures { (result ≡ refusal_number why) × (out.new ≡ with_first (refusal_place why ∷ []) out.old) }
{
    out[0] = why.place();
    why.number()
}
