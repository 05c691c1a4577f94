// Lent areas are cleared whole, so that after a refusal no half file and no half image is left.
ghost use Rattle.std.specs.Prelude.{◌≡◌, length, replicate};

// Every element of an area, bytes or slots, becomes zero. std's `fill` would ask that a clone cannot fail, which no bound says.
#[tactic(auto, using(crate::proofs::Clears::fill_more))]
pub fn clear<T: Copy>(area: &mut [T], zero: T)
    ensures { area.new ≡ replicate (length area.old) zero }
{
    'clear: for held in area.iter_mut() {
        *held = zero;
    }
}
