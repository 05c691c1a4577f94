// What an area consists of: the slots of settings, tables, images and scratch, and the bytes of files.
ghost use Rattle.std.specs.Prelude.{◌≡◌, ℕ, All};
ghost use Rattle.std.specs.Int.{cast_unsigned, w32};
ghost use Rattle.replay_areas.specs.declared.shared.TheConstants.{BYTE_BEFORE, SLOT_BEFORE};

use super::shared::{BYTE_BEFORE, SLOT_BEFORE};

pub trait Element: Copy {
    // What every element that a call may write holds before it: a pattern that no answer has, so that what a call leaves alone is
    // seen.
    const BEFORE: Self;

    ghost BEFORE: { Self };

    ghost in_hash: { Self → ℕ };

    // The word that stands for it in a hash.
    fn word(self) -> u32
        ensures { result ≡ in_hash self };
}

impl Element for u8 {
    const BEFORE: u8 = BYTE_BEFORE;

    ghost BEFORE = { BYTE_BEFORE };

    ghost in_hash = { λ x. x };

    fn word(self) -> u32 {
        u32::from(self)
    }
}

// A slot's word is its two's complement.
impl Element for i32 {
    const BEFORE: i32 = SLOT_BEFORE;

    ghost BEFORE = { SLOT_BEFORE };

    ghost in_hash = { cast_unsigned w32 };

    fn word(self) -> u32 {
        self.cast_unsigned()
    }
}

// Makes an area ready for a call that may write it. std's `fill` would ask that a clone cannot fail, which no bound says.
pub fn prepare<T: Element>(area: &mut [T])
    ensures { All (λ x. x ≡ T.BEFORE) area.new }
{
    for place in area {
        *place = T::BEFORE;
    }
}
