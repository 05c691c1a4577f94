// Settings to and from 24 slots of signed 32-bit numbers. A slot that is no setting, M when band-sequential, Q with default
// weights, K beside its table, is not looked at, whatever it holds.
ghost use Rattle.std.specs.Prelude.{◌≡◌, true, cond, ◌&&◌, ◌++◌, ◌<◌, ◌≤◌, ◌^◌, pos, nat_abs, length, drop};
ghost use Rattle.std.specs.Int.Signed.{le_z};
ghost use Rattle.settings_slots.specs.Slots.{slot_count, slot, natural, is_set, image_holds, predictor_holds, coder_holds, holds, image_from, predictor_from, coder_from, settings_from, slots_of, slots_checked};
ghost use Rattle.settings_slots.specs.Storing.{SmallImage, SmallPredictor, SmallCoder, Small, image_slots, predictor_slots, coder_slots};

use refusals::Refusal;
use settings::{Coder, Image, Predictor, Settings};

// Slots of one settings list; more may follow them.
pub const SLOTS: usize = 24;

// ---- one slot

// The slots stay a slice, with a bound in each clause: the definitions are of the whole list that is lent, and an array of its first 24
// would have to be taken in each public function, with a law for each definition that what stands behind does not count.

// 0 or more
fn slot_natural(l: &[i32], i: usize) -> bool
    requires { i < length l.now }
    ensures { result ≡ natural (slot l.now i) }
{
    0 <= l[i]
}

// from 0 to high
fn slot_up_to(l: &[i32], i: usize, high: i32) -> bool
    requires { i < length l.now }
    ensures { result ≡ (le_z (pos 0) (slot l.now i) && le_z (slot l.now i) high) }
{
    (0..=high).contains(&l[i])
}

// a flag that is set
fn slot_set(l: &[i32], i: usize) -> bool
    requires { i < length l.now }
    ensures { result ≡ is_set (slot l.now i) }
{
    1 <= l[i]
}

// The number there. Its size fits for every slot, so that no test has to come first.
fn slot_number(l: &[i32], i: usize) -> u32
    requires { i < length l.now }
    ensures { result ≡ nat_abs (slot l.now i) }
{
    l[i].unsigned_abs()
}

// The number there where the slot is a setting, and else 0.
fn used_number(l: &[i32], i: usize, used: bool) -> u32
    requires { i < length l.now }
    ensures { result ≡ cond used (nat_abs (slot l.now i)) 0 }
{
    if used { slot_number(l, i) } else { 0 }
}

// ---- tests: the record can hold the slots of a part

#[tactic(auto, unfolding(crate::specs::Slots::image_holds))]
fn image_holds(l: &[i32]) -> bool
    requires { slot_count ≤ length l.now }
    ensures { result ≡ image_holds l.now }
{
    slot_up_to(l, 0, 255)
        & slot_natural(l, 1)
        & slot_natural(l, 2)
        & slot_natural(l, 3)
        & slot_up_to(l, 4, 1)
        & slot_natural(l, 5)
        & slot_up_to(l, 6, 1)
        & (slot_set(l, 6) | slot_natural(l, 7))
        & slot_natural(l, 8)
}

#[tactic(auto, unfolding(crate::specs::Slots::predictor_holds))]
fn predictor_holds(l: &[i32]) -> bool
    requires { slot_count ≤ length l.now }
    ensures { result ≡ predictor_holds l.now }
{
    slot_natural(l, 9)
        & slot_up_to(l, 10, 1)
        & slot_up_to(l, 11, 1)
        & slot_natural(l, 12)
        & slot_natural(l, 13)
        & slot_natural(l, 14)
        & slot_up_to(l, 17, 1)
        & (!slot_set(l, 17) | slot_natural(l, 18))
}

#[tactic(auto, unfolding(crate::specs::Slots::coder_holds))]
fn coder_holds(l: &[i32]) -> bool
    requires { slot_count ≤ length l.now }
    ensures { result ≡ coder_holds l.now }
{
    slot_natural(l, 19)
        & slot_natural(l, 20)
        & slot_natural(l, 21)
        & slot_up_to(l, 22, 1)
        & (slot_set(l, 22) | slot_natural(l, 23))
}

#[tactic(auto, unfolding(crate::specs::Slots::holds))]
fn holds(l: &[i32]) -> bool
    requires { slot_count ≤ length l.now }
    ensures { result ≡ holds l.now }
{
    image_holds(l) & predictor_holds(l) & coder_holds(l)
}

// The boundary's own tests, before all others: 24 slots, each of which the record can hold.
pub fn slots_checked(l: &[i32]) -> Result<(), Refusal>
    ensures { result ≡ slots_checked l.now }
{
    if l.len() < SLOTS {
        return Err(Refusal::WrongCount);
    }
    if !holds(l) {
        return Err(Refusal::IllegalSetting);
    }
    Ok(())
}

// ---- the record that the slots name

#[tactic(auto, unfolding(crate::specs::Slots::image_from), using(crate::specs::SlotLaws::user_small))]
fn image_from(l: &[i32]) -> Image
    requires slot_count_in_bounds { slot_count ≤ length l.now }
    requires l_value { holds l.now ≡ true }
    ensures { result ≡ image_from l.now }
{
    let sequential = slot_set(l, 6);
    Image {
        user: slot_number(l, 0) as u8,
        nx: slot_number(l, 1),
        ny: slot_number(l, 2),
        nz: slot_number(l, 3),
        signed: slot_set(l, 4),
        depth: slot_number(l, 5),
        sequential,
        interleave: used_number(l, 7, !sequential),
        word: slot_number(l, 8),
    }
}

#[tactic(auto, unfolding(crate::specs::Slots::predictor_from))]
fn predictor_from(l: &[i32]) -> Predictor
    requires { slot_count ≤ length l.now }
    ensures { result ≡ predictor_from l.now }
{
    let custom = slot_set(l, 17);
    Predictor {
        bands: slot_number(l, 9),
        reduced: slot_set(l, 10),
        column: slot_set(l, 11),
        register: slot_number(l, 12),
        resolution: slot_number(l, 13),
        interval: slot_number(l, 14),
        vmin: l[15],
        vmax: l[16],
        custom,
        precision: used_number(l, 18, custom),
        weights_in_file: custom,
    }
}

#[tactic(auto, unfolding(crate::specs::Slots::coder_from))]
fn coder_from(l: &[i32]) -> Coder
    requires { slot_count ≤ length l.now }
    ensures { result ≡ coder_from l.now }
{
    let tabled = slot_set(l, 22);
    Coder {
        unary: slot_number(l, 19),
        rescaling: slot_number(l, 20),
        initial: slot_number(l, 21),
        tabled,
        constant: used_number(l, 23, !tabled),
        k_in_file: tabled,
    }
}

#[tactic(auto, unfolding(crate::specs::Slots::settings_from))]
pub fn settings_from(l: &[i32]) -> Settings
    requires slot_count_in_bounds { slot_count ≤ length l.now }
    requires l_value { holds l.now ≡ true }
    ensures { result ≡ settings_from l.now }
{
    Settings {
        image: image_from(l),
        predictor: predictor_from(l),
        coder: coder_from(l),
    }
}

// ---- the slots of a record

fn number_slot(n: u32) -> i32
    requires { n < 2 ^ 31 }
    ensures { result ≡ pos n }
{
    n as i32
}

// The slots of each part.
#[tactic(auto, unfolding(crate::specs::Storing::image_slots))]
fn image_slots(s: Image) -> [i32; 9]
    requires { SmallImage s }
    ensures { result ≡ image_slots s }
{
    [
        i32::from(s.user),
        number_slot(s.nx),
        number_slot(s.ny),
        number_slot(s.nz),
        i32::from(s.signed),
        number_slot(s.depth),
        i32::from(s.sequential),
        number_slot(s.interleave),
        number_slot(s.word),
    ]
}

#[tactic(auto, unfolding(crate::specs::Storing::predictor_slots))]
fn predictor_slots(s: Predictor) -> [i32; 10]
    requires { SmallPredictor s }
    ensures { result ≡ predictor_slots s }
{
    [
        number_slot(s.bands),
        i32::from(s.reduced),
        i32::from(s.column),
        number_slot(s.register),
        number_slot(s.resolution),
        number_slot(s.interval),
        s.vmin,
        s.vmax,
        i32::from(s.custom),
        number_slot(s.precision),
    ]
}

#[tactic(auto, unfolding(crate::specs::Storing::coder_slots))]
fn coder_slots(s: Coder) -> [i32; 5]
    requires { SmallCoder s }
    ensures { result ≡ coder_slots s }
{
    [
        number_slot(s.unary),
        number_slot(s.rescaling),
        number_slot(s.initial),
        i32::from(s.tabled),
        number_slot(s.constant),
    ]
}

// All 24; what stands behind them is left.
pub fn put_settings(s: Settings, l: &mut [i32])
    requires slot_count_in_bounds { slot_count ≤ length l.old }
    requires small { Small s }
    ensures { l.new ≡ slots_of s ++ drop slot_count l.old }
{
    l[..9].copy_from_slice(&image_slots(s.image));
    l[9..19].copy_from_slice(&predictor_slots(s.predictor));
    l[19..SLOTS].copy_from_slice(&coder_slots(s.coder));
}
