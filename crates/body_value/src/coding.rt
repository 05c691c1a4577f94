// The coder's half of a value: its bits, written or read, and the band's statistics behind it.
ghost use Rattle.std.specs.Prelude.{◌≡◌, ◌^◌, ◌<◌, length, set, pos};
ghost use Rattle.bitstream.specs.Stream.{unpack};
ghost use Rattle.body_value.specs.Coder.{statistics_in, Counts, Keeping, Coding, Coded, Decoding, Decoded};

use super::plan::Plan;
use bitstream::read::{Bits, Unread};
use bitstream::write::Tail;
use coder::Statistics;
use coder::counts::{natural, next_statistics};
use coder::value::{get_value, put_value};

// The statistics that slots hold.
fn held(p: Plan, slots: &[i32]) -> Statistics
    requires { Counts p.settings slots.now }
    ensures { result ≡ statistics_in slots.now }
{
    let count = natural(slots, 0);
    let accumulator = natural(slots, 1);
    Statistics { count, accumulator }
}

// A number into a slot.
fn keep_natural(slots: &mut [i32], at: usize, value: u32)
    requires { (at < length slots.old) × (value < 2 ^ 31) }
    ensures { slots.new ≡ set slots.old at (pos value) }
{
    slots[at] = value as i32;
}

// Statistics into slots.
pub fn keep(slots: &mut [i32], s: Statistics)
    requires { Keeping slots.old s }
    ensures { slots.new ≡ set (set slots.old 0 (pos s.count)) 1 (pos s.accumulator) }
{
    keep_natural(&mut *slots, 0, s.count);
    keep_natural(&mut *slots, 1, s.accumulator);
}

// A mapped value behind what is held.
pub fn coded(p: Plan, slots: &mut [i32], delta: u32, t: usize, tail: Tail, out: &mut [u8]) -> Tail
    requires { Coding p slots.old delta tail }
    ensures { Coded p slots.old delta t tail out.old slots.new result out.new }
{
    let s = p.settings;
    if t == 0 {
        return tail.put(out, delta, s.image.depth);
    }
    let old = held(p, &*slots);
    let new = next_statistics(old, delta, s.coder.rescaling);
    keep(slots, new);
    put_value(tail, out, delta, old, s.image.depth, s.coder.unary)
}

// The mapped value at a position of the file.
pub fn decoded(p: Plan, slots: &mut [i32], bits: Bits, t: usize) -> Result<(u32, usize), Unread>
    requires { Decoding p slots.old bits.at }
    ensures { Decoded p slots.old (unpack bits.entry.file.now) bits.entry.at t slots.new result }
{
    let s = p.settings;
    if t == 0 {
        return bits.get(s.image.depth);
    }
    let old = held(p, &*slots);
    let (delta, next) = get_value(bits, old, s.image.depth, s.coder.unary)?;
    let new = next_statistics(old, delta, s.coder.rescaling);
    keep(slots, new);
    Ok((delta, next))
}
