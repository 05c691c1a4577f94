// One value of a band through its slots: the two halves, each with its own part of them.
ghost use Rattle.std.specs.Prelude.{◌≡◌};
ghost use Rattle.bitstream.specs.Stream.{unpack};
ghost use Rattle.body_value.specs.Value.{Writing, Wrote, Reading, Stepped, refused_at};

use super::coding::{coded, decoded};
use super::plan::Plan;
use super::predicting::{mapped_here, sample_here};
use super::{Cursor, Place};
use bitstream::read::{Bits, Unread};
use bitstream::write::Tail;
use refusals::Refusal;

// The value at a place, written.
pub fn write_value(
    p: Plan,
    image: &[i32],
    slots: &mut [i32],
    tail: Tail,
    out: &mut [u8],
    place: Place,
) -> Tail
    requires { Writing p image.now slots.old tail place }
    ensures { Wrote p image.now slots.old tail out.old place slots.new result out.new }
{
    let delta = mapped_here(p, image, &mut slots[..18], place);
    coded(p, &mut slots[18..32], delta, place.t, tail, out)
}

// Why the body is refused where the value of this rank is not read.
fn refused_at(rank: u64, why: Unread) -> Refusal
    ensures { result ≡ refused_at rank why }
{
    match why {
        Unread::Short => Refusal::BodyEnds(rank),
        Unread::Bad => Refusal::BadCodeword(rank),
    }
}

// The value at a place, read, and its sample stored.
pub fn read_value(
    p: Plan,
    file: &[u8],
    c: Cursor,
    slots: &mut [i32],
    image: &mut [i32],
    place: Place,
) -> Result<Cursor, Refusal>
    requires { Reading p image.old slots.old c place }
    ensures { Stepped p (unpack file.now) image.old slots.old c place image.new slots.new result }
{
    let bits = Bits { file, at: c.at };
    let read = decoded(p, &mut slots[18..32], bits, place.t);
    let (delta, next) = read.map_err(|why| refused_at(c.rank, why))?;
    let sample = sample_here(p, &*image, &mut slots[..18], place, delta);
    image[place.z * p.area + place.t] = sample;
    Ok(Cursor {
        at: next,
        rank: c.rank + 1,
    })
}
