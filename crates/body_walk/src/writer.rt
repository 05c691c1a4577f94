// The body written.
ghost use Rattle.body.specs.Order.{order};
ghost use Rattle.body_walk.specs.Writer.{writer_at, Writable, Moved, writer_ready, writer_part};
ghost use Rattle.body_walk.specs.WriterLaws.{writer_laws};

use super::direction::{Direction, walk};
use bitstream::write::Tail;
use body_value::Place;
use body_value::plan::Plan;
use body_value::value::write_value;
use settings::tables::SCRATCH_STRIDE;
use std::convert::Infallible;

// What the writer reads.
#[derive(Clone, Copy)]
struct Writer<'a> {
    plan: Plan,
    image: &'a [i32],
}

impl<'a> Direction for Writer<'a> {
    type At = Tail;

    type Item = u8;

    type Stop = Infallible;

    ghost plan = { λ w. w.plan };

    ghost ready = { λ w. writer_ready w.plan w.image.now };

    ghost part = { λ w. writer_part w.plan w.image.now };

    ghost stops = { λ _ _ _ _. ⊥ };

    ghost laws = { λ w. writer_laws w.plan w.image.now };

    // The value at a place, its band's slots lent.
    fn value(
        &self,
        at: Tail,
        scratch: &mut [i32],
        filled: &mut [u8],
        place: Place,
    ) -> Result<Tail, Infallible> {
        let start = SCRATCH_STRIDE * place.z;
        let end = start + SCRATCH_STRIDE;
        let slots = &mut scratch[start..end];
        Ok(write_value(self.plan, self.image, slots, at, filled, place))
    }
}

// The rows in their coding order.
pub fn write_rows(p: Plan, image: &[i32], scratch: &mut [i32], tail: Tail, out: &mut [u8]) -> Tail
    requires { Writable p image.now (writer_at scratch.old tail out.old) (order p.settings.image) }
    ensures { Moved p image.now (writer_at scratch.old tail out.old) (order p.settings.image) (writer_at scratch.new result out.new) }
{
    let writer = Writer { plan: p, image };
    match walk(&writer, p, tail, scratch, out) {
        Ok(end) => end,
        Err(never) => match never {},
    }
}
