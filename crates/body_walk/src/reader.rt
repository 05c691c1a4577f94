// The body read.
ghost use Rattle.bitstream.specs.Stream.{unpack};
ghost use Rattle.body.specs.Order.{order};
ghost use Rattle.body_walk.specs.Reader.{reader_at, Readable, Went, reader_ready, reader_part, reader_stops};
ghost use Rattle.body_walk.specs.ReaderLaws.{reader_laws};

use super::direction::{Direction, walk};
use body_value::plan::Plan;
use body_value::value::read_value;
use body_value::{Cursor, Place};
use refusals::Refusal;
use settings::tables::SCRATCH_STRIDE;

// What the reader reads.
#[derive(Clone, Copy)]
struct Reader<'a> {
    plan: Plan,
    file: &'a [u8],
}

impl<'a> Direction for Reader<'a> {
    type At = Cursor;

    type Item = i32;

    type Stop = Refusal;

    ghost plan = { λ r. r.plan };

    ghost ready = { λ r. reader_ready r.plan };

    ghost part = { λ r. reader_part r.plan (unpack r.file.now) };

    ghost stops = { λ r. reader_stops r.plan (unpack r.file.now) };

    ghost laws = { λ r. reader_laws r.plan (unpack r.file.now) };

    // The value at a place, its band's slots lent.
    fn value(
        &self,
        at: Cursor,
        scratch: &mut [i32],
        filled: &mut [i32],
        place: Place,
    ) -> Result<Cursor, Refusal> {
        let start = SCRATCH_STRIDE * place.z;
        let end = start + SCRATCH_STRIDE;
        let slots = &mut scratch[start..end];
        read_value(self.plan, self.file, at, slots, filled, place)
    }
}

// The rows in their coding order.
pub fn read_rows(
    p: Plan,
    file: &[u8],
    c: Cursor,
    scratch: &mut [i32],
    image: &mut [i32],
) -> Result<Cursor, Refusal>
    requires { Readable p (reader_at image.old scratch.old c) (order p.settings.image) }
    ensures { Went p (unpack file.now) (reader_at image.old scratch.old c) (order p.settings.image) image.new scratch.new result }
{
    let reader = Reader { plan: p, file };
    walk(&reader, p, c, scratch, image)
}
