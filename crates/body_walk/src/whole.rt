// The whole body: all bands begun, then row after row.
ghost use Rattle.bitstream.specs.Stream.{unpack};
ghost use Rattle.bitstream.specs.Writer.{Put};
ghost use Rattle.body.specs.Body.{body};
ghost use Rattle.body_walk.specs.Whole.{Starts, ReadStarts, Answer};

use super::begin::begin_bands;
use super::reader::read_rows;
use super::writer::write_rows;
use bitstream::write::Tail;
use body_value::Cursor;
use body_value::plan::Plan;
use refusals::Refusal;

// The body behind what is written.
pub fn write_body(
    p: Plan,
    tables: &[i32],
    image: &[i32],
    scratch: &mut [i32],
    tail: Tail,
    out: &mut [u8],
) -> Tail
    requires { Starts p tables.now image.now scratch.old tail }
    ensures { Put tail out.old (body p.settings tables.now image.now) result out.new }
{
    begin_bands(p, tables, &mut *scratch);
    write_rows(p, image, scratch, tail, out)
}

// The body from bit `at` of the file, into an image all in range before. From there on the position is the cursor's.
pub fn read_body(
    p: Plan,
    tables: &[i32],
    file: &[u8],
    at: usize,
    scratch: &mut [i32],
    image: &mut [i32],
) -> Result<Cursor, Refusal>
    requires { ReadStarts p tables.now image.old scratch.old at }
    ensures { Answer p.settings tables.now (unpack file.now) at image.old image.new result }
{
    begin_bands(p, tables, &mut *scratch);
    let first = Cursor { at, rank: 0 };
    read_rows(p, file, first, scratch, image)
}
