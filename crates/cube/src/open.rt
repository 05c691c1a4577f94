// Opening: any bytes, any areas get an answer, and after a refusal no half image is left.
ghost use Rattle.std.specs.Prelude.{◌≡◌, true};
ghost use Rattle.bitstream.specs.Stream.{unpack};
ghost use Rattle.settings.specs.Legal.{settings_legal, limited};
ghost use Rattle.header_reader.specs.Answers.{Begins};
ghost use Rattle.cube.specs.Areas.{Opens};
ghost use Rattle.cube.specs.Opening.{answer_of, Reached, Lendable};

use bitstream::read::Bits;
use body_value::Cursor;
use body_value::plan::plan_of;
use body_walk::whole::read_body;
use checks::check::areas_short;
use closing::clear::clear;
use closing::ending::{WrongEnd, end_of};
use header_reader::read::read_header;
use header_values::store::store_tables;
use refusals::Refusal;
use settings::Settings;
use settings::legal::sample_count;
use settings::tables::TABLE_STRIDE;

// The answer for what the body came to; where it was read, the end of the file decides.
#[tactic(auto, unfolding(crate::specs::Opening::answer_of))]
fn answer_of(file: &[u8], s: Settings, body: Result<Cursor, Refusal>) -> Result<Settings, Refusal>
    requires { (settings_legal s ≡ true) × (limited s.image ≡ true) × Reached (unpack file.now) body }
    ensures { result ≡ answer_of s (unpack file.now) body }
{
    let end = body?;
    let count = sample_count(s.image);
    let behind = Bits { file, at: end.at };
    match end_of(behind, s.image.word) {
        Ok(()) => Ok(s),
        Err(WrongEnd::TooShort) => Err(Refusal::BodyEnds(count)),
        Err(WrongEnd::Behind) => Err(Refusal::AfterEnd(count)),
    }
}

// Tables and body into areas that are long enough; what is refused leaves both areas cleared whole. The file goes beside the position
// behind its header: tables and end are read off it at positions of their own.
fn open_body(
    file: &[u8],
    s: Settings,
    at: usize,
    scratch: &mut [i32],
    tables: &mut [i32],
    image: &mut [i32],
) -> Result<Settings, Refusal>
    requires { Lendable (unpack file.now) s at scratch.old tables.old image.old }
    ensures { Opens file.now scratch.old tables.old image.old result tables.new image.new }
{
    let count = sample_count(s.image) as usize;
    let entries = TABLE_STRIDE * (s.image.nz as usize);
    store_tables(file, s, &mut *tables);
    clear(&mut image[..count], 0);
    let p = plan_of(s);
    let body = read_body(
        p,
        &tables[..entries],
        file,
        at,
        scratch,
        &mut image[..count],
    );
    let answer = answer_of(file, s, body);
    if answer.is_err() {
        clear(tables, 0);
        clear(image, 0);
    }
    answer
}

// Areas that are too short are refused before anything is touched.
fn open_lent(
    file: &[u8],
    s: Settings,
    at: usize,
    scratch: &mut [i32],
    tables: &mut [i32],
    image: &mut [i32],
) -> Result<Settings, Refusal>
    requires { Begins (unpack file.now) s at }
    ensures { Opens file.now scratch.old tables.old image.old result tables.new image.new }
{
    if (image.len() as u64) < sample_count(s.image) {
        return Err(Refusal::WrongCount);
    }
    if areas_short(s, scratch.len(), tables.len()) {
        return Err(Refusal::ShortArea);
    }
    open_body(file, s, at, scratch, tables, image)
}

// The public call.
pub fn open(
    file: &[u8],
    scratch: &mut [i32],
    tables: &mut [i32],
    image: &mut [i32],
) -> Result<Settings, Refusal>
    ensures { Opens file.now scratch.old tables.old image.old result tables.new image.new }
{
    let (s, at) = read_header(file)?;
    open_lent(file, s, at, scratch, tables, image)
}
