// Packing, and the length count: one walk serves both.
ghost use Rattle.std.specs.Prelude.{length};
ghost use Rattle.settings.specs.Fine.{Fine};
ghost use Rattle.cube.specs.Areas.{Packs, Lengths};
ghost use Rattle.cube.specs.Writing.{Written};

use bitstream::write::Tail;
use body_value::plan::plan_of;
use body_walk::whole::write_body;
use checks::check::check_pack;
use closing::clear::clear;
use header::write::write_header;
use refusals::Refusal;
use settings::Settings;

// The file of what passed the tests, as far as the output holds it, and its length in bytes.
fn write_file(
    s: Settings,
    tables: &[i32],
    samples: &[i32],
    scratch: &mut [i32],
    out: &mut [u8],
) -> usize
    requires { Fine s tables.now samples.now (length scratch.old) }
    ensures { Written s tables.now samples.now out.old result out.new }
{
    let p = plan_of(s);
    let begun = Tail::start();
    let headed = write_header(s, tables, begun, &mut *out);
    let bodied = write_body(p, tables, samples, scratch, headed, &mut *out);
    let filled = bodied.fill(&mut *out, s.image.word);
    filled.finish(out)
}

// What passed the tests is stored whole, or the output is cleared whole.
fn pack_fine(
    s: Settings,
    tables: &[i32],
    samples: &[i32],
    scratch: &mut [i32],
    out: &mut [u8],
) -> Result<u64, Refusal>
    requires { Fine s tables.now samples.now (length scratch.old) }
    ensures { Packs s tables.now samples.now scratch.old out.old result out.new }
{
    let size = write_file(s, tables, samples, scratch, &mut *out);
    if out.len() < size {
        clear(out, 0);
        return Err(Refusal::NoRoom(size as u64));
    }
    Ok(size as u64)
}

// The public call: any settings, any areas get an answer.
pub fn pack(
    s: Settings,
    tables: &[i32],
    samples: &[i32],
    scratch: &mut [i32],
    out: &mut [u8],
) -> Result<u64, Refusal>
    ensures { Packs s tables.now samples.now scratch.old out.old result out.new }
{
    check_pack(s, tables, samples, scratch.len())?;
    pack_fine(s, tables, samples, scratch, out)
}

// The length of the file that packing would make, written nowhere.
pub fn length(
    s: Settings,
    tables: &[i32],
    samples: &[i32],
    scratch: &mut [i32],
) -> Result<u64, Refusal>
    ensures { Lengths s tables.now samples.now scratch.old result }
{
    check_pack(s, tables, samples, scratch.len())?;
    let n = write_file(s, tables, samples, scratch, &mut []);
    Ok(n as u64)
}
