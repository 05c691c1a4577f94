// The exports. No crate can stand on a static library, and a library exports nothing, so the calls themselves stand in `cube_c`.
ghost use Rattle.cube_c.specs.Boundary.{CPacks, CLengths, COpens, CLooks};

use cube_c::boundary;

// A cube into a file. The answer is the file's length, or a refusal.
#[unsafe(no_mangle)]
pub extern "C" fn remulingka_pack(
    settings: &[i32],
    tables: &[i32],
    samples: &[i32],
    scratch: &mut [i32],
    out: &mut [u8],
) -> u64
    ensures { CPacks settings.now tables.now samples.now scratch.old out.old result out.new }
{
    boundary::remulingka_pack(settings, tables, samples, scratch, out)
}

// The length of that file, for any output.
#[unsafe(no_mangle)]
pub extern "C" fn remulingka_length(
    settings: &[i32],
    tables: &[i32],
    samples: &[i32],
    scratch: &mut [i32],
) -> u64
    ensures { CLengths settings.now tables.now samples.now scratch.old result }
{
    boundary::remulingka_length(settings, tables, samples, scratch)
}

// A file back into a cube and its settings. The answer is the number of samples, or a refusal.
#[unsafe(no_mangle)]
pub extern "C" fn remulingka_open(
    file: &[u8],
    scratch: &mut [i32],
    tables: &mut [i32],
    image: &mut [i32],
    settings: &mut [i32],
) -> u64
    ensures { COpens file.now scratch.old tables.old image.old settings.old result tables.new image.new settings.new }
{
    boundary::remulingka_open(file, scratch, tables, image, settings)
}

// The settings alone. The answer is 0, or a refusal.
#[unsafe(no_mangle)]
pub extern "C" fn remulingka_look(file: &[u8], settings: &mut [i32]) -> u64
    ensures { CLooks file.now settings.old result settings.new }
{
    boundary::remulingka_look(file, settings)
}
