// The four calls of the boundary, each with what its line tells. The areas have just the lengths that the call is to see, and those
// that it may write are hashed whole behind it. Scratch is not: what a call leaves there is nobody's.
ghost use Rattle.cube_c.specs.Boundary.{CPacks, CLengths, COpens, CLooks};

use cube_c::boundary::{remulingka_length, remulingka_look, remulingka_open, remulingka_pack};
use replay_areas::hash::elements;
use replay_areas::lines::Told;

pub fn pack(
    settings: &[i32],
    tables: &[i32],
    samples: &[i32],
    scratch: &mut [i32],
    out: &mut [u8],
) -> Told
    ensures { CPacks settings.now tables.now samples.now scratch.old out.old result.answer out.new }
{
    let answer = remulingka_pack(settings, tables, samples, scratch, out);
    let hash = elements(0, out);
    Told { answer, hash }
}

// It is lent nothing to write but scratch.
pub fn length(settings: &[i32], tables: &[i32], samples: &[i32], scratch: &mut [i32]) -> Told
    ensures { CLengths settings.now tables.now samples.now scratch.old result.answer }
{
    let answer = remulingka_length(settings, tables, samples, scratch);
    Told { answer, hash: 0 }
}

pub fn open(
    file: &[u8],
    scratch: &mut [i32],
    tables: &mut [i32],
    image: &mut [i32],
    settings: &mut [i32],
) -> Told
    ensures { COpens file.now scratch.old tables.old image.old settings.old result.answer tables.new image.new settings.new }
{
    let answer = remulingka_open(file, scratch, tables, image, settings);
    let hash = elements(elements(elements(0, tables), image), settings);
    Told { answer, hash }
}

pub fn look(file: &[u8], settings: &mut [i32]) -> Told
    ensures { CLooks file.now settings.old result.answer settings.new }
{
    let answer = remulingka_look(file, settings);
    let hash = elements(0, settings);
    Told { answer, hash }
}
