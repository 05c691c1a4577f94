// The four calls for C, Rust and Python. No call requires anything: every list of slots, bytes and lengths has one answer.
// `remulingka_c` exports them under these names.
ghost use Rattle.cube_c.specs.Boundary.{CPacks, CLengths, COpens, CLooks};

use super::answer::{looked_word, opened_word, packed_word, put_answer, refusal_word};
use cube::look::look;
use cube::open::open;
use cube::pack::{length, pack};
use refusals::Refusal;
use settings_slots::slots::{SLOTS, settings_from, slots_checked};

// A cube into a file. The answer is the file's length, or a refusal.
pub fn remulingka_pack(
    settings: &[i32],
    tables: &[i32],
    samples: &[i32],
    scratch: &mut [i32],
    out: &mut [u8],
) -> u64
    ensures { CPacks settings.now tables.now samples.now scratch.old out.old result out.new }
{
    match slots_checked(settings) {
        Ok(()) => packed_word(pack(settings_from(settings), tables, samples, scratch, out)),
        Err(w) => refusal_word(w),
    }
}

// The length of that file, for any output.
pub fn remulingka_length(
    settings: &[i32],
    tables: &[i32],
    samples: &[i32],
    scratch: &mut [i32],
) -> u64
    ensures { CLengths settings.now tables.now samples.now scratch.old result }
{
    match slots_checked(settings) {
        Ok(()) => packed_word(length(settings_from(settings), tables, samples, scratch)),
        Err(w) => refusal_word(w),
    }
}

// A file back into a cube and its settings. The answer is the number of samples, or a refusal.
pub fn remulingka_open(
    file: &[u8],
    scratch: &mut [i32],
    tables: &mut [i32],
    image: &mut [i32],
    settings: &mut [i32],
) -> u64
    ensures { COpens file.now scratch.old tables.old image.old settings.old result tables.new image.new settings.new }
{
    if settings.len() < SLOTS {
        return refusal_word(Refusal::WrongCount);
    }
    let answer = open(file, scratch, tables, image);
    put_answer(answer, settings);
    opened_word(answer)
}

// The settings alone. The answer is 0, or a refusal.
pub fn remulingka_look(file: &[u8], settings: &mut [i32]) -> u64
    ensures { CLooks file.now settings.old result settings.new }
{
    if settings.len() < SLOTS {
        return refusal_word(Refusal::WrongCount);
    }
    let answer = look(file);
    put_answer(answer, settings);
    looked_word(answer)
}
