// The writer's tests in document 01's order: the first that fails decides.
ghost use Rattle.std.specs.Prelude.{◌≡◌};
ghost use Rattle.settings.specs.Checks.{areas_short, check_pack};

use super::range::first_out;
use super::tables::tables_legal;
use refusals::Refusal;
use settings::Settings;
use settings::legal::{limited, sample_count, settings_legal};
use settings::tables::{SCRATCH_STRIDE, TABLE_STRIDE};

// Scratch or the table area has too few slots for the bands.
#[tactic(auto, unfolding(settings::specs::Checks::areas_short))]
pub fn areas_short(s: Settings, scratch: usize, tables: usize) -> bool
    ensures { result ≡ areas_short s scratch tables }
{
    let bands = s.image.nz as usize;
    (scratch < SCRATCH_STRIDE * bands) | (tables < TABLE_STRIDE * bands)
}

// All that the writer tests before it makes a file. Both sizes are looked at once the plain settings are legal: then they fit.
pub fn check_pack(
    s: Settings,
    tables: &[i32],
    samples: &[i32],
    scratch: usize,
) -> Result<(), Refusal>
    ensures { result ≡ check_pack s tables.now samples.now scratch }
{
    if !settings_legal(s) {
        return Err(Refusal::IllegalSetting);
    }
    let small = limited(s.image);
    let counted = samples.len() as u64 == sample_count(s.image);
    if !small {
        return Err(Refusal::HouseLimit);
    }
    if !counted {
        return Err(Refusal::WrongCount);
    }
    if areas_short(s, scratch, tables.len()) {
        return Err(Refusal::ShortArea);
    }
    if !tables_legal(s, tables) {
        return Err(Refusal::IllegalSetting);
    }
    if let Some(first) = first_out(s.image, samples) {
        return Err(Refusal::SampleOutOfRange(first as u64));
    }
    Ok(())
}
