// All bands before their first values.
ghost use Rattle.body_walk.specs.Begun.{Tabled, Begun};

use body_value::band::begin_band;
use body_value::plan::Plan;
use settings::tables::SCRATCH_STRIDE;

// The slots of every band, from the tables. What scratch held before is not looked at.
pub fn begin_bands(p: Plan, tables: &[i32], scratch: &mut [i32])
    requires { Tabled p tables.now scratch.old }
    ensures { Begun p tables.now scratch.new p.settings.image.nz }
{
    let nz = p.settings.image.nz as usize;
    for z in 0..nz {
        let start = SCRATCH_STRIDE * z;
        let end = start + SCRATCH_STRIDE;
        begin_band(p, tables, &mut scratch[start..end], z);
    }
}
