// A band's slots before its first value.
ghost use Rattle.body_value.specs.Value.{Startable, Started};

use super::coding::keep;
use super::plan::Plan;
use coder::counts::initial_statistics;
use predictor_steps::weights::initial_weights;
use settings::tables::component_count;

// The weights and statistics of band z from the tables. What the slots held before is not looked at.
pub fn begin_band(p: Plan, tables: &[i32], slots: &mut [i32], z: usize)
    requires { Startable p tables.now slots.old z }
    ensures { Started p tables.now z slots.new }
{
    let s = p.settings;
    let n = component_count(s.predictor, z);
    initial_weights(s, tables, &mut slots[..n], z);
    let first = initial_statistics(s, tables, z);
    keep(&mut slots[18..32], first);
}
