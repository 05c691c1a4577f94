// The table values that the settings use. What they do not use is not read.
ghost use Rattle.std.specs.Prelude.{◌≡◌, true, not, ◌||◌, ◌+◌, ◌*◌, ◌≤◌, length};
ghost use Rattle.std.specs.List.{list_all};
ghost use Rattle.settings.specs.Legal.{settings_legal};
ghost use Rattle.settings.specs.Tables.{table_stride, parameter_slot, entry, component_count, every, weight_legal, accumulator_legal, band_legal, tables_legal};

use integers::power_of;
use settings::tables::{PARAMETER_SLOT, TABLE_STRIDE, component_count};
use settings::{Coder, Image, Predictor, Settings};

// v is a signed number of q bits.
fn weight_legal(q: u32, v: i32) -> bool
    requires le_q { 1 ≤ q }
    requires q_bound { q ≤ 31 }
    ensures { result ≡ weight_legal q v }
{
    let half = power_of(q - 1) as i32;
    (-half <= v) & (v < half)
}

// 0 ≤ k' ≤ D − 2
#[tactic(auto, unfolding(settings::specs::Tables::accumulator_legal))]
fn accumulator_legal(depth: u32, v: i32) -> bool
    requires le_depth { 2 ≤ depth }
    requires depth_bound { depth ≤ 16 }
    ensures { result ≡ accumulator_legal depth v }
{
    (0 <= v) & (v <= (depth - 2) as i32)
}

// All of these are numbers of q bits.
fn weights_legal(q: u32, weights: &[i32]) -> bool
    requires le_q { 1 ≤ q }
    requires q_bound { q ≤ 31 }
    ensures { result ≡ list_all (weight_legal q) weights.now }
{
    weights.iter().all(|v| weight_legal(q, *v))
}

// The weights of band z, which count only where they are custom: elsewhere the precision is arbitrary.
fn custom_legal(p: Predictor, tables: &[i32], z: usize) -> bool
    requires bands_bound { p.bands ≤ 15 }
    requires le_precision { p.custom ≡ true → (1 ≤ p.precision) × (p.precision ≤ 31) }
    requires z_in_bounds { table_stride * (z + 1) ≤ length tables.now }
    ensures { result ≡ (not p.custom || every (component_count p z) (λ i. weight_legal p.precision (entry tables.now z i))) }
{
    if !p.custom {
        return true;
    }
    let base = TABLE_STRIDE * z;
    let count = component_count(p, z);
    weights_legal(p.precision, &tables[base..base + count])
}

// The k' of band z, which counts only where a table gives it.
#[tactic(auto, unfolding(settings::specs::Tables::entry))]
fn tabled_legal(i: Image, c: Coder, tables: &[i32], z: usize) -> bool
    requires le_depth { 2 ≤ i.depth }
    requires depth_bound { i.depth ≤ 16 }
    requires z_in_bounds { table_stride * (z + 1) ≤ length tables.now }
    ensures { result ≡ (not c.tabled || accumulator_legal i.depth (entry tables.now z parameter_slot)) }
{
    if !c.tabled {
        return true;
    }
    let at = TABLE_STRIDE * z + PARAMETER_SLOT;
    accumulator_legal(i.depth, tables[at])
}

// The values of band z that the settings use.
fn band_legal(s: Settings, tables: &[i32], z: usize) -> bool
    requires s_value { settings_legal s ≡ true }
    requires z_in_bounds { table_stride * (z + 1) ≤ length tables.now }
    ensures { result ≡ band_legal s tables.now z }
{
    custom_legal(s.predictor, tables, z) & tabled_legal(s.image, s.coder, tables, z)
}

// The values of every band that the settings use.
pub fn tables_legal(s: Settings, tables: &[i32]) -> bool
    requires s_value { settings_legal s ≡ true }
    requires nz_in_bounds { table_stride * s.image.nz ≤ length tables.now }
    ensures { result ≡ tables_legal s tables.now }
{
    let bands = s.image.nz as usize;
    for z in 0..bands {
        if !band_legal(s, tables, z) {
            return false;
        }
    }
    true
}
