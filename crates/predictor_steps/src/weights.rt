// The weights and their step (4.6, 4.8).
ghost use Rattle.std.specs.Prelude.{◌≡◌, ◌+◌, ◌-◌, ◌/◌, ◌^◌, ◌<◌, ◌≤◌, length, get_or, pos, nat_abs};
ghost use Rattle.std.specs.Int.Signed.{le_z};
ghost use Rattle.settings.specs.Lists.{join, one};
ghost use Rattle.predictor.specs.Weights.{eighths, custom_weight, initial_weights};
ghost use Rattle.predictor.specs.WeightUpdate.{scaled_error, exponent_by, gain, weight_step, stepped_weights};
ghost use Rattle.predictor.specs.Asks.{Stepping, Schedule, Customs, Beginning};

use settings::Settings;

// ⌊(2^−ρ·v + 1) / 2⌋, for ρ of either sign.
fn gain(v: i64, rho: i32) -> i64
    requires { (nat_abs v ≤ 2 ^ 19) × (nat_abs rho ≤ 30) }
    ensures { result ≡ gain rho v }
{
    if 0 <= rho {
        let shift = rho as u32;
        (v + integers::power(shift)) >> (shift + 1)
    } else {
        let shift = (-rho) as u32;
        (integers::power(shift) * v + 1) >> 1
    }
}

// One weight's step, up where the error is not negative.
fn weight_step(w: i32, u: i32, rho: i32, up: bool, resolution: u32) -> i32
    requires { (nat_abs w ≤ 2 ^ 21) × (nat_abs u ≤ 2 ^ 19) × (nat_abs rho ≤ 30) × (resolution ≤ 19) }
    ensures { result ≡ weight_step resolution rho up u w }
{
    let turned = integers::oriented(u as i64, up);
    let step = gain(turned, rho);
    let top = integers::power(resolution + 2);
    integers::clip((w as i64) + step, -top, top - 1) as i32
}

// The step of all weights.
pub fn step_weights(ws: &mut [i32], us: &[i32], rho: i32, up: bool, resolution: u32)
    requires { Stepping ws.old us.now rho resolution }
    ensures { ws.new ≡ stepped_weights resolution (λ i. rho) up us.now ws.old }
{
    for (i, w) in ws.iter_mut().enumerate() {
        *w = weight_step(*w, us[i], rho, up, resolution);
    }
}

// ρ at value t, under settings whose interval is 2^interval_log.
pub fn exponent(s: Settings, t: usize, interval_log: u32) -> i32
    requires { Schedule t s.image.nx interval_log s.predictor.vmin s.predictor.vmax s.image.depth s.predictor.resolution }
    ensures { (result ≡ exponent_by s.image.nx (2 ^ interval_log) s.predictor.vmin s.predictor.vmax s.image.depth s.predictor.resolution t) × (nat_abs result ≤ 30) }
{
    let least = s.predictor.vmin as i64;
    let most = s.predictor.vmax as i64;
    let turns = integers::floor_shift((t as i64) - (s.image.nx as i64), interval_log);
    let clipped = integers::clip(least + turns, least, most);
    (clipped + (s.image.depth as i64) - (s.predictor.resolution as i64)) as i32
}

// Whether the scaled error is 0 or more, so that the weights step up.
pub fn error_not_negative(sample: i32, scaled: i64) -> bool
    requires { nat_abs scaled ≤ 2 ^ 18 }
    ensures { result ≡ le_z (pos 0) (scaled_error sample scaled) }
{
    0 <= 2 * (sample as i64) - scaled
}

// A first weight, and then each the floor of an eighth of the one before.
fn put_eighths(ws: &mut [i32], first: u32)
    requires { first < 2 ^ 31 }
    ensures { ws.new ≡ eighths (length ws.old) (pos first) }
{
    let mut weight = first;
    for w in ws {
        *w = weight as i32;
        weight /= 8;
    }
}

// Half of 2^bits, less 1; 0 where there are no bits.
fn half_less(bits: u32) -> u32
    requires { bits ≤ 22 }
    ensures { result ≡ 2 ^ bits / 2 - 1 }
{
    (integers::power_of(bits) / 2).saturating_sub(1)
}

// The weight of a table value.
fn custom_weight(value: i32, resolution: u32, precision: u32) -> i32
    requires { (resolution ≤ 19) × (precision ≤ resolution + 3) × (nat_abs (custom_weight resolution precision value) ≤ 2 ^ 21) }
    ensures { result ≡ custom_weight resolution precision value }
{
    let bits = resolution + 3 - precision;
    let step = integers::power(bits);
    let half = half_less(bits) as i64;
    (step * (value as i64) + half) as i32
}

// The weights of the table values from a slot on.
fn custom_weights(tables: &[i32], ws: &mut [i32], from: usize, resolution: u32, precision: u32)
    requires { Customs tables.now (length ws.old) from resolution precision }
    ensures { ws.new ≡ join (λ i. one (custom_weight resolution precision (get_or tables.now (from + i) (pos 0)))) 0 (length ws.old) }
{
    for (i, w) in ws.iter_mut().enumerate() {
        *w = custom_weight(tables[from + i], resolution, precision);
    }
}

// The weights of band z before its second value.
pub fn initial_weights(s: Settings, tables: &[i32], ws: &mut [i32], z: usize)
    requires { Beginning s tables.now ws.old z }
    ensures { ws.new ≡ initial_weights s tables.now z }
{
    let custom = s.predictor.custom;
    let reduced = s.predictor.reduced;
    let resolution = s.predictor.resolution;
    if custom {
        custom_weights(
            tables,
            ws,
            settings::tables::TABLE_STRIDE * z,
            resolution,
            s.predictor.precision,
        );
        return;
    }
    let first = 7 * integers::power_of(resolution) / 8;
    if reduced {
        put_eighths(ws, first);
        return;
    }
    // the eighths of 0: the directional components' weights begin as zeros
    put_eighths(&mut ws[..3], 0);
    put_eighths(&mut ws[3..], first);
}
