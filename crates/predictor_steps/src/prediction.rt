// The prediction (4.7).
ghost use Rattle.std.specs.Prelude.{◌≡◌, ◌+◌, ◌^◌, ◌≤◌, pos, nat_abs, ◌+ℤ◌, ◌-ℤ◌, ◌*ℤ◌};
ghost use Rattle.integers.specs.Integer.{floor_div, clip};
ghost use Rattle.predictor.specs.LocalSum.{two, four};
ghost use Rattle.predictor.specs.Differences.{image_of};
ghost use Rattle.predictor.specs.Prediction.{inner, scaled_by, first_prediction};
ghost use Rattle.predictor.specs.Asks.{Sample, Pairs, Terms, First};

use settings::range::Range;
use settings::{Predictor, Settings};

// The inner product of weights and components.
fn inner(ws: &[i32], us: &[i32]) -> i64
    requires { Pairs ws.now us.now }
    ensures { result ≡ inner ws.now us.now }
{
    let mut sum: i64 = 0;
    for (i, w) in ws.iter().enumerate() {
        sum += (*w as i64) * (us[i] as i64);
    }
    sum
}

// What the local sum lies above four middles, in the weights' resolution.
fn offset(sum: i64, resolution: u32, range: Range) -> i64
    requires { (nat_abs sum ≤ 2 ^ 18) × Sample range.middle × (resolution ≤ 19) }
    ensures { (result ≡ pos (2 ^ resolution) *ℤ (sum -ℤ four range.middle)) × (nat_abs result ≤ 2 ^ 40) }
{
    integers::power(resolution) * (sum - 4 * (range.middle as i64))
}

// The register's value scaled down to half samples around the middle, within the range.
fn bounded(value: i64, resolution: u32, range: Range) -> i64
    requires { resolution ≤ 19 }
    ensures { result ≡ clip (floor_div value (2 ^ (resolution + 1)) +ℤ two range.middle +ℤ pos 1) (two range.low) (two range.high +ℤ pos 1) }
{
    let scaled = integers::floor_shift(value, resolution + 1);
    integers::clip(
        scaled + 2 * (range.middle as i64) + 1,
        2 * (range.low as i64),
        2 * (range.high as i64) + 1,
    )
}

// The scaled prediction from weights, components and the local sum.
pub fn predict(ws: &[i32], us: &[i32], sum: i64, p: Predictor, range: Range) -> i64
    requires { Terms ws.now us.now sum p.register p.resolution range.middle }
    ensures { result ≡ scaled_by p.register p.resolution range.low range.middle range.high (inner ws.now us.now) sum }
{
    let product = inner(ws, us);
    let above = offset(sum, p.resolution, range);
    let value = integers::wrap(product + above, p.register);
    bounded(value, p.resolution, range)
}

// The scaled prediction of the first value of band z.
pub fn first_prediction(s: Settings, image: &[i32], z: usize, middle: i32) -> i64
    requires { First s image.now z middle }
    ensures { result ≡ first_prediction s (image_of s.image image.now) z }
{
    if 0 < z && 0 < s.predictor.bands {
        let area = (s.image.nx as usize) * (s.image.ny as usize);
        let at = (z - 1) * area;
        return 2 * (image[at] as i64);
    }
    2 * (middle as i64)
}
