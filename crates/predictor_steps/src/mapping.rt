// The mapped residual (4.9).
ghost use Rattle.std.specs.Prelude.{◌≡◌, ◌^◌, ◌≤◌, pos, nat_abs, ◌-ℤ◌, ◌≤ℤ◌};
ghost use Rattle.predictor.specs.Prediction.{predicted};
ghost use Rattle.predictor.specs.Mapping.{theta, map_residual, unmap_residual, mapped_by, unmapped_by};
ghost use Rattle.predictor.specs.Asks.{Sized, Ranged};

use settings::range::Range;

// The predicted sample value: half of the scaled one, rounded down.
fn predicted(scaled: i64) -> i64
    ensures { result ≡ predicted scaled }
{
    scaled >> 1
}

// The smaller distance of a prediction from the ends of the range.
fn theta(range: Range, prediction: i64) -> u64
    requires { nat_abs prediction ≤ 2 ^ 40 }
    ensures { result ≡ theta range.low range.high prediction }
{
    let below = integers::magnitude(prediction - (range.low as i64));
    let above = integers::magnitude((range.high as i64) - prediction);
    below.min(above)
}

// The mapped value of a residual.
#[tactic(auto, unfolding(predictor::specs::Mapping::map_residual))]
fn map_by(even: bool, residual: i64, distance: u64) -> u64
    requires { (nat_abs residual ≤ 2 ^ 40) × (distance ≤ 2 ^ 40) }
    ensures { result ≡ map_residual even residual distance }
{
    let size = integers::magnitude(residual);
    if distance < size {
        size + distance
    } else if even {
        if residual < 0 { 2 * size - 1 } else { 2 * size }
    } else if 0 < residual {
        2 * size - 1
    } else {
        2 * size
    }
}

// The residual of a mapped value; below says that the prediction has its room above it.
#[tactic(auto, unfolding(predictor::specs::Mapping::unmap_residual))]
fn unmap_by(even: bool, delta: u64, distance: u64, below: bool) -> i64
    requires { (delta ≤ 2 ^ 40) × (distance ≤ 2 ^ 40) }
    ensures { result ≡ unmap_residual even delta distance below }
{
    if delta <= 2 * distance {
        let half = ((delta + 1) / 2) as i64;
        if delta % 2 == 0 {
            integers::oriented(half, even)
        } else {
            integers::oriented(half, !even)
        }
    } else {
        let rest = (delta - distance) as i64;
        integers::oriented(rest, below)
    }
}

// The mapped value of a sample under its scaled prediction.
pub fn map_residual(sample: i32, scaled: i64, range: Range) -> u32
    requires { Sized scaled range.low range.high × (nat_abs sample ≤ 2 ^ 29) }
    ensures { result ≡ mapped_by range.low range.high scaled sample }
{
    let prediction = predicted(scaled);
    let distance = theta(range, prediction);
    let even = integers::is_even(scaled);
    let residual = (sample as i64) - prediction;
    map_by(even, residual, distance) as u32
}

// The sample of a mapped value under its scaled prediction.
pub fn unmap_residual(delta: u32, scaled: i64, range: Range) -> i32
    requires { Ranged scaled range.low range.high × (pos delta ≤ℤ (range.high -ℤ range.low)) }
    ensures { result ≡ unmapped_by range.low range.high scaled delta }
{
    let prediction = predicted(scaled);
    let distance = theta(range, prediction);
    let even = integers::is_even(scaled);
    let below = prediction - (range.low as i64) <= (range.high as i64) - prediction;
    let residual = unmap_by(even, delta as u64, distance, below);
    (prediction + residual) as i32
}
