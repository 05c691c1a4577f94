// The sizes of the tables, known from the settings before a bit is read or written.
ghost use Rattle.std.specs.Prelude.{◌≡◌, true, List, ◌+◌, ◌*◌, ◌≤◌, ℤ, length};
ghost use Rattle.settings.specs.Legal.{predictor_legal, settings_legal, limited};
ghost use Rattle.settings.specs.Limits.{most_bands, most_components, most_weight_bits, most_parameter_bits, table_ceiling};
ghost use Rattle.header.specs.Tables.{components_before};
ghost use Rattle.header.specs.Sizes.{padded, weight_bits, weights_size, accumulators_size};
ghost use Rattle.header.specs.Write.{header};

use settings::tables::component_count;
use settings::{Coder, Image, Predictor, Settings};

// The bits of the image part, where the predictor part ends, the bits of the coder part, and those of all three (specs/Parts.antt).
pub const IMAGE_BITS: usize = 96;

pub const PREDICTOR_END: usize = 136;

pub const CODER_BITS: usize = 16;

pub const FIXED_BITS: usize = 152;

// The components of all bands before `bands`.
fn components_before(p: Predictor, bands: usize) -> usize
    requires { (p.bands ≤ 15) × (bands ≤ most_bands) }
    ensures { (result ≡ components_before p bands) × (result ≤ most_components) }
{
    let mut sum = 0;
    for z in 0..bands {
        sum += component_count(p, z);
    }
    sum
}

// n bits and the fill behind them.
pub fn padded(n: usize) -> usize
    requires { n ≤ table_ceiling }
    ensures { (result ≡ padded n) × (n ≤ result) × (result ≤ n + 7) × (result ≤ table_ceiling + 7) }
{
    (n + 7) / 8 * 8
}

// The bits of a weight table.
pub fn weight_bits(i: Image, p: Predictor) -> usize
    requires { (predictor_legal i p ≡ true) × (i.nz ≤ most_bands) × (p.custom ≡ true) }
    ensures { (result ≡ weight_bits i p) × (result ≤ most_weight_bits) }
{
    p.precision as usize * components_before(p, i.nz as usize)
}

// The bits of the weight table with its fill, none where weights are default.
pub fn weights_size(i: Image, p: Predictor) -> usize
    requires { (predictor_legal i p ≡ true) × (i.nz ≤ most_bands) }
    ensures { (result ≡ weights_size i p) × (result ≤ most_weight_bits + 7) }
{
    if !p.custom {
        return 0;
    }
    padded(weight_bits(i, p))
}

// The bits of the table of k' with its fill, none where one K serves all bands.
pub fn accumulators_size(i: Image, c: Coder) -> usize
    requires { i.nz ≤ most_bands }
    ensures { (result ≡ accumulators_size i c) × (result ≤ most_parameter_bits + 7) }
{
    if !c.tabled {
        return 0;
    }
    padded(4 * i.nz as usize)
}

// The bytes of the header, whatever the tables hold.
pub fn header_bytes(s: Settings) -> usize
    requires { (settings_legal s ≡ true) × (limited s.image ≡ true) }
    ensures { (tables : List ℤ) → 8 * result ≡ length (header s tables) }
{
    (FIXED_BITS + weights_size(s.image, s.predictor) + accumulators_size(s.image, s.coder)) / 8
}
