// The settings that the numbers of a part's fields name, and what its fields must hold beside them.
ghost use Rattle.std.specs.Prelude.{◌≡◌, ◌<◌};
ghost use Rattle.header.specs.Places.{◌‼◌, user_data, weight_resolution, exponent_interval, initial_exponent, final_exponent, rescaling_size};
ghost use Rattle.header.specs.Parts.{unwrapped, image_of, predictor_of, coder_of};
ghost use Rattle.header.specs.Plain.{image_plain, predictor_plain};

use header::fields::chosen;
use header::places;
use integers::power_of;
use settings::{Coder, Image, Predictor};

// The number from 1 to m whose remainder by m is v.
fn unwrapped(m: u32, v: u32) -> u32
    ensures { result ≡ unwrapped m v }
{
    if v == 0 { m } else { v }
}

// The image settings of table 5-1: M is no setting where bands are sequential.
pub fn image_of(v: [u32; 18]) -> Image
    requires { v ‼ user_data < 256 }
    ensures { result ≡ image_of v }
{
    let sequential = v[places::ENCODING_ORDER] == 1;
    Image {
        user: v[places::USER_DATA] as u8,
        nx: unwrapped(65536, v[places::X_SIZE]),
        ny: unwrapped(65536, v[places::Y_SIZE]),
        nz: unwrapped(65536, v[places::Z_SIZE]),
        signed: v[places::SAMPLE_TYPE] == 1,
        depth: unwrapped(16, v[places::DYNAMIC_RANGE]),
        sequential,
        interleave: chosen(
            sequential,
            0,
            unwrapped(65536, v[places::INTERLEAVING_DEPTH]),
        ),
        word: unwrapped(8, v[places::WORD_SIZE]),
    }
}

// The reserved bits are zero, and so is M where bands are sequential.
pub fn image_plain(v: [u32; 18]) -> bool
    ensures { result ≡ image_plain v }
{
    (v[places::RESERVED_BEHIND_TYPE] == 0)
        & (v[places::LARGE_RANGE_FLAG] == 0)
        & (!(v[places::ENCODING_ORDER] == 1) | (v[places::INTERLEAVING_DEPTH] == 0))
        & (v[places::RESERVED_BEFORE_WORD] == 0)
        & (v[places::HYBRID_CODER] == 0)
        & (v[places::RESERVED_BEHIND_CODER] == 0)
        & (v[places::FIDELITY_CONTROL] == 0)
        & (v[places::RESERVED_BEHIND_FIDELITY] == 0)
        & (v[places::SUPPLEMENTARY_TABLES] == 0)
}

// The predictor settings of table 5-2: Q is no setting beside default weights.
pub fn predictor_of(v: [u32; 16]) -> Predictor
    requires { (v ‼ weight_resolution < 16) × (v ‼ exponent_interval < 16) × (v ‼ initial_exponent < 16) × (v ‼ final_exponent < 16) }
    ensures { result ≡ predictor_of v }
{
    let custom = v[places::WEIGHT_METHOD] == 1;
    Predictor {
        bands: v[places::PREDICTION_BANDS],
        reduced: v[places::PREDICTION_MODE] == 1,
        column: v[places::LOCAL_SUM_TYPE] == 1,
        register: unwrapped(64, v[places::REGISTER_SIZE]),
        resolution: v[places::WEIGHT_RESOLUTION] + 4,
        interval: power_of(v[places::EXPONENT_INTERVAL] + 4),
        vmin: v[places::INITIAL_EXPONENT] as i32 - 6,
        vmax: v[places::FINAL_EXPONENT] as i32 - 6,
        custom,
        precision: chosen(custom, v[places::WEIGHT_PRECISION], 0),
        weights_in_file: v[places::WEIGHT_TABLE_FLAG] == 1,
    }
}

// The reserved bits are zero, and Q is zero beside default weights.
pub fn predictor_plain(v: [u32; 16]) -> bool
    ensures { result ≡ predictor_plain v }
{
    (v[places::RESERVED_IN_FRONT] == 0)
        & (v[places::REPRESENTATIVE_FLAG] == 0)
        & (v[places::EXPONENT_OFFSET_FLAG] == 0)
        & (v[places::NARROW_SUMS] == 0)
        & (v[places::EXPONENT_OFFSET_TABLE_FLAG] == 0)
        & ((v[places::WEIGHT_METHOD] == 1) | (v[places::WEIGHT_PRECISION] == 0))
}

// The coder settings of table 5-3: all ones say that there is no K. Every number here is one that its settings write.
pub fn coder_of(v: [u32; 5]) -> Coder
    requires { v ‼ rescaling_size < 8 }
    ensures { result ≡ coder_of v }
{
    let tabled = v[places::ACCUMULATOR_CONSTANT] == 15;
    Coder {
        unary: unwrapped(32, v[places::UNARY_LIMIT]),
        rescaling: v[places::RESCALING_SIZE] + 4,
        initial: unwrapped(8, v[places::INITIAL_COUNT]),
        tabled,
        constant: chosen(tabled, 0, v[places::ACCUMULATOR_CONSTANT]),
        k_in_file: v[places::ACCUMULATOR_TABLE_FLAG] == 1,
    }
}
