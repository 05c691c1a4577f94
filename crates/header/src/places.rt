// The fields of the three parts: their widths, and the place of each in its table's row.
// Reserved bits that the newer edition gives a meaning have its names.

// Table 5-1.
pub const IMAGE_WIDTHS: [u32; 18] = [8, 16, 16, 16, 1, 1, 1, 4, 1, 16, 2, 3, 1, 1, 1, 2, 2, 4];

pub const USER_DATA: usize = 0;

pub const X_SIZE: usize = 1;

pub const Y_SIZE: usize = 2;

pub const Z_SIZE: usize = 3;

pub const SAMPLE_TYPE: usize = 4;

pub const RESERVED_BEHIND_TYPE: usize = 5;

pub const LARGE_RANGE_FLAG: usize = 6;

pub const DYNAMIC_RANGE: usize = 7;

pub const ENCODING_ORDER: usize = 8;

pub const INTERLEAVING_DEPTH: usize = 9;

pub const RESERVED_BEFORE_WORD: usize = 10;

pub const WORD_SIZE: usize = 11;

pub const CODER_TYPE: usize = 12;

pub const HYBRID_CODER: usize = 13;

pub const RESERVED_BEHIND_CODER: usize = 14;

pub const FIDELITY_CONTROL: usize = 15;

pub const RESERVED_BEHIND_FIDELITY: usize = 16;

pub const SUPPLEMENTARY_TABLES: usize = 17;

// Table 5-2.
pub const PREDICTOR_WIDTHS: [u32; 16] = [1, 1, 4, 1, 1, 1, 1, 6, 4, 4, 4, 4, 1, 1, 1, 5];

pub const RESERVED_IN_FRONT: usize = 0;

pub const REPRESENTATIVE_FLAG: usize = 1;

pub const PREDICTION_BANDS: usize = 2;

pub const PREDICTION_MODE: usize = 3;

pub const EXPONENT_OFFSET_FLAG: usize = 4;

pub const LOCAL_SUM_TYPE: usize = 5;

pub const NARROW_SUMS: usize = 6;

pub const REGISTER_SIZE: usize = 7;

pub const WEIGHT_RESOLUTION: usize = 8;

pub const EXPONENT_INTERVAL: usize = 9;

pub const INITIAL_EXPONENT: usize = 10;

pub const FINAL_EXPONENT: usize = 11;

pub const EXPONENT_OFFSET_TABLE_FLAG: usize = 12;

pub const WEIGHT_METHOD: usize = 13;

pub const WEIGHT_TABLE_FLAG: usize = 14;

pub const WEIGHT_PRECISION: usize = 15;

// Table 5-3.
pub const CODER_WIDTHS: [u32; 5] = [5, 3, 3, 4, 1];

pub const UNARY_LIMIT: usize = 0;

pub const RESCALING_SIZE: usize = 1;

pub const INITIAL_COUNT: usize = 2;

pub const ACCUMULATOR_CONSTANT: usize = 3;

pub const ACCUMULATOR_TABLE_FLAG: usize = 4;
