// One value of one band: the predictor's half and the coder's half, both ways. Neither sees the other's slots.
// And what a value stands on: the plan of the settings, and the band's slots begun.
#![tactic(auto)]

pub mod band;
pub mod coding;
pub mod plan;
pub mod predicting;
pub mod value;

// Value t of band z, in column x.
#[derive(Clone, Copy)]
pub struct Place {
    pub z: usize,
    pub t: usize,
    pub x: usize,
}

// A position in a file, in bits, and the rank of the value that stands there. The file is no part of it: the walk hands on what changes.
#[derive(Clone, Copy)]
pub struct Cursor {
    pub at: usize,
    pub rank: u64,
}
