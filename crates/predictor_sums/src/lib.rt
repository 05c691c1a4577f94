// The neighbourhood of a value: its local sum and local differences (4.4, 4.5).
#![tactic(auto)]

pub mod neighbours;
pub mod sums;
