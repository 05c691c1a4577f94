// The header of a cube file (CCSDS 123.0-B-1, 5.3): three parts and two tables, written.
#![tactic(auto)]

pub mod fields;
pub mod places;
pub mod sizes;
pub mod write;
