// The header of a cube file (CCSDS 123.0-B-1, 5.3), read: three parts and two tables, or refused in document 01's order.
#![tactic(auto)]

pub mod read;
