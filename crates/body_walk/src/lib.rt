// The body, written and read: one walk over the rows in their coding order, each way (5.4).
#![tactic(auto)]

pub mod begin;
pub mod direction;
pub mod reader;
pub mod rows;
pub mod whole;
pub mod writer;
