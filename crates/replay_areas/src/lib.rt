// The areas of a recorded call: given by the input, prepared, hashed, and the line about them.
// The pieces are proved: a record is what its words say, areas are prepared and hashed as said, and a line tells its call's number,
// value and hash. Of a replay nothing is proved to be right, only to be safe: one that is wrong writes lines that differ.
#![tactic(auto)]

pub mod areas;
pub mod hash;
pub mod lines;
pub mod records;
pub mod shared;
