// Recorded calls, made through the C boundary, and a line for each: the input lends areas and names calls (records.rt of replay_areas
// has its form), the lines are held to those that the independent program wrote (rust/plain, `plain feed`).
// Nothing here is proved to be right, only to be safe: a replay that is wrong writes lines that differ.
#![tactic(auto)]

pub mod calls;
pub mod run;
