// The cube file and the four public calls: pack and length answer the file's length in bytes, open and look its settings, or each of
// them why not. What is lent to a call comes apart, as C lends it: each area has its own line in the call's statement.
#![tactic(auto)]

pub mod look;
pub mod open;
pub mod pack;
