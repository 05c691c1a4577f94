// How a call comes to its end: the file's last bits are looked at, and after a refusal the lent areas are cleared.
#![tactic(auto)]

pub mod clear;
pub mod ending;
