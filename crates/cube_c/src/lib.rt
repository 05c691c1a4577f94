// The C boundary: settings in 24 slots, answers in one word.
#![tactic(auto)]

mod answer;
pub mod boundary;
