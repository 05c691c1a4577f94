// The settings as the 24 slots of the C boundary: tested, read and stored.
#![tactic(auto)]

pub mod slots;
