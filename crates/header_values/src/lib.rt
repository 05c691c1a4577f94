// What the header's numbers mean: the settings of its parts, and the slots of the table area.
#![tactic(auto)]

pub mod parts;
pub mod store;
