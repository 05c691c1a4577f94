// The writer's tests of what is lent to it: table values, samples, areas, and all of them in document 01's order.
#![tactic(auto)]

pub mod check;
mod range;
mod tables;
