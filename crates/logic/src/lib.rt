// What the instructions make of Booleans, and comparisons.
#![tactic(auto)]

pub mod booleans;
