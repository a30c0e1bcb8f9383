// Decimal numbers, read from a word.
#![tactic(auto)]

pub mod reading;
