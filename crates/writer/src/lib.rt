// The decimal writer.
#![tactic(auto)]

pub mod decimal;
pub mod natural;
