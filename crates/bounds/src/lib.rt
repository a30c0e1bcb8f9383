// Numbers of K bits: the range limits, the parameters' checks and range tests. m is document 01's M throughout.
#![tactic(auto)]

pub mod limits;
pub mod ranges;
