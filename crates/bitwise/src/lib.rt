// What the instructions make of the K bits of a value. m is document 01's M throughout; why it and Within are no types stands at the head of `arithmetic`.
#![tactic(auto)]

pub mod bits;
