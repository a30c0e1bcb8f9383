// Reading a text: classes of bytes, lines, words of a line, tokens of an input. Each function is held to a definition of model's specs/.
#![tactic(auto)]

pub mod bytes;
mod find;
pub mod lines;
pub mod tokens;
pub mod words;
