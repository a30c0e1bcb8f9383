// The words of an image: what a cell says, the forms of its arguments, and the check of a whole image.
#![tactic(auto)]

pub mod check;
pub mod decode;
pub mod forms;
pub mod kinds;
pub mod words;
