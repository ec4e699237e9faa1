// Lines, cells and numbers in the bytes of a file.
#![tactic(auto)]

pub mod line;
pub mod number;
pub mod part;
