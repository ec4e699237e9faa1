// What the program prints for a day file.
#![tactic(auto)]

pub mod file;
pub mod reply;
