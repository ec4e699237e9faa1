// What every kind of offer shows to the book.
#![tactic(auto)]

pub mod body;
pub mod ceilings;
pub mod kind;
pub mod terms;
