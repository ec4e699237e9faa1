// Adds and marks as values: a list of them is entered into any ledger, and whoever lent the slots knows what they then hold.
#![tactic(auto)]

pub mod enter;
pub mod entry;
pub mod lent;
