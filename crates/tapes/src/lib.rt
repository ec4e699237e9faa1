// The ledger over lent slots of writes: each add and mark takes the next slot, and the latest counts.
#![tactic(auto)]

pub mod tape;
