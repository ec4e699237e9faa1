// Day files: the order of their columns, what each of their rows asks, and their faults.
#![tactic(auto)]

pub mod call;
pub mod column;
pub mod entry;
pub mod fault;
mod names;
pub mod order;
pub mod reader;
pub mod row;
mod values;
