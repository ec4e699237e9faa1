// What every ledger of filings shows to the book, and what the ledgers share.
#![tactic(auto)]

pub mod filing;
pub mod ledger;
pub mod lengths;
pub mod lists;
pub mod number;
pub mod size;
pub mod store;
pub mod verdict;
pub mod write;
