// The steps of an offer: power and price, and what an output costs.
#![tactic(auto)]

mod curve;
pub mod steps;
