// The ledger over lent filing slots: slot u * places + p holds place p of unit u.
#![tactic(auto)]

pub mod shelf;
