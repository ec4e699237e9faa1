// Hours, minutes, and the gates that admit an offer for an hour.
#![tactic(auto)]

pub mod cut;
pub mod gate;
pub mod hour;
pub mod real_time;
