// Bodies and minutes at each limit, and one past it.
#![tactic(auto)]

#[cfg(test)]
mod asked;
#[cfg(test)]
mod intermittent_bodies;
#[cfg(test)]
mod minutes;
#[cfg(test)]
mod thermal_bodies;
