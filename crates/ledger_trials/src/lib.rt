// The two ledgers side by side, and the slots that were lent to them.
#![tactic(auto)]

#[cfg(test)]
mod scripts;
#[cfg(test)]
mod sizes;
#[cfg(test)]
mod slots;
#[cfg(test)]
mod views;
