// What the book refuses, and the number that stands for it.
#![tactic(auto)]

ghost use Rattle.std.specs.Prelude.{◌≡◌};
ghost use Rattle.refusals.specs.Numbers.{number_of};

pub mod ledger;

#[derive(Clone, Copy, Debug, PartialEq, Eq)]
pub enum Refusal {
    // A minute outside the range that the call allows.
    MinuteOutOfRange = 12,
}

// The number of a refusal.
impl From<Refusal> for u32 {
    ghost from_gives = { λ refusal number. number ≡ number_of refusal };

    fn from(refusal: Refusal) -> u32 {
        refusal as u32
    }
}
