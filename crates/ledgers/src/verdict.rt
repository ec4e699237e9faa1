ghost use Rattle.std.specs.Prelude.{◌≡◌};
ghost use Rattle.ledgers.specs.Verdicts.{verdict_number, waits, judgement, OfRound};

// What became of a filing, each with its number: it waits for its round, or the round's verdict. Waiting has a number like the others, and so is no `None`.
#[derive(Clone, Copy, Debug, PartialEq, Eq)]
pub enum Verdict {
    Waiting = 0,
    Consistent = 1,
    Capped = 2,
    PassedOver = 3,
}

// The number of a verdict.
impl From<Verdict> for i64 {
    ghost from_gives = { λ verdict number. number ≡ verdict_number verdict };

    fn from(verdict: Verdict) -> i64 {
        verdict as i64
    }
}

impl Verdict {
    // The verdict of a round that has this number, from 1 to 3. A `TryFrom` would be read as the way back from every number, 0 too.
    pub fn of_round(number: i64) -> Option<Verdict>
        ensures value { result ≡ judgement number }
        ensures told { OfRound number result }
    {
        match number {
            1 => Some(Verdict::Consistent),
            2 => Some(Verdict::Capped),
            3 => Some(Verdict::PassedOver),
            _ => None,
        }
    }

    pub fn is_waiting(self) -> bool
        ensures { result ≡ waits self }
    {
        self == Verdict::Waiting
    }
}
