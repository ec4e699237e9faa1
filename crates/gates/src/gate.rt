ghost use Rattle.std.specs.Prelude.{◌≡◌};
ghost use Rattle.gates.specs.Gates.{Admits, Lawful};

// Which offers may be in force for an hour, by the minute at which they were received.
pub trait Gate {
    ghost meaning: { Self → Admits };

    // Whether an offer of this minute is admitted for this hour.
    fn admits(&self, minute: i64, hour: i64) -> bool
        ensures { result ≡ meaning self.now minute hour };

    ghost lawful: { (g : Self) → Lawful (meaning g) };
}
