ghost use Rattle.std.specs.Prelude.{◌≡◌};
ghost use Rattle.refusals.specs.LedgerNumbers.{ledger_number_of};

// What a ledger refuses.
#[derive(Clone, Copy, Debug, PartialEq, Eq)]
pub enum LedgerRefusal {
    // A count of units or of places that a ledger cannot have.
    LedgerSize = 1,
    // Fewer slots than the ledger needs.
    TooFewSlots = 2,
    // A unit number that the ledger does not have.
    UnknownUnit = 6,
    // The unit's list has no place left.
    ListFull = 16,
    // No filing waits at the place, or the verdict or the round is none.
    NotMarkable = 20,
}

// The number of a refusal.
impl From<LedgerRefusal> for u32 {
    ghost from_gives = { λ refusal number. number ≡ ledger_number_of refusal };

    fn from(refusal: LedgerRefusal) -> u32 {
        refusal as u32
    }
}
