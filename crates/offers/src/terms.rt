ghost use Rattle.std.specs.Prelude.{◌≡◌};
ghost use Rattle.offers.specs.Widest.{widest_terms};

// The highest maximum that a unit can have registered, in kW.
pub const MAX_REGISTERED: i64 = 2_000_000;

// The lowest floor and the highest cap that a book can have, in centavos per MWh.
pub const MIN_FLOOR: i64 = -10_000_000;

pub const MAX_CAP: i64 = 10_000_000;

// The terms on which a body is admitted: the unit's registered maximum in kW, and the book's floor and cap in centavos per MWh.
#[derive(Clone, Copy)]
pub struct Terms {
    pub maximum: i64,
    pub floor: i64,
    pub cap: i64,
}

impl Terms {
    // The widest terms that a book can have.
    pub fn widest() -> Terms
        ensures { result ≡ widest_terms }
    {
        Terms {
            maximum: MAX_REGISTERED,
            floor: MIN_FLOOR,
            cap: MAX_CAP,
        }
    }
}
