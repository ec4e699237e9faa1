ghost use Rattle.std.specs.Prelude.{◌≡◌};
ghost use Rattle.ledgers.specs.Held.{number_below, natural_of};

// The number as a unit, where it is one below `end`.
pub fn below(x: i64, end: usize) -> Option<usize>
    ensures { result ≡ number_below x end }
{
    natural(x).filter(|&n| n < end)
}

// The number as a place, where it is not negative.
pub fn natural(x: i64) -> Option<usize>
    ensures { result ≡ natural_of x }
{
    usize::try_from(x).ok()
}
