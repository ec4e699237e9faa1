ghost use Rattle.gates.specs.Minutes.{Hour};
ghost use Rattle.std.specs.Prelude.{Decides};

// The hours of the operating day, counted from 1.
pub const HOURS: i64 = 24;

pub fn is_hour(hour: i64) -> bool
    ensures { Decides result (Hour hour) }
{
    (1..=HOURS).contains(&hour)
}
