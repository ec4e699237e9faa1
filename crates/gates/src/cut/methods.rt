ghost use Rattle.gates.specs.Cuts.{CutMade};

use crate::cut::CutGate;
use crate::hour::HOURS;
use refusals::Refusal;

impl CutGate {
    // The gate that cuts at a minute from -10,080 to the end of the day, or its refusal. By name and no `TryFrom`: the name says what the number is.
    pub fn at(minute: i64) -> Result<CutGate, Refusal>
        ensures { CutMade minute result }
    {
        if (-10_080..=60 * HOURS).contains(&minute) {
            Ok(CutGate { minute })
        } else {
            Err(Refusal::MinuteOutOfRange)
        }
    }
}
