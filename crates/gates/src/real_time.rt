ghost use Rattle.gates.specs.Gates.{real_time};
ghost use Rattle.std.proofs.Common.{rules};

use crate::gate::Gate;

// Admits an offer until the hour ends.
#[derive(Clone, Copy)]
pub struct RealTime;

impl Gate for RealTime {
    ghost meaning = { λ _. real_time };

    ghost lawful = { Prim.search rules };

    fn admits(&self, minute: i64, hour: i64) -> bool {
        i128::from(minute) < 60 * i128::from(hour)
    }
}
