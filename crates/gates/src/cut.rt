ghost use Rattle.std.specs.Prelude.{pos, ◌*ℤ◌, neg_ℤ, ◌≤ℤ◌};
ghost use Rattle.gates.specs.Gates.{cut_at};
ghost use Rattle.gates.specs.Minutes.{first_minute, end_of, hours};
ghost use Rattle.std.proofs.Common.{rules};

use crate::gate::Gate;

// Admits, for every hour, what came before its minute.
#[derive(Clone, Copy)]
pub struct CutGate {
    minute: i64,
    ghost low: { first_minute ≤ℤ minute },
    ghost high: { minute ≤ℤ end_of hours },
}

impl Gate for CutGate {
    ghost meaning = { λ g. cut_at g.minute };

    ghost lawful = { Prim.search rules };

    fn admits(&self, minute: i64, _hour: i64) -> bool {
        minute < self.minute
    }
}

pub mod methods;
