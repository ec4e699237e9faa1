ghost use Rattle.std.specs.Prelude.{◌≡◌};
ghost use Rattle.ledgers.specs.Writes.{waiting, add_of, place_in, after_add, Wrote};

use crate::filing::{Filing, Submission};
use crate::ledger::Ledger;
use crate::lists::questions::{body_in, head_in, length_in, places_in, units_in};
use crate::lists::writes::{add_in, mark_in};
use crate::store::{Accepted, Store};
use refusals::ledger::LedgerRefusal;

impl<B: Copy, S: Store<B>> Ledger<B> for S {
    ghost held = { S.holds };

    ghost writes = { S.changes };

    ghost bounded = { S.limits };

    fn units(&self) -> i64 {
        units_in(self)
    }

    fn places(&self) -> i64 {
        places_in(self)
    }

    fn length(&self, unit: i64) -> i64 {
        length_in(self, unit)
    }

    fn head(&self, unit: i64, place: i64) -> Option<Filing<()>> {
        head_in(self, unit, place)
    }

    fn body(&self, unit: i64, place: i64, other: B) -> B {
        body_in(self, unit, place, other)
    }

    fn add(&mut self, unit: i64, submission: Submission<B>) -> Result<i64, LedgerRefusal>
        ensures answer { result ≡ place_in (add_of (S.Lists.holds self.old) unit (waiting submission)) }
        ensures after { S.Lists.holds self.new ≡ after_add (S.Lists.holds self.old) (add_of (S.Lists.holds self.old) unit (waiting submission)) }
        ensures wrote { Wrote S.Store.changes self.old (add_of (S.Lists.holds self.old) unit (waiting submission)) self.new }
    {
        let w = add_in(self, unit, Filing::waiting(submission))?;
        self.write(&Accepted { write: w });
        Ok(w.place as i64)
    }

    fn mark(
        &mut self,
        unit: i64,
        place: i64,
        verdict: i64,
        round: i64,
    ) -> Result<(), LedgerRefusal> {
        let w = mark_in(self, unit, place, verdict, round)?;
        self.write(&Accepted { write: w });
        Ok(())
    }
}
