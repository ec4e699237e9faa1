ghost use Rattle.std.specs.Prelude.{◌≡◌, length, pos};
ghost use Rattle.ledgers.specs.declared.write.Write.{Write};
ghost use Rattle.ledgers.specs.Held.{Held, Bounded, listed, filing_at, head_in, body_in};
ghost use Rattle.ledgers.specs.Writes.{waiting, add_of, mark_of, place_in, told_of, after_add, after_mark, Wrote};

use crate::filing::{Filing, Submission};
use refusals::ledger::LedgerRefusal;

// A list of filings for each unit number. Code above it is proved once, for every ledger, against what it holds and the writes that it makes.
pub trait Ledger<B> {
    ghost held: { Self → Held B };

    // One write leads from the ledger to the ledger.
    ghost writes: { Self → Write B → Self → Type 0 };

    ghost bounded: { (s : Self) → Bounded (held s) };

    // How many units there are.
    fn units(&self) -> i64
        ensures { result ≡ pos (held self.now).units };

    // How many filings a unit can have.
    fn places(&self) -> i64
        ensures { result ≡ pos (held self.now).places };

    // How many filings a unit has: 0 where it is unknown.
    fn length(&self, unit: i64) -> i64
        ensures { result ≡ pos (length (listed (held self.now) unit)) };

    // All but the body of the filing at a place, if there is one.
    fn head(&self, unit: i64, place: i64) -> Option<Filing<()>>
        ensures { result ≡ head_in (filing_at (listed (held self.now) unit) place) };

    // The body of the filing at a place, or the other.
    fn body(&self, unit: i64, place: i64, other: B) -> B
        ensures { result ≡ body_in (filing_at (listed (held self.now) unit) place) other };

    // Adds the submission as a waiting filing at the end of the unit's list, and answers its place.
    fn add(&mut self, unit: i64, submission: Submission<B>) -> Result<i64, LedgerRefusal>
        ensures answer { result ≡ place_in (add_of (held self.old) unit (waiting submission)) }
        ensures after { held self.new ≡ after_add (held self.old) (add_of (held self.old) unit (waiting submission)) }
        ensures wrote { Wrote writes self.old (add_of (held self.old) unit (waiting submission)) self.new };

    // Gives a waiting filing its verdict and round. Both are numbers, as a call may bring any.
    fn mark(&mut self, unit: i64, place: i64, verdict: i64, round: i64) -> Result<(), LedgerRefusal>
        ensures answer { result ≡ told_of (mark_of (held self.old) unit place verdict round) }
        ensures after { held self.new ≡ after_mark (held self.old) (mark_of (held self.old) unit place verdict round) }
        ensures wrote { Wrote writes self.old (mark_of (held self.old) unit place verdict round) self.new };
}
