ghost use Rattle.std.specs.Prelude.{◌≡◌, length, is_ok};
ghost use Rattle.ledgers.specs.Writes.{Wrote, Trace};
ghost use Rattle.entries.specs.Entries.{entered, after_entry, held_after, writes_of};

use crate::entry::Entry;
use ledgers::ledger::Ledger;

// Makes the add or the mark, and tells whether it was accepted.
pub fn enter<B: Copy, L: Ledger<B>>(ledger: &mut L, entry: Entry<B>) -> bool
    ensures answer { result ≡ is_ok (entered (L.Ledger.held ledger.old) entry) }
    ensures after { L.Ledger.held ledger.new ≡ after_entry (L.Ledger.held ledger.old) entry }
    ensures wrote { Wrote L.Ledger.writes ledger.old (entered (L.Ledger.held ledger.old) entry) ledger.new }
{
    match entry {
        Entry::Add { unit, submission } => ledger.add(unit, submission).is_ok(),
        Entry::Mark {
            unit,
            place,
            verdict,
            round,
        } => ledger.mark(unit, place, verdict, round).is_ok(),
    }
}

// Makes them in their order, and tells how many were accepted. Nothing else is written.
pub fn enter_all<B: Copy, L: Ledger<B>>(ledger: &mut L, entries: &[Entry<B>]) -> usize
    ensures answer { result ≡ length (writes_of (L.Ledger.held ledger.old) entries.now) }
    ensures after { L.Ledger.held ledger.new ≡ held_after (L.Ledger.held ledger.old) entries.now }
    ensures wrote { Trace L.Ledger.writes ledger.old (writes_of (L.Ledger.held ledger.old) entries.now) ledger.new }
{
    // A loop and no chain of closures, since each call changes the ledger.
    let mut accepted = 0;
    for e in entries {
        if enter(ledger, *e) {
            accepted += 1;
        }
    }
    accepted
}
