use crate::scripts::{OLD, OLD_WRITE, answer, answered};
use entries::entry::Entry;
use ledgers::filing::Filing;
use ledgers::ledger::Ledger;
use ledgers::lists::Lists;
use ledgers::lists::questions::{body_in, head_in, length_in, places_in, units_in};
use ledgers::lists::writes::{add_in, mark_in};
use shelves::shelf::Shelf;
use std::process::Abort;
use tapes::tape::Tape;

// The lists of a ledger, and nothing to write with.
#[derive(Drop)]
struct View<'a, L> {
    lists: &'a L,
}

impl<'a, L: Lists<i64>> Lists<i64> for View<'a, L> {
    ghost holds = { λ s. L.holds s.lists.now };

    ghost limits = { λ s. L.limits s.lists.now };

    fn unit_count(&self) -> usize {
        self.lists.unit_count()
    }

    fn place_count(&self) -> usize {
        self.lists.place_count()
    }

    fn list_length(&self, u: usize) -> usize {
        self.lists.list_length(u)
    }

    fn filing(&self, u: usize, p: usize) -> Option<Filing<i64>> {
        self.lists.filing(u, p)
    }
}

// Through a view every question is answered as by the ledger.
fn seen<L: Lists<i64> + Ledger<i64>>(rt: &impl Abort, ledger: &L) {
    let view = View { lists: ledger };
    assert_eq!(rt; units_in(&view), ledger.units());
    assert_eq!(rt; places_in(&view), ledger.places());
    for unit in -1..4 {
        assert_eq!(rt; length_in(&view, unit), ledger.length(unit));
        for place in -1..5 {
            assert_eq!(rt; head_in(&view, unit, place), ledger.head(unit, place));
            assert_eq!(rt;
                body_in(&view, unit, place, -7),
                ledger.body(unit, place, -7)
            );
        }
    }
}

// What an add or a mark would answer, told through a view: nothing is written.
fn foretold<L: Lists<i64>>(lists: &L, entry: Entry<i64>) -> (u32, i64) {
    let view = View { lists };
    let told = match entry {
        Entry::Add { unit, submission } => add_in(&view, unit, Filing::waiting(submission)),
        Entry::Mark {
            unit,
            place,
            verdict,
            round,
        } => mark_in(&view, unit, place, verdict, round),
    };
    match told {
        Ok(write) => (0, i64::try_from(write.place).unwrap_or(-2)),
        Err(refusal) => (u32::from(refusal), -1),
    }
}

// The script of adds and marks again, each foretold and then made.
fn follow<L: Lists<i64> + Ledger<i64>>(rt: &impl Abort, ledger: &mut L) {
    for (entry, number, place) in answered() {
        assert_eq!(rt; foretold(ledger, entry), (number, place));
        seen(rt, ledger);
        assert_eq!(rt; answer(ledger, entry), (number, place));
    }
    seen(rt, ledger);
}

#[test]
fn views_of_both(rt: HostRuntime) {
    let mut shelf_slots = [OLD; 6];
    let mut tape_slots = [OLD_WRITE; 12];
    let mut shelf = Shelf::new(2, 3, &mut shelf_slots);
    let mut tape = Tape::new(2, 3, &mut tape_slots);
    follow(&rt, &mut shelf);
    follow(&rt, &mut tape);
}
