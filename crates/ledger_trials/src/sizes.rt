use ledgers::filing::{Filing, Submission};
use ledgers::ledger::Ledger;
use ledgers::write::Write;
use refusals::ledger::LedgerRefusal;
use shelves::shelf::Shelf;
use shelves::shelf::methods::check as check_shelf;
use tapes::tape::Tape;
use tapes::tape::methods::check as check_tape;

// The number of a refusal, or 0.
fn number(answer: Result<(), LedgerRefusal>) -> u32 {
    match answer {
        Ok(()) => 0,
        Err(refusal) => u32::from(refusal),
    }
}

// Units, places and slots, and what a shelf's check and a tape's say of them.
#[test]
fn each_limit(rt: HostRuntime) {
    let table = [
        (1, 2, 4, 0, 0),
        (1, 2, 3, 0, 2),
        (1, 2, 2, 0, 2),
        (1, 2, 1, 2, 2),
        (0, 2, 9, 1, 1),
        (0, 2, 0, 1, 1),
        (-1, 2, 9, 1, 1),
        (1, 1, 9, 1, 1),
        (1, -2, 9, 1, 1),
        (-1, -2, 9, 1, 1),
        (32, 64, 4_096, 0, 0),
        (32, 64, 4_095, 0, 2),
        (32, 64, 2_048, 0, 2),
        (32, 64, 2_047, 2, 2),
        (33, 64, 5_000, 1, 1),
        (32, 65, 5_000, 1, 1),
        (i64::MAX, i64::MAX, 0, 1, 1),
        (i64::MIN, i64::MIN, 0, 1, 1),
        (3, 5, usize::MAX, 0, 0),
    ];
    for (units, places, slots, shelf, tape) in table {
        assert_eq!(rt; number(check_shelf(units, places, slots)), shelf);
        assert_eq!(rt; number(check_tape(units, places, slots)), tape);
    }
}

// Every number of it is the same.
fn submission(number: i64) -> Submission<i64> {
    Submission {
        minute: number,
        first: number,
        last: number,
        body: number,
    }
}

// Units and places of a new ledger, and the number with which it refuses an add to unit 0.
fn made<L: Ledger<i64>>(ledger: &mut L) -> (i64, i64, u32) {
    let told = ledger.add(0, submission(1)).map(|_| ());
    (ledger.units(), ledger.places(), number(told))
}

// A making over six slots of a shelf or twelve of a tape decides by the figures: where they are refused there are no units and no places.
#[test]
fn makings(rt: HostRuntime) {
    let table = [
        (2, 3, (2, 3, 0)),
        (2, 4, (0, 0, 6)),
        (0, 2, (0, 0, 6)),
        (1, 1, (0, 0, 6)),
        (33, 2, (0, 0, 6)),
        (1, 65, (0, 0, 6)),
        (-1, -2, (0, 0, 6)),
    ];
    let filing = Filing::waiting(submission(0));
    let mut shelf_slots = [filing; 6];
    let mut tape_slots = [Write {
        unit: 0,
        place: 0,
        filing,
    }; 12];
    for (units, places, expected) in table {
        let mut shelf = Shelf::new(units, places, &mut shelf_slots);
        assert_eq!(rt; made(&mut shelf), expected);
        let mut tape = Tape::new(units, places, &mut tape_slots);
        assert_eq!(rt; made(&mut tape), expected);
    }
}
