use crate::scripts::{all_day, mark};
use entries::entry::Entry;
use entries::lent::{enter_on_shelf, enter_on_tape};
use ledgers::filing::Filing;
use ledgers::verdict::Verdict;
use ledgers::write::Write;

fn filing(minute: i64, body: i64, verdict: Verdict, round: i64) -> Filing<i64> {
    Filing {
        submission: all_day(minute, body),
        verdict,
        round,
    }
}

fn add(unit: i64, minute: i64, body: i64) -> Entry<i64> {
    Entry::Add {
        unit,
        submission: all_day(minute, body),
    }
}

const SCRIPT_LENGTH: usize = 9;

// Adds and marks of two units, among them four that are refused.
fn script() -> [Entry<i64>; SCRIPT_LENGTH] {
    [
        add(1, 10, 100),
        add(2, 10, 100),
        add(1, 20, 200),
        mark(1, 0, 2, 1),
        add(1, 30, 300),
        mark(1, 0, 1, 2),
        mark(0, 0, 1, 1),
        add(0, 40, 400),
        mark(1, 1, 3, 2),
    ]
}

// What a slot holds before anything is entered.
fn old(body: i64) -> Filing<i64> {
    filing(-1, body, Verdict::PassedOver, 6)
}

// Slot 1 and, beyond the four that are needed, slots 4 and 5 hold what they held.
#[test]
fn shelf_slots(rt: HostRuntime) {
    let mut slots = [old(0), old(-1), old(-2), old(-3), old(-4), old(-5)];
    assert_eq!(rt; enter_on_shelf(2, 2, &mut slots, &script()), 5);
    assert_eq!(rt;
        slots,
        [
            filing(40, 400, Verdict::Waiting, 0),
            old(-1),
            filing(10, 100, Verdict::Capped, 1),
            filing(20, 200, Verdict::PassedOver, 2),
            old(-4),
            old(-5),
        ]
    );
}

// A slot of the tape.
fn slot(unit: usize, place: usize, filing: Filing<i64>) -> Write<i64> {
    Write {
        unit,
        place,
        filing,
    }
}

// The first five are the accepted entries, and the others hold what they held.
#[test]
fn tape_slots(rt: HostRuntime) {
    let blank = slot(1, 0, old(-2));
    let mut slots = [blank; 9];
    slots[8].unit = 7;
    assert_eq!(rt; enter_on_tape(2, 2, &mut slots, &script()), 5);
    assert_eq!(rt;
        slots,
        [
            slot(1, 0, filing(10, 100, Verdict::Waiting, 0)),
            slot(1, 1, filing(20, 200, Verdict::Waiting, 0)),
            slot(1, 0, filing(10, 100, Verdict::Capped, 1)),
            slot(0, 0, filing(40, 400, Verdict::Waiting, 0)),
            slot(1, 1, filing(20, 200, Verdict::PassedOver, 2)),
            blank,
            blank,
            blank,
            slot(7, 0, old(-2)),
        ]
    );
}

// A making that is refused writes no slot, and neither do the entries behind it.
#[test]
fn refused_makings(rt: HostRuntime) {
    let mut slots = [old(-2); 3];
    assert_eq!(rt; enter_on_shelf(2, 2, &mut slots, &script()), 0);
    assert_eq!(rt; slots, [old(-2); 3]);
    let mut writes = [slot(1, 0, old(-2)); 7];
    assert_eq!(rt; enter_on_tape(2, 2, &mut writes, &script()), 0);
    assert_eq!(rt; writes, [slot(1, 0, old(-2)); 7]);
}
