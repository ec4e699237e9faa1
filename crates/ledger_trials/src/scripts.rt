use curves::steps::{Step, Steps};
use entries::entry::Entry;
use ledgers::filing::{Filing, Submission};
use ledgers::ledger::Ledger;
use ledgers::verdict::Verdict;
use ledgers::write::Write;
use offers::kind::Kind;
use shelves::shelf::Shelf;
use std::process::Abort;
use std::test::Fail;
use tapes::tape::Tape;
use thermal::Thermal;

// What an add or a mark answers: the number of its refusal, or 0 and the place.
pub(crate) fn answer<B: Copy, L: Ledger<B>>(ledger: &mut L, entry: Entry<B>) -> (u32, i64) {
    let told = match entry {
        Entry::Add { unit, submission } => ledger.add(unit, submission),
        Entry::Mark {
            unit,
            place,
            verdict,
            round,
        } => ledger.mark(unit, place, verdict, round).map(|_| place),
    };
    match told {
        Ok(place) => (0, place),
        Err(refusal) => (u32::from(refusal), -1),
    }
}

// A filing without its body.
fn head(minute: i64, first: i64, last: i64, verdict: Verdict, round: i64) -> Filing<()> {
    Filing {
        submission: Submission {
            minute,
            first,
            last,
            body: (),
        },
        verdict,
        round,
    }
}

// The two ledgers answer every question alike, also about a unit and a place on either side of those they have.
fn alike<L: Ledger<i64>, M: Ledger<i64>>(rt: &impl Abort, a: &L, b: &M) {
    assert_eq!(rt; a.units(), b.units());
    assert_eq!(rt; a.places(), b.places());
    for unit in -1..33 {
        assert_eq!(rt; a.length(unit), b.length(unit));
        for place in -1..66 {
            assert_eq!(rt; a.head(unit, place), b.head(unit, place));
            assert_eq!(rt; a.body(unit, place, -7), b.body(unit, place, -7));
        }
    }
}

fn add(unit: i64, minute: i64, body: i64) -> Entry<i64> {
    let submission = Submission {
        minute,
        first: body,
        last: unit,
        body,
    };
    Entry::Add { unit, submission }
}

pub(crate) fn mark(unit: i64, place: i64, verdict: i64, round: i64) -> Entry<i64> {
    Entry::Mark {
        unit,
        place,
        verdict,
        round,
    }
}

pub(crate) const OLD: Filing<i64> = Filing {
    submission: Submission {
        minute: 900,
        first: 90,
        last: 9,
        body: 99,
    },
    verdict: Verdict::Capped,
    round: 5,
};

pub(crate) const OLD_WRITE: Write<i64> = Write {
    unit: 0,
    place: 0,
    filing: OLD,
};

const ENTRIES: usize = 32;

// Entries with the number and the place that each is answered: two units of three places each.
pub(crate) fn answered() -> [(Entry<i64>, u32, i64); ENTRIES] {
    [
        (add(-1, 1, 10), 6, -1),
        (add(2, 1, 10), 6, -1),
        (add(i64::MIN, 1, 10), 6, -1),
        (add(i64::MAX, 1, 10), 6, -1),
        (mark(0, 0, 1, 1), 20, -1),
        (add(0, 5, 10), 0, 0),
        (add(1, -20_000, 11), 0, 0),
        (add(0, 4, 12), 0, 1),
        (mark(-1, 0, 1, 1), 6, -1),
        (mark(2, 0, 0, 9), 6, -1),
        (mark(0, -1, 1, 1), 20, -1),
        (mark(0, 2, 1, 1), 20, -1),
        (mark(0, i64::MIN, 1, 1), 20, -1),
        (mark(0, i64::MAX, 1, 1), 20, -1),
        (mark(0, 1, 0, 1), 20, -1),
        (mark(0, 1, 4, 1), 20, -1),
        (mark(0, 1, 2, -1), 20, -1),
        (mark(0, 1, 2, 7), 20, -1),
        (mark(0, 1, 2, 6), 0, 1),
        (mark(0, 1, 2, 6), 20, -1),
        (mark(0, 1, 1, 1), 20, -1),
        (mark(0, 0, 1, 0), 0, 0),
        (add(0, 3, 13), 0, 2),
        (add(0, 3, 14), 16, -1),
        (mark(1, 0, 3, 2), 0, 0),
        (mark(0, 2, 3, 3), 0, 2),
        (add(0, 3, 14), 16, -1),
        (add(1, 0, 15), 0, 1),
        (add(1, 0, 16), 0, 2),
        (add(1, 0, 17), 16, -1),
        (mark(1, 2, 1, 4), 0, 2),
        (mark(1, 1, 2, 5), 0, 1),
    ]
}

// Over slots that hold something already, both ledgers answer each entry so, and then every question alike.
#[test]
fn one_script(rt: HostRuntime) {
    let mut shelf_slots = [OLD; 6];
    let mut tape_slots = [OLD_WRITE; 12];
    let mut shelf = Shelf::new(2, 3, &mut shelf_slots);
    let mut tape = Tape::new(2, 3, &mut tape_slots);
    alike(&rt, &shelf, &tape);
    for (entry, number, place) in answered() {
        assert_eq!(rt; answer(&mut shelf, entry), (number, place));
        assert_eq!(rt; answer(&mut tape, entry), (number, place));
        alike(&rt, &shelf, &tape);
    }
    assert_eq!(rt; shelf.length(0), 3);
    assert_eq!(rt; shelf.head(0, 1), Some(head(4, 12, 0, Verdict::Capped, 6)));
    assert_eq!(rt; shelf.body(0, 1, -7), 12);
    assert_eq!(rt; tape.head(1, 1), Some(head(0, 15, 1, Verdict::Capped, 5)));
    assert_eq!(rt; tape.body(1, 1, -7), 15);
    assert_eq!(rt; tape.body(1, 3, -7), -7);
    assert_eq!(rt; shelf.body(2, 0, -7), -7);
    assert_eq!(rt; i64::from(Verdict::Capped), 2);
}

// Fills and judges 32 units of 64 places each: only then is there no room.
fn fill<L: Ledger<i64>>(rt: &impl Abort, ledger: &mut L) {
    for place in 0..64 {
        for unit in 0..32 {
            assert_eq!(rt; answer(ledger, add(unit, place, place)), (0, place));
        }
    }
    for place in 0..64 {
        for unit in 0..32 {
            assert_eq!(rt; answer(ledger, mark(unit, place, 1, 1)), (0, place));
        }
    }
    assert_eq!(rt; answer(ledger, add(31, 0, 0)), (16, -1));
}

// The largest ledgers.
#[test]
fn largest(rt: HostRuntime) {
    let mut shelf_slots = [OLD; 2048];
    let mut tape_slots = [OLD_WRITE; 4096];
    let mut shelf = Shelf::new(32, 64, &mut shelf_slots);
    let mut tape = Tape::new(32, 64, &mut tape_slots);
    fill(&rt, &mut shelf);
    fill(&rt, &mut tape);
    alike(&rt, &shelf, &tape);
}

fn with_steps(upper: i64) -> Result<Thermal, Fail> {
    let first = Step {
        upper: 100,
        price: 50,
    };
    let second = Step { upper, price: 70 };
    let steps = Steps::of(&[first, second]).ok_or("too many steps")?;
    Ok(Thermal {
        status: 1,
        emergency_min: 10,
        economic_min: 20,
        economic_max: upper,
        emergency_max: 900,
        start_price: 5,
        steps,
    })
}

// Of all hours of the day.
pub(crate) fn all_day<B>(minute: i64, body: B) -> Submission<B> {
    Submission {
        minute,
        first: 1,
        last: 24,
        body,
    }
}

// Two filings with steps, of which the first is judged: their tops, and that of the body brought where there is none.
fn tops<L: Ledger<Thermal>>(rt: &impl Abort, ledger: &mut L) -> Result<(i64, i64, i64), Fail> {
    let small = with_steps(250)?;
    let large = with_steps(300)?;
    let other = with_steps(400)?;
    assert!(rt; ledger.add(1, all_day(1, small)).is_ok());
    assert!(rt; ledger.add(1, all_day(2, large)).is_ok());
    assert!(rt; ledger.mark(1, 0, 2, 1).is_ok());
    Ok((
        ledger.body(1, 0, other).top(),
        ledger.body(1, 1, other).top(),
        ledger.body(1, 2, other).top(),
    ))
}

#[test]
fn bodies_with_steps(rt: HostRuntime) -> Result<(), Fail> {
    let filing = Filing::waiting(Submission {
        minute: 0,
        first: 0,
        last: 0,
        body: with_steps(150)?,
    });
    let mut shelf_slots = [filing; 4];
    let mut tape_slots = [Write {
        unit: 0,
        place: 0,
        filing,
    }; 8];
    let mut shelf = Shelf::new(2, 2, &mut shelf_slots);
    let mut tape = Tape::new(2, 2, &mut tape_slots);
    assert_eq!(rt; tops(&rt, &mut shelf)?, (250, 300, 400));
    assert_eq!(rt; tops(&rt, &mut tape)?, (250, 300, 400));
    Ok(())
}
