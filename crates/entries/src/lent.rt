ghost use Rattle.std.specs.Prelude.{◌≡◌, length};
ghost use Rattle.ledgers.specs.Sizes.{new_of};
ghost use Rattle.shelves.specs.Shelves.{slots_after as shelf_slots};
ghost use Rattle.tapes.specs.Tapes.{slots_after as tape_slots};
ghost use Rattle.entries.specs.Entries.{writes_of};

use crate::enter::enter_all;
use crate::entry::Entry;
use ledgers::filing::Filing;
use ledgers::write::Write;
use shelves::shelf::Shelf;
use tapes::tape::Tape;

// Enters them into a new shelf over the lent slots, and tells how many were accepted. When the shelf is gone, every slot is known.
pub fn enter_on_shelf<B: Copy>(
    units: i64,
    places: i64,
    slots: &mut [Filing<B>],
    entries: &[Entry<B>],
) -> usize
    ensures answer { result ≡ length (writes_of (new_of units places 1 (length slots.old)) entries.now) }
    ensures slots { slots.new ≡ shelf_slots (new_of {B = B} units places 1 (length slots.old)).places slots.old (writes_of (new_of units places 1 (length slots.old)) entries.now) }
{
    let mut shelf = Shelf::new(units, places, slots);
    enter_all(&mut shelf, entries)
}

// The same on a new tape: its first slots are the writes in their order, and the others hold what they held.
// One function for both would take the ledger's type by a bound, and what lent slots then end as is not known.
pub fn enter_on_tape<B: Copy>(
    units: i64,
    places: i64,
    slots: &mut [Write<B>],
    entries: &[Entry<B>],
) -> usize
    ensures answer { result ≡ length (writes_of (new_of units places 2 (length slots.old)) entries.now) }
    ensures slots { slots.new ≡ tape_slots 0 slots.old (writes_of (new_of units places 2 (length slots.old)) entries.now) }
{
    let mut tape = Tape::new(units, places, slots);
    enter_all(&mut tape, entries)
}
