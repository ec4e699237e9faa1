ghost use Rattle.std.specs.Prelude.{◌≡◌, length};
ghost use Rattle.ledgers.specs.Sizes.{size_answer, new_of};
ghost use Rattle.shelves.specs.Shelves.{shelved};

use crate::shelf::Shelf;
use ledgers::filing::Filing;
use ledgers::lengths::Lengths;
use ledgers::size::{Size, check_size};
use refusals::ledger::LedgerRefusal;

// Whether a shelf can have this size over this many slots: 1 where no ledger has the size, 2 where there are fewer slots than units times places. Each ledger has its own: a type with a lifetime gets no proof of a trait's constant.
pub fn check(units: i64, places: i64, slots: usize) -> Result<(), LedgerRefusal>
    ensures { result ≡ size_answer units places 1 slots }
{
    check_size(units, places, 1, slots)
}

impl<'a, B: Copy> Shelf<'a, B> {
    // A new shelf of this size, empty whatever its slots hold; of no units and no places where the check refuses the size.
    pub fn new(units: i64, places: i64, slots: &'a mut [Filing<B>]) -> Shelf<'a, B>
        ensures lent { result.slots.ghost_name ≡ slots.entry.ghost_name }
        ensures same { result.slots.now ≡ slots.old }
        ensures made { shelved result ≡ new_of units places 1 (length slots.old) }
    {
        let size = Size::of_new(units, places, 1, slots.len());
        Shelf {
            slots,
            lengths: Lengths::new(size),
        }
    }
}
