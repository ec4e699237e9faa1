ghost use Rattle.std.specs.Prelude.{◌≡◌, length, take};
ghost use Rattle.std.specs.List.{slice_get};
ghost use Rattle.ledgers.specs.Sizes.{size_answer, new_of};
ghost use Rattle.tapes.specs.Slots.{counting, Latest};
ghost use Rattle.tapes.specs.Tapes.{taped};

use crate::tape::Tape;
use ledgers::lengths::Lengths;
use ledgers::size::{Size, check_size};
use ledgers::write::Write;
use refusals::ledger::LedgerRefusal;

// Whether a tape can have this size over this many slots: 1 where no ledger has the size, 2 where there are fewer slots than twice units times places. Each ledger has its own: a type with a lifetime gets no proof of a trait's constant.
pub fn check(units: i64, places: i64, slots: usize) -> Result<(), LedgerRefusal>
    ensures { result ≡ size_answer units places 2 slots }
{
    check_size(units, places, 2, slots)
}

impl<'a, B: Copy> Tape<'a, B> {
    // A new tape of this size, empty whatever its slots hold; of no units and no places where the check refuses the size.
    pub fn new(units: i64, places: i64, slots: &'a mut [Write<B>]) -> Tape<'a, B>
        ensures lent { result.slots.ghost_name ≡ slots.entry.ghost_name }
        ensures same { result.slots.now ≡ slots.old }
        ensures unused { result.used ≡ 0 }
        ensures made { taped result ≡ new_of units places 2 (length slots.old) }
    {
        let size = Size::of_new(units, places, 2, slots.len());
        Tape {
            slots,
            used: 0,
            lengths: Lengths::new(size),
            latest: [0; 2048],
        }
    }

    // The slot that counts for a place of a unit: the latest written one that has it, if one has.
    pub fn latest_slot(&self, u: usize, p: usize) -> Option<usize>
        ensures counts { result ≡ slice_get (counting (take self.now.used self.now.slots.now) u) p }
        ensures latest { Latest self.now.slots.now self.now.used u p result }
    {
        if p < self.lengths.of(u) {
            let k = self.lengths.index(u, p);
            return Some(self.latest[k]);
        }
        None
    }
}
