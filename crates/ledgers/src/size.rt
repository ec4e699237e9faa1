ghost use Rattle.std.specs.Prelude.{◌≡◌, ◌*◌, ◌≤◌};
ghost use Rattle.ledgers.specs.Sizes.{is_size, size_answer, new_units, new_places};

use refusals::ledger::LedgerRefusal;

// How many units a ledger has, and how many places for each: 1 to 32 and 2 to 64, or none of either.
#[derive(Clone, Copy)]
pub struct Size {
    pub units: usize,
    pub places: usize,
    ghost few: { units ≤ 32 },
    ghost narrow: { places ≤ 64 },
    ghost wide: { (1 ≤ units → 2 ≤ places) },
    ghost some: { (1 ≤ places → 1 ≤ units) },
}

impl Size {
    // The size of a new ledger: as asked where the check does not refuse it, else of no units and no places.
    pub fn of_new(units: i64, places: i64, each: u8, slots: usize) -> Size
        ensures units { result.units ≡ new_units units (size_answer units places each slots) }
        ensures places { result.places ≡ new_places places (size_answer units places each slots) }
        ensures fits { each * (result.units * result.places) ≤ slots }
    {
        if check_size(units, places, each, slots).is_err() {
            return Size {
                units: 0,
                places: 0,
            };
        }
        Size {
            units: units as usize,
            places: places as usize,
        }
    }
}

// Whether a ledger can have this size over this many slots, of which it takes `each` for every place: 1 where no ledger has the size, 2 where slots are wanting. Units and places are two numbers of the call here, which may be anything; `Size` is what they become.
pub fn check_size(units: i64, places: i64, each: u8, slots: usize) -> Result<(), LedgerRefusal>
    ensures { result ≡ size_answer units places each slots }
{
    if !is_size(units, places) {
        return Err(LedgerRefusal::LedgerSize);
    }
    if each as usize * (units as usize * places as usize) > slots {
        return Err(LedgerRefusal::TooFewSlots);
    }
    Ok(())
}

fn is_size(units: i64, places: i64) -> bool
    ensures { result ≡ is_size units places }
{
    (1..=32).contains(&units) && (2..=64).contains(&places)
}
