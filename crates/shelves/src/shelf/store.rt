ghost use Rattle.std.specs.Prelude.{◌≡◌};
ghost use Rattle.ledgers.specs.Puts.{Fits, written};
ghost use Rattle.shelves.specs.Shelves.{shelved, shelf_writes, shelf_bounded};

use crate::shelf::Shelf;
use ledgers::filing::Filing;
use ledgers::lists::Lists;
use ledgers::store::{Accepted, Store};

impl<'a, B: Copy> Lists<B> for Shelf<'a, B> {
    ghost holds = { shelved };

    ghost limits = { shelf_bounded };

    // These three stand in each ledger, since one of another make may count otherwise.
    fn unit_count(&self) -> usize {
        self.lengths.units()
    }

    fn place_count(&self) -> usize {
        self.lengths.places()
    }

    fn list_length(&self, u: usize) -> usize {
        self.lengths.of(u)
    }

    fn filing(&self, u: usize, p: usize) -> Option<Filing<B>> {
        if p < self.list_length(u) {
            let i = self.lengths.index(u, p);
            let slots = &*self.slots;
            return Some(slots[i]);
        }
        None
    }
}

impl<'a, B: Copy> Store<B> for Shelf<'a, B> {
    ghost changes = { shelf_writes };

    fn write(&mut self, accepted: &Accepted<B>)
        requires { Fits (shelved self.old) accepted.now.write }
        ensures after { shelved self.new ≡ written (shelved self.old) accepted.now.write }
        ensures wrote { shelf_writes self.old accepted.now.write self.new }
    {
        let w = accepted.write();
        let i = self.lengths.index(w.unit, w.place);
        self.lengths.count(w.unit, w.place);
        self.slots[i] = w.filing;
    }
}
