ghost use Rattle.std.specs.Prelude.{◌≡◌};
ghost use Rattle.ledgers.specs.Puts.{Fits, written};
ghost use Rattle.tapes.specs.Tapes.{taped, tape_writes, tape_bounded};

use crate::tape::Tape;
use ledgers::filing::Filing;
use ledgers::lists::Lists;
use ledgers::store::{Accepted, Store};

impl<'a, B: Copy> Lists<B> for Tape<'a, B> {
    ghost holds = { taped };

    ghost limits = { tape_bounded };

    // These three stand in each ledger, since one of another make may count otherwise.
    fn unit_count(&self) -> usize {
        self.lengths.units()
    }

    fn place_count(&self) -> usize {
        self.lengths.places()
    }

    fn list_length(&self, u: usize) -> usize {
        self.lengths.of(u)
    }

    fn filing(&self, u: usize, p: usize) -> Option<Filing<B>> {
        let i = self.latest_slot(u, p)?;
        let slots = &*self.slots;
        Some(slots[i].filing)
    }
}

impl<'a, B: Copy> Store<B> for Tape<'a, B> {
    ghost changes = { tape_writes };

    // Writes into the next slot. There is one for every write that can come.
    fn write(&mut self, accepted: &Accepted<B>)
        requires { Fits (taped self.old) accepted.now.write }
        ensures after { taped self.new ≡ written (taped self.old) accepted.now.write }
        ensures wrote { tape_writes self.old accepted.now.write self.new }
    {
        let w = accepted.write();
        let k = self.lengths.index(w.unit, w.place);
        let i = self.used;
        self.slots[i] = w;
        self.latest[k] = i;
        self.lengths.count(w.unit, w.place);
        self.used = i + 1;
    }
}
