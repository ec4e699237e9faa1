ghost use Rattle.std.specs.Prelude.{◌≡◌, length};
ghost use Rattle.std.specs.List.{slice_get};
ghost use Rattle.ledgers.specs.Held.{Held, Bounded};

use crate::filing::Filing;

pub mod questions;
pub mod writes;

// The lists of filings inside a ledger, by unit and place: what the answers of every ledger are worked out from.
pub trait Lists<B> {
    ghost holds: { Self → Held B };

    ghost limits: { (s : Self) → Bounded (holds s) };

    fn unit_count(&self) -> usize
        ensures { result ≡ (holds self.now).units };

    fn place_count(&self) -> usize
        ensures { result ≡ (holds self.now).places };

    // How many filings the unit has.
    fn list_length(&self, u: usize) -> usize
        ensures { result ≡ length ((holds self.now).list u) };

    // The filing at a place of the unit's list.
    fn filing(&self, u: usize, p: usize) -> Option<Filing<B>>
        ensures { result ≡ slice_get ((holds self.now).list u) p };
}
