ghost use Rattle.std.specs.Prelude.{◌≡◌, ◌*◌, ◌≤◌, length};

use ledgers::filing::Filing;
use ledgers::lengths::Lengths;

pub mod methods;
pub mod store;

#[derive(Drop)]
pub struct Shelf<'a, B> {
    slots: &'a mut [Filing<B>],
    lengths: Lengths,
    ghost fits: { lengths.size.units * lengths.size.places ≤ length slots.now },
}
