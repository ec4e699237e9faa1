ghost use Rattle.std.specs.Prelude.{◌≡◌, ℕ, ◌*◌, ◌≤◌, length, take};
ghost use Rattle.ledgers.specs.Rows.{row};
ghost use Rattle.tapes.specs.Slots.{filings, counting, spent_on, Orderly};

use ledgers::lengths::Lengths;
use ledgers::write::Write;

pub mod methods;
pub mod store;

// The first `used` of the lent slots are written. `latest` has at u * places + p the slot that counts for place p of unit u: an array with room for every size, since no memory is allocated.
#[derive(Drop)]
pub struct Tape<'a, B> {
    slots: &'a mut [Write<B>],
    used: usize,
    lengths: Lengths,
    latest: [usize; 2048],
    ghost indexed: { length latest ≡ 2048 },
    ghost fits: { 2 * (lengths.size.units * lengths.size.places) ≤ length slots.now },
    ghost short: { ((u : ℕ) → length (filings (take used slots.now) u) ≤ lengths.size.places) },
    ghost none: { ((u : ℕ) → lengths.size.units ≤ u → length (filings (take used slots.now) u) ≡ 0) },
    ghost spent: { used ≡ spent_on (take used slots.now) lengths.size.units },
    ghost orderly: { Orderly slots.now used },
    ghost counts: { ((u : ℕ) → row latest lengths.lens lengths.size.places lengths.size.units u ≡ counting (take used slots.now) u) },
}
