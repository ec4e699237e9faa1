ghost use Rattle.std.specs.Prelude.{◌≡◌, ℕ, ◌+◌, ◌*◌, ◌<◌, ◌≤◌, cond, length, max, nat_lt, replicate, slice_index, slice_set};

use crate::size::Size;

// A ledger's size, and how many filings each unit's list has. The array has room for every size, since no memory is allocated.
#[derive(Drop)]
pub struct Lengths {
    size: Size,
    lens: [usize; 32],
    ghost counted: { length lens ≡ 32 },
    ghost filled: { ((u : ℕ) → slice_index lens u ≤ size.places) },
}

impl Lengths {
    // Of a ledger of this size without filings.
    pub fn new(size: Size) -> Lengths
        ensures size { result.size ≡ size }
        ensures none { result.lens ≡ replicate 32 0 }
    {
        Lengths {
            size,
            lens: [0; 32],
        }
    }

    pub fn units(&self) -> usize
        ensures { result ≡ self.now.size.units }
    {
        self.size.units
    }

    pub fn places(&self) -> usize
        ensures { result ≡ self.now.size.places }
    {
        self.size.places
    }

    // How many filings the unit has: 0 where it is unknown.
    pub fn of(&self, u: usize) -> usize
        ensures { result ≡ cond (nat_lt u self.now.size.units) (slice_index self.now.lens u) 0 }
    {
        if u < self.units() {
            return self.lens[u];
        }
        0
    }

    // Where a place of a unit stands, each unit's places lying behind those of the unit before.
    pub fn index(&self, u: usize, p: usize) -> usize
        requires { (u < self.now.size.units) × (p < self.now.size.places) }
        ensures value { result ≡ u * self.now.size.places + p }
        ensures inside { result < self.now.size.units * self.now.size.places }
    {
        u * self.places() + p
    }

    // Counts the filing at a place of a unit: the list is then at least as long.
    pub fn count(&mut self, u: usize, p: usize)
        requires { (u < self.old.size.units) × (p < self.old.size.places) }
        ensures size { self.new.size ≡ self.old.size }
        ensures lens { self.new.lens ≡ slice_set self.old.lens u (max (slice_index self.old.lens u) (p + 1)) }
    {
        self.lens[u] = self.lens[u].max(p + 1);
    }
}
