ghost use Rattle.std.specs.Prelude.{◌≡◌};
ghost use Rattle.ledgers.specs.declared.write.Write.{Write};
ghost use Rattle.ledgers.specs.Puts.{Fits, written};

use crate::lists::Lists;
use crate::write::Write;

pub mod ledger;

// A write that an add or a mark has decided. Nothing but these two makes one.
#[derive(Drop)]
pub struct Accepted<B> {
    write: Write<B>,
}

impl<B: Copy> Accepted<B> {
    pub fn write(&self) -> Write<B>
        ensures { result ≡ self.now.write }
    {
        self.write
    }
}

// Lists of filings that can be written to. Whatever has them is a ledger.
pub trait Store<B>: Lists<B> {
    // One write leads from the store to the store.
    ghost changes: { Self → Write B → Self → Type 0 };

    // Writes a filing in place of the one there, or behind the last. Only add and mark make what it takes.
    fn write(&mut self, accepted: &Accepted<B>)
        requires { Fits (Self.holds self.old) accepted.now.write }
        ensures after { Self.holds self.new ≡ written (Self.holds self.old) accepted.now.write }
        ensures wrote { changes self.old accepted.now.write self.new };
}
