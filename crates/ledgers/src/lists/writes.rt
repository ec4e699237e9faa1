ghost use Rattle.std.specs.Prelude.{◌≡◌};
ghost use Rattle.ledgers.specs.Writes.{add_of, mark_of};

use crate::filing::Filing;
use crate::lists::Lists;
use crate::number::{below, natural};
use crate::write::Write;
use refusals::ledger::LedgerRefusal;

// The write that adds a filing at the end of the unit's list, or the refusal.
pub fn add_in<B: Copy, L: Lists<B>>(
    lists: &L,
    unit: i64,
    filing: Filing<B>,
) -> Result<Write<B>, LedgerRefusal>
    ensures { result ≡ add_of (L.Lists.holds lists.now) unit filing }
{
    let u = below(unit, lists.unit_count()).ok_or(LedgerRefusal::UnknownUnit)?;
    let n = lists.list_length(u);
    if n >= lists.place_count() {
        return Err(LedgerRefusal::ListFull);
    }
    Ok(Write {
        unit: u,
        place: n,
        filing,
    })
}

// The write that gives a waiting filing its verdict and round, or the refusal.
pub fn mark_in<B: Copy, L: Lists<B>>(
    lists: &L,
    unit: i64,
    place: i64,
    verdict: i64,
    round: i64,
) -> Result<Write<B>, LedgerRefusal>
    ensures { result ≡ mark_of (L.Lists.holds lists.now) unit place verdict round }
{
    let u = below(unit, lists.unit_count()).ok_or(LedgerRefusal::UnknownUnit)?;
    let p = natural(place).ok_or(LedgerRefusal::NotMarkable)?;
    let judged = lists.filing(u, p).and_then(|f| f.judged(verdict, round));
    let filing = judged.ok_or(LedgerRefusal::NotMarkable)?;
    Ok(Write {
        unit: u,
        place: p,
        filing,
    })
}
