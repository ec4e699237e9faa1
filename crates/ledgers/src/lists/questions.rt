ghost use Rattle.std.specs.Prelude.{◌≡◌, length, pos};
ghost use Rattle.ledgers.specs.Held.{listed, filing_at, head_in, body_in};

use crate::filing::Filing;
use crate::lists::Lists;
use crate::number::{below, natural};

// How many units there are.
pub fn units_in<B: Copy, L: Lists<B>>(lists: &L) -> i64
    ensures { result ≡ pos (L.Lists.holds lists.now).units }
{
    lists.unit_count() as i64
}

// How many filings a unit can have.
pub fn places_in<B: Copy, L: Lists<B>>(lists: &L) -> i64
    ensures { result ≡ pos (L.Lists.holds lists.now).places }
{
    lists.place_count() as i64
}

// How many filings a unit has: 0 where it is unknown.
pub fn length_in<B: Copy, L: Lists<B>>(lists: &L, unit: i64) -> i64
    ensures { result ≡ pos (length (listed (L.Lists.holds lists.now) unit)) }
{
    below(unit, lists.unit_count()).map_or(0, |u| lists.list_length(u) as i64)
}

// All but the body of the filing at a place, if there is one.
pub fn head_in<B: Copy, L: Lists<B>>(lists: &L, unit: i64, place: i64) -> Option<Filing<()>>
    ensures { result ≡ head_in (filing_at (listed (L.Lists.holds lists.now) unit) place) }
{
    filing_in(lists, unit, place).map(|f| f.head())
}

// The body of the filing at a place, or the other.
pub fn body_in<B: Copy, L: Lists<B>>(lists: &L, unit: i64, place: i64, other: B) -> B
    ensures { result ≡ body_in (filing_at (listed (L.Lists.holds lists.now) unit) place) other }
{
    filing_in(lists, unit, place).map_or(other, |f| f.submission.body)
}

// The filing at a place, if there is one.
fn filing_in<B: Copy, L: Lists<B>>(lists: &L, unit: i64, place: i64) -> Option<Filing<B>>
    ensures { result ≡ filing_at (listed (L.Lists.holds lists.now) unit) place }
{
    let u = below(unit, lists.unit_count())?;
    let p = natural(place)?;
    lists.filing(u, p)
}
