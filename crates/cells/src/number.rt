ghost use Rattle.std.specs.Prelude.{◌≡◌};
ghost use Rattle.cells.specs.Numbers.{natural_of, number_of};

// The number in a cell: an optional minus sign, then 1 to 9 digits.
pub fn number(cell: &[u8]) -> Option<i64>
    ensures { result ≡ number_of cell.now }
{
    match cell {
        [b'-', digits @ ..] => natural(digits).map(|n| -i64::from(n)),
        digits => natural(digits).map(i64::from),
    }
}

// 1 to 9 digits. A loop, since the closure of a fold does not know how large the number is so far.
#[tactic(auto, using(crate::proofs::Numerals::eight_digits))]
fn natural(digits: &[u8]) -> Option<u32>
    ensures { result ≡ natural_of digits.now }
{
    if digits.is_empty() || digits.len() > 9 {
        return None;
    }
    let mut n = 0;
    for d in digits {
        if !d.is_ascii_digit() {
            return None;
        }
        n = n * 10 + u32::from(*d - b'0');
    }
    Some(n)
}
