ghost use Rattle.std.specs.Prelude.{◌≡◌, ◌==◌, drop, position};
ghost use Rattle.cells.specs.Parts.{up_to};

// A part of the caller's bytes, with its offset in them.
#[derive(Debug, Clone, Copy, PartialEq, Eq)]
pub struct Part<'a> {
    pub bytes: &'a [u8],
    pub at: usize,
}

// What stands from `from` on, up to the next `mark`; past the end nothing does.
pub fn part_at<'a>(bytes: &'a [u8], from: usize, mark: u8) -> Part<'a>
    ensures place { result.at ≡ from }
    ensures bytes { result.bytes.now ≡ up_to mark (drop from bytes.now) }
{
    let rest = rest_from(bytes, from);
    let end = find(rest, mark).unwrap_or(rest.len());
    Part {
        bytes: &rest[..end],
        at: from,
    }
}

// All that stands from `from` on.
pub(crate) fn rest_from<'a>(bytes: &'a [u8], from: usize) -> &'a [u8]
    ensures { result.now ≡ drop from bytes.now }
{
    bytes.get(from..).unwrap_or(b"")
}

// Where the first `mark` stands, if there is one.
pub(crate) fn find(bytes: &[u8], mark: u8) -> Option<usize>
    ensures { result ≡ position (λ b. b == mark) bytes.now }
{
    bytes.iter().position(|b| *b == mark)
}
