ghost use Rattle.std.specs.Prelude.{◌≡◌, ◌+◌, ◌≤◌, ◌⊎◌, ◌==◌, length, drop, position, option_map, MatchOption};
ghost use Rattle.cells.specs.Cut.{line_in};
ghost use Rattle.cells.specs.Laws.{CellsAreSo};
ghost use Rattle.cells.specs.Parts.{cells, CellAt};

use crate::line::CutLine;
use crate::part::{Part, find, part_at, rest_from};

impl<'a, const N: usize> CutLine<'a, N> {
    // Cuts what stands from `from` on, to the end of `bytes`.
    pub fn cut(bytes: &'a [u8], from: usize) -> CutLine<'a, N>
        ensures line { line_in result ≡ drop from bytes.now }
        ensures bytes { result.bytes.now ≡ bytes.now }
        ensures from { result.from ≡ from }
        ensures so { CellsAreSo }
    {
        let mut starts = [None; N];
        let mut next = Some(from);
        let mut count = 0;
        for start in &mut starts {
            *start = next;
            count += usize::from(next.is_some());
            next = next.and_then(|at| start_after(bytes, at));
        }
        // Beyond the first N, cells are only counted.
        let more = next.map_or(0, |at| cells_from(bytes, at));
        CutLine {
            bytes,
            from,
            starts,
            count: count + more,
        }
    }

    // How many cells the line has.
    pub fn count(&self) -> usize
        ensures { result ≡ length (cells (line_in self.now)) }
    {
        self.count
    }

    // The cell at a place below N, counted from 0, with its offset.
    pub fn cell(&self, k: usize) -> Option<Part<'a>>
        ensures { MatchOption result ((N ≤ k) ⊎ (length (cells (line_in self.now)) ≤ k)) (λ p. CellAt self.now.bytes.now self.now.from k p.at p.bytes.now) }
    {
        let start = self.starts.get(k).copied().flatten()?;
        Some(part_at(self.bytes, start, b','))
    }
}

// How many cells there are from one that begins at `at` on.
fn cells_from(bytes: &[u8], at: usize) -> usize
    ensures { result ≡ length (cells (drop at bytes.now)) }
{
    rest_from(bytes, at).split(|b| *b == b',').count()
}

// Where the next cell begins after the one at `at`, if there is one.
fn start_after(bytes: &[u8], at: usize) -> Option<usize>
    ensures { result ≡ option_map (λ comma. at + comma + 1) (position (λ b. b == 44) (drop at bytes.now)) }
{
    find(rest_from(bytes, at), b',').map(|comma| at + comma + 1)
}
