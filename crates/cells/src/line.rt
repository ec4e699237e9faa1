ghost use Rattle.std.specs.Prelude.{◌≡◌, ℕ, ◌<◌, length, drop, slice_index_or, None};
ghost use Rattle.cells.specs.Parts.{cells, start_at};

// A line cut into its cells: how many there are, and where each of the first N begins. Offsets, and not
// the cells: the prover does not cover a struct that has an array of references.
#[derive(Debug, Clone, Copy, PartialEq, Eq)]
pub struct CutLine<'a, const N: usize> {
    bytes: &'a [u8],
    from: usize,
    starts: [Option<usize>; N],
    count: usize,
    ghost counted: { count ≡ length (cells (drop from bytes.now)) },
    ghost begin: { (k : ℕ) → k < N → slice_index_or starts k None ≡ start_at bytes.now from k },
}

pub mod methods;
