ghost use Rattle.std.specs.Prelude.{◌≡◌, ℕ, ◌<◌, length, MatchOption, ◌≢◌, slice_index_or};
ghost use Rattle.dayfile.specs.Columns.{columns as seven};
ghost use Rattle.dayfile.specs.Names.{Distinct};
ghost use Rattle.dayfile.specs.Steps.{place_of};
ghost use Rattle.dayfile.specs.declared.column.Column.TheVariants.{Call};

use crate::column::{COLUMNS, Column};

// The order of the columns in a file: as many as there are, all different.
#[derive(Clone, Copy, Debug, PartialEq, Eq)]
pub struct Order {
    pub columns: [Column; COLUMNS],
    ghost count: { length columns ≡ length seven },
    ghost once: { Distinct columns },
}

impl Order {
    // The columns in the order in which they are declared.
    pub(crate) fn standard() -> Order
        ensures { result.columns ≡ seven }
    {
        Order {
            columns: Column::ALL,
        }
    }

    // The place of a column: each has one.
    pub(crate) fn place(&self, column: Column) -> usize
        ensures within { result < length self.now.columns }
        ensures is { result ≡ place_of self.now.columns column }
    {
        place_in(&self.columns, column).unwrap()
    }
}

// The first place of a column, if it has one.
fn place_in(columns: &[Column], column: Column) -> Option<usize>
    ensures { MatchOption result ((k : ℕ) → k < length columns.now → slice_index_or columns.now k Call ≢ column) (λ k. (k < length columns.now) × (slice_index_or columns.now k Call ≡ column)) }
{
    columns.iter().position(|c| *c == column)
}
