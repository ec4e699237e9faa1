ghost use Rattle.std.specs.Prelude.{◌≡◌, ◌+◌, ◌<◌, ◌≤◌, length, MatchOption, MatchResult};
ghost use Rattle.cells.specs.Cut.{line_in};
ghost use Rattle.cells.specs.Parts.{cells};
ghost use Rattle.dayfile.specs.Columns.{columns, name_of};
ghost use Rattle.dayfile.specs.Names.{Among, New};

use crate::column::{COLUMNS, Column};
use crate::fault::Fault;
use crate::order::Order;
use cells::line::CutLine;

// The order of the columns that a line of names gives, or the fault at its first cell that is no new name.
impl TryFrom<&[u8]> for Order {
    type Error = Fault;

    ghost use Rattle.dayfile.specs.Names.{NamesRead};
    ghost use Rattle.dayfile.specs.Orders.{columns_of};

    ghost try_from_gives = { λ line r. NamesRead line.now (columns_of r) };

    fn try_from(line: &[u8]) -> Result<Order, Fault> {
        let cut = CutLine::<'_, COLUMNS>::cut(line, 0);
        let mut columns = [Column::Call; COLUMNS];
        // By place, and no chain: a name is to be new beside those in the places before its own.
        for i in 0..COLUMNS {
            columns[i] = next_name(&cut, &columns[..i])?;
        }
        no_more(&cut)?;
        Ok(Order { columns })
    }
}

// No cell stands behind those of the columns.
fn no_more(cut: &CutLine<'_, COLUMNS>) -> Result<(), Fault>
    ensures { MatchResult result (λ _. length (cells (line_in cut.now)) ≤ length columns) (λ f. (length columns < length (cells (line_in cut.now))) × (f ≡ Fault.Names (length columns + 1))) }
{
    if cut.count() > COLUMNS {
        return Err(Fault::Names { cell: COLUMNS + 1 });
    }
    Ok(())
}

// The column that the cell after those seen names, if it is a new one.
fn next_name(cut: &CutLine<'_, COLUMNS>, seen: &[Column]) -> Result<Column, Fault>
    ensures { MatchResult result (λ c. New (line_in cut.now) seen.now c) (λ f. (f ≡ Fault.Names (length seen.now + 1)) × (length seen.now < length columns → (c : Column) → New (line_in cut.now) seen.now c → ⊥)) }
{
    let fault = Fault::Names {
        cell: seen.len() + 1,
    };
    let cell = cut.cell(seen.len()).ok_or(fault)?;
    new_name(cell.bytes, seen).ok_or(fault)
}

// The column that a cell names, if it is not among those seen.
fn new_name(cell: &[u8], seen: &[Column]) -> Option<Column>
    ensures { MatchOption result ((c : Column) → cell.now ≡ name_of c → Among c seen.now) (λ c. (cell.now ≡ name_of c) × (Among c seen.now → ⊥)) }
{
    Column::try_from(cell)
        .ok()
        .filter(|column| !seen.contains(column))
}
