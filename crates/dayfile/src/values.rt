ghost use Rattle.std.specs.Prelude.{◌≡◌, length};
ghost use Rattle.cells.specs.Cut.{line_in};
ghost use Rattle.cells.specs.Parts.{cells};
ghost use Rattle.dayfile.specs.Columns.{columns as seven};

use crate::call::Call;
use crate::column::{COLUMNS, Column};
use crate::fault::Fault;
use crate::order::Order;
use crate::row::Row;
use cells::line::CutLine;
use cells::number::number;

// A line of values with one cell for each column: its number, its cells, and the order of the columns.
#[derive(Clone, Copy)]
pub(crate) struct Values<'a> {
    number: usize,
    cut: CutLine<'a, COLUMNS>,
    order: Order,
    ghost whole: { length (cells (line_in cut)) ≡ length seven },
}

impl<'a> Values<'a> {
    ghost use Rattle.std.specs.Prelude.{◌≡◌, ◌+◌, ◌<◌, [], length, drop, MatchResult, ◌≢◌, slice_index_or};
    ghost use Rattle.cells.specs.Cut.{line_in};
    ghost use Rattle.cells.specs.Parts.{cells};
    ghost use Rattle.dayfile.specs.Columns.{columns as seven};
    ghost use Rattle.dayfile.specs.Rows.{RowRead};
    ghost use Rattle.dayfile.specs.Steps.{CallRead, CellsChecked, HasNumber, HasNumbers, number_under, row_with};

    // What the line that begins at `from` asks, or what is wrong with it; `number` is its own.
    pub(crate) fn read(
        bytes: &'a [u8],
        from: usize,
        order: Order,
        number: usize,
    ) -> Result<Row, Fault>
        ensures { RowRead order.columns number (drop from bytes.now) result }
    {
        let values = Values::cut(bytes, from, order, number)?;
        let call = values.call()?;
        values.check(call)?;
        Ok(values.row(call))
    }

    // The line that begins at `from`, or the count of its cells as a fault.
    fn cut(bytes: &'a [u8], from: usize, order: Order, number: usize) -> Result<Values<'a>, Fault>
        ensures { MatchResult result (λ v. (line_in v.cut ≡ drop from bytes.now) × (v.order ≡ order) × (v.number ≡ number)) (λ f. (length (cells (drop from bytes.now)) ≢ length seven) × (f ≡ Fault.CellCount number (length (cells (drop from bytes.now))))) }
    {
        let cut = CutLine::<'_, COLUMNS>::cut(bytes, from);
        if cut.count() != COLUMNS {
            return Err(Fault::CellCount {
                line: number,
                count: cut.count(),
            });
        }
        Ok(Values { number, cut, order })
    }

    // The call of the line.
    fn call(&self) -> Result<Call, Fault>
        ensures { CallRead self.now.order.columns self.now.number (line_in self.now.cut) result }
    {
        let place = self.order.place(Column::Call);
        Call::try_from(self.cell(place)).or(Err(self.bad_cell(place)))
    }

    // Each cell is as the call wants it, or the leftmost that is not is the fault. A loop by place: the fault names the place.
    fn check(&self, call: Call) -> Result<(), Fault>
        ensures { CellsChecked call self.now.order.columns self.now.number (line_in self.now.cut) result }
    {
        for (place, column) in self.order.columns.iter().enumerate() {
            if !call.accepts(*column, self.cell(place)) {
                return Err(self.bad_cell(place));
            }
        }
        Ok(())
    }

    // The row of the call, with the numbers of the line.
    fn row(&self, call: Call) -> Row
        requires { HasNumbers call self.now.order.columns (line_in self.now.cut) }
        ensures { result ≡ row_with call (number_under self.now.order.columns (line_in self.now.cut)) }
    {
        match call {
            Call::Register => Row::Register {
                unit: self.number_under(Column::Unit),
                kw: self.number_under(Column::Kw),
                price: self.number_under(Column::Price),
            },
            Call::File => Row::File {
                unit: self.number_under(Column::Unit),
                minute: self.number_under(Column::Minute),
                from: self.number_under(Column::From),
                to: self.number_under(Column::To),
                kw: self.number_under(Column::Kw),
                price: self.number_under(Column::Price),
            },
            Call::Round(kind) => Row::Round {
                kind,
                unit: self.number_under(Column::Unit),
                minute: self.number_under(Column::Minute),
                price: self.number_under(Column::Price),
            },
            Call::InForce => Row::InForce {
                unit: self.number_under(Column::Unit),
                hour: self.number_under(Column::From),
            },
        }
    }

    // The number under a column.
    fn number_under(&self, column: Column) -> i64
        requires { HasNumber self.now.order.columns (line_in self.now.cut) column }
        ensures { result ≡ number_under self.now.order.columns (line_in self.now.cut) column }
    {
        number(self.cell(self.order.place(column))).unwrap()
    }

    // The bytes of the cell at a place.
    fn cell(&self, place: usize) -> &'a [u8]
        requires { place < length seven }
        ensures { result.now ≡ slice_index_or (cells (line_in self.now.cut)) place [] }
    {
        self.cut.cell(place).unwrap().bytes
    }

    // The cell at a place as a fault.
    fn bad_cell(&self, place: usize) -> Fault
        requires { place < length seven }
        ensures { result ≡ Fault.BadCell self.now.number (place + 1) }
    {
        Fault::BadCell {
            line: self.number,
            cell: place + 1,
        }
    }
}
