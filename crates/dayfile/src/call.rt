ghost use Rattle.std.specs.Prelude.{◌≡◌};
ghost use Rattle.dayfile.specs.Calls.{CallNamed};
ghost use Rattle.dayfile.specs.Steps.{uses, good_cell};

use crate::column::Column;
use cells::number::number;

// The rounds in which offers are held against reference prices.
#[derive(Clone, Copy, Debug, PartialEq, Eq)]
pub enum RoundKind {
    // 1: once the day-ahead offers are closed
    DayAhead,
    // 2: before each assignment of units for reliability
    Reliability,
    // 3: on the day after the operating day
    DayAfter,
}

// What a row asks for.
#[derive(Clone, Copy, Debug, PartialEq, Eq)]
pub enum Call {
    Register,
    File,
    Round(RoundKind),
    InForce,
}

// A cell that names no call.
#[derive(Clone, Copy, Debug, PartialEq, Eq)]
pub struct UnknownCall;

impl TryFrom<&[u8]> for Call {
    type Error = UnknownCall;

    ghost try_from_gives = { λ cell r. CallNamed cell.now r };

    fn try_from(cell: &[u8]) -> Result<Call, UnknownCall> {
        let [letter] = cell else {
            return Err(UnknownCall);
        };
        match char::from(*letter) {
            'R' => Ok(Call::Register),
            'F' => Ok(Call::File),
            '1' => Ok(Call::Round(RoundKind::DayAhead)),
            '2' => Ok(Call::Round(RoundKind::Reliability)),
            '3' => Ok(Call::Round(RoundKind::DayAfter)),
            'Q' => Ok(Call::InForce),
            _ => Err(UnknownCall),
        }
    }
}

impl Call {
    // Whether a row of this call has a number in this column.
    fn uses(self, column: Column) -> bool
        ensures { result ≡ uses self column }
    {
        match self {
            Call::Register => matches!(column, Column::Unit | Column::Kw | Column::Price),
            Call::File => column != Column::Call,
            Call::Round(_) => matches!(column, Column::Unit | Column::Minute | Column::Price),
            Call::InForce => matches!(column, Column::Unit | Column::From),
        }
    }

    // Whether a cell of this column is as a row of this call wants it.
    pub(crate) fn accepts(self, column: Column, cell: &[u8]) -> bool
        ensures { result ≡ good_cell self column cell.now }
    {
        if column == Column::Call {
            true
        } else if self.uses(column) {
            number(cell).is_some()
        } else {
            cell == b"-".as_slice()
        }
    }
}
