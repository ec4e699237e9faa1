ghost use Rattle.dayfile.specs.Columns.{NameRead};

// How many columns a day file has.
pub const COLUMNS: usize = 7;

// The columns of a day file.
#[derive(Clone, Copy, Debug, PartialEq, Eq)]
pub enum Column {
    Call,
    Unit,
    Minute,
    From,
    To,
    Kw,
    Price,
}

// A name that no column has.
#[derive(Clone, Copy, Debug, PartialEq, Eq)]
pub struct UnknownName;

impl Column {
    // All the columns.
    pub const ALL: [Column; COLUMNS] = [
        Column::Call,
        Column::Unit,
        Column::Minute,
        Column::From,
        Column::To,
        Column::Kw,
        Column::Price,
    ];
}

impl TryFrom<&[u8]> for Column {
    type Error = UnknownName;

    ghost try_from_gives = { λ name r. NameRead name.now r };

    fn try_from(name: &[u8]) -> Result<Column, UnknownName> {
        match name {
            b"call" => Ok(Column::Call),
            b"unit" => Ok(Column::Unit),
            b"minute" => Ok(Column::Minute),
            b"from" => Ok(Column::From),
            b"to" => Ok(Column::To),
            b"kw" => Ok(Column::Kw),
            b"price" => Ok(Column::Price),
            _ => Err(UnknownName),
        }
    }
}
