use crate::fault::Fault;
use crate::row::Row;

// A line of values: its number in the file, and what it asks or what is wrong with it.
#[derive(Clone, Copy, Debug, PartialEq, Eq)]
pub struct Entry {
    pub line: usize,
    pub row: Result<Row, Fault>,
}
