ghost use Rattle.std.specs.Prelude.{◌≡◌, ℕ, ◌+◌, ◌<◌, ◌≤◌, length, drop};

use crate::entry::Entry;
use crate::fault::Fault;
use crate::order::Order;
use crate::values::Values;
use cells::part::part_at;
use std::marker::Model;

// A day file of which nothing is used up yet: only its names can be read.
#[derive(Drop)]
pub struct UnreadFile<'a> {
    bytes: &'a [u8],
}

// A contract sees it as its bytes.
impl<'a> Model for UnreadFile<'a> {
    ghost use Rattle.std.specs.Prelude.{ℕ, List};

    ghost Value = { List ℕ };

    ghost view = { λ file. file.bytes.now };
}

// The lines of values of a day file, from offset `at` on; `read` of them are read.
// The bytes stay whole, since offsets of cells count from the first byte of the file.
#[derive(Drop)]
pub struct RowReader<'a> {
    bytes: &'a [u8],
    order: Order,
    at: usize,
    read: usize,
    ghost within: { at ≤ length bytes.now },
    ghost counted: { read ≤ at },
}

impl<'a> UnreadFile<'a> {
    ghost use Rattle.std.specs.Prelude.{◌≡◌};
    ghost use Rattle.cells.specs.Laws.{LinesAreSo};
    ghost use Rattle.dayfile.specs.Files.{name_line, Opened};
    ghost use Rattle.dayfile.specs.Names.{NamesRead};
    ghost use Rattle.dayfile.specs.Only.{NamesOnly, RowsOnly};
    ghost use Rattle.dayfile.specs.Orders.{columns_of};

    pub fn new(bytes: &'a [u8]) -> UnreadFile<'a>
        ensures { result ≡ bytes.now }
    {
        UnreadFile { bytes }
    }

    // The order of the columns, or the fault in the names.
    pub fn names(&self) -> Result<Order, Fault>
        ensures { NamesRead (name_line self.now) (columns_of result) }
    {
        Order::try_from(self.name_line())
    }

    // Uses the file up: its rows. There are none where the names are refused.
    pub fn rows(self) -> RowReader<'a>
        ensures opened { Opened self.entry result }
        ensures so { LinesAreSo }
        ensures names_only { NamesOnly }
        ensures rows_only { RowsOnly }
    {
        let Ok(order) = self.names() else {
            return RowReader {
                bytes: self.bytes,
                order: Order::standard(),
                at: self.bytes.len(),
                read: 0,
            };
        };
        let end = self.name_line().len();
        RowReader {
            bytes: self.bytes,
            order,
            at: past(self.bytes, end),
            read: 0,
        }
    }

    // The first line.
    fn name_line(&self) -> &'a [u8]
        ensures { result.now ≡ name_line self.now }
    {
        part_at(self.bytes, 0, b'\n').bytes
    }
}

impl<'a> RowReader<'a> {
    ghost use Rattle.dayfile.specs.Files.{Next};
    ghost use Rattle.dayfile.specs.Only.{RowsOnly};

    // The next row, or none at the end, as `next`; and a line of values has one answer.
    pub fn next_row(&mut self) -> Option<Entry>
        ensures next { Next self.old result self.new }
        ensures only { RowsOnly }
    {
        self.next()
    }
}

// The rows, one for each line of values.
impl<'a> Iterator for RowReader<'a> {
    ghost use Rattle.std.specs.Prelude.{length};
    ghost use Rattle.std.specs.Iterator.{at_most};
    ghost use Rattle.dayfile.specs.Files.{left, Next};

    type Item = Entry;

    ghost next_gives = { Next };

    ghost remaining = { λ rows. at_most (length (left rows)) };

    fn next(&mut self) -> Option<Entry> {
        let from = self.at;
        if from >= self.bytes.len() {
            return None;
        }
        let end = from + part_at(self.bytes, from, b'\n').bytes.len();
        let line = self.read + 2;
        let row = Values::read(&self.bytes[..end], from, self.order, line);
        self.at = past(self.bytes, end);
        self.read += 1;
        Some(Entry { line, row })
    }
}

// The offset after the line feed at `end`, if there is one.
fn past(bytes: &[u8], end: usize) -> usize
    ensures within { result ≤ length bytes.now }
    ensures rest { drop result bytes.now ≡ drop (end + 1) bytes.now }
    ensures moves { (k : ℕ) → k ≤ end → k < length bytes.now → k < result }
{
    if end < bytes.len() {
        end + 1
    } else {
        bytes.len()
    }
}
