ghost use Rattle.std.specs.Prelude.{◌≡◌, Some};
ghost use Rattle.report.specs.Replies.{reply_text, told_reply, fault_reply, told_row_reply, entry_reply};

use dayfile::entry::Entry;
use dayfile::fault::{Fault, Layer, Told};
use dayfile::row::Row;
use std::fmt;

// A printed line: the line of the file that it answers, 0 or a fault's number, and the cell at fault.
// The answer is a number, as the format has it: a book brings its own.
#[derive(Clone, Copy, Debug, PartialEq, Eq)]
pub struct Reply {
    pub line: usize,
    pub answer: u32,
    pub cell: Option<usize>,
}

// Of any layer, line, cell and number.
impl From<Told> for Reply {
    ghost from_gives = { λ told reply. reply ≡ told_reply told };

    fn from(told: Told) -> Reply {
        let cell = match told.layer {
            Layer::File | Layer::Row => Some(told.cell),
            Layer::Book => None,
        };
        Reply {
            line: told.line,
            answer: told.number,
            cell,
        }
    }
}

impl From<Fault> for Reply {
    ghost from_gives = { λ fault reply. reply ≡ fault_reply fault };

    fn from(fault: Fault) -> Reply {
        Reply::from(Told::from(fault))
    }
}

impl From<Entry> for Reply {
    ghost from_gives = { λ entry reply. reply ≡ entry_reply entry };

    fn from(entry: Entry) -> Reply {
        row_reply(entry.line, entry.row.map_err(Told::from))
    }
}

// The reply to a line of values: 0 where the row is well formed, else whatever is told of its fault.
pub fn row_reply(line: usize, row: Result<Row, Told>) -> Reply
    ensures { result ≡ told_row_reply line row }
{
    match row {
        Ok(_) => Reply {
            line,
            answer: 0,
            cell: None,
        },
        Err(told) => Reply::from(told),
    }
}

// Without a line feed.
impl fmt::Display for Reply {
    ghost output = { λ reply. Some (reply_text reply) };

    fn fmt<W: fmt::Write>(&self, f: &mut fmt::Formatter<W>) -> fmt::Result {
        let line = self.line;
        let answer = self.answer;
        match self.cell {
            Some(cell) => write!(f, "{line},{answer},{cell},-,-,-"),
            None => write!(f, "{line},{answer},-,-,-,-"),
        }
    }
}
