ghost use Rattle.std.specs.Prelude.{◌≡◌, ℕ, ◌+◌, List, ◌++◌, IfOk, string_bytes, OnOk};
ghost use Rattle.cells.specs.Numbers.{ReadsBack};
ghost use Rattle.dayfile.specs.Files.{order_in, left};
ghost use Rattle.report.specs.Reports.{limit, EntriesRead, printed, Body, Report, ReportOnly};

use crate::reply::Reply;
use dayfile::entry::Entry;
use dayfile::fault::Fault;
use dayfile::reader::{RowReader, UnreadFile};
use std::alloc::{AllocError, Global};

// The most bytes of a file that is looked into.
pub const LIMIT: usize = 65_536;

// How many bytes are read: one more than the limit tells a file that is too long.
pub fn bytes_to_read() -> u64
    ensures { result ≡ limit + 1 }
{
    LIMIT as u64 + 1
}

// All that is printed for a file.
pub fn report(heap: Global, bytes: &[u8]) -> Result<String, AllocError>
    ensures answer { IfOk result (λ s. Report bytes.now (string_bytes s)) }
    ensures only { ReportOnly }
    ensures back { ReadsBack }
{
    printed_file(heap, bytes)
}

// The header and what stands behind it.
fn printed_file(heap: Global, bytes: &[u8]) -> Result<String, AllocError>
    ensures { IfOk result (λ s. Report bytes.now (string_bytes s)) }
{
    let mut out = String::from_str(heap, "line,answer,p,q,r,s\n")?;
    if bytes.len() > LIMIT {
        // Too long a file is told at cell 0, as the format has it.
        writeln!(out, "{}", Reply::from(Fault::Names { cell: 0 }))?;
        return Ok(out);
    }
    add_file(&mut out, bytes)?;
    Ok(out)
}

// Adds what is printed behind the header.
fn add_file(out: &mut String, bytes: &[u8]) -> Result<(), AllocError>
    ensures { OnOk result ((body : List ℕ) × Body bytes.now body × (string_bytes out.new ≡ string_bytes out.old ++ body)) }
{
    let file = UnreadFile::new(bytes);
    if let Err(fault) = file.names() {
        return writeln!(out, "{}", Reply::from(fault));
    }
    add_rows(out, file.rows())
}

// Adds a line for each row that is left.
fn add_rows(out: &mut String, rows: RowReader<'_>) -> Result<(), AllocError>
    ensures { OnOk result ((es : List Entry) × EntriesRead (order_in rows.entry) (rows.entry.read + 2) (left rows.entry) es × (string_bytes out.new ≡ string_bytes out.old ++ printed es)) }
{
    for entry in rows {
        writeln!(out, "{}", Reply::from(entry))?;
    }
    Ok(())
}
