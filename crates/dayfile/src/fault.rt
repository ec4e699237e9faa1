ghost use Rattle.std.specs.Prelude.{◌≡◌};

// The layer that finds a fault.
#[derive(Clone, Copy, Debug, PartialEq, Eq)]
pub enum Layer {
    File,
    Row,
    Book,
}

// A fault. Lines and cells count from 1, and the line of names is line 1.
#[derive(Clone, Copy, Debug, PartialEq, Eq)]
pub enum Fault {
    // 21: a cell of the line of names is no new name, or names are missing from it on.
    Names { cell: usize },
    // 22: a bad cell of a line of values.
    BadCell { line: usize, cell: usize },
    // 23: a line of values has not one cell for each column, but `count`.
    CellCount { line: usize, count: usize },
    // What the book refuses, with its own number.
    Refused { line: usize, number: u32 },
}

// A fault as it is told: the layer that finds it, its line, its cell, and its number.
#[derive(Clone, Copy, Debug, PartialEq, Eq)]
pub struct Told {
    pub layer: Layer,
    pub line: usize,
    pub cell: usize,
    pub number: u32,
}

impl From<Fault> for Told {
    ghost use Rattle.dayfile.specs.Faults.{told};

    ghost from_gives = { λ fault t. t ≡ told fault };

    fn from(fault: Fault) -> Told {
        Told {
            layer: fault.layer(),
            line: fault.line(),
            cell: fault.cell(),
            number: fault.number(),
        }
    }
}

impl Fault {
    ghost use Rattle.dayfile.specs.Faults.{told};

    pub fn layer(self) -> Layer
        ensures { result ≡ (told self).layer }
    {
        match self {
            Fault::Names { .. } => Layer::File,
            Fault::BadCell { .. } | Fault::CellCount { .. } => Layer::Row,
            Fault::Refused { .. } => Layer::Book,
        }
    }

    pub fn line(self) -> usize
        ensures { result ≡ (told self).line }
    {
        match self {
            Fault::Names { .. } => 1,
            Fault::BadCell { line, .. }
            | Fault::CellCount { line, .. }
            | Fault::Refused { line, .. } => line,
        }
    }

    // The cell at fault, or the count of cells. A refusal of the book has cell 0, as the format has it.
    pub fn cell(self) -> usize
        ensures { result ≡ (told self).cell }
    {
        match self {
            Fault::Names { cell } => cell,
            Fault::BadCell { cell, .. } => cell,
            Fault::CellCount { count, .. } => count,
            Fault::Refused { .. } => 0,
        }
    }

    pub fn number(self) -> u32
        ensures { result ≡ (told self).number }
    {
        match self {
            Fault::Names { .. } => 21,
            Fault::BadCell { .. } => 22,
            Fault::CellCount { .. } => 23,
            Fault::Refused { number, .. } => number,
        }
    }
}
