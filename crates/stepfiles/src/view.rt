//! What an opened step file tells.
ghost use Rattle.std.specs.Prelude.{◌≡◌};
ghost use Rattle.alphabets.specs.Kinds.{kind_number};
ghost use Rattle.stepfiles.specs.Layout.{kind_in, rows_in, classes_in, text_in};
ghost use Rattle.stepfiles.specs.Proper.{MarkThere, TargetThere};
ghost use Rattle.stepfiles.specs.Views.{viewed, mark_in, successor, built_in};

use crate::file::StepFile;
use crate::table::{HEADER, Table};
use alphabets::Kind;
use languages::Mark;

/// The file of the rule `0`, which no list meets.
static BUILT_IN: [u8; 15] = [0, 0, 0, 15, 1, 1, 0, 1, 1, 0, 1, 48, 4, 0, 0];

impl<'a> StepFile<'a> {
    /// What a place holds at first. It says lost, so that a place never opened certifies nothing.
    pub fn built_in() -> StepFile<'a>
        ensures { viewed result ≡ built_in }
    {
        StepFile {
            table: Table {
                bytes: &BUILT_IN,
                kind: Kind::Bytes,
                rows: 1,
                classes: 1,
                start: 12,
            },
        }
    }

    /// The kind of the alphabet that the file was built over.
    pub fn kind(&self) -> Kind
        ensures { kind_number result ≡ kind_in (viewed self.now) }
    {
        self.table.kind
    }

    pub fn row_count(&self) -> usize
        ensures { result ≡ rows_in (viewed self.now) }
    {
        self.table.rows
    }

    pub fn class_count(&self) -> usize
        ensures { result ≡ classes_in (viewed self.now) }
    {
        self.table.classes
    }

    /// The rule text that was stored with the table; nothing was asked of it but its length.
    pub fn text(&self) -> &'a [u8]
        ensures { result.now ≡ text_in (viewed self.now) }
    {
        &self.table.bytes[HEADER..self.table.start]
    }

    /// The mark of a row.
    pub fn mark(&self, row: usize) -> Option<Mark>
        ensures value { result ≡ mark_in (viewed self.now) row }
        ensures there { MarkThere (viewed self.now) row result }
    {
        if row >= self.table.rows {
            return None;
        }
        Mark::try_from(self.table.mark(row)).ok()
    }

    /// The row to which a class leads from a row.
    pub fn target(&self, row: usize, class: usize) -> Option<usize>
        ensures value { result ≡ successor (viewed self.now) row class }
        ensures there { TargetThere (viewed self.now) row class result }
    {
        if row >= self.table.rows || class >= self.table.classes {
            return None;
        }
        Some(self.table.target(row, class))
    }
}
