//! The question whether every target is a row.
ghost use Rattle.std.specs.Prelude.{◌≡◌, ◌<◌, IfOk};
ghost use Rattle.std.specs.Result.{result_err};
ghost use Rattle.std.specs.Option.{option_map};
ghost use Rattle.refusals.specs.Questions.{refusing};
ghost use Rattle.refusals.specs.declared.Question.TheVariants.{TargetInTable};
ghost use Rattle.languages.specs.Tables.{Closed};
ghost use Rattle.stepfiles.specs.Layout.{table_in};
ghost use Rattle.stepfiles.specs.Opening.{bad_target_of, bad_target_in, bad_target};

use crate::table::Table;
use refusals::{Question, Refusal};

/// A table whose targets are all rows.
#[derive(Clone, Copy)]
pub(crate) struct ClosedTable<'a> {
    pub table: Table<'a>,
    ghost closed: { Closed (table_in table.bytes.now) },
}

impl<'a> Table<'a> {
    /// The table as one whose targets are all rows, or a refusal at the first that is not.
    pub fn closed(&self) -> Result<ClosedTable<'a>, Refusal>
        ensures first { result_err result ≡ option_map (refusing TargetInTable) (bad_target self.now.bytes.now) }
        ensures same { IfOk result (λ t. t.table ≡ self.now) }
    {
        match self.bad_target() {
            None => Ok(ClosedTable { table: *self }),
            Some(place) => Err(Question::TargetInTable.at(place)),
        }
    }

    /// The place of the first target that is no row.
    fn bad_target(&self) -> Option<usize>
        ensures { result ≡ bad_target self.now.bytes.now }
    {
        (0..self.rows).find_map(|row| self.bad_target_in(row))
    }

    /// The same within one row. A loop, since with `find_map` here opening a wide file takes a fifth longer.
    fn bad_target_in(&self, row: usize) -> Option<usize>
        requires { row < self.now.rows }
        ensures { result ≡ bad_target_in self.now.bytes.now row }
    {
        for class in 0..self.classes {
            if let Some(place) = self.bad_target_of(row, class) {
                return Some(place);
            }
        }
        None
    }

    /// The place of one target, if it is no row.
    fn bad_target_of(&self, row: usize, class: usize) -> Option<usize>
        requires row { row < self.now.rows }
        requires class { class < self.now.classes }
        ensures { result ≡ bad_target_of self.now.bytes.now row class }
    {
        if self.target(row, class) < self.rows {
            None
        } else {
            Some(self.target_place(row, class))
        }
    }
}
