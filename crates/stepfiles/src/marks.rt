//! Working out the marks of all rows from which rows accept: each row's mark takes up what its targets' marks say, in
//! passes over the table, until a pass changes nothing. And the question whether a file's marks are those.
ghost use Rattle.std.specs.Prelude.{◌≡◌, ◌<◌, true, false, map, length, ◌==◌, bit_and, bit_or};
ghost use Rattle.languages.specs.Marks.{number, first, gathered, passed_below, begun};
ghost use Rattle.stepfiles.specs.Layout.{table_in};
ghost use Rattle.stepfiles.specs.Coding.{marks_in, MarksOf, table_of};
ghost use Rattle.stepfiles.specs.Opening.{worked_in, bad_mark_of, bad_mark};

use crate::table::Table;
use crate::targets::ClosedTable;
use languages::Mark;

/// The bits of a mark that a row takes over from its targets.
const SEEN: u8 = 6;

impl Table<'_> {
    /// The mark of a row when only is known whether it accepts.
    fn first_mark(&self, row: usize) -> Mark
        requires { row < self.now.rows }
        ensures { result ≡ first ((table_in self.now.bytes.now).accepts row) }
    {
        if self.mark(row) & 1 == 1 {
            Mark::Settled
        } else {
            Mark::Lost
        }
    }

    /// The place of a row's mark, if it is not the one worked out.
    fn bad_mark_of(&self, marks: &[u8], row: usize) -> Option<usize>
        requires row { row < self.now.rows }
        requires marks { length marks.now ≡ self.now.rows }
        ensures { result ≡ bad_mark_of self.now.bytes.now marks.now row }
    {
        if self.mark(row) == marks[row] {
            None
        } else {
            Some(self.row_place(row))
        }
    }
}

impl ClosedTable<'_> {
    /// Leaves in `marks` the mark of each row.
    pub fn work_out(&self, marks: &mut [u8])
        requires { length marks.old ≡ self.now.table.rows }
        ensures { marks.new ≡ worked_in self.now.table.bytes.now }
    {
        self.begin(marks);
        for _pass in 0..self.table.rows {
            if !self.pass(marks) {
                return;
            }
        }
    }

    /// The marks when of each row only is known whether it accepts.
    fn begin(&self, marks: &mut [u8])
        requires { length marks.old ≡ self.now.table.rows }
        ensures { marks.new ≡ map number (begun (table_of self.now)) }
    {
        for (row, mark) in marks.iter_mut().enumerate() {
            *mark = self.table.first_mark(row).number();
        }
    }

    /// One pass over all rows, the last first, since most targets stand behind their rows. Tells whether a mark changed.
    fn pass(&self, marks: &mut [u8]) -> bool
        requires { MarksOf (table_of self.now) marks.old }
        ensures marks { MarksOf (table_of self.now) marks.new }
        ensures passed { marks_in marks.new ≡ passed_below (table_of self.now) (table_of self.now).rows (marks_in marks.old) }
        ensures still { result ≡ false → marks.new ≡ marks.old }
    {
        let mut changed = false;
        for row in (0..self.table.rows).rev() {
            let mark = self.gather(marks, row);
            if mark != marks[row] {
                marks[row] = mark;
                changed = true;
            }
        }
        changed
    }

    /// The mark of a row once it has taken up what the marks of its targets say.
    fn gather(&self, marks: &[u8], row: usize) -> u8
        requires marks { MarksOf (table_of self.now) marks.now }
        requires within { row < self.now.table.rows }
        ensures { result ≡ number (gathered (table_of self.now) (marks_in marks.now) row (table_of self.now).classes) }
    {
        let mut mark = marks[row];
        for class in 0..self.table.classes {
            if is_full(mark) {
                return mark;
            }
            mark = taken_up(mark, marks[self.table.target(row, class)]);
        }
        mark
    }

    /// The place of the first mark that is not the one worked out.
    pub fn bad_mark(&self, marks: &[u8]) -> Option<usize>
        requires { length marks.now ≡ self.now.table.rows }
        ensures { result ≡ bad_mark self.now.table.bytes.now marks.now }
    {
        (0..self.table.rows).find_map(|row| self.table.bad_mark_of(marks, row))
    }
}

/// Whether a mark has both bits already, so that no target can add one.
fn is_full(mark: u8) -> bool
    ensures { result ≡ (bit_and mark 6 == 6) }
{
    mark & SEEN == SEEN
}

/// A mark with what a target's mark says of the rows that are reached.
fn taken_up(mark: u8, target: u8) -> u8
    ensures { result ≡ bit_or mark (bit_and target 6) }
{
    mark | target & SEEN
}
