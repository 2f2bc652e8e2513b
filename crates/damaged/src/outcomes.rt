//! What comes of an opening, as a line of text.
use crate::cases::Case;
use std::alloc::{AllocError, Global};
use stepfiles::{StepFile, open};

/// What every byte of the scratch holds before an opening.
const PATTERN: u8 = 0xEE;

/// Opens a case into a place that views an earlier file. The line has the answer, what the place views afterwards, and
/// the scratch.
pub fn of_opening<'a>(
    heap: Global,
    earlier: StepFile<'a>,
    case: &'a Case,
) -> Result<String, AllocError> {
    let mut scratch = vec![in heap; PATTERN; case.room]?;
    let mut place = earlier;
    let answer = open(case.bytes.as_slice(), scratch.as_mut_slice(), &mut place);
    let told = match answer {
        Ok(()) => String::from_str(heap, "opened")?,
        Err(refusal) => refusal.to_string(heap)?,
    };
    let seen = seen(heap, place)?;
    let outside = outside(place);
    let left = weighed(scratch.as_slice());
    format!(in heap; "{told}: {seen} outside {outside} scratch {left}")
}

/// All that a view tells.
pub fn seen(heap: Global, view: StepFile) -> Result<String, AllocError> {
    let kind = view.kind().number();
    let rows = view.row_count();
    let classes = view.class_count();
    let text = view.text().len();
    let letters = weighed(view.text());
    let mut table = 0;
    for row in 0..rows {
        table = weigh(
            table,
            view.mark(row).map_or(0, |mark| u32::from(mark.number())),
        );
        for class in 0..classes {
            table = weigh(table, view.target(row, class).map_or(0, number));
        }
    }
    format!(in heap;
        "kind {kind} rows {rows} classes {classes} text {text} {letters} table {table}"
    )
}

fn number(target: usize) -> u32 {
    u32::try_from(target).unwrap_or(0)
}

/// How many marks and targets a view tells of rows and classes that are not there.
fn outside(view: StepFile) -> usize {
    let rows = [view.row_count(), usize::MAX];
    let classes = [view.class_count(), usize::MAX];
    let by_row = rows.iter().filter(|row| view.mark(**row).is_some()
        || view.target(**row, 0).is_some());
    let by_class = classes
        .iter()
        .filter(|class| view.target(0, **class).is_some());
    by_row.chain(by_class).count()
}

/// A number by which lists are told apart: each item counts by its place.
fn weighed(bytes: &[u8]) -> u32 {
    bytes
        .iter()
        .fold(0, |total, byte| weigh(total, u32::from(*byte)))
}

fn weigh(total: u32, item: u32) -> u32 {
    total.wrapping_mul(31).wrapping_add(item)
}
