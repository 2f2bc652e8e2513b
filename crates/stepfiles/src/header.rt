//! The questions about a file's header.
ghost use Rattle.std.specs.Prelude.{◌≡◌, IfOk};
ghost use Rattle.std.specs.Result.{result_err};
ghost use Rattle.refusals.specs.Questions.{first_no};
ghost use Rattle.stepfiles.specs.Opening.{header};

use crate::table::{HEADER, MOST_ROWS, Table};
use alphabets::Kind;
use refusals::{Question, Refusal};

const LONGEST_TEXT: usize = 4096;

/// The table, if the header's fields are in their ranges and speak of just these bytes.
pub(crate) fn check_header(bytes: &[u8]) -> Result<Table<'_>, Refusal>
    ensures first { result_err result ≡ first_no (header bytes.now) }
    ensures same { IfOk result (λ t. t.bytes.now ≡ bytes.now) }
{
    let &[l3, l2, l1, l0, version, kind, r1, r0, classes, t1, t0, ..] = bytes else {
        return Err(Question::FileLength.at(0));
    };
    if u32::from_be_bytes([l3, l2, l1, l0]) as usize != bytes.len() {
        return Err(Question::FileLength.at(0));
    }
    if version != 1 {
        return Err(Question::FileVersion.at(4));
    }
    let Ok(kind) = Kind::try_from(kind) else {
        return Err(Question::FileFields.at(5));
    };
    let rows = usize::from(u16::from_be_bytes([r1, r0]));
    if !(1..=MOST_ROWS).contains(&rows) {
        return Err(Question::FileFields.at(6));
    }
    let classes = usize::from(classes);
    if classes < 1 {
        return Err(Question::FileFields.at(8));
    }
    let text = usize::from(u16::from_be_bytes([t1, t0]));
    if !(1..=LONGEST_TEXT).contains(&text) {
        return Err(Question::FileFields.at(9));
    }
    let start = HEADER + text;
    if bytes.len() != start + rows * (1 + 2 * classes) {
        return Err(Question::TableLength.at(6));
    }
    Ok(Table {
        bytes,
        kind,
        rows,
        classes,
        start,
    })
}
