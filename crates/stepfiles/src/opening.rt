//! Opening: every question about a file's bytes, asked once.
ghost use Rattle.std.specs.Prelude.{◌≡◌};
ghost use Rattle.stepfiles.specs.Opening.{Out, opened};
ghost use Rattle.stepfiles.specs.Proper.{Means};
ghost use Rattle.stepfiles.specs.Views.{viewed};

use crate::file::StepFile;
use crate::header::check_header;
use refusals::{Question, Refusal};

/// Fills `place` with a view of `bytes` if they are a step file, and leaves it as it was if they are not. `scratch` needs
/// a byte for each row; once every target is known to be a row, the marks worked out are left there.
pub fn open<'a>(
    bytes: &'a [u8],
    scratch: &mut [u8],
    place: &mut StepFile<'a>,
) -> Result<(), Refusal>
    ensures whole { ◌≡◌ {A = Out} (result, viewed place.new, scratch.new) (opened bytes.now scratch.old (viewed place.old)) }
    ensures means { Means bytes.now scratch.old (viewed place.old) result (viewed place.new) scratch.new }
{
    fill(bytes, scratch, place)
}

/// The steps of `open`; that one says what they come to.
fn fill<'a>(bytes: &'a [u8], scratch: &mut [u8], place: &mut StepFile<'a>) -> Result<(), Refusal>
    ensures { ◌≡◌ {A = Out} (result, viewed place.new, scratch.new) (opened bytes.now scratch.old (viewed place.old)) }
{
    let table = check_header(bytes)?;
    let rows = table.rows;
    if scratch.len() < rows {
        return Err(Question::ScratchRoom.at(0));
    }
    let closed = table.closed()?;
    let marks = &mut scratch[..rows];
    closed.work_out(marks);
    if let Some(at) = closed.bad_mark(marks) {
        return Err(Question::MarkWorkedOut.at(at));
    }
    *place = StepFile { table };
    Ok(())
}
