//! The view of an opened step file.
ghost use Rattle.std.specs.Prelude.{◌≡◌, true};
ghost use Rattle.stepfiles.specs.Opening.{step_file};

use crate::table::Table;

/// A step file that passed every check of `open`. It is the caller's bytes themselves, with what their header says; what
/// was checked of them is part of the type, and no later step asks any of it again.
#[derive(Clone, Copy)]
pub struct StepFile<'a> {
    pub(crate) table: Table<'a>,
    ghost checked: { step_file table.bytes.now ≡ true },
}
