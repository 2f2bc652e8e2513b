//! Reading what a command works on.
ghost use Rattle.std.specs.Prelude.{◌≡◌, OnOk};
ghost use Rattle.stepfiles.specs.Views.{viewed};

use crate::failures::Failure;
use crate::words::Source;
use std::alloc::Global;
use std::io::Read;
use std::{fs, io};
use stepfiles::{MOST_ROWS, StepFile};

/// All bytes of a source.
pub fn read(rt: &HostRuntime, source: Source) -> Result<Vec<u8>, Failure> {
    let bytes = match &source {
        Source::Input => standard_input(rt),
        Source::File(name) => fs::read(rt, name.as_str()),
    };
    bytes.map_err(|error| Failure::Unreadable(source, error))
}

fn standard_input(rt: &HostRuntime) -> io::Result<Vec<u8>> {
    let mut bytes = Vec::new(rt.alloc());
    rt.stdin().read_to_end(&mut bytes)?;
    Ok(bytes)
}

/// Opens a step file's bytes, with a scratch that is long enough for every file.
pub fn open<'a>(heap: Global, bytes: &'a [u8], place: &mut StepFile<'a>) -> Result<(), Failure>
    ensures { OnOk result (viewed place.new ≡ bytes.now) }
{
    let mut scratch = vec![in heap; 0u8; MOST_ROWS]?;
    stepfiles::open(bytes, scratch.as_mut_slice(), place)?;
    Ok(())
}
