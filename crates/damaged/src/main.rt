//! Opens the step files that standard input describes, good and damaged ones, and prints what comes of each.
//! `tests/damaged.py` makes the cases, and says what must come of them.
#![tactic(auto)]

mod cases;
mod outcomes;
mod tables;

use anyhow::ensure;
use cases::Case;
use outcomes::of_opening;
use std::io::{BufRead, BufReader, BufWriter, Write};
use stepfiles::{StepFile, open};

/// What every place views before an opening, so that one left as it was can be told.
const EARLIER: &[u8; 32] = b"\x00\x00\x00\x20\x01\x02\x00\x02\x03\x00\x07\
    earlier\
    \x06\x00\x00\x00\x01\x00\x00\
    \x03\x00\x01\x00\x01\x00\x01";

fn main(rt: HostRuntime) -> anyhow::Result<()> {
    let heap = rt.alloc();
    let mut scratch = [0u8; 2];
    let mut earlier = StepFile::built_in();
    let built_in = outcomes::seen(heap, earlier)?;
    println!(rt; "built in: {built_in}")?;
    ensure!(
        open(EARLIER, &mut scratch, &mut earlier).is_ok(),
        "the earlier file does not open"
    );
    open_all(&rt, earlier)
}

/// Opens a case for each line, into a place that views the earlier file.
fn open_all(rt: &HostRuntime, earlier: StepFile) -> anyhow::Result<()> {
    let heap = rt.alloc();
    let mut out = BufWriter::new(heap, rt.stdout())?;
    let mut count = 0u32;
    for line in BufReader::new(heap, rt.stdin())?.lines(heap) {
        let case = Case::read(heap, line?.as_str())?;
        out.writeln(of_opening(heap, earlier, &case)?)?;
        count = count.saturating_add(1);
    }
    out.writeln(format!(in heap; "{count} files")?)?;
    out.flush()?;
    Ok(())
}
