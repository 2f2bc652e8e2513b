//! Reads the rule texts that standard input gives in hexadecimal, each into memory of the size given with it, and prints
//! what comes of it: the answer, and all that the memory then holds. `tests/reading.py` makes the cases, and says how
//! they are written and what must come of them.
#![tactic(auto)]

mod cases;
mod outcomes;

use cases::Case;
use outcomes::of_reading;
use std::io::{BufRead, BufReader, BufWriter, Write};

fn main(rt: HostRuntime) -> anyhow::Result<()> {
    let heap = rt.alloc();
    let mut out = BufWriter::new(heap, rt.stdout())?;
    for line in BufReader::new(heap, rt.stdin())?.lines(heap) {
        let case = Case::read(heap, line?.as_str())?;
        out.writeln(of_reading(heap, &case)?)?;
    }
    out.flush()?;
    Ok(())
}
