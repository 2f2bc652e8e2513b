//! Calls what works on pools, over the odd pools that standard input gives, and prints what comes of each call.
//! `tests/pools.py` makes the cases, and says how they are written and what must come of them.
#![tactic(auto)]

mod cases;
mod outcomes;

use cases::Case;
use outcomes::of_call;
use std::io::{BufRead, BufReader, BufWriter, Write};

fn main(rt: HostRuntime) -> anyhow::Result<()> {
    let heap = rt.alloc();
    let mut out = BufWriter::new(heap, rt.stdout())?;
    for line in BufReader::new(heap, rt.stdin())?.lines(heap) {
        let case = Case::read(heap, line?.as_str())?;
        out.writeln(of_call(heap, &case)?)?;
    }
    out.flush()?;
    Ok(())
}
