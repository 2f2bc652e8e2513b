//! Cases: what is cut or made, and what is asked of it.
use crate::byte_cases::of_bytes;
use crate::event_cases::of_events;
use crate::letters::of_making;
use crate::orders::of_filling;
use crate::rules::Rule;
use anyhow::Context;
use std::alloc::Global;

/// What comes of the case that a line is.
pub fn outcome(heap: Global, line: &str) -> anyhow::Result<String> {
    let (first, rest) = line.split_once(' ').context("one word")?;
    match first {
        "event" => of_making(heap, rest),
        "order" => of_filling(heap, rest),
        _ => of_cutting(heap, first, rest),
    }
}

fn of_cutting(heap: Global, layers: &str, words: &str) -> anyhow::Result<String> {
    let (atoms, words) = words.split_once(' ').context("nothing asked")?;
    let (asked, quoted) = words.split_once(' ').context("no text")?;
    let rule = Rule::of_case(heap, atoms, quoted)?;
    match layers.split_once('/').unwrap_or((layers, "")) {
        ("bytes", above) => of_bytes(heap, above, &rule, asked),
        (_, above) => of_events(heap, above, &rule, asked),
    }
}
