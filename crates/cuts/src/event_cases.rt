//! Alphabets of events, cut and asked.
use crate::orders::order_of;
use crate::rules::Rule;
use crate::telling::{add_change, add_classes, answered};
use alphabets::Alphabet;
use bench::{Code, Event, Station};
use events::{EventAlphabet, cut};
use refusals::Refusal;
use stations::{StationOrder, Stations};
use std::alloc::{AllocError, Global};

/// What every place holds before a cutting, so that one left as it was can be told.
const EARLIER: &[u8] = b"[95:0100-01ff]";

/// Cuts a rule, and tells what the alphabet or the layers above it then answer.
pub fn of_events(heap: Global, above: &str, rule: &Rule, asked: &str) -> anyhow::Result<String> {
    let mut place = EventAlphabet::new();
    let mut answer = Ok(());
    if rule.is_cut {
        let earlier = Rule::read(heap, Vec::from_slice(heap, EARLIER)?)?;
        cut_rule(&earlier, &mut place)?;
        answer = cut_rule(rule, &mut place);
    }
    let mut line = answered(heap, answer)?;
    let pressures = pressures_of(heap, asked)?;
    match above.split_once('/') {
        None if above.is_empty() => add_told(&mut line, &place, &pressures)?,
        None => add_told(&mut line, &crossed(place, order_of(above)?), &pressures)?,
        Some((lower, upper)) => {
            let below = crossed(place, order_of(lower)?);
            add_told(&mut line, &crossed(below, order_of(upper)?), &pressures)?;
        }
    }
    Ok(line)
}

/// An alphabet with the station layer above it.
fn crossed<A: Alphabet<Letter = Event>>(below: A, order: StationOrder) -> Stations<A> {
    Stations { below, order }
}

fn cut_rule(rule: &Rule, place: &mut EventAlphabet) -> Result<(), Refusal> {
    cut(
        rule.text.as_slice(),
        rule.entries.as_slice(),
        rule.count,
        place,
    )
}

fn add_told<A: Alphabet<Letter = Event>>(
    line: &mut String,
    alphabet: &A,
    pressures: &[u16],
) -> Result<(), AllocError> {
    add_classes(line, alphabet)?;
    let mut before = None;
    for code in Code::ALL {
        for station in Station::ALL {
            for pressure in pressures {
                let event = Event {
                    code,
                    station,
                    pressure: *pressure,
                };
                add_change(line, alphabet, event, &mut before)?;
            }
        }
    }
    Ok(())
}

/// All pressures, or those in hexadecimal with commas between them.
fn pressures_of(heap: Global, asked: &str) -> anyhow::Result<Vec<u16>> {
    let mut pressures = Vec::new(heap);
    if asked == "all" {
        for pressure in 0..=u16::MAX {
            pressures.push(pressure)?;
        }
        return Ok(pressures);
    }
    for word in asked.split(',') {
        pressures.push(u16::from_str_radix(word, 16)?)?;
    }
    Ok(pressures)
}
