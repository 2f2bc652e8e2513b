//! Letters as text, and the making of events.
use crate::telling::answered;
use alphabets::Letter;
use anyhow::Context;
use bench::Event;
use std::alloc::{AllocError, Global};

pub trait Shown: Letter {
    /// Adds the letter's hexadecimal digits.
    fn add_to(self, line: &mut String) -> Result<(), AllocError>;
}

impl Shown for u8 {
    fn add_to(self, line: &mut String) -> Result<(), AllocError> {
        write!(line, "{self:02x}")
    }
}

impl Shown for Event {
    fn add_to(self, line: &mut String) -> Result<(), AllocError> {
        let (code, station) = (self.code.number(), self.station.number());
        write!(line, "{code:x}{station:x}{:04x}", self.pressure)
    }
}

/// Makes the event with a code, a station and a pressure.
pub fn of_making(heap: Global, words: &str) -> anyhow::Result<String> {
    let (code, rest) = words.split_once(' ').context("no station")?;
    let (station, pressure) = rest.split_once(' ').context("no pressure")?;
    let (code, station) = (code.parse::<u8>()?, station.parse::<u8>()?);
    match Event::new(code, station, pressure.parse::<u16>()?) {
        Ok(event) => {
            let mut line = String::from_str(heap, "OK ")?;
            event.add_to(&mut line)?;
            Ok(line)
        }
        Err(refusal) => Ok(answered(heap, Err(refusal))?),
    }
}
