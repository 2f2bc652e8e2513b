//! What a bench reports.
ghost use Rattle.std.specs.Prelude.{◌≡◌, ◌<◌};
ghost use Rattle.std.specs.List.{slice_get};
ghost use Rattle.bench.specs.Events.{all_codes, all_stations, event_of};

use crate::code::Code;
use crate::station::Station;
use alphabets::Letter;
use refusals::{Question, Refusal};

/// One thing that a bench reports: what, where, and the pressure in tenths of a bar.
#[derive(Clone, Copy, PartialEq, Eq, Debug, Default)]
pub struct Event {
    pub code: Code,
    pub station: Station,
    pub pressure: u16,
}

impl Event {
    /// The event with these numbers, if there are such a code and such a station.
    pub fn new(code: u8, station: u8, pressure: u16) -> Result<Event, Refusal>
        ensures { result ≡ event_of (slice_get all_codes code) (slice_get all_stations station) pressure }
    {
        let (Ok(code), Ok(station)) = (Code::try_from(code), Station::try_from(station)) else {
            return Err(Question::EventRange.at(0));
        };
        Ok(Event {
            code,
            station,
            pressure,
        })
    }
}

impl Letter for Event {
    ghost proper = { λ e. e.pressure < 65536 };

    fn seen(self) {}
}
