//! An atom of events.
ghost use Rattle.std.specs.Prelude.{◌≡◌};
ghost use Rattle.bands.specs.Bands.{event_atom, in_order, admitted, stands_at, in_range, has_form};

use crate::fields::{one_or_every, pressure_at};
use bench::{Code, Event, Station};
use cutting::Atom;

/// Admits the events of a code and a station whose pressure is from `first` to `last`. Where there is no code or no
/// station, every one will do. It is written in twelve characters, as `2.:07d1-ffff`.
#[derive(Clone, Copy, PartialEq, Eq, Debug, Default)]
pub struct EventAtom {
    pub code: Option<Code>,
    pub station: Option<Station>,
    pub first: u16,
    pub last: u16,
}

impl EventAtom {
    /// Whether the atom is about this code and this station.
    pub fn stands_at(self, code: Code, station: Station) -> bool
        ensures { result ≡ stands_at self code station }
    {
        self.code
            .is_none_or(|wanted| wanted.number() == code.number())
            && self
                .station
                .is_none_or(|wanted| wanted.number() == station.number())
    }

    /// Whether the pressure is in the atom's range.
    pub fn in_range(self, pressure: u16) -> bool
        ensures { result ≡ in_range self pressure }
    {
        self.first <= pressure && pressure <= self.last
    }
}

impl Atom for EventAtom {
    type Letter = Event;

    ghost read_as = { event_atom };

    ghost ordered = { in_order };

    ghost admitting = { admitted };

    fn read(inside: &[u8]) -> Option<EventAtom> {
        if !has_form(inside) {
            return None;
        }
        Some(EventAtom {
            code: one_or_every(&Code::ALL, inside[0])?,
            station: one_or_every(&Station::ALL, inside[1])?,
            first: pressure_at(inside, 3)?,
            last: pressure_at(inside, 8)?,
        })
    }

    fn is_ordered(self) -> bool {
        self.first <= self.last
    }

    fn admits(self, event: Event) -> bool {
        self.stands_at(event.code, event.station) && self.in_range(event.pressure)
    }
}

/// Whether the characters that separate the fields stand at their places.
fn has_form(text: &[u8]) -> bool
    ensures { result ≡ has_form text.now }
{
    text.len() == 12 && text[2] == b':' && text[7] == b'-'
}
