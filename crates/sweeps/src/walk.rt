//! Meeting every event in turn, without a step for each of them.
ghost use Rattle.std.specs.Prelude.{◌≡◌, ◌<◌, ◌∷◌, []};
ghost use Rattle.std.specs.Option.{option_map};
ghost use Rattle.classes.specs.Found.{Out, found, met};
ghost use Rattle.cutting.specs.Tests.{in_use};
ghost use Rattle.sweeps.specs.Classes.{set_of};
ghost use Rattle.sweeps.specs.Letters.{event_at, at_station, at_code, all_events};
ghost use Rattle.sweeps.specs.Walking.{Tied, Met, swept};

use crate::changes::{PRESSURES, next_change};
use bands::EventAtom;
use bench::{Code, Event, Station};
use classes::Classes;
use cutting::Tests;

/// The classes of all events by the answers of the tests, numbered as they are first met by rising code, then station,
/// then pressure. There are none where they would be more than 255. It costs, for each code and station, a step for
/// each pressure at which an answer changes there.
pub fn sweep(tests: &Tests<EventAtom>) -> Option<Classes<Event>>
    ensures { option_map found result ≡ swept (in_use tests.now) }
{
    let mut classes = Classes::none();
    if meet_all(tests, &mut classes) {
        Some(classes)
    } else {
        None
    }
}

/// Meets every event that there is. Says no where there is none left of the classes.
fn meet_all(tests: &Tests<EventAtom>, classes: &mut Classes<Event>) -> bool
    requires { Tied (set_of (in_use tests.now)) classes.old }
    ensures { Met (set_of (in_use tests.now)) all_events classes.old result classes.new }
{
    for code in Code::ALL {
        if !meet_code(tests, code, classes) {
            return false;
        }
    }
    true
}

/// Meets every event of a code.
fn meet_code(tests: &Tests<EventAtom>, code: Code, classes: &mut Classes<Event>) -> bool
    requires { Tied (set_of (in_use tests.now)) classes.old }
    ensures { Met (set_of (in_use tests.now)) (at_code 65536 code) classes.old result classes.new }
{
    for station in Station::ALL {
        if !meet_station(tests, code, station, classes) {
            return false;
        }
    }
    true
}

/// Meets every event of a code at a station, by the first pressure of each stretch in which no answer changes.
fn meet_station(
    tests: &Tests<EventAtom>,
    code: Code,
    station: Station,
    classes: &mut Classes<Event>,
) -> bool
    requires { Tied (set_of (in_use tests.now)) classes.old }
    ensures { Met (set_of (in_use tests.now)) (at_station 65536 code station) classes.old result classes.new }
{
    let mut pressure = 0;
    while pressure < PRESSURES {
        if !meet(tests, event_at(code, station, pressure), classes) {
            return false;
        }
        pressure = next_change(tests.as_slice(), code, station, pressure);
    }
    true
}

/// Meets one event.
fn meet(tests: &Tests<EventAtom>, event: Event, classes: &mut Classes<Event>) -> bool
    requires { Tied (set_of (in_use tests.now)) classes.old }
    ensures { Met (set_of (in_use tests.now)) (event ∷ []) classes.old result classes.new }
{
    enter(tests, event, classes).is_some()
}

/// The class of an event, if there is one left for it: its answer set is the key.
fn enter(tests: &Tests<EventAtom>, event: Event, classes: &mut Classes<Event>) -> Option<usize>
    ensures { ◌≡◌ {A = Out Event} (result, found classes.new) (met (found classes.old) event (set_of (in_use tests.now) event)) }
{
    classes.meet(event, tests.answers(event))
}

/// The event of a code at a station with a pressure.
fn event_at(code: Code, station: Station, pressure: u32) -> Event
    requires { pressure < 65536 }
    ensures { result ≡ event_at code station pressure }
{
    Event {
        code,
        station,
        pressure: pressure as u16,
    }
}
