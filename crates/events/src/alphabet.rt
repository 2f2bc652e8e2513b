//! The alphabet of bench events.
ghost use Rattle.std.specs.Prelude.{◌≡◌, ◌≤◌};
ghost use Rattle.classes.specs.Found.{samples_in, keys_in};
ghost use Rattle.cutting.specs.Tests.{in_use};
ghost use Rattle.sweeps.specs.Classes.{samples, count_of, sets};

use bands::EventAtom;
use bench::Event;
use classes::Classes;
use cutting::Tests;

/// Events in classes by the answer sets that the atoms of a rule give them. The class of an event is found by its answer
/// set, so a question for it costs a test of each atom and a look at each class. 2 KB in all.
#[derive(Clone, Copy)]
pub struct EventAlphabet {
    pub(crate) tests: Tests<EventAtom>,
    pub(crate) found: Classes<Event>,
    ghost samples: { samples_in found ≡ samples (in_use tests) },
    ghost sets: { keys_in found ≡ sets (in_use tests) },
    ghost most: { count_of (in_use tests) ≤ 255 },
}
