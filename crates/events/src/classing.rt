//! What an alphabet of bench events tells.
ghost use Rattle.std.specs.Prelude.{◌≡◌};
ghost use Rattle.std.specs.List.{slice_get};
ghost use Rattle.alphabets.specs.declared.kind.Kind.TheVariants.{Events};
ghost use Rattle.cutting.specs.Tests.{in_use};
ghost use Rattle.sweeps.proofs.Letters.{counted, classed, sampled, bounded};
ghost use Rattle.sweeps.specs.Classes.{set_of, samples, count_of, sets, class_of};

use crate::alphabet::EventAlphabet;
use alphabets::{Alphabet, Kind};
use bench::Event;

impl Alphabet for EventAlphabet {
    type Letter = Event;

    ghost kind_of = { λ a. Events };

    ghost count_of = { λ a. count_of (in_use a.tests) };

    ghost class_of = { λ a e. class_of (in_use a.tests) e };

    ghost answers_of = { λ a k. slice_get (sets (in_use a.tests)) k };

    ghost sample_of = { λ a k. slice_get (samples (in_use a.tests)) k };

    ghost meaning = { λ a e. set_of (in_use a.tests) e };

    fn kind(&self) -> Kind {
        Kind::Events
    }

    fn class_count(&self) -> usize {
        self.found.count()
    }

    fn class(&self, event: Event) -> usize {
        self.found.number(self.tests.answers(event)).unwrap_or(0)
    }

    fn answers(&self, class: usize) -> Option<u32> {
        self.found.key(class)
    }

    fn sample(&self, class: usize) -> Option<Event> {
        self.found.sample(class)
    }

    ghost counted = { λ a. counted (set_of (in_use a.tests)) Events a.most };

    ghost classed = { λ a. classed (set_of (in_use a.tests)) };

    ghost sampled = { λ a. sampled (set_of (in_use a.tests)) };

    ghost bounded = { λ a. bounded (set_of (in_use a.tests)) };
}
