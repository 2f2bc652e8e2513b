//! The station layer.
ghost use Rattle.std.specs.Prelude.{◌≡◌};
ghost use Rattle.std.specs.Option.{option_map};
ghost use Rattle.stations.specs.Asking.{asking, turned_back};
ghost use Rattle.stations.specs.Layering.{sampled_above, bounded_above};

use crate::order::StationOrder;
use alphabets::{Alphabet, Kind};
use bench::Event;

/// An alphabet for a bench whose hoses are crossed: about an event at a station it asks the alphabet below about the same
/// at the station that the order has in its place. Classes and answer sets are those below. A sample is one below, turned
/// back. A question costs that below, and a sample at most eight looks into the order besides.
#[derive(Clone, Copy)]
pub struct Stations<A> {
    pub below: A,
    pub order: StationOrder,
}

impl<A: Alphabet<Letter = Event>> Stations<A> {
    /// The event that the alphabet below is asked about in place of an event. It means the same there, and has the same
    /// class.
    pub fn asking(&self, event: Event) -> Event
        ensures asking { result ≡ asking self.now.order.stations event }
        ensures meaning { ⟦<Stations<A> as Alphabet>⟧.meaning self.now event ≡ A.meaning self.now.below result }
        ensures class { ⟦<Stations<A> as Alphabet>⟧.class_of self.now event ≡ A.class_of self.now.below result }
        ensures undone { turned_back self.now.order.stations result ≡ event }
    {
        Event {
            station: self.order.station(event.station),
            ..event
        }
    }

    /// The event in whose place the alphabet below is asked about an event.
    pub fn turned_back(&self, event: Event) -> Event
        ensures turned { result ≡ turned_back self.now.order.stations event }
        ensures meaning { ⟦<Stations<A> as Alphabet>⟧.meaning self.now result ≡ A.meaning self.now.below event }
        ensures class { ⟦<Stations<A> as Alphabet>⟧.class_of self.now result ≡ A.class_of self.now.below event }
        ensures undone { asking self.now.order.stations result ≡ event }
    {
        Event {
            station: self.order.back(event.station),
            ..event
        }
    }
}

impl<A: Alphabet<Letter = Event>> Alphabet for Stations<A> {
    type Letter = Event;

    ghost kind_of = { λ s. A.kind_of s.below };

    ghost count_of = { λ s. A.count_of s.below };

    ghost class_of = { λ s e. A.class_of s.below (asking s.order.stations e) };

    ghost answers_of = { λ s k. A.answers_of s.below k };

    ghost sample_of = { λ s k. option_map (turned_back s.order.stations) (A.sample_of s.below k) };

    ghost meaning = { λ s e. A.meaning s.below (asking s.order.stations e) };

    ghost counted = { λ s. A.counted s.below };

    ghost classed = { λ s e h. A.classed s.below (asking s.order.stations e) h };

    ghost sampled = { λ s. sampled_above s.order.stations s.order.undone (A.count_of s.below) (A.class_of s.below) (A.sample_of s.below) (A.sampled s.below) };

    ghost bounded = { λ s. bounded_above (A.count_of s.below) (A.answers_of s.below) (A.sample_of s.below) (turned_back s.order.stations) (A.bounded s.below) };

    fn kind(&self) -> Kind {
        self.below.kind()
    }

    fn class_count(&self) -> usize {
        self.below.class_count()
    }

    fn class(&self, event: Event) -> usize {
        self.below.class(self.asking(event))
    }

    fn answers(&self, class: usize) -> Option<u32> {
        self.below.answers(class)
    }

    fn sample(&self, class: usize) -> Option<Event> {
        Some(self.turned_back(self.below.sample(class)?))
    }
}
