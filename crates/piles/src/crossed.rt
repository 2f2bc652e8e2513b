//! A station layer on a station layer.
ghost use Rattle.std.specs.Prelude.{◌≡◌};
ghost use Rattle.alphabets.specs.Laws.{Counted, Classed, Sampled, Bounded};
ghost use Rattle.bench.specs.declared.event.Event.{Event};
ghost use Rattle.stations.specs.Asking.{asking};

use alphabets::{Alphabet, Letter, laws_hold};
use bench::Event;
use stations::Stations;

/// Two station layers are an alphabet again. The upper order comes first: the alphabet below is asked about what the lower
/// order makes of what the upper one makes of an event. It does nothing: it is there for its contract.
pub fn two_station_layers<A: Alphabet<Letter = Event>>(pile: &Stations<Stations<A>>)
    ensures counted { Counted (⟦<Stations<Stations<A>> as Alphabet>⟧.kind_of pile.now) (⟦<Stations<Stations<A>> as Alphabet>⟧.count_of pile.now) }
    ensures classed { Classed ⟦<Event as Letter>⟧.proper (⟦<Stations<Stations<A>> as Alphabet>⟧.count_of pile.now) (⟦<Stations<Stations<A>> as Alphabet>⟧.class_of pile.now) (⟦<Stations<Stations<A>> as Alphabet>⟧.answers_of pile.now) (⟦<Stations<Stations<A>> as Alphabet>⟧.meaning pile.now) }
    ensures sampled { Sampled ⟦<Event as Letter>⟧.proper (⟦<Stations<Stations<A>> as Alphabet>⟧.count_of pile.now) (⟦<Stations<Stations<A>> as Alphabet>⟧.class_of pile.now) (⟦<Stations<Stations<A>> as Alphabet>⟧.sample_of pile.now) }
    ensures bounded { Bounded (⟦<Stations<Stations<A>> as Alphabet>⟧.count_of pile.now) (⟦<Stations<Stations<A>> as Alphabet>⟧.answers_of pile.now) (⟦<Stations<Stations<A>> as Alphabet>⟧.sample_of pile.now) }
    ensures kind { ⟦<Stations<Stations<A>> as Alphabet>⟧.kind_of pile.now ≡ A.kind_of pile.now.below.below }
    ensures class { (e : Event) → ⟦<Stations<Stations<A>> as Alphabet>⟧.class_of pile.now e ≡ A.class_of pile.now.below.below (asking pile.now.below.order.stations (asking pile.now.order.stations e)) }
    ensures meaning { (e : Event) → ⟦<Stations<Stations<A>> as Alphabet>⟧.meaning pile.now e ≡ A.meaning pile.now.below.below (asking pile.now.below.order.stations (asking pile.now.order.stations e)) }
{
    laws_hold(pile);
}
