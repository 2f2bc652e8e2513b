//! What follows for every station layer. No function here does anything: each is there for its contract.
ghost use Rattle.std.specs.Prelude.{◌≡◌, ℕ, List, map};
ghost use Rattle.std.specs.Option.{option_map};
ghost use Rattle.bench.specs.declared.event.Event.{Event};
ghost use Rattle.stations.specs.declared.layer.Stations.{Stations};
ghost use Rattle.stations.specs.Asking.{asking, turned_back};

use crate::layer::Stations;
use alphabets::Alphabet;
use bench::Event;

/// The kind and the classes are those below, and a list of events has those of the events asked about in their places.
pub fn classes_are_those_below<A: Alphabet<Letter = Event>>()
    ensures kind { (s : Stations A) → ⟦<Stations<A> as Alphabet>⟧.kind_of s ≡ A.kind_of s.below }
    ensures count { (s : Stations A) → ⟦<Stations<A> as Alphabet>⟧.count_of s ≡ A.count_of s.below }
    ensures answers { (s : Stations A) (k : ℕ) → ⟦<Stations<A> as Alphabet>⟧.answers_of s k ≡ A.answers_of s.below k }
    ensures lists { (s : Stations A) (es : List Event) → map (⟦<Stations<A> as Alphabet>⟧.class_of s) es ≡ map (A.class_of s.below) (map (asking s.order.stations) es) }
{}

/// The event asked about in place of a sample is the sample below.
pub fn samples_ask_about_those_below<A: Alphabet<Letter = Event>>()
    ensures { (s : Stations A) (k : ℕ) → option_map (asking s.order.stations) (⟦<Stations<A> as Alphabet>⟧.sample_of s k) ≡ A.sample_of s.below k }
{}
