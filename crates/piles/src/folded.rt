//! A fold on a fold.
ghost use Rattle.std.specs.Prelude.{◌≡◌, ℕ};
ghost use Rattle.alphabets.specs.Laws.{Counted, Classed, Sampled, Bounded};
ghost use Rattle.folds.specs.Folding.{folded};

use alphabets::{Alphabet, Letter, laws_hold};
use folds::Fold;

/// Two folds are an alphabet again, and mean what one means. It does nothing: it is there for its contract.
pub fn two_folds<A: Alphabet<Letter = u8>>(pile: &Fold<Fold<A>>)
    ensures counted { Counted (⟦<Fold<Fold<A>> as Alphabet>⟧.kind_of pile.now) (⟦<Fold<Fold<A>> as Alphabet>⟧.count_of pile.now) }
    ensures classed { Classed ⟦<u8 as Letter>⟧.proper (⟦<Fold<Fold<A>> as Alphabet>⟧.count_of pile.now) (⟦<Fold<Fold<A>> as Alphabet>⟧.class_of pile.now) (⟦<Fold<Fold<A>> as Alphabet>⟧.answers_of pile.now) (⟦<Fold<Fold<A>> as Alphabet>⟧.meaning pile.now) }
    ensures sampled { Sampled ⟦<u8 as Letter>⟧.proper (⟦<Fold<Fold<A>> as Alphabet>⟧.count_of pile.now) (⟦<Fold<Fold<A>> as Alphabet>⟧.class_of pile.now) (⟦<Fold<Fold<A>> as Alphabet>⟧.sample_of pile.now) }
    ensures bounded { Bounded (⟦<Fold<Fold<A>> as Alphabet>⟧.count_of pile.now) (⟦<Fold<Fold<A>> as Alphabet>⟧.answers_of pile.now) (⟦<Fold<Fold<A>> as Alphabet>⟧.sample_of pile.now) }
    ensures kind { ⟦<Fold<Fold<A>> as Alphabet>⟧.kind_of pile.now ≡ A.kind_of pile.now.below.below }
    ensures meaning { (b : ℕ) → ⟦<Fold<Fold<A>> as Alphabet>⟧.meaning pile.now b ≡ A.meaning pile.now.below.below (folded b) }
{
    laws_hold(pile);
}
