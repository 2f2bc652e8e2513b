//! What a fold means, over any alphabet of bytes. No function here does anything: each is there for its contract.
ghost use Rattle.std.specs.Prelude.{◌≡◌, ℕ, ◌<◌};
ghost use Rattle.folds.specs.Folding.{SamplesComeFirst, SharesBelow, folded};
ghost use Rattle.folds.specs.declared.fold.Fold.{Fold};

use crate::fold::Fold;
use alphabets::Alphabet;

/// A fold is of the kind below. A byte has the answer set below of the byte that is asked about in its place, and two
/// bytes have one class exactly where those have one class below.
#[tactic(auto, using(crate::proofs::Samples::shares))]
pub fn folds_ask_below<A: Alphabet<Letter = u8>>()
    ensures kind { (f : Fold A) → ⟦<Fold<A> as Alphabet>⟧.kind_of f ≡ A.kind_of f.below }
    ensures meaning { (f : Fold A) (b : ℕ) → ⟦<Fold<A> as Alphabet>⟧.meaning f b ≡ A.meaning f.below (folded b) }
    ensures classes { (f : Fold A) → SharesBelow (A.class_of f.below) (⟦<Fold<A> as Alphabet>⟧.class_of f) }
{}

/// The classes of a fold are numbered as they are met from byte 0 up: the bytes before the sample of a class are in the
/// classes before this one.
#[tactic(auto, using(crate::proofs::Samples::samples_first))]
pub fn fold_classes_are_first_met<A: Alphabet<Letter = u8>>()
    ensures { (f : Fold A) → SamplesComeFirst (⟦<Fold<A> as Alphabet>⟧.class_of f) (⟦<Fold<A> as Alphabet>⟧.sample_of f) }
{}

/// A fold of a fold tells what the fold tells.
#[tactic(auto, using(crate::proofs::Again::same_count, crate::proofs::Again::same_answers, crate::proofs::Again::same_sample))]
pub fn folding_again_changes_nothing<A: Alphabet<Letter = u8>>()
    ensures count { (f : Fold (Fold A)) → ⟦<Fold<Fold<A>> as Alphabet>⟧.count_of f ≡ ⟦<Fold<A> as Alphabet>⟧.count_of f.below }
    ensures class { (f : Fold (Fold A)) (b : ℕ) → b < 256 → ⟦<Fold<Fold<A>> as Alphabet>⟧.class_of f b ≡ ⟦<Fold<A> as Alphabet>⟧.class_of f.below b }
    ensures answers { (f : Fold (Fold A)) (k : ℕ) → ⟦<Fold<Fold<A>> as Alphabet>⟧.answers_of f k ≡ ⟦<Fold<A> as Alphabet>⟧.answers_of f.below k }
    ensures sample { (f : Fold (Fold A)) (k : ℕ) → ⟦<Fold<Fold<A>> as Alphabet>⟧.sample_of f k ≡ ⟦<Fold<A> as Alphabet>⟧.sample_of f.below k }
{}
