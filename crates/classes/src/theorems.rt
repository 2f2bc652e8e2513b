//! What meeting letters in order comes to. No function here does anything: each is there for its contract.
ghost use Rattle.std.specs.Prelude.{◌≡◌, ℕ, List, Some};
ghost use Rattle.std.specs.List.{slice_get};
ghost use Rattle.classes.specs.Meeting.{firsts, FirstMet, HasClass};
ghost use Rattle.std.specs.List.{AllByRecursion};

/// The sample of a class is the first of its letters, and the letters before it make the classes below.
#[tactic(auto, using(crate::proofs::FirstMet::first_met))]
pub fn samples_are_met_first<L>()
    ensures { (key : L → ℕ) (ls : List L) (k : ℕ) (s : L) → slice_get (firsts key ls) k ≡ Some s → FirstMet key ls k s }
{}

/// Each of the letters has a class, whose key is its own.
#[tactic(auto, using(crate::proofs::FirstMet::all_classed))]
pub fn letters_have_classes<L>()
    ensures { (key : L → ℕ) (ls : List L) → AllByRecursion (HasClass key ls) ls }
{}
