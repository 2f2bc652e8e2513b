//! How many atoms a rule may have, and what is proved of rules and their languages. No function here does anything:
//! each is there for its contract.
ghost use Rattle.std.specs.Prelude.{ℕ, ◌↔◌, List, [], ◌∷◌, Decides};
ghost use Rattle.languages.specs.Rules.{Rule, Lang, nullable, derivative, Same};

/// The most atoms of a rule: an answer set has a bit for each.
pub const MOST_ATOMS: usize = 32;

/// A rule is nullable exactly when the empty list is in its language.
#[tactic(auto, using(crate::proofs::Deriving::nullable_decides))]
pub fn empty_list_is_decided<L>()
    ensures { (f : L → ℕ) (r : Rule) → Decides (nullable r) (Lang f r []) }
{}

/// A list is in the language of the derivative exactly when, with the letter before it, it is in that of the rule.
#[tactic(auto, using(crate::proofs::Deriving::derived_iff))]
pub fn derivatives_say_what_follows<L>()
    ensures { (f : L → ℕ) (l : L) (r : Rule) (w : List L) → Lang f (derivative (f l) r) w ↔ Lang f r (l ∷ w) }
{}

/// Rules that have one language over answer sets have one language over any letters.
#[tactic(auto, using(crate::proofs::Deriving::same_lang))]
pub fn same_over_any_letters<L>()
    ensures { (f : L → ℕ) (r q : Rule) → Same r q → (w : List L) → Lang f r w ↔ Lang f q w }
{}
