//! What an alphabet tells, and the laws that it keeps.
ghost use Rattle.std.specs.Prelude.{◌≡◌, ℕ, Option};
ghost use Rattle.alphabets.specs.declared.kind.Kind.{Kind};
ghost use Rattle.alphabets.specs.Laws.{Counted, Classed, Sampled, Bounded};

use crate::kind::Kind;
use crate::letter::Letter;

/// Letters in classes. Each letter has an answer set: a number whose bit k is 1 exactly when an atom k exists and
/// admits the letter. Letters of one class have the same. A question changes nothing, and its answer stays.
pub trait Alphabet {
    type Letter: Letter;

    ghost kind_of: { Self → Kind };

    ghost count_of: { Self → ℕ };

    ghost class_of: { Self → Self.Letter → ℕ };

    ghost answers_of: { Self → ℕ → Option ℕ };

    ghost sample_of: { Self → ℕ → Option Self.Letter };

    /// The answer set of a letter.
    ghost meaning: { Self → Self.Letter → ℕ };

    fn kind(&self) -> Kind
        ensures { result ≡ kind_of self.now };

    /// How many classes there are.
    fn class_count(&self) -> usize
        ensures { result ≡ count_of self.now };

    fn class(&self, letter: Self::Letter) -> usize
        ensures { result ≡ class_of self.now letter };

    /// The answer set of a class, if there is one with this number.
    fn answers(&self, class: usize) -> Option<u32>
        ensures { result ≡ answers_of self.now class };

    /// A letter of a class, if there is one with this number.
    fn sample(&self, class: usize) -> Option<Self::Letter>
        ensures { result ≡ sample_of self.now class };

    ghost counted: { (a : Self) → Counted (kind_of a) (count_of a) };

    ghost classed: { (a : Self) → Classed Self.Letter.proper (count_of a) (class_of a) (answers_of a) (meaning a) };

    ghost sampled: { (a : Self) → Sampled Self.Letter.proper (count_of a) (class_of a) (sample_of a) };

    ghost bounded: { (a : Self) → Bounded (count_of a) (answers_of a) (sample_of a) };
}
