//! The laws as clauses of a call, and what follows from them for every alphabet. No function here does anything: each is
//! there for its contract.
ghost use Rattle.std.specs.Prelude.{◌≡◌, List};
ghost use Rattle.alphabets.specs.Laws.{Counted, Classed, Sampled, Bounded, ClassesHaveLetters, OneClassOneSet};

use crate::alphabet::Alphabet;
use crate::letter::Letter;

/// Every alphabet keeps the laws; called for one, it says so of that one.
pub fn laws_hold<A: Alphabet>(alphabet: &A)
    ensures counted { Counted (A.kind_of alphabet.now) (A.count_of alphabet.now) }
    ensures classed { Classed A.Letter.proper (A.count_of alphabet.now) (A.class_of alphabet.now) (A.answers_of alphabet.now) (A.meaning alphabet.now) }
    ensures sampled { Sampled A.Letter.proper (A.count_of alphabet.now) (A.class_of alphabet.now) (A.sample_of alphabet.now) }
    ensures bounded { Bounded (A.count_of alphabet.now) (A.answers_of alphabet.now) (A.sample_of alphabet.now) }
{}

/// Each list of classes below the count is the class list of some list of letters.
pub fn class_lists_have_letters<A: Alphabet>()
    ensures { (a : A) → ClassesHaveLetters A.Letter.proper (A.count_of a) (A.class_of a) }
{
    letters_are_found::<A>();
}

/// The theorem as proofs/ has it: `using` on the function above does not close it, and an answer of its own would be what
/// is refused first where the clause is turned.
fn letters_are_found<A: Alphabet>()
    ensures found { (a : A) → ClassesHaveLetters A.Letter.proper (A.count_of a) (A.class_of a) }
{}

/// Letters of one class have one answer set.
pub fn letters_of_one_class_are_alike<A: Alphabet>()
    ensures { (a : A) → OneClassOneSet A.Letter.proper (A.class_of a) (A.meaning a) }
{}
