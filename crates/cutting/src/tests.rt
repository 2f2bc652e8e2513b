//! The atoms of a rule.
ghost use Rattle.std.specs.Prelude.{◌≡◌, ℕ, ◌<◌, ◌≤◌, ◌^◌, [], length, Decides};
ghost use Rattle.languages.specs.Rules.{has};
ghost use Rattle.cutting.specs.Answers.{Admitted, answers_of};
ghost use Rattle.cutting.specs.Reading.{MeansAtoms, atoms_of, read_out};
ghost use Rattle.cutting.specs.Tests.{in_use};

use crate::atom::Atom;
use crate::entries::read_atom;
use languages::rules::MOST_ATOMS;
use refusals::Refusal;
use surveys::Entry;

/// The atoms of a rule by number: those of the first `count` places.
#[derive(Clone, Copy)]
pub struct Tests<A> {
    atoms: [A; MOST_ATOMS],
    count: usize,
}

impl<A: Atom> Tests<A> {
    /// No atom.
    pub fn none() -> Tests<A>
        ensures { in_use result ≡ [] }
    {
        Tests {
            atoms: [A::default(); MOST_ATOMS],
            count: 0,
        }
    }

    /// Reads `count` atoms, each where its entry says that it is written.
    #[tactic(auto, using(crate::proofs::Reading::atoms_mean))]
    pub fn read(text: &[u8], entries: &[Entry], count: usize) -> Result<Tests<A>, Refusal>
        ensures value { read_out result ≡ atoms_of A.read_as A.ordered text.now entries.now count }
        ensures means { MeansAtoms A.read_as A.ordered text.now entries.now count (read_out result) }
    {
        Tests::read_in_turn(text, entries, count)
    }

    /// The steps of `read`; that one says what they come to.
    #[tactic(auto, using(crate::proofs::Reading::atoms_more, crate::proofs::Reading::atoms_refused), unfolding(crate::specs::Reading::atoms_of))]
    fn read_in_turn(text: &[u8], entries: &[Entry], count: usize) -> Result<Tests<A>, Refusal>
        ensures { read_out result ≡ atoms_of A.read_as A.ordered text.now entries.now count }
    {
        let mut tests = Tests::none();
        for number in 0..count {
            tests.atoms[number] = read_atom(text, entries, number)?;
            tests.count = number + 1;
        }
        Ok(tests)
    }

    /// The atoms by number.
    pub fn as_slice(&self) -> &[A]
        ensures value { result.now ≡ in_use self.now }
        ensures most { length result.now ≤ 32 }
    {
        &self.atoms[..self.count.min(MOST_ATOMS)]
    }

    /// The answer set of a letter: bit k is 1 exactly when there is an atom with number k and it admits the letter.
    #[tactic(auto, using(crate::proofs::Answers::bits_say))]
    pub fn answers(&self, letter: A::Letter) -> u32
        ensures value { result ≡ answers_of A.admitting (in_use self.now) letter }
        ensures bits { (k : ℕ) → Decides (has k result) (Admitted A.admitting (in_use self.now) letter k) }
        ensures fits { result < 2 ^ 32 }
    {
        join_answers(self.as_slice(), letter)
    }
}

/// The answer of each atom at its place in one set.
#[tactic(auto, using(crate::proofs::Answers::answer_joined), unfolding(crate::specs::Answers::answers_of))]
fn join_answers<A: Atom>(atoms: &[A], letter: A::Letter) -> u32
    requires { length atoms.now ≤ 32 }
    ensures { result ≡ answers_of A.admitting atoms.now letter }
{
    let mut answers = 0;
    for (number, atom) in atoms.iter().enumerate() {
        answers |= u32::from(atom.admits(letter)) << number;
    }
    answers
}
