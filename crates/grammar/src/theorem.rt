//! What is proved of the grammar. There is no code in it: the definitions are in specs/, the proofs in proofs/.
ghost use Rattle.std.specs.Prelude.{◌≡◌, ℕ, List, Ok, Err};
ghost use Rattle.languages.specs.Rules.{Rule};
ghost use Rattle.refusals.specs.Questions.{refusing};
ghost use Rattle.refusals.specs.declared.Question.TheVariants.{GrammarAllows};
ghost use Rattle.grammar.specs.Lexing.{lexed};
ghost use Rattle.grammar.specs.Atoms.{atoms, number_of, tokens};
ghost use Rattle.grammar.specs.Grammar.{Written};
ghost use Rattle.grammar.specs.Parsing.{parsed_text};
ghost use Rattle.grammar.specs.Theorems.{ReadIsWritten, WrittenIsRead, OneTree};
ghost use Rattle.grammar.specs.FirstWrong.{FirstWrong, FirstWrongIsTold};

/// Reading a text in order finds a rule exactly where the grammar says that the text writes it, and a text writes at
/// most one rule. It does nothing: it is there for its contract.
pub fn grammar_gives_one_tree()
    ensures sound { (text : List ℕ) (r : Rule) → parsed_text text ≡ Ok r → Written text r }
    ensures complete { (text : List ℕ) (r : Rule) → Written text r → parsed_text text ≡ Ok r }
    ensures alone { (text : List ℕ) (r q : Rule) → Written text r → Written text q → r ≡ q }
{
    proved();
}

/// The theorems as proofs/ has them.
fn proved()
    ensures sound { ReadIsWritten }
    ensures complete { WrittenIsRead }
    ensures alone { OneTree }
{}

/// A text that the grammar does not allow is refused at its first token that nothing written goes on with: what stands
/// before it begins something written, and with that token it does not. At the end of a text: what stands there begins
/// something written, and is nothing written. It does nothing: it is there for its contract.
pub fn first_wrong_token_is_told()
    ensures first { (text : List ℕ) (p : ℕ) → parsed_text text ≡ Err (refusing GrammarAllows p) → FirstWrong (number_of (atoms (lexed text))) p (tokens text) }
{
    told();
}

/// The same as proofs/ has it.
fn told()
    ensures first { FirstWrongIsTold }
{}
