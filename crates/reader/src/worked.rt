//! Readings worked out by hand, as a table about the definition of reading. It is proved by computing them.
ghost use Rattle.std.specs.Prelude.{◌≡◌, Ok, Err};
ghost use Rattle.refusals.specs.Questions.{refusing};
ghost use Rattle.refusals.specs.declared.Question.TheVariants.{TextLength, BracketClosed, GrammarAllows, NodeRoom};
ghost use Rattle.reader.specs.Worked.{answer, WorkedTexts};

/// What reading these texts answers. It does nothing: it is there for its contract.
#[tactic(auto, using(crate::proofs::Working::all_worked))]
pub fn worked_texts()
    ensures no_text { answer "" 10 ≡ Err (refusing TextLength 0) }
    ensures open_bracket { answer "[61" 10 ≡ Err (refusing BracketClosed 0) }
    ensures nothing_behind { answer "[61]|" 10 ≡ Err (refusing GrammarAllows 5) }
    ensures nothing_inside { answer "()" 10 ≡ Err (refusing GrammarAllows 1) }
    ensures just_fits { answer "[61][62]|[61][63]" 10 ≡ Ok (record { root = 9; nodes = 10; atoms = 3 }) }
    ensures one_too_few { answer "[61][62]|[61][63]" 9 ≡ Err (refusing NodeRoom 9) }
{}
