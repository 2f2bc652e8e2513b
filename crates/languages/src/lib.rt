//! The theory that the other crates rest on: tables over classes, what their rows reach, the marks that say it, and
//! rules with their languages.
//! Hardly any of it is code; the definitions are in specs/, the theorems in specs/ with their proofs in proofs/.
#![tactic(auto)]

mod marks;
pub mod rules;

ghost use Rattle.languages.specs.Tables.{Table, Closed};
ghost use Rattle.languages.specs.Theorems.{WorkedOut, MarksSayWhatIsReached};

pub use marks::{Mark, UnknownMark};

/// Marks worked out by passes are the marks that reachability gives. It does nothing: it is there for its contract.
pub fn marks_say_what_is_reached()
    ensures { (t : Table) → Closed t → WorkedOut t }
{
    proved();
}

/// The theorem as proofs/ has it: `using` on the function above does not close it, and an answer of its own would be what
/// is refused first where the clause is turned.
fn proved()
    ensures { MarksSayWhatIsReached }
{}
