//! A pass over a whole text.
ghost use Rattle.std.specs.Prelude.{◌≡◌, []};
ghost use Rattle.nodes.specs.Entering.{Out, entered, held};
ghost use Rattle.nodes.specs.Pools.{pool_of};
ghost use Rattle.passes.specs.Passing.{checked, passed_into, settled};

use crate::binary::Binary;
use crate::sink::{Checking, Sink};
use crate::walk::Walk;
use grammar::Token;
use nodes::Pool;
use refusals::{Question, Refusal};
use surveys::{Reader, advance};

/// The most levels that may be open at once.
const MOST_LEVELS: usize = 32;

/// Asks everything of the text that the grammar asks.
pub fn check(reader: &Reader) -> Result<(), Refusal>
    ensures { result ≡ settled (passed_into checked reader.now (held [] 0)).0 }
{
    pass_over(reader, &mut Checking)?;
    Ok(())
}

/// Enters the rule of the text into a pool.
pub fn enter_rule(reader: &Reader, pool: &mut Pool) -> Result<u16, Refusal>
    ensures whole { ◌≡◌ {A = Out} (result, pool_of pool.new) (passed_into entered reader.now (pool_of pool.old)) }
    ensures lent { pool.new.items.ghost_name ≡ pool.old.items.ghost_name }
{
    pass_over(reader, pool)
}

/// Reads the text from its beginning to its end.
fn pass_over<S: Sink>(reader: &Reader, sink: &mut S) -> Result<u16, Refusal>
    ensures whole { ◌≡◌ {A = Out} (result, S.pool sink.new) (passed_into S.step reader.now (S.pool sink.old)) }
    ensures lent { S.memory sink.new ≡ S.memory sink.old }
{
    let first = advance(reader, 0)?;
    let walk = Walk {
        first,
        reader,
        levels: MOST_LEVELS,
    };
    let part = walk.group(sink, Binary::Or)?;
    match part.next.token {
        Token::End => Ok(part.node),
        _ => Err(Question::GrammarAllows.at(part.next.place)),
    }
}
