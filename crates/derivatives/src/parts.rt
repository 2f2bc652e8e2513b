//! What is made of the parts of a form and of their derivatives: small functions with an equation each, so that a wrong
//! one is refused where it stands.
ghost use Rattle.std.specs.Prelude.{◌≡◌};
ghost use Rattle.nodes.specs.Entering.{Out, entered};
ghost use Rattle.nodes.specs.Pools.{pool_of};
ghost use Rattle.nodes.specs.declared.form.Form.{Form};
ghost use Rattle.derivatives.specs.Parts.{second_part, rejoined};

use nodes::{Form, Pool, enter, nullable_at};
use refusals::Refusal;

/// The part of a sequence that is derived second. What follows a letter of a sequence may come from its right part only
/// where the left part may be empty.
pub(crate) fn second_part(pool: &Pool, left: u16, right: u16) -> Option<u16>
    ensures { result ≡ second_part (pool_of pool.now).used left right }
{
    nullable_at(pool, left).then_some(right)
}

/// The derivatives of the parts of an or or an and, joined as the parts were.
pub(crate) fn rejoin(form: Form, first: u16, second: u16) -> Form
    ensures { result ≡ rejoined form first second }
{
    match form {
        Form::And(_, _) => Form::And(first, second),
        _ => Form::Or(first, second),
    }
}

/// What follows a letter of a star: the rest of the turn that it begins, and then the star again.
pub(crate) fn enter_turns(pool: &mut Pool, turn: u16, star: u16) -> Result<u16, Refusal>
    ensures whole { ◌≡◌ {A = Out} (result, pool_of pool.new) (entered (Form.Sequence turn star) (pool_of pool.old)) }
    ensures lent { pool.new.items.ghost_name ≡ pool.old.items.ghost_name }
{
    enter(pool, Form::Sequence(turn, star))
}
