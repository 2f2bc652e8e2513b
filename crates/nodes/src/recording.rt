//! The record of a form.
ghost use Rattle.std.specs.Prelude.{◌≡◌};
ghost use Rattle.nodes.specs.Entering.{Out, recorded, kept};
ghost use Rattle.nodes.specs.Pools.{pool_of};

use crate::form::Form;
use crate::node::{Node, NodeKind};
use crate::pool::{Pool, intern, nullable_at};
use refusals::Refusal;

/// The node with the record of a form: no rule is asked.
pub(crate) fn keep(pool: &mut Pool, form: Form) -> Result<u16, Refusal>
    ensures whole { ◌≡◌ {A = Out} (result, pool_of pool.new) (kept form (pool_of pool.old)) }
    ensures lent { pool.new.items.ghost_name ≡ pool.old.items.ghost_name }
{
    let node = record_of(pool, form);
    intern(pool, node)
}

fn record_of(pool: &Pool, form: Form) -> Node
    ensures { result ≡ recorded (pool_of pool.now).used form }
{
    let (kind, left, right) = match form {
        Form::None => (NodeKind::None, 0, 0),
        Form::Empty => (NodeKind::Empty, 0, 0),
        Form::Any => (NodeKind::Any, 0, 0),
        Form::Atom(atom) => (NodeKind::Atom, atom, 0),
        Form::Sequence(left, right) => (NodeKind::Sequence, left, right),
        Form::Or(left, right) => (NodeKind::Or, left, right),
        Form::And(left, right) => (NodeKind::And, left, right),
        Form::Star(part) => (NodeKind::Star, part, 0),
        Form::Not(part) => (NodeKind::Not, part, 0),
    };
    Node {
        kind,
        left,
        right,
        nullable: is_nullable(pool, form),
    }
}

/// Whether the empty list is in the language of a form.
fn is_nullable(pool: &Pool, form: Form) -> bool
    ensures { result ≡ (recorded (pool_of pool.now).used form).nullable }
{
    let nullable = |node: u16| nullable_at(pool, node);
    match form {
        Form::None | Form::Any | Form::Atom(_) => false,
        Form::Empty | Form::Star(_) => true,
        Form::Sequence(left, right) | Form::And(left, right) => nullable(left) && nullable(right),
        Form::Or(left, right) => nullable(left) || nullable(right),
        Form::Not(part) => !nullable(part),
    }
}
