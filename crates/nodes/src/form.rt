//! What is entered into a pool, and what a record is read as.
ghost use Rattle.std.specs.Prelude.{◌≡◌};
ghost use Rattle.nodes.specs.Reading.{part, form_by};

use crate::node::{NONE, Node, NodeKind};

/// A kind with its parts, each the number of a node, or with the number of its atom.
#[derive(Clone, Copy)]
pub enum Form {
    None,
    Empty,
    Any,
    Atom(u16),
    Sequence(u16, u16),
    Or(u16, u16),
    And(u16, u16),
    Star(u16),
    Not(u16),
}

impl Node {
    /// What the record of the node with a number is read as.
    pub(crate) fn form(self, number: u16) -> Form
        ensures { result ≡ form_by self.kind number self.left self.right }
    {
        let left = part_of(number, self.left);
        let right = part_of(number, self.right);
        match self.kind {
            NodeKind::None => Form::None,
            NodeKind::Empty => Form::Empty,
            NodeKind::Any => Form::Any,
            NodeKind::Atom => Form::Atom(self.left),
            NodeKind::Sequence => Form::Sequence(left, right),
            NodeKind::Or => Form::Or(left, right),
            NodeKind::And => Form::And(left, right),
            NodeKind::Star => Form::Star(left),
            NodeKind::Not => Form::Not(left),
        }
    }
}

/// A part of a node: a number that is not smaller than the node's reads as node 0, so that every way down ends.
fn part_of(number: u16, field: u16) -> u16
    ensures { result ≡ part number field }
{
    if field < number { field } else { NONE }
}
