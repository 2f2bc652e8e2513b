//! The question whether the nodes of a pool are sound.
ghost use Rattle.std.specs.Prelude.{◌≡◌, not, ◌&&◌, ◌||◌, ◌==◌, nat_lt};
ghost use Rattle.nodes.specs.Records.{same_flag};
ghost use Rattle.nodes.specs.Soundness.{flag_at, sound_by, sound_as, proper, asked, first_unsound, Told};

use crate::node::{FIRST_NODES, Node, NodeKind};
use languages::rules::MOST_ATOMS;

/// The first node that is not sound; of the nodes 0 to 3 also one that is missing.
pub fn first_unsound(nodes: &[Node]) -> Option<usize>
    ensures whole { result ≡ first_unsound nodes.now }
    ensures means { Told nodes.now result }
{
    find_unsound(nodes)
}

fn find_unsound(nodes: &[Node]) -> Option<usize>
    ensures { result ≡ first_unsound nodes.now }
{
    let asked = nodes.len().max(FIRST_NODES.len());
    (0..asked).find(|number| !is_proper(nodes, *number))
}

fn is_proper(nodes: &[Node], number: usize) -> bool
    ensures { result ≡ proper nodes.now number }
{
    nodes
        .get(number)
        .is_some_and(|node| node.is_sound(number, nodes))
}

impl Node {
    fn is_sound(self, number: usize, nodes: &[Node]) -> bool
        ensures { result ≡ sound_as nodes.now number self }
    {
        match FIRST_NODES.get(number) {
            Some(first) => self == *first,
            None => self.is_sound_later(number, nodes),
        }
    }

    /// A later node is sound if its parts stand before it and its flag is the one that theirs give.
    fn is_sound_later(self, number: usize, nodes: &[Node]) -> bool
        ensures { result ≡ sound_by nodes.now number self.kind self.left self.right self.nullable }
    {
        let left = flag_at(nodes, self.left);
        let right = flag_at(nodes, self.right);
        match self.kind {
            NodeKind::None | NodeKind::Empty | NodeKind::Any => false,
            NodeKind::Atom => self.is_sound_atom(),
            NodeKind::Sequence | NodeKind::And => self.is_sound_pair(number, left && right),
            NodeKind::Or => self.is_sound_pair(number, left || right),
            NodeKind::Star => self.is_sound_single(number, true),
            NodeKind::Not => self.is_sound_single(number, !left),
        }
    }

    fn is_sound_atom(self) -> bool
        ensures { result ≡ (nat_lt self.left 32 && (self.right == 0 && not self.nullable)) }
    {
        usize::from(self.left) < MOST_ATOMS && self.right == 0 && !self.nullable
    }

    fn is_sound_pair(self, number: usize, flag: bool) -> bool
        ensures { result ≡ (nat_lt self.left number && (nat_lt self.right number && same_flag self.nullable flag)) }
    {
        usize::from(self.left) < number && usize::from(self.right) < number && self.nullable == flag
    }

    fn is_sound_single(self, number: usize, flag: bool) -> bool
        ensures { result ≡ (nat_lt self.left number && (self.right == 0 && same_flag self.nullable flag)) }
    {
        usize::from(self.left) < number && self.right == 0 && self.nullable == flag
    }
}

/// The flag of a record; that of one that is not there is not set.
fn flag_at(nodes: &[Node], node: u16) -> bool
    ensures { result ≡ flag_at nodes.now node }
{
    nodes
        .get(usize::from(node))
        .is_some_and(|node| node.nullable)
}
