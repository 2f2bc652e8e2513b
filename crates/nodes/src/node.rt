//! The record that a pool holds for each node.
ghost use Rattle.std.specs.Prelude.{◌≡◌, Some};
ghost use Rattle.nodes.specs.Records.{kind_number, kind_word, KindNumbered, unknown_kind_text, node_text};
ghost use Rattle.nodes.specs.Sameness.{derived_eq, derived_exact};

use numbering::Same;
use std::error::Error;
use std::fmt;

/// What a node is. The number of each kind is the one that docs/NODES.md lists.
#[derive(Clone, Copy, PartialEq, Eq, Default, Debug)]
pub enum NodeKind {
    /// No list.
    #[default]
    None = 0,
    /// The empty list.
    Empty = 1,
    /// Any one letter.
    Any = 2,
    /// One letter that the atom admits; `left` is the atom's number.
    Atom = 3,
    Sequence = 4,
    Or = 5,
    And = 6,
    /// Only `left` is a part.
    Star = 7,
    /// Only `left` is a part.
    Not = 8,
}

impl NodeKind {
    /// The number under which docs/NODES.md lists the kind.
    pub fn number(self) -> u8
        ensures { result ≡ kind_number self }
    {
        self as u8
    }
}

/// The kind's word.
impl fmt::Display for NodeKind {
    ghost output = { λ kind. Some (kind_word kind) };

    fn fmt<W: fmt::Write>(&self, f: &mut fmt::Formatter<W>) -> fmt::Result {
        f.write_str(match self {
            NodeKind::None => "none",
            NodeKind::Empty => "empty",
            NodeKind::Any => "any",
            NodeKind::Atom => "atom",
            NodeKind::Sequence => "sequence",
            NodeKind::Or => "or",
            NodeKind::And => "and",
            NodeKind::Star => "star",
            NodeKind::Not => "not",
        })
    }
}

/// A number that no kind has.
#[derive(Clone, Copy, PartialEq, Eq, Debug)]
pub struct UnknownKind(pub u8);

impl TryFrom<u8> for NodeKind {
    type Error = UnknownKind;

    ghost try_from_gives = { KindNumbered };

    fn try_from(number: u8) -> Result<NodeKind, UnknownKind> {
        match number {
            0 => Ok(NodeKind::None),
            1 => Ok(NodeKind::Empty),
            2 => Ok(NodeKind::Any),
            3 => Ok(NodeKind::Atom),
            4 => Ok(NodeKind::Sequence),
            5 => Ok(NodeKind::Or),
            6 => Ok(NodeKind::And),
            7 => Ok(NodeKind::Star),
            8 => Ok(NodeKind::Not),
            _ => Err(UnknownKind(number)),
        }
    }
}

impl fmt::Display for UnknownKind {
    ghost output = { λ unknown. Some (unknown_kind_text unknown) };

    fn fmt<W: fmt::Write>(&self, f: &mut fmt::Formatter<W>) -> fmt::Result {
        write!(f, "no kind of node has the number {}", self.0)
    }
}

impl Error for UnknownKind {}

/// A node: its kind, the numbers of its parts (0 where the kind has none), and whether the empty list is in its
/// language. Eight bytes; who owns the pool owns it.
#[derive(Clone, Copy, PartialEq, Eq, Default, Debug)]
pub struct Node {
    pub kind: NodeKind,
    pub left: u16,
    pub right: u16,
    pub nullable: bool,
}

/// The numbers of the kind and of the parts, and 1 for the flag yes or 0 for no.
impl fmt::Display for Node {
    ghost output = { λ node. Some (node_text node) };

    fn fmt<W: fmt::Write>(&self, f: &mut fmt::Formatter<W>) -> fmt::Result {
        let kind = self.kind.number();
        let flag = u8::from(self.nullable);
        write!(f, "{kind} {} {} {flag}", self.left, self.right)
    }
}

impl Same for Node {
    ghost equal = { derived_eq };

    ghost exact = { derived_exact };

    /// What `==` says, kind and left part first: most nodes differ there, and the derived test looks at more at once.
    fn same(self, other: Node) -> bool {
        (self.kind, self.left) == (other.kind, other.left)
            && (self.right, self.nullable) == (other.right, other.nullable)
    }
}

/// Every sound pool begins with four nodes. The first: no list.
pub const NONE: u16 = 0;

/// The empty list.
pub const EMPTY: u16 = 1;

/// Any one letter.
pub const ANY: u16 = 2;

/// Every list.
pub const ALL: u16 = 3;

/// The nodes with which every sound pool begins, in the order of their numbers. The first is also read wherever no
/// node stands.
pub const FIRST_NODES: [Node; 4] = [
    Node {
        kind: NodeKind::None,
        left: 0,
        right: 0,
        nullable: false,
    },
    Node {
        kind: NodeKind::Empty,
        left: 0,
        right: 0,
        nullable: true,
    },
    Node {
        kind: NodeKind::Any,
        left: 0,
        right: 0,
        nullable: false,
    },
    Node {
        kind: NodeKind::Not,
        left: 0,
        right: 0,
        nullable: true,
    },
];
