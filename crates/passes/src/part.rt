//! What is read of a text so far.
use grammar::Lexeme;

/// A part of a rule: its node, and the token behind it.
#[derive(Clone, Copy)]
pub(crate) struct Part<'t> {
    pub(crate) node: u16,
    pub(crate) next: Lexeme<'t>,
}
