//! The tokens of a rule text.

/// A token. A bracket holds the bytes between its `[` and its `]`; `End` is the end of the text.
#[derive(Clone, Copy, PartialEq, Eq, Debug)]
pub enum Token<'t> {
    Bar,
    Ampersand,
    Bang,
    Asterisk,
    Opening,
    Closing,
    Nought,
    One,
    Dot,
    Bracket(&'t [u8]),
    End,
}

/// A token with the place of its first byte and the place behind its last.
#[derive(Clone, Copy, PartialEq, Eq, Debug)]
pub struct Lexeme<'t> {
    pub token: Token<'t>,
    pub place: usize,
    pub after: usize,
}
