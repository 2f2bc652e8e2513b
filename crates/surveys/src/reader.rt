//! What a text is read with.
use crate::atoms::Atoms;

/// A text with its atoms, and where the first bracket that would be one atom too many stands (the text's length if there
/// is none).
#[derive(Clone, Copy)]
pub struct Reader<'t> {
    pub text: &'t [u8],
    pub atoms: Atoms,
    pub horizon: usize,
}
