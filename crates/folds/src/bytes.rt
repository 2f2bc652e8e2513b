//! The byte that a fold asks about.
ghost use Rattle.std.specs.Prelude.{◌≡◌};
ghost use Rattle.folds.specs.Folding.{folded};

/// The byte that is asked about in place of a byte: `a` to `z` for `A` to `Z`.
pub fn folded(byte: u8) -> u8
    ensures { result ≡ folded byte }
{
    match byte {
        b'A'..=b'Z' => byte + 32,
        _ => byte,
    }
}
