//! The letters of recordings.
ghost use Rattle.std.specs.Prelude.{ℕ, ◌<◌};

/// One item of a recording.
pub trait Letter: Copy {
    /// Holds of the letters that can exist: a number in a proof need not fit into its bits.
    ghost proper: { Self → Type 0 };

    /// A letter that a program has can exist. It does nothing: it is there for its contract.
    fn seen(self)
        ensures { proper self };
}

impl Letter for u8 {
    ghost proper = { λ b. b < 256 };

    fn seen(self) {}
}
