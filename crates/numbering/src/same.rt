//! Things that can be told apart.
ghost use Rattle.std.specs.Prelude.{◌≡◌, Bool, Decides, nat_eq};
ghost use Rattle.std.specs.Cmp.{unsigned_Decides};

/// What can be numbered: its test of sameness says yes exactly for one and the same thing.
pub trait Same: Copy {
    ghost equal: { Self → Self → Bool };

    fn same(self, other: Self) -> bool
        ensures { result ≡ equal self other };

    ghost exact: { (x y : Self) → Decides (equal x y) (x ≡ y) };
}

impl Same for u16 {
    ghost equal = { nat_eq };

    ghost exact = { unsigned_Decides };

    fn same(self, other: u16) -> bool {
        self == other
    }
}

impl Same for u32 {
    ghost equal = { nat_eq };

    ghost exact = { unsigned_Decides };

    fn same(self, other: u32) -> bool {
        self == other
    }
}
