//! Letters as a listing shows them.
ghost use Rattle.std.specs.Prelude.{◌≡◌, ℕ, List, IfOk, string_bytes};
ghost use Rattle.wafulexi.specs.ClassLines.{byte_text, event_text};

use alphabets::Letter;
use bench::Event;
use std::alloc::{AllocError, Global};

/// A letter that can be shown.
pub trait Sample: Letter {
    ghost text: { Self → List ℕ };

    fn show(self, heap: Global) -> Result<String, AllocError>
        ensures { IfOk result (λ s. string_bytes s ≡ text self) };
}

impl Sample for u8 {
    ghost text = { byte_text };

    #[tactic(auto, using(crate::proofs::Digits::two_digits))]
    fn show(self, heap: Global) -> Result<String, AllocError> {
        format!(in heap; "{self:02x}")
    }
}

impl Sample for Event {
    ghost text = { event_text };

    #[tactic(auto, using(crate::proofs::Digits::code_digit, crate::proofs::Digits::station_digit, crate::proofs::Digits::four_digits))]
    fn show(self, heap: Global) -> Result<String, AllocError> {
        self.seen();
        let code = self.code.number();
        let station = self.station.number();
        let pressure = self.pressure;
        format!(in heap; "{code:x} {station:x} {pressure:04x}")
    }
}
