//! What bytes are read from.
ghost use Rattle.std.specs.Prelude.{◌≡◌, ℕ, ◌<◌, ◌≤◌, List, Option, length, take, IfOk, OnErr};
ghost use Rattle.std.specs.Io.KnownBytes.{IsAtEnd};
ghost use Rattle.hb_io.specs.Faults.{Rose};
ghost use Rattle.hb_io.specs.Told.{Takes};

use crate::Failed;

/// An object that bytes are read from.
pub trait Source {
    // The bytes that are left, where the source tells them.
    ghost left: { Self → Option (List ℕ) };

    // How often it failed, as it counts.
    ghost faults: { Self → ℕ };

    /// Reads up to `buf.len()` bytes into the front of `buf`, and gives their number, which is 0 only
    /// at the end. `Failed`: the object failed, and counted it; no byte is lost.
    fn read(&mut self, buf: &mut [u8]) -> Result<usize, Failed>
        requires { 0 < length buf.old }

        ensures within { IfOk result (λ n. n ≤ length buf.new) }
        ensures taken { IfOk result (λ n. Takes (left self.old) (left self.new) (take n buf.new)) }
        ensures end { IfOk result (λ n. n ≡ 0 → IsAtEnd (left self.old)) }

        ensures err { OnErr result (left self.new ≡ left self.old) }
        ensures failed { OnErr result (Rose (faults self.old) (faults self.new)) }
        ensures counted { faults self.old ≤ faults self.new };
}
