//! What bytes are written to.
ghost use Rattle.std.specs.Prelude.{◌≡◌, ℕ, ◌<◌, ◌≤◌, List, Option, length, take, IfOk, OnOk, OnErr};
ghost use Rattle.hb_io.specs.Faults.{Rose};
ghost use Rattle.hb_io.specs.Told.{Appends, AppendsPart};

use crate::Failed;

/// An object that bytes are written to.
pub trait Sink {
    // The bytes that are kept, where the sink tells them.
    ghost kept: { Self → Option (List ℕ) };

    // How often it failed, as it counts.
    ghost faults: { Self → ℕ };

    /// Writes one or more bytes from the front of `bytes`, and gives their number. `Failed`: the object
    /// failed, and counted it; no byte is kept.
    fn write(&mut self, bytes: &[u8]) -> Result<usize, Failed>
        requires { 0 < length bytes.now }

        ensures some { IfOk result (λ n. 0 < n) }
        ensures within { IfOk result (λ n. n ≤ length bytes.now) }
        ensures appended { IfOk result (λ n.
            Appends (kept self.old) (kept self.new) (take n bytes.now)) }

        ensures err { OnErr result (kept self.new ≡ kept self.old) }
        ensures failed { OnErr result (Rose (faults self.old) (faults self.new)) }
        ensures counted { faults self.old ≤ faults self.new };
}

/// Writes all the bytes, which may be none. `Failed`: a write failed, and a part of the bytes, from
/// their front and not all, was written before.
#[tactic(auto, using(crate::proofs::ToldLemmas::told))]
pub fn write_all<O: Sink>(out: &mut O, bytes: &[u8]) -> Result<(), Failed>
    ensures ok { OnOk result (Appends (O.kept out.old) (O.kept out.new) bytes.now) }

    ensures err { OnErr result (AppendsPart (O.kept out.old) (O.kept out.new) bytes.now) }
    ensures failed { OnErr result (Rose (O.faults out.old) (O.faults out.new)) }
    ensures counted { O.faults out.old ≤ O.faults out.new }
{
    let mut written = 0;
    while written < bytes.len() {
        written += out.write(&bytes[written..])?;
    }
    Ok(())
}
