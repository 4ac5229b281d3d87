//! Reading a source up to a bound.

ghost use Rattle.std.specs.Prelude.{◌≡◌, ◌<◌, ◌≤◌, length, IfOk};
ghost use Rattle.std.specs.Io.KnownBytes.{IsAtEnd};
ghost use Rattle.hb_io.specs.Faults.{Rose};
ghost use Rattle.hb_io.specs.Told.{Takes};
ghost use Rattle.hb_top.specs.Outcome.{IfFault};

use hb_io::Source;
use std::alloc::Global;
use thiserror::Error;

/// Why an input wasn't read.
#[derive(Debug, Drop, Error)]
pub(crate) enum InputError {
    #[error("the source failed")]
    Fault,
    #[error("out of memory")]
    Memory,
}

/// The bytes of the source up to its end, or `most` where it has as many. `Fault` comes only where the source's count of faults rose,
/// `Memory` for want of memory.
#[tactic(auto, using(hb_io::proofs::ToldLemmas::told))]
pub(crate) fn read_input<S: Source>(
    alloc: Global,
    src: &mut S,
    most: usize,
) -> Result<Vec<u8>, InputError>
    ensures taken { IfOk result (λ v. Takes (S.left src.old) (S.left src.new) v.items) }
    ensures within { IfOk result (λ v. length v.items ≤ most) }
    ensures whole { IfOk result (λ v. length v.items < most → IsAtEnd (S.left src.new)) }
    ensures fault { IfFault result (Rose (S.faults src.old) (S.faults src.new)) }
    ensures counted { S.faults src.old ≤ S.faults src.new }
{
    let mut input = Vec::new(alloc);
    let mut buf = [0u8; 4096];
    while input.len() < most {
        let room = buf.len().min(most - input.len());
        let Ok(n) = src.read(&mut buf[..room]) else {
            return Err(InputError::Fault);
        };
        if n == 0 {
            break;
        }
        if input.extend_from_slice(&buf[..n]).is_err() {
            return Err(InputError::Memory);
        }
    }
    Ok(input)
}
