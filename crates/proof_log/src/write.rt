//! Writing a log to a sink.

ghost use Rattle.std.specs.Prelude.{◌≡◌, ℕ, ◌+◌, ◌≤◌, ◌++◌, [], ◌∷◌, length, All, string_bytes, IfOk, OnOk, OnErr};
ghost use Rattle.hb_io.specs.Faults.{Rose};
ghost use Rattle.hb_io.specs.Told.{Appends};
ghost use Rattle.proof_log.specs.declared.write.LogError.TheVariants.{WriteFault, Memory};
ghost use Rattle.proof_log.specs.Lines.{NamesStep};
ghost use Rattle.proof_log.specs.Marks.{AreInOrder, AreFit};
ghost use Rattle.proof_log.specs.Written.{text_of};
ghost use Rattle.proof_log.specs.Gained.{AppendsFront, IfFault, GainsLog, GainsFront, steps_lines, marked_lines};

use crate::lines::{last_line, mark_line, step_line};
use crate::marks::{End, Mark};
use hb_io::{Failed, Sink, write_all};
use hol_kernel::{Kernel, Step};
use hol_terms::defs::Def;
use std::alloc::{AllocError, Global};
use thiserror::Error;

/// Why a log was not written to its end.
#[derive(Debug, Drop, Error)]
pub enum LogError {
    /// The sink failed.
    #[error("the sink failed")]
    WriteFault,
    /// Memory ran out.
    #[error("out of memory")]
    Memory,
}

impl From<AllocError> for LogError {
    ghost from_gives = { λ _ e. e ≡ Memory };

    fn from(_e: AllocError) -> LogError {
        LogError::Memory
    }
}

impl From<Failed> for LogError {
    ghost from_gives = { λ _ e. e ≡ WriteFault };

    fn from(_e: Failed) -> LogError {
        LogError::WriteFault
    }
}

/// Writes the log of the kernel's steps, with the marks, each before the step of its place, and the end. The marks and the end are to
/// be fit for the kernel, with `in_force` base definitions in force.
///
/// `WriteFault`: the sink failed, and counted it. `Memory`: for want of memory. After either a front of the log was written.
pub fn write_log<O: Sink>(
    alloc: Global,
    k: &Kernel,
    marks: &[Mark],
    end: &End,
    out: &mut O,
) -> Result<(), LogError>
    ghost in_force: { ℕ }
    requires { AreFit in_force k.now marks.now end.now }
    ensures ok { OnOk result (GainsLog in_force k.now marks.now end.now (O.kept out.old) (O.kept out.new)) }
    ensures err { OnErr result (GainsFront k.now marks.now end.now (O.kept out.old) (O.kept out.new)) }
    ensures fault { IfFault result (Rose (O.faults out.old) (O.faults out.new)) }
{
    let (defs, steps) = k.defs_and_steps();
    write_line(String::from_str(alloc, "hbnf-log 1")?, out)?;
    let count = write_marked(alloc, k, defs, steps, marks, out)?;
    write_line(last_line(alloc, count + 1, end)?, out)
}

/// Writes the line, and a newline.
fn write_line<O: Sink>(mut line: String, out: &mut O) -> Result<(), LogError>
    ensures ok { OnOk result (Appends (O.kept out.old) (O.kept out.new) (string_bytes line ++ 10 ∷ [])) }
    ensures err { OnErr result (AppendsFront (O.kept out.old) (O.kept out.new) (string_bytes line ++ 10 ∷ [])) }
    ensures fault { IfFault result (Rose (O.faults out.old) (O.faults out.new)) }
    ensures counted { O.faults out.old ≤ O.faults out.new }
{
    line.push_str("\n")?;
    write_all(out, line.as_bytes())?;
    Ok(())
}

/// Writes the steps, and gives the number of their lines.
#[tactic(auto, using(crate::proofs::Writing::place_lemmas))]
fn write_steps<O: Sink>(
    alloc: Global,
    defs: &[Def],
    steps: &[Step],
    out: &mut O,
) -> Result<usize, LogError>
    ensures ok { IfOk result (λ count. Appends (O.kept out.old) (O.kept out.new) (text_of (steps_lines defs.now steps.now))) }
    ensures count { IfOk result (λ count. count ≡ length (steps_lines defs.now steps.now)) }
    ensures within { IfOk result (λ count. count ≤ length steps.now) }
    ensures err { OnErr result (AppendsFront (O.kept out.old) (O.kept out.new) (text_of (steps_lines defs.now steps.now))) }
    ensures fault { IfFault result (Rose (O.faults out.old) (O.faults out.new)) }
    ensures counted { O.faults out.old ≤ O.faults out.new }
{
    let mut count = 0;
    for step in steps {
        if let Some(line) = step_line(alloc, defs, step)? {
            write_line(line, out)?;
            count += 1;
        }
    }
    Ok(count)
}

/// Writes the steps and the marks, and gives the number of their lines.
#[tactic(auto, using(crate::proofs::Writing::place_lemmas))]
fn write_marked<O: Sink>(
    alloc: Global,
    k: &Kernel,
    defs: &[Def],
    steps: &[Step],
    marks: &[Mark],
    out: &mut O,
) -> Result<usize, LogError>
    requires ordered { AreInOrder 0 marks.now }
    requires placed { All (λ m. m.at ≤ length steps.now) marks.now }
    requires named { All (λ m. NamesStep k.now m.kind) marks.now }
    ensures ok { IfOk result (λ count. Appends (O.kept out.old) (O.kept out.new) (text_of (marked_lines k.now defs.now steps.now 0 marks.now))) }
    ensures count { IfOk result (λ count. count ≡ length (marked_lines k.now defs.now steps.now 0 marks.now)) }
    ensures within { IfOk result (λ count. count ≤ length steps.now + length marks.now) }
    ensures err { OnErr result (AppendsFront (O.kept out.old) (O.kept out.new) (text_of (marked_lines k.now defs.now steps.now 0 marks.now))) }
    ensures fault { IfFault result (Rose (O.faults out.old) (O.faults out.new)) }
    ensures counted { O.faults out.old ≤ O.faults out.new }
{
    let mut count = 0;
    let mut done = 0;
    for mark in marks {
        count += write_steps(alloc, defs, &steps[done..mark.at], out)?;
        write_line(mark_line(alloc, k, &mark.kind)?, out)?;
        count += 1;
        done = mark.at;
    }
    count += write_steps(alloc, defs, &steps[done..], out)?;
    Ok(count)
}
