//! The lines of a log, one after the other.

ghost use Rattle.std.specs.Prelude.{◌≡◌, ℕ, suc, ◌<◌, ◌≤◌, ◌^◌, ◌++◌, [], ◌∷◌, List, Option, None, length, take, drop, string_bytes, IfOk, OnOk, OnErr};
ghost use Rattle.hb_io.specs.Faults.{Rose};
ghost use Rattle.hb_io.specs.Told.{Appends};
ghost use Rattle.hol_terms.specs.Sound.{complete_lines};
ghost use Rattle.hol_terms.specs.Text.{Text};
ghost use Rattle.hol_logs.specs.Position.{start_position};
ghost use Rattle.hol_logs.specs.Log.{unended};
ghost use Rattle.log_replay.specs.declared.replay.ReplayError.TheVariants.{WriteFault, Memory};
ghost use Rattle.log_replay.specs.Replayed.{GainsReport, GainsFaultReport, GainsPart, IfBadLog, IfCut, IfFault};
ghost use Rattle.log_replay.specs.Lines.{AppendsFront, IsAfter, IsFedLine, IsStopped, IsClosed};

use hb_io::{Failed, Sink, write_all};
use replay_check::checker::{Checker, FeedError, FinishError};
use replay_check::why::Why;
use std::alloc::{AllocError, Global};
use thiserror::Error;

/// The most bytes of a log, 2^62.
pub const MOST_BYTES: usize = 4_611_686_018_427_387_904;

/// Why a log wasn't replayed to its end.
#[derive(Debug, Drop, Error)]
pub enum ReplayError {
    /// The log isn't good: the number of its first bad line, counted from 1, and the first cause.
    #[error("line {number} of the log is bad")]
    BadLog { number: u64, why: Why },
    /// The sink failed.
    #[error("the sink failed")]
    WriteFault,
    /// Memory ran out.
    #[error("out of memory")]
    Memory,
}

impl From<AllocError> for ReplayError {
    ghost from_gives = { λ _ e. e ≡ Memory };

    fn from(_e: AllocError) -> ReplayError {
        ReplayError::Memory
    }
}

impl From<Failed> for ReplayError {
    ghost from_gives = { λ _ e. e ≡ WriteFault };

    fn from(_e: Failed) -> ReplayError {
        ReplayError::WriteFault
    }
}

/// Checks a log and writes its report, line by line. Of a log of 2^62 bytes and more its first 2^62 are given, of a shorter one all.
///
/// `BadLog`: the log isn't good; the report of the lines before the first bad one was written. The bytes behind the last newline are
/// a line of their own, and the log is then cut. Where 2^62 bytes are given, they aren't looked at, and without a bad line the cause
/// is that the log is endless. `WriteFault`: the sink failed, and counted it. `Memory`: for want of memory. After either a part of
/// the report was written.
pub fn replay<O: Sink>(alloc: Global, log: &[u8], out: &mut O) -> Result<(), ReplayError>
    requires { length log.now ≤ 2 ^ 62 }
    ensures good { (b : Text) → log.now ≡ take (2 ^ 62) b → OnOk result (GainsReport b (O.kept out.old) (O.kept out.new)) }
    ensures whole { OnOk result (length log.now < 2 ^ 62) }
    ensures bad { (b : Text) → log.now ≡ take (2 ^ 62) b → IfBadLog result (GainsFaultReport b (O.kept out.old) (O.kept out.new)) }
    ensures part { (b : Text) → log.now ≡ take (2 ^ 62) b → IfCut result (GainsPart b (O.kept out.old) (O.kept out.new)) }
    ensures fault { IfFault result (Rose (O.faults out.old) (O.faults out.new)) }
{
    let mut checker = Checker::new(alloc)?;
    let start = feed_lines(&mut checker, alloc, log, out)?;
    if log.len() == MOST_BYTES {
        let number = next_number(checker);
        return Err(ReplayError::BadLog {
            number,
            why: Why::Endless,
        });
    }
    close(checker, alloc, &log[start..], out)
}

/// Feeds the lines that a newline ends, and gives the place behind the last newline.
fn feed_lines<O: Sink>(
    checker: &mut Checker,
    alloc: Global,
    log: &[u8],
    out: &mut O,
) -> Result<usize, ReplayError>
    requires start { checker.old ≡ record { position = start_position; failure = None } }
    requires short { length log.now ≤ 2 ^ 62 }
    ensures fed { OnOk result (IsAfter (complete_lines log.now) checker.new (O.kept out.old) (O.kept out.new)) }
    ensures within { IfOk result (λ start. start ≤ length log.now) }
    ensures rest { IfOk result (λ start. drop start log.now ≡ unended log.now) }
    ensures stopped { (more : Text) → IsStopped log.now more (O.kept out.old) (O.kept out.new) result }
    ensures fault { IfFault result (Rose (O.faults out.old) (O.faults out.new)) }
    ensures counted { O.faults out.old ≤ O.faults out.new }
{
    let mut start = 0;
    for at in 0..log.len() {
        if log[at] == b'\n' {
            feed_line(checker, alloc, &log[start..at], out)?;
            start = at + 1;
        }
    }
    Ok(start)
}

/// Feeds a line, and writes what it prints.
fn feed_line<O: Sink>(
    checker: &mut Checker,
    alloc: Global,
    line: &[u8],
    out: &mut O,
) -> Result<(), ReplayError>
    requires sound { checker.old.failure ≡ None }
    requires few { checker.old.position.lines < 2 ^ 62 }
    ensures fed { (texts : List Text) → (kept : Option Text) → IsAfter texts checker.old kept (O.kept out.old) → IsFedLine texts line.now checker.new kept (O.kept out.new) result }
    ensures sound { OnOk result (checker.new.failure ≡ None) }
    ensures counts { OnOk result (checker.new.position.lines ≡ suc checker.old.position.lines) }
    ensures fault { IfFault result (Rose (O.faults out.old) (O.faults out.new)) }
    ensures counted { O.faults out.old ≤ O.faults out.new }
{
    match checker.feed(alloc, line) {
        Ok(Some(report)) => write_line(report, out),
        Ok(None) => Ok(()),
        Err(FeedError::BadLine { number, why }) => Err(ReplayError::BadLog { number, why }),
        Err(FeedError::Memory) => Err(ReplayError::Memory),
    }
}

/// Writes the line, and a newline.
fn write_line<O: Sink>(mut line: String, out: &mut O) -> Result<(), ReplayError>
    ensures ok { OnOk result (Appends (O.kept out.old) (O.kept out.new) (string_bytes line ++ 10 ∷ [])) }
    ensures cut { IfCut result (AppendsFront (O.kept out.old) (O.kept out.new) (string_bytes line ++ 10 ∷ [])) }
    ensures not_bad { IfBadLog result (λ number why. ⊥) }
    ensures fault { IfFault result (Rose (O.faults out.old) (O.faults out.new)) }
    ensures counted { O.faults out.old ≤ O.faults out.new }
{
    if line.push_str("\n").is_err() {
        return Err(ReplayError::Memory);
    }
    match write_all(out, line.as_bytes()) {
        Ok(()) => Ok(()),
        Err(_) => Err(ReplayError::WriteFault),
    }
}

/// Takes the bytes behind the last newline, and ends a log of fewer than 2^62 bytes.
fn close<O: Sink>(
    mut checker: Checker,
    alloc: Global,
    rest: &[u8],
    out: &mut O,
) -> Result<(), ReplayError>
    requires sound { checker.failure ≡ None }
    requires few { checker.position.lines < 2 ^ 62 }
    ensures closed { (log : Text) → (kept : Option Text) → rest.now ≡ unended log → IsAfter (complete_lines log) checker kept (O.kept out.old) → IsClosed log kept (O.kept out.new) result }
    ensures fault { IfFault result (Rose (O.faults out.old) (O.faults out.new)) }
{
    if rest.is_empty() {
        return match checker.finish() {
            Ok(_) => Ok(()),
            Err(FinishError::Cut { number }) => Err(ReplayError::BadLog {
                number,
                why: Why::Cut,
            }),
        };
    }
    feed_line(&mut checker, alloc, rest, out)?;
    let number = next_number(checker);
    Err(ReplayError::BadLog {
        number,
        why: Why::Cut,
    })
}

/// The number of the line that would be next.
fn next_number(checker: Checker) -> u64
    requires sound { checker.failure ≡ None }
    requires few { checker.position.lines ≤ 2 ^ 62 }
    ensures { result ≡ suc checker.position.lines }
{
    match checker.finish() {
        Ok(lines) => lines + 1,
        Err(FinishError::Cut { number }) => number,
    }
}
