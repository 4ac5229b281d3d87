ghost use Rattle.std.specs.Prelude.{◌≡◌, ◌≢◌, ℕ, ◌<◌, ◌≤◌, ◌^◌, Some, None, map, length, take, string_bytes, IfOk};
ghost use Rattle.std.specs.Io.KnownBytes.{IsAtEnd};
ghost use Rattle.hb_io.specs.Faults.{Rose};
ghost use Rattle.hb_io.specs.Told.{Appends, AppendsPart};
ghost use Rattle.hb_top.specs.declared.top.Status.TheVariants as status;
ghost use Rattle.hb_top.specs.Headline.{code_of, message_of, IfAnswered, Answers, LogsAnswers, Leaves, IfCut, AnswersInPart, LogsInPart, GainsSound, GainsGoodPart, Says, IsUsage, IsCompletion, IsPrinting, IsWriting, IsUnwritten};
ghost use Rattle.hb_top.specs.Replaying.{Reports, ReportsFault, ReportsInPart, IsGood, IsFaulty, IfReplayed, LeavesLog};
ghost use Rattle.hb_top.specs.Endings.{status_of, said_of, TellsFault, NamesFault, TellsReport, IfBadLog, IsTheoryStatus, IsLogStatus, IsReplaying};
ghost use Rattle.log_replay.specs.Replayed.{GainsReport, GainsPart};
ghost use Rattle.hol_terms.specs.Text.{Text};
ghost use Rattle.log_replay.specs.Messages.{bad_log_text};
ghost use Rattle.replay_check.specs.declared.why.Why.{Why};
ghost use Rattle.program_words.specs.Words.{mode_of};
ghost use Rattle.program_words.specs.declared.Mode.TheVariants as mode;
ghost use Rattle.proof_log.specs.Marks.{AreFit};
ghost use Rattle.base_count.specs.InForce.{in_force};
ghost use Rattle.theory_answers.specs.Answered.{IsCheck, IsDecided};
ghost use Rattle.theory_answers.specs.Theories.{is_stop, IsTheory, GainsLogOf, GainsPartOf};

use crate::base::base_kernel;
use crate::input::{InputError, read_input};
use hb_io::{Sink, Source, write_all};
use log_replay::message::bad_log_message;
use log_replay::replay::{MOST_BYTES, ReplayError, replay};
use program_words::{Mode, mode_of};
use proof_log::LogError;
use std::alloc::{AllocError, Global};
use theory_answers::output::{Output, limit_output, output_of};
use theory_answers::theory::{Theory, theory_of};
use theory_answers::verdict::LIMIT;

/// How a call ended: the command was done; it was refused; the words aren't those of a mode; the source failed; the sink
/// failed; memory was wanting; the log isn't good.
#[derive(Clone, Copy, Debug, PartialEq, Eq, Drop)]
pub enum Status {
    Done,
    Refused,
    Usage,
    ReadFault,
    WriteFault,
    Memory,
    BadLog,
}

impl Status {
    /// The exit code: 0 to 5 in the order of the statuses, and 7 for `BadLog`.
    pub fn code(&self) -> u8
        ensures { result ≡ code_of self.now }
    {
        match self {
            Status::Done => 0,
            Status::Refused => 1,
            Status::Usage => 2,
            Status::ReadFault => 3,
            Status::WriteFault => 4,
            Status::Memory => 5,
            Status::BadLog => 7,
        }
    }

    fn message(&self) -> &'static str
        ensures { result.now ≡ message_of self.now }
    {
        match self {
            Status::Done => "",
            Status::Refused => "",
            Status::Usage => "usage: hbnf check|log|replay\n",
            Status::ReadFault => "read fault\n",
            Status::WriteFault => "write fault\n",
            Status::Memory => "out of memory\n",
            Status::BadLog => "",
        }
    }
}

/// How a run ended: with a status, or at a log that isn't good, with what is said of it.
enum Ending {
    Plain(Status),
    BadLog(String),
}

/// The program. `check` and `log` read a theory text from `src`. With `check` the base line, the section of the command with its
/// definition and theorem lines, or the refusal, is written to `out`; with `log` the proof log of that, once the command is done.
/// `replay` reads a proof log, to its end or up to 2^62 bytes, and writes the report of its lines up to the first bad one. A status
/// that is a fault says so on `err`, and a log that isn't good says where and why; `err`'s own faults change no status.
///
/// The status is Usage only where the words aren't those of a mode; ReadFault only where the faults of `src` rose in this call,
/// WriteFault only where those of `out` did; Memory for want of memory. Otherwise a theory is Done or Refused, as the text's answer has
/// no refusal or has one, and a log is Done or BadLog, as it is good or isn't.
pub fn hbnf<S: Source, O: Sink, E: Sink>(
    alloc: Global,
    words: &[String],
    src: &mut S,
    out: &mut O,
    err: &mut E,
) -> Status
    // What is printed after Done and Refused answers the input, is sound, and stands where it belongs; a log is good, and that is
    // what it reports. After Done in `replay` the log was good, and its report is printed; after BadLog it wasn't, and what it reports
    // before its first bad line is. That a log was good, or which is its first bad line, holds whatever `out` tells.
    ensures check { mode_of (map string_bytes words.now) ≡ Some mode.Check → IfAnswered result (Answers (S.left src.old) (O.kept out.old) (O.kept out.new)) }
    ensures log { mode_of (map string_bytes words.now) ≡ Some mode.Log → IfAnswered result (LogsAnswers (S.left src.old) (O.kept out.old) (O.kept out.new)) }
    ensures replay { mode_of (map string_bytes words.now) ≡ Some mode.Replay → result ≡ status.Done → Reports (S.left src.old) (O.kept out.old) (O.kept out.new) }
    ensures bad_log { mode_of (map string_bytes words.now) ≡ Some mode.Replay → result ≡ status.BadLog → (number : ℕ) × (why : Why) × ReportsFault (S.left src.old) (O.kept out.old) (O.kept out.new) number why × Says (Rose (E.faults err.old) (E.faults err.new)) (E.kept err.old) (E.kept err.new) (bad_log_text number why) }
    ensures replay_good { mode_of (map string_bytes words.now) ≡ Some mode.Replay → result ≡ status.Done → IsGood (S.left src.old) }
    ensures replay_faulty { mode_of (map string_bytes words.now) ≡ Some mode.Replay → result ≡ status.BadLog → (number : ℕ) × (why : Why) × IsFaulty (S.left src.old) number why × Says (Rose (E.faults err.old) (E.faults err.new)) (E.kept err.old) (E.kept err.new) (bad_log_text number why) }
    ensures decided { mode_of (map string_bytes words.now) ≢ Some mode.Replay → IfAnswered result (λ refused. (b : Text) → S.left src.old ≡ Some b → IsDecided b refused) }
    ensures left { mode_of (map string_bytes words.now) ≢ Some mode.Replay → IfAnswered result (λ refused. Leaves (S.left src.old) (S.left src.new)) }
    ensures replay_left { mode_of (map string_bytes words.now) ≡ Some mode.Replay → IfReplayed result (LeavesLog (S.left src.old) (S.left src.new)) }
    ensures replay_end { mode_of (map string_bytes words.now) ≡ Some mode.Replay → result ≡ status.Done → IsAtEnd (S.left src.new) }
    // Each fault has its cause.
    ensures usage { result ≡ status.Usage → mode_of (map string_bytes words.now) ≡ None }
    ensures words { mode_of (map string_bytes words.now) ≡ None → IsUsage result }
    ensures read_fault { result ≡ status.ReadFault → Rose (S.faults src.old) (S.faults src.new) }
    ensures write_fault { result ≡ status.WriteFault → Rose (O.faults out.old) (O.faults out.new) }
    ensures completes { mode_of (map string_bytes words.now) ≢ None → (Rose (S.faults src.old) (S.faults src.new) → ⊥) → (Rose (O.faults out.old) (O.faults out.new) → ⊥) → IsCompletion result }
    ensures refused { result ≡ status.Refused → mode_of (map string_bytes words.now) ≢ Some mode.Replay }
    ensures bad { result ≡ status.BadLog → mode_of (map string_bytes words.now) ≡ Some mode.Replay }
    // What stands after a fault and after want of memory, and what is said.
    ensures cut { mode_of (map string_bytes words.now) ≡ Some mode.Check → IfCut result (AnswersInPart (S.left src.old) (O.kept out.old) (O.kept out.new)) }
    ensures log_cut { mode_of (map string_bytes words.now) ≡ Some mode.Log → LogsInPart (S.left src.old) (O.kept out.old) (O.kept out.new) }
    ensures log_sound { mode_of (map string_bytes words.now) ≡ Some mode.Log → GainsGoodPart (O.kept out.old) (O.kept out.new) }
    ensures replay_cut { mode_of (map string_bytes words.now) ≡ Some mode.Replay → IfCut result (ReportsInPart (S.left src.old) (O.kept out.old) (O.kept out.new)) }
    ensures sound { mode_of (map string_bytes words.now) ≢ Some mode.Log → GainsSound (O.kept out.old) (O.kept out.new) }
    ensures unwritten { IsUnwritten result (O.kept out.old) (O.kept out.new) }
    ensures memory_unwritten { mode_of (map string_bytes words.now) ≢ Some mode.Log → mode_of (map string_bytes words.now) ≢ Some mode.Replay → result ≡ status.Memory → O.kept out.new ≡ O.kept out.old }
    ensures untouched { result ≡ status.Usage → src.new ≡ src.old }
    ensures says { result ≢ status.BadLog → Says (Rose (E.faults err.old) (E.faults err.new)) (E.kept err.old) (E.kept err.new) (message_of result) }
{
    match run(alloc, words, src, out) {
        Ending::Plain(status) => {
            say(err, status.message());
            status
        }
        Ending::BadLog(message) => {
            say(err, message.as_str());
            Status::BadLog
        }
    }
}

/// Writes the message, as far as the sink takes it.
fn say<E: Sink>(err: &mut E, message: &str)
    ensures { Says (Rose (E.faults err.old) (E.faults err.new)) (E.kept err.old) (E.kept err.new) message.now }
{
    match write_all(err, message.as_bytes()) {
        Ok(()) => (),
        Err(_) => (),
    }
}

#[tactic(auto, using(crate::proofs::Running::unwritten_lemmas))]
fn run<S: Source, O: Sink>(alloc: Global, words: &[String], src: &mut S, out: &mut O) -> Ending
    ensures check { mode_of (map string_bytes words.now) ≡ Some mode.Check → IfAnswered (status_of result) (Answers (S.left src.old) (O.kept out.old) (O.kept out.new)) }
    ensures log { mode_of (map string_bytes words.now) ≡ Some mode.Log → IfAnswered (status_of result) (LogsAnswers (S.left src.old) (O.kept out.old) (O.kept out.new)) }
    ensures replay { mode_of (map string_bytes words.now) ≡ Some mode.Replay → status_of result ≡ status.Done → Reports (S.left src.old) (O.kept out.old) (O.kept out.new) }
    ensures bad_log { mode_of (map string_bytes words.now) ≡ Some mode.Replay → status_of result ≡ status.BadLog → TellsFault (S.left src.old) (O.kept out.old) (O.kept out.new) (said_of result) }
    ensures replay_good { mode_of (map string_bytes words.now) ≡ Some mode.Replay → status_of result ≡ status.Done → IsGood (S.left src.old) }
    ensures replay_faulty { mode_of (map string_bytes words.now) ≡ Some mode.Replay → status_of result ≡ status.BadLog → NamesFault (S.left src.old) (said_of result) }
    ensures decided { mode_of (map string_bytes words.now) ≢ Some mode.Replay → IfAnswered (status_of result) (λ refused. (b : Text) → S.left src.old ≡ Some b → IsDecided b refused) }
    ensures left { mode_of (map string_bytes words.now) ≢ Some mode.Replay → IfAnswered (status_of result) (λ refused. Leaves (S.left src.old) (S.left src.new)) }
    ensures replay_left { mode_of (map string_bytes words.now) ≡ Some mode.Replay → IfReplayed (status_of result) (LeavesLog (S.left src.old) (S.left src.new)) }
    ensures replay_end { mode_of (map string_bytes words.now) ≡ Some mode.Replay → status_of result ≡ status.Done → IsAtEnd (S.left src.new) }
    ensures usage { status_of result ≡ status.Usage → mode_of (map string_bytes words.now) ≡ None }
    ensures words { mode_of (map string_bytes words.now) ≡ None → IsUsage (status_of result) }
    ensures read_fault { status_of result ≡ status.ReadFault → Rose (S.faults src.old) (S.faults src.new) }
    ensures write_fault { status_of result ≡ status.WriteFault → Rose (O.faults out.old) (O.faults out.new) }
    ensures refused { status_of result ≡ status.Refused → mode_of (map string_bytes words.now) ≢ Some mode.Replay }
    ensures bad { status_of result ≡ status.BadLog → mode_of (map string_bytes words.now) ≡ Some mode.Replay }
    ensures cut { mode_of (map string_bytes words.now) ≡ Some mode.Check → IfCut (status_of result) (AnswersInPart (S.left src.old) (O.kept out.old) (O.kept out.new)) }
    ensures log_cut { mode_of (map string_bytes words.now) ≡ Some mode.Log → LogsInPart (S.left src.old) (O.kept out.old) (O.kept out.new) }
    ensures log_sound { mode_of (map string_bytes words.now) ≡ Some mode.Log → GainsGoodPart (O.kept out.old) (O.kept out.new) }
    ensures replay_cut { mode_of (map string_bytes words.now) ≡ Some mode.Replay → IfCut (status_of result) (ReportsInPart (S.left src.old) (O.kept out.old) (O.kept out.new)) }
    ensures sound { mode_of (map string_bytes words.now) ≢ Some mode.Log → GainsSound (O.kept out.old) (O.kept out.new) }
    ensures unwritten { IsUnwritten (status_of result) (O.kept out.old) (O.kept out.new) }
    ensures memory_unwritten { mode_of (map string_bytes words.now) ≢ Some mode.Log → mode_of (map string_bytes words.now) ≢ Some mode.Replay → status_of result ≡ status.Memory → O.kept out.new ≡ O.kept out.old }
    ensures untouched { status_of result ≡ status.Usage → src.new ≡ src.old }
{
    match mode_of(alloc, words) {
        Ok(Some(Mode::Check)) => Ending::Plain(check(alloc, src, out)),
        Ok(Some(Mode::Log)) => Ending::Plain(log(alloc, src, out)),
        Ok(Some(Mode::Replay)) => replay_log(alloc, src, out),
        Ok(None) => Ending::Plain(Status::Usage),
        Err(_) => Ending::Plain(Status::Memory),
    }
}

/// Checks a theory text.
#[tactic(auto, using(crate::proofs::Running::unwritten_lemmas))]
fn check<S: Source, O: Sink>(alloc: Global, src: &mut S, out: &mut O) -> Status
    ensures check { IfAnswered result (Answers (S.left src.old) (O.kept out.old) (O.kept out.new)) }
    ensures decided { IfAnswered result (λ refused. (b : Text) → S.left src.old ≡ Some b → IsDecided b refused) }
    ensures left { IfAnswered result (λ refused. Leaves (S.left src.old) (S.left src.new)) }
    ensures read_fault { result ≡ status.ReadFault → Rose (S.faults src.old) (S.faults src.new) }
    ensures write_fault { result ≡ status.WriteFault → Rose (O.faults out.old) (O.faults out.new) }
    ensures cut { IfCut result (AnswersInPart (S.left src.old) (O.kept out.old) (O.kept out.new)) }
    ensures sound { GainsSound (O.kept out.old) (O.kept out.new) }
    ensures unwritten { IsUnwritten result (O.kept out.old) (O.kept out.new) }
    ensures memory_unwritten { result ≡ status.Memory → O.kept out.new ≡ O.kept out.old }
    ensures theory { IsTheoryStatus result }
{
    let input = match read_input(alloc, src, LIMIT + 1) {
        Ok(input) => input,
        Err(InputError::Fault) => return Status::ReadFault,
        Err(InputError::Memory) => return Status::Memory,
    };
    let Ok(output) = checked(alloc, &input) else {
        return Status::Memory;
    };
    print(&output, out)
}

/// The output of `check` on an input of which at most the limit and one byte more are given.
fn checked(alloc: Global, input: &[u8]) -> Result<Output, AllocError>
    ensures { IfOk result (λ o. IsCheck input.now (string_bytes o.text) o.refused) }
{
    if input.len() > LIMIT {
        return limit_output(alloc, input);
    }
    let mut kernel = base_kernel(alloc)?;
    output_of(alloc, &mut kernel, input)
}

/// Writes the output, and answers Done or Refused, or WriteFault where the sink failed.
fn print<O: Sink>(output: &Output, out: &mut O) -> Status
    ensures written { IfAnswered result (λ refused. (output.now.refused ≡ refused) × Appends (O.kept out.old) (O.kept out.new) (string_bytes output.now.text)) }
    ensures fault { result ≡ status.WriteFault → Rose (O.faults out.old) (O.faults out.new) }
    ensures cut { result ≡ status.WriteFault → AppendsPart (O.kept out.old) (O.kept out.new) (string_bytes output.now.text) }
    ensures status { IsPrinting result }
{
    match write_all(out, output.text.as_bytes()) {
        Err(_) => Status::WriteFault,
        Ok(()) if output.refused => Status::Refused,
        Ok(()) => Status::Done,
    }
}

/// Writes the proof log of a theory text.
#[tactic(auto, using(crate::proofs::Running::unwritten_lemmas))]
fn log<S: Source, O: Sink>(alloc: Global, src: &mut S, out: &mut O) -> Status
    ensures log { IfAnswered result (LogsAnswers (S.left src.old) (O.kept out.old) (O.kept out.new)) }
    ensures decided { IfAnswered result (λ refused. (b : Text) → S.left src.old ≡ Some b → IsDecided b refused) }
    ensures left { IfAnswered result (λ refused. Leaves (S.left src.old) (S.left src.new)) }
    ensures read_fault { result ≡ status.ReadFault → Rose (S.faults src.old) (S.faults src.new) }
    ensures write_fault { result ≡ status.WriteFault → Rose (O.faults out.old) (O.faults out.new) }
    ensures log_cut { LogsInPart (S.left src.old) (O.kept out.old) (O.kept out.new) }
    ensures log_sound { GainsGoodPart (O.kept out.old) (O.kept out.new) }
    ensures unwritten { IsUnwritten result (O.kept out.old) (O.kept out.new) }
    ensures theory { IsTheoryStatus result }
{
    let input = match read_input(alloc, src, LIMIT + 1) {
        Ok(input) => input,
        Err(InputError::Fault) => return Status::ReadFault,
        Err(InputError::Memory) => return Status::Memory,
    };
    let Ok(theory) = logged(alloc, &input) else {
        return Status::Memory;
    };
    write(alloc, &theory, out)
}

/// The theory of an input of which at most the limit and one byte more are given.
fn logged(alloc: Global, input: &[u8]) -> Result<Theory, AllocError>
    ensures { IfOk result (IsTheory input.now) }
{
    let kernel = base_kernel(alloc)?;
    theory_of(alloc, kernel, input)
}

/// Writes the theory's log, and answers Done or Refused, WriteFault where the sink failed, or Memory.
fn write<O: Sink>(alloc: Global, theory: &Theory, out: &mut O) -> Status
    requires { AreFit in_force theory.now.kernel theory.now.marks.items theory.now.end }
    ensures written { (b : Text) → IsTheory b theory.now → IfAnswered result (λ refused. (is_stop theory.now.end ≡ refused) × GainsLogOf b (is_stop theory.now.end) (O.kept out.old) (O.kept out.new)) }
    ensures fault { result ≡ status.WriteFault → Rose (O.faults out.old) (O.faults out.new) }
    ensures cut { (b : Text) → IsTheory b theory.now → IfCut result (GainsPartOf b (O.kept out.old) (O.kept out.new)) }
    ensures status { IsWriting result }
{
    match theory.write_log(alloc, out) {
        Err(LogError::WriteFault) => Status::WriteFault,
        Err(LogError::Memory) => Status::Memory,
        Ok(()) if theory.is_refused() => Status::Refused,
        Ok(()) => Status::Done,
    }
}

/// Checks a proof log, and writes its report.
#[tactic(auto, using(crate::proofs::Running::unwritten_lemmas))]
fn replay_log<S: Source, O: Sink>(alloc: Global, src: &mut S, out: &mut O) -> Ending
    ensures replay { status_of result ≡ status.Done → Reports (S.left src.old) (O.kept out.old) (O.kept out.new) }
    ensures bad_log { status_of result ≡ status.BadLog → TellsFault (S.left src.old) (O.kept out.old) (O.kept out.new) (said_of result) }
    ensures replay_good { status_of result ≡ status.Done → IsGood (S.left src.old) }
    ensures replay_faulty { status_of result ≡ status.BadLog → NamesFault (S.left src.old) (said_of result) }
    ensures replay_left { IfReplayed (status_of result) (LeavesLog (S.left src.old) (S.left src.new)) }
    ensures replay_end { status_of result ≡ status.Done → IsAtEnd (S.left src.new) }
    ensures read_fault { status_of result ≡ status.ReadFault → Rose (S.faults src.old) (S.faults src.new) }
    ensures write_fault { status_of result ≡ status.WriteFault → Rose (O.faults out.old) (O.faults out.new) }
    ensures replay_cut { IfCut (status_of result) (ReportsInPart (S.left src.old) (O.kept out.old) (O.kept out.new)) }
    ensures sound { GainsSound (O.kept out.old) (O.kept out.new) }
    ensures unwritten { IsUnwritten (status_of result) (O.kept out.old) (O.kept out.new) }
    ensures log { IsLogStatus (status_of result) }
{
    let input = match read_input(alloc, src, MOST_BYTES) {
        Ok(input) => input,
        Err(InputError::Fault) => return Ending::Plain(Status::ReadFault),
        Err(InputError::Memory) => return Ending::Plain(Status::Memory),
    };
    replayed(alloc, &input, out)
}

/// Checks a log of which at most the first 2^62 bytes are given.
fn replayed<O: Sink>(alloc: Global, log: &[u8], out: &mut O) -> Ending
    requires { length log.now ≤ 2 ^ 62 }
    ensures good { (b : Text) → log.now ≡ take (2 ^ 62) b → status_of result ≡ status.Done → GainsReport b (O.kept out.old) (O.kept out.new) }
    ensures bad { IfBadLog result (λ message. TellsReport log.now (O.kept out.old) (O.kept out.new) (string_bytes message)) }
    ensures part { (b : Text) → log.now ≡ take (2 ^ 62) b → IfCut (status_of result) (GainsPart b (O.kept out.old) (O.kept out.new)) }
    ensures whole { status_of result ≡ status.Done → length log.now < 2 ^ 62 }
    ensures fault { status_of result ≡ status.WriteFault → Rose (O.faults out.old) (O.faults out.new) }
    ensures ending { IsReplaying result }
{
    match replay(alloc, log, out) {
        Ok(()) => Ending::Plain(Status::Done),
        Err(ReplayError::BadLog { number, why }) => match bad_log_message(alloc, number, why) {
            Ok(message) => Ending::BadLog(message),
            Err(_) => Ending::Plain(Status::Memory),
        },
        Err(ReplayError::WriteFault) => Ending::Plain(Status::WriteFault),
        Err(ReplayError::Memory) => Ending::Plain(Status::Memory),
    }
}
