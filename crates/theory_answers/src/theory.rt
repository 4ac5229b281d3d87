//! A theory as a proof log tells it.

ghost use Rattle.std.specs.Prelude.{◌≡◌, None, IfOk, OnOk, OnErr};
ghost use Rattle.hb_io.specs.Faults.{Rose};
ghost use Rattle.hol_terms.specs.Base.{base};
ghost use Rattle.hol_terms.specs.Definition.{signature_of};
ghost use Rattle.hol_terms.specs.Text.{Text};
ghost use Rattle.hol_kernel.specs.Fault.{const_fault};
ghost use Rattle.theory_text.specs.Definable.{IsDefinable};
ghost use Rattle.theory_text.specs.Views.{define_view};
ghost use Rattle.proof_log.specs.Gained.{IfFault};
ghost use Rattle.proof_log.specs.Marks.{AreFit};
ghost use Rattle.base_count.specs.InForce.{in_force};
ghost use Rattle.theory_answers.specs.Theories.{is_stop, IsBaseTheory, IsDefinedTheory, IsTheory, GainsLogOf, GainsPartOf};

use crate::verdict::{Verdict, verdict_of};
use base_count::BASE_DEFINITIONS;
use hb_io::Sink;
use hol_kernel::Kernel;
use proof_log::{End, LogError, Mark, MarkKind, write_log};
use std::alloc::{AllocError, Global};
use theory_text::command::DefineCommand;

/// A theory that was read: the kernel with its definition, what is said of the kernel's steps, and how the theory ends.
#[derive(Drop)]
pub struct Theory {
    pub kernel: Kernel,
    pub marks: Vec<Mark>,
    pub end: End,
}

impl Theory {
    /// Whether it ends in a refusal.
    pub fn is_refused(&self) -> bool
        ensures { result ≡ is_stop self.now.end }
    {
        matches!(self.end, End::Stop(..))
    }

    /// Writes the theory's proof log. For a text that states the theory it is good, and its report answers the text. `WriteFault`
    /// comes only where the sink's count of faults rose, `Memory` for want of memory; after either a front of such a log was written.
    pub fn write_log<O: Sink>(&self, alloc: Global, out: &mut O) -> Result<(), LogError>
        requires { AreFit in_force self.now.kernel self.now.marks.items self.now.end }
        ensures ok { (b : Text) → IsTheory b self.now → OnOk result (GainsLogOf b (is_stop self.now.end) (O.kept out.old) (O.kept out.new)) }
        ensures err { (b : Text) → IsTheory b self.now → OnErr result (GainsPartOf b (O.kept out.old) (O.kept out.new)) }
        ensures fault { IfFault result (Rose (O.faults out.old) (O.faults out.new)) }
    {
        write_log(alloc, &self.kernel, &self.marks, &self.end, out)
    }
}

/// The theory that an input states, of which at most the limit and one byte more are given, over a kernel with the base definitions
/// that are in force. The only error is want of memory.
pub fn theory_of(alloc: Global, kernel: Kernel, input: &[u8]) -> Result<Theory, AllocError>
    requires { kernel.defs ≡ base in_force }
    ensures { IfOk result (IsTheory input.now) }
{
    match verdict_of(alloc, &kernel, input)? {
        Verdict::Empty => base_theory(alloc, kernel, End::Done),
        Verdict::Define(command) => defined_theory(alloc, kernel, &command),
        Verdict::Refused(r) => base_theory(alloc, kernel, End::Stop(r.test, r.name, r.place)),
    }
}

/// The theory without a command.
fn base_theory(alloc: Global, kernel: Kernel, end: End) -> Result<Theory, AllocError>
    ensures { IfOk result (IsBaseTheory kernel end) }
{
    let at = kernel.steps().len();
    let mut marks = Vec::new(alloc);
    marks.push(Mark {
        at,
        kind: MarkKind::Base(BASE_DEFINITIONS as u32),
    })?;
    Ok(Theory { kernel, marks, end })
}

/// The theory of one definition: the section's line stands above its step, and the theorem is named behind it.
fn defined_theory(
    alloc: Global,
    mut kernel: Kernel,
    command: &DefineCommand,
) -> Result<Theory, AllocError>
    requires base { kernel.defs ≡ base in_force }
    requires fit { const_fault kernel.defs (define_view command.now).name command.now.body ≡ None }
    requires definable { IsDefinable (signature_of (base in_force)) (define_view command.now) }
    ensures { IfOk result (IsDefinedTheory kernel (define_view command.now)) }
{
    let step = kernel.steps().len();
    kernel.define(alloc, command.name.as_str(), &command.body)?;
    let mut section = String::from_str(alloc, "command 1 define ")?;
    section.push_str(command.name.as_str())?;
    let mut fact = String::from_str(alloc, command.name.as_str())?;
    fact.push_str(".def")?;
    let mut marks = Vec::new(alloc);
    marks.push(Mark {
        at: step,
        kind: MarkKind::Base(BASE_DEFINITIONS as u32),
    })?;
    marks.push(Mark {
        at: step,
        kind: MarkKind::Section(section),
    })?;
    marks.push(Mark {
        at: kernel.steps().len(),
        kind: MarkKind::Name(fact, step),
    })?;
    Ok(Theory {
        kernel,
        marks,
        end: End::Done,
    })
}
