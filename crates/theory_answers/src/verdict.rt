//! What a text comes to: nothing, a definition, or a refusal.

ghost use Rattle.std.specs.Prelude.{◌≡◌, ◌++◌, codes, IfOk};
ghost use Rattle.hol_terms.specs.Base.{base};
ghost use Rattle.hol_terms.specs.Definition.{signature_of};
ghost use Rattle.theory_text.specs.Definable.{IsDefinable};
ghost use Rattle.theory_text.specs.Views.{define_view};
ghost use Rattle.base_count.specs.InForce.{in_force};
ghost use Rattle.theory_answers.specs.Answer.{limit};
ghost use Rattle.theory_answers.specs.Verdicts.{IsRefusalOf, IsRefused, IsOutcome, IsVerdict};

use hol_kernel::Kernel;
use std::alloc::{AllocError, Global};
use theory_text::command::{DefineCommand, read_define};

/// The most bytes of a text.
pub const LIMIT: usize = 1_048_576;

/// The first test that fails, with the name and the place of what fails it.
#[derive(Drop)]
pub struct Refusal {
    pub test: String,
    pub name: String,
    pub place: usize,
}

/// No command; a definition that may be made over the base definitions; a text that is refused.
#[derive(Drop)]
pub enum Verdict {
    Empty,
    Define(DefineCommand),
    Refused(Refusal),
}

fn refuse(alloc: Global, test: &str, name: &str, place: usize) -> Result<Verdict, AllocError>
    ensures { IfOk result (λ v. IsRefused v test.now name.now place) }
{
    Ok(Verdict::Refused(Refusal {
        test: String::from_str(alloc, test)?,
        name: String::from_str(alloc, name)?,
        place,
    }))
}

/// The refusal of a text that is longer than the limit.
pub(crate) fn limit_refusal(alloc: Global) -> Result<Refusal, AllocError>
    ensures { IfOk result (λ r. IsRefusalOf r (codes "limit") (codes "input") limit) }
{
    Ok(Refusal {
        test: String::from_str(alloc, "limit")?,
        name: String::from_str(alloc, "input")?,
        place: LIMIT,
    })
}

/// The verdict on a text of which at most the limit and one byte more are given. The only error is want of memory.
pub fn verdict_of(alloc: Global, kernel: &Kernel, input: &[u8]) -> Result<Verdict, AllocError>
    requires { kernel.now.defs ≡ base in_force }
    ensures { IfOk result (IsVerdict input.now) }
{
    if input.len() > LIMIT {
        return refuse(alloc, "limit", "input", LIMIT);
    }
    if input.is_empty() {
        return Ok(Verdict::Empty);
    }
    let Some(command) = read_define(alloc, kernel.sig(), input)? else {
        return refuse(alloc, "unbuilt", "-", 0);
    };
    verdict_of_define(alloc, command)
}

/// A definition is refused where its term has a type variable that its type has not.
fn verdict_of_define(alloc: Global, command: DefineCommand) -> Result<Verdict, AllocError>
    ensures { IfOk result (IsOutcome (define_view command)) }
{
    if command.body.is_within(command.body.type_of()) {
        return Ok(Verdict::Define(command));
    }
    let mut name = String::from_str(alloc, "'")?;
    name.push_str(command.stray.as_str())?;
    refuse(alloc, "conservativity", name.as_str(), command.stray_place)
}
