//! The output that answers an input.

ghost use Rattle.std.specs.Prelude.{◌≡◌, ◌<◌, [], ◌∷◌, ◌++◌, None, codes, length, string_bytes, IfOk, OnOk};
ghost use Rattle.std.specs.Fmt.{decimal};
ghost use Rattle.hol_terms.specs.Base.{base};
ghost use Rattle.hol_terms.specs.Definition.{const_def, signature_of};
ghost use Rattle.hol_terms.specs.Proves.{AreConservative};
ghost use Rattle.hol_terms.specs.Signature.{IsOver};
ghost use Rattle.hol_terms.specs.Sequent.{eq_tm};
ghost use Rattle.hol_terms.specs.Text.{definition_line, theorem_line};
ghost use Rattle.hol_terms.specs.Typing.{tm_type};
ghost use Rattle.hol_terms.specs.TyVars.{own_const};
ghost use Rattle.hol_kernel.specs.Fault.{const_fault};
ghost use Rattle.base_count.specs.InForce.{in_force};
ghost use Rattle.theory_answers.specs.Answer.{limit, base_line};
ghost use Rattle.theory_answers.specs.Layout.{unlines};
ghost use Rattle.theory_answers.specs.Answered.{IsCheck};
ghost use Rattle.theory_answers.specs.Verdicts.{refusal_line};

use crate::verdict::{Refusal, Verdict, limit_refusal, verdict_of};
use base_count::BASE_DEFINITIONS;
use hol_kernel::Kernel;
use hol_terms::terms::Term;
use hol_text::print::{definition_line, theorem_line};
use itoa::Buffer;
use std::alloc::{AllocError, Global};

/// An output, and whether it ends in a refusal.
#[derive(Drop)]
pub struct Output {
    pub text: String,
    pub refused: bool,
}

/// The output of `check` on an input of which at most the limit and one byte more are given, over a kernel with the base definitions
/// that are in force. The only error is want of memory.
pub fn output_of(alloc: Global, kernel: &mut Kernel, input: &[u8]) -> Result<Output, AllocError>
    requires { kernel.old.defs ≡ base in_force }
    ensures { IfOk result (λ o. IsCheck input.now (string_bytes o.text) o.refused) }
{
    match verdict_of(alloc, kernel, input)? {
        Verdict::Empty => {
            let text = begin(alloc)?;
            Ok(Output {
                text,
                refused: false,
            })
        }
        Verdict::Define(command) => {
            let text = section(alloc, kernel, command.name.as_str(), &command.body)?;
            Ok(Output {
                text,
                refused: false,
            })
        }
        Verdict::Refused(refusal) => {
            let text = refused(alloc, &refusal)?;
            Ok(Output {
                text,
                refused: true,
            })
        }
    }
}

/// The output of `check` on an input that is longer than the limit, which needs no kernel. The only error is want of memory.
pub fn limit_output(alloc: Global, input: &[u8]) -> Result<Output, AllocError>
    requires { limit < length input.now }
    ensures { IfOk result (λ o. IsCheck input.now (string_bytes o.text) o.refused) }
{
    let _ = input;
    let refusal = limit_refusal(alloc)?;
    let text = refused(alloc, &refusal)?;
    Ok(Output {
        text,
        refused: true,
    })
}

/// The base line.
fn begin(alloc: Global) -> Result<String, AllocError>
    ensures { IfOk result (λ text. string_bytes text ≡ unlines (base_line ∷ [])) }
{
    let mut text = String::from_str(alloc, "base ")?;
    push_number(&mut text, BASE_DEFINITIONS)?;
    text.push_str("\n")?;
    Ok(text)
}

fn push_line(text: &mut String, line: &str) -> Result<(), AllocError>
    ensures { OnOk result (string_bytes text.new ≡ string_bytes text.old ++ line.now ++ 10 ∷ []) }
{
    text.push_str(line)?;
    text.push_str("\n")
}

fn push_number(text: &mut String, n: usize) -> Result<(), AllocError>
    ensures { OnOk result (string_bytes text.new ≡ string_bytes text.old ++ decimal n) }
{
    let mut digits = Buffer::new();
    text.push_str(digits.format(n))
}

fn refusal_line(alloc: Global, refusal: &Refusal) -> Result<String, AllocError>
    ensures { IfOk result (λ line. string_bytes line ≡ refusal_line refusal.now) }
{
    let mut line = String::from_str(alloc, "refused ")?;
    line.push_str(refusal.test.as_str())?;
    line.push_str(" ")?;
    line.push_str(refusal.name.as_str())?;
    line.push_str(" ")?;
    push_number(&mut line, refusal.place)?;
    Ok(line)
}

/// The base line and a refusal.
#[tactic(auto, using(crate::proofs::Checking::refused_lemmas))]
fn refused(alloc: Global, refusal: &Refusal) -> Result<String, AllocError>
    ensures { IfOk result (λ text. string_bytes text ≡ unlines (base_line ∷ refusal_line refusal.now ∷ [])) }
{
    let line = refusal_line(alloc, refusal)?;
    let mut text = begin(alloc)?;
    push_line(&mut text, line.as_str())?;
    Ok(text)
}

/// The base line and the section of a `define`: the constant is defined in the kernel, and the theorem line is the theorem that
/// this gives. A theorem is derivable over conservative definitions, so those before it are conservative too.
fn section(
    alloc: Global,
    kernel: &mut Kernel,
    name: &str,
    body: &Term,
) -> Result<String, AllocError>
    requires fit { const_fault kernel.old.defs name.now body.now ≡ None }
    requires typed { IsOver (signature_of kernel.old.defs) [] body.now }
    ensures text { IfOk result (λ text. string_bytes text ≡ unlines (base_line ∷ (codes "command 1 define " ++ name.now) ∷ definition_line (const_def name.now body.now)
        ∷ theorem_line (name.now ++ codes ".def") (eq_tm (own_const name.now (tm_type body.now)) body.now) ∷ [])) }
    ensures conservative { IfOk result (λ text. AreConservative kernel.old.defs) }
{
    let th = kernel.define(alloc, name, body)?;
    let definition = definition_line(alloc, name, body)?;
    let mut fact_name = String::from_str(alloc, name)?;
    fact_name.push_str(".def")?;
    let fact = theorem_line(alloc, fact_name.as_str(), th.concl())?;
    let mut text = begin(alloc)?;
    text.push_str("command 1 define ")?;
    push_line(&mut text, name)?;
    push_line(&mut text, definition.as_str())?;
    push_line(&mut text, fact.as_str())?;
    Ok(text)
}
