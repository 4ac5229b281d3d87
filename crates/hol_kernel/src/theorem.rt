ghost use Rattle.std.specs.Prelude.{◌≡◌, [], true, IfOk};
ghost use Rattle.hol_terms.specs.Sequent.{seq};
ghost use Rattle.hol_terms.specs.Proves.{IsDerivable};
ghost use Rattle.hol_kernel.specs.Fault.{shows_inhabited, predicate_of};

use crate::history::History;
use hol_terms::terms::{Term, TermNode};
use std::alloc::{AllocError, Global};
use std::marker::Model;

/// A theorem: a sequent that is derivable over the definitions that it carries, and the number of its step.
#[derive(Drop)]
pub struct Thm {
    pub(crate) defs: History,
    pub(crate) hyps: Vec<Term>,
    pub(crate) concl: Term,
    pub(crate) step: usize,
}

impl Model for Thm {
    ghost use Rattle.hol_terms.specs.Proves.{IsDerivable};
    ghost use Rattle.hol_terms.specs.Sequent.{seq};
    ghost use Rattle.hol_kernel.specs.State.{Theorem, theorem_code};

    ghost Value = { Theorem };

    ghost coded = { theorem_code };

    ghost view = { λ a. record { defs = a.defs; sequent = seq a.hyps.items a.concl; step = a.step } };

    ghost invariant = { λ a. IsDerivable a.defs (seq a.hyps.items a.concl) };
}

impl Thm {
    /// The hypotheses, ascending in the term order.
    pub fn hyps(&self) -> &[Term]
        ensures value { result.now ≡ self.now.sequent.hyps }
        ensures derivable { IsDerivable self.now.defs self.now.sequent }
    {
        &self.hyps
    }

    /// The conclusion.
    pub fn concl(&self) -> &Term
        ensures value { result.now ≡ self.now.sequent.concl }
        ensures derivable { IsDerivable self.now.defs self.now.sequent }
    {
        &self.concl
    }

    /// The number of the step, from 0.
    pub fn step(&self) -> usize
        ensures { result ≡ self.now.step }
    {
        self.step
    }

    /// Whether it is `|- P t` for some P and t.
    pub(crate) fn shows_inhabited(&self) -> bool
        ensures { result ≡ shows_inhabited self.now.sequent }
    {
        self.hyps.is_empty() && matches!(self.concl.view(), TermNode::Comb(_, _))
    }

    /// P of a theorem `|- P t`.
    pub(crate) fn predicate(&self) -> &Term
        requires { shows_inhabited self.now.sequent ≡ true }
        ensures value { result.now ≡ predicate_of self.now.sequent }
        ensures derivable { IsDerivable self.now.defs self.now.sequent }
    {
        match self.concl.view() {
            TermNode::Comb(pred, _) => pred,
            _ => unreachable!(),
        }
    }

    /// The same theorem. It adds no step.
    pub fn copy(&self, alloc: Global) -> Result<Thm, AllocError>
        ensures { IfOk result (λ th. th ≡ self.now) }
    {
        let defs = self.defs.copy()?;
        let hyps = copy_all(alloc, &self.hyps)?;
        let concl = self.concl.copy()?;
        Ok(Thm {
            defs,
            hyps,
            concl,
            step: self.step,
        })
    }
}

/// The theorem of the sequent with no hypothesis.
pub(crate) fn said(
    alloc: Global,
    defs: &History,
    concl: &Term,
    step: usize,
) -> Result<Thm, AllocError>
    requires { IsDerivable defs.now (seq [] concl.now) }
    ensures { IfOk result (λ th. th ≡ record { defs = defs.now; sequent = seq [] concl.now; step = step }) }
{
    let defs = defs.copy()?;
    let concl = concl.copy()?;
    Ok(Thm {
        defs,
        hyps: Vec::new(alloc),
        concl,
        step,
    })
}

pub(crate) fn copy_all(alloc: Global, terms: &[Term]) -> Result<Vec<Term>, AllocError>
    ensures { IfOk result (λ v. v.items ≡ terms.now) }
{
    let mut new = Vec::new(alloc);
    for term in terms {
        new.push(term.copy()?)?;
    }
    Ok(new)
}
