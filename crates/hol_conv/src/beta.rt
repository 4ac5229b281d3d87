//! Beta reduction.

ghost use Rattle.std.specs.Prelude.{◌≡◌, [], true, IfOk, IsSome, Some};
ghost use Rattle.hol_terms.specs.Tm.{tm_comb};
ghost use Rattle.hol_terms.specs.Signature.{IsOver};
ghost use Rattle.hol_terms.specs.Definition.{signature_of};
ghost use Rattle.hol_terms.specs.Rules.{function, is_abstraction, comb_rule};
ghost use Rattle.hol_terms.specs.Sequent.{argument, seq, eq_tm};
ghost use Rattle.hol_kernel.specs.State.{Has, Grows};
ghost use Rattle.hol_conv.specs.Reduction.{reduct, beta_steps};
ghost use Rattle.hol_conv.specs.Conv.{IsRedex, IsEquationOf, IsContraction, IsPlain, IsStepOn, HasIt};

use crate::fresh::fresh;
use hol_kernel::{Kernel, Thm};
use hol_terms::terms::{Term, TermNode};
use std::alloc::{AllocError, Global};

/// `|- (\x. b) u = b` with u for x, at any term u (HOL Light's `BETA_CONV`).
pub fn beta_conv(alloc: Global, k: &mut Kernel, t: &Term) -> Result<Thm, AllocError>
    requires over { IsOver (signature_of k.old.defs) [] t.now }
    requires redex { IsRedex t.now }
    ensures exact { IfOk result (λ th. IsEquationOf t.now (reduct (function t.now) (argument t.now)) th) }
    ensures has { IfOk result (λ th. Has k.new th) }
    ensures grows { Grows k.old k.new }
{
    match t.view() {
        TermNode::Comb(f, u) => apply_to(alloc, k, f, u),
        _ => unreachable!(),
    }
}

fn is_lambda(t: &Term) -> bool
    ensures { result ≡ is_abstraction t.now }
{
    matches!(t.view(), TermNode::Abs(_, _))
}

/// `|- f u = b` with u for x, where f is `\x. b`.
pub(crate) fn apply_to(alloc: Global, k: &mut Kernel, f: &Term, u: &Term) -> Result<Thm, AllocError>
    requires over { IsOver (signature_of k.old.defs) [] (tm_comb f.now u.now) }
    requires abstraction { is_abstraction f.now ≡ true }
    ensures exact { IfOk result (λ th. IsEquationOf (tm_comb f.now u.now) (reduct f.now u.now) th) }
    ensures has { IfOk result (λ th. Has k.new th) }
    ensures grows { Grows k.old k.new }
{
    let v = fresh(alloc, f, &[], u.type_of())?;
    let x = Term::mk_var(alloc, &v)?;
    let redex = Term::mk_comb(alloc, f, &x)?;
    let general = k.beta(alloc, &redex)?;
    let mut pairs = Vec::new(alloc);
    pairs.push((v, u.copy()?))?;
    let th = k.inst(alloc, &general, &pairs)?;
    Ok(th)
}

/// `A |- f u = g u` from `A |- f = g`.
fn in_function(alloc: Global, k: &mut Kernel, a: &Thm, u: &Term) -> Result<Thm, AllocError>
    requires over { IsOver (signature_of k.old.defs) [] u.now }
    requires has_a { Has k.old a.now }
    requires fits { IsSome (comb_rule a.now.sequent (seq [] (eq_tm u.now u.now))) }
    ensures exact { IfOk result (λ th. comb_rule a.now.sequent (seq [] (eq_tm u.now u.now)) ≡ Some th.sequent) }
    ensures has { IfOk result (λ th. Has k.new th) }
    ensures grows { Grows k.old k.new }
{
    let same = k.refl(alloc, u)?;
    let th = k.mk_comb(alloc, a, &same)?;
    Ok(th)
}

/// `A |- f u = f w` from `A |- u = w`.
pub(crate) fn in_argument(
    alloc: Global,
    k: &mut Kernel,
    f: &Term,
    a: &Thm,
) -> Result<Thm, AllocError>
    requires over { IsOver (signature_of k.old.defs) [] f.now }
    requires has_a { Has k.old a.now }
    requires fits { IsSome (comb_rule (seq [] (eq_tm f.now f.now)) a.now.sequent) }
    ensures exact { IfOk result (λ th. comb_rule (seq [] (eq_tm f.now f.now)) a.now.sequent ≡ Some th.sequent) }
    ensures has { IfOk result (λ th. Has k.new th) }
    ensures grows { Grows k.old k.new }
{
    let same = k.refl(alloc, f)?;
    let th = k.mk_comb(alloc, &same, a)?;
    Ok(th)
}

/// `|- t = u`, where u is t with its leftmost outermost redex contracted, or None where t has no redex. It opens each binder
/// above the redex, so its cost is the size of the term for each of them.
fn contract(alloc: Global, k: &mut Kernel, t: &Term) -> Result<Option<Thm>, AllocError>
    requires over { IsOver (signature_of k.old.defs) [] t.now }
    ensures exact { IfOk result (λ r. IsContraction t.now r) }
    ensures has { IfOk result (λ r. HasIt k.new r) }
    ensures grows { Grows k.old k.new }
{
    match t.view() {
        TermNode::Comb(f, u) => {
            if is_lambda(f) {
                let th = apply_to(alloc, k, f, u)?;
                return Ok(Some(th));
            }
            if let Some(inner) = contract(alloc, k, f)? {
                let th = in_function(alloc, k, &inner, u)?;
                return Ok(Some(th));
            }
            let Some(inner) = contract(alloc, k, u)? else {
                return Ok(None);
            };
            let th = in_argument(alloc, k, f, &inner)?;
            Ok(Some(th))
        }
        TermNode::Abs(a, _) => {
            let v = fresh(alloc, t, &[], a)?;
            let body = t.open(alloc, &v)?;
            let Some(inner) = contract(alloc, k, &body)? else {
                return Ok(None);
            };
            let th = k.abs(alloc, &v, &inner)?;
            Ok(Some(th))
        }
        _ => Ok(None),
    }
}

/// `|- t = u`, where u is t after `fuel` contractions, or after as many as there are redexes to contract. Each contracts the
/// leftmost outermost redex, and costs the size of the term for each binder above it.
pub fn beta_norm(alloc: Global, k: &mut Kernel, t: &Term, fuel: u64) -> Result<Thm, AllocError>
    requires over { IsOver (signature_of k.old.defs) [] t.now }
    ensures exact { IfOk result (λ th. IsEquationOf t.now (beta_steps fuel t.now) th) }
    ensures has { IfOk result (λ th. Has k.new th) }
    ensures grows { Grows k.old k.new }
{
    let mut th = k.refl(alloc, t)?;
    for _ in 0..fuel {
        match step_on(alloc, k, &th)? {
            Some(next) => th = next,
            None => return Ok(th),
        }
    }
    Ok(th)
}

/// From `|- t = u` the theorem `|- t = w`, where w is u with its leftmost outermost redex contracted, or None where u has no
/// redex.
fn step_on(alloc: Global, k: &mut Kernel, a: &Thm) -> Result<Option<Thm>, AllocError>
    requires has_a { Has k.old a.now }
    requires plain { IsPlain a.now }
    ensures exact { IfOk result (λ r. IsStepOn a.now r) }
    ensures has { IfOk result (λ r. HasIt k.new r) }
    ensures grows { Grows k.old k.new }
{
    let Some(next) = contract(alloc, k, a.concl().right())? else {
        return Ok(None);
    };
    let th = k.trans(alloc, a, &next)?;
    Ok(Some(th))
}
