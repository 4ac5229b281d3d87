//! Rewriting with an equation.

ghost use Rattle.std.specs.Prelude.{◌≡◌, [], true, Some, IfOk, IsSome};
ghost use Rattle.hol_terms.specs.Tm.{tm_free, tm_comb};
ghost use Rattle.hol_terms.specs.Typing.{tm_type};
ghost use Rattle.hol_terms.specs.Rules.{is_abstraction};
ghost use Rattle.hol_terms.specs.Signature.{IsOver};
ghost use Rattle.hol_terms.specs.Definition.{signature_of};
ghost use Rattle.hol_terms.specs.Sequent.{seq, eq_tm, left_of, argument, IsEq};
ghost use Rattle.hol_terms.specs.Replacing.{subterm_at, replaced, replaced_at};
ghost use Rattle.hol_kernel.specs.State.{Has, Grows};
ghost use Rattle.hol_conv.specs.Reduction.{reduct};
ghost use Rattle.hol_conv.specs.Conv.{IsPlain, IsEquationOf};
ghost use Rattle.hol_conv.specs.Rewriting.{filled, rewriting_hyps, Sides};

use crate::beta::{apply_to, in_argument};
use crate::fresh::fresh;
use hol_kernel::{Kernel, Thm};
use hol_terms::terms::{Term, Var};
use std::alloc::{AllocError, Global};

/// `A |- t = u` from `A |- l = r`, where l is the subterm of t at the path, and u is t with r in its place (HOL Light's
/// `PATH_CONV` of a rewrite). A step of a path is 0 for the function of an application or the body of an abstraction, and 1
/// for the argument.
pub fn rewrite_at(
    alloc: Global,
    k: &mut Kernel,
    t: &Term,
    path: &[u32],
    eq: &Thm,
) -> Result<Thm, AllocError>
    requires over { IsOver (signature_of k.old.defs) [] t.now }
    requires has_eq { Has k.old eq.now }
    requires equation { IsEq eq.now.sequent.concl }
    requires place { subterm_at path.now t.now ≡ Some (left_of eq.now.sequent.concl) }
    ensures exact { IfOk result (λ th. th.sequent ≡ seq eq.now.sequent.hyps (eq_tm t.now (replaced_at path.now (argument eq.now.sequent.concl) t.now))) }
    ensures has { IfOk result (λ th. Has k.new th) }
    ensures grows { Grows k.old k.new }
{
    let v = fresh(alloc, t, &[], eq.concl().left().type_of())?;
    let place = Term::mk_var(alloc, &v)?;
    let context = t.replace_at(alloc, path, &place)?;
    let th = rewrite_under(alloc, k, &v, &context, eq)?;
    Ok(th)
}

/// `A |- t = u` from `A |- l = r`, where u is t with r in place of each topmost subterm that is l; `|- t = t` where there is
/// none. The hypotheses are those of the equation where a subterm was replaced, and none otherwise.
pub fn rewrite_all(alloc: Global, k: &mut Kernel, t: &Term, eq: &Thm) -> Result<Thm, AllocError>
    requires over { IsOver (signature_of k.old.defs) [] t.now }
    requires has_eq { Has k.old eq.now }
    requires equation { IsEq eq.now.sequent.concl }
    ensures exact { IfOk result (λ th. th.sequent ≡ seq (rewriting_hyps t.now eq.now.sequent) (eq_tm t.now (replaced (left_of eq.now.sequent.concl) (argument eq.now.sequent.concl) t.now))) }
    ensures has { IfOk result (λ th. Has k.new th) }
    ensures grows { Grows k.old k.new }
{
    let left = eq.concl().left();
    if !t.has_subterm(left) {
        let th = k.refl(alloc, t)?;
        return Ok(th);
    }
    let v = fresh(alloc, t, &[], left.type_of())?;
    let place = Term::mk_var(alloc, &v)?;
    let context = t.replace(alloc, left, &place)?;
    let th = rewrite_under(alloc, k, &v, &context, eq)?;
    Ok(th)
}

/// `A |- c[l] = c[r]` from `A |- l = r`, where c[u] is c with u in place of the variable v.
#[tactic(auto, using(crate::proofs::RuleLemmas::grows_lemmas))]
fn rewrite_under(
    alloc: Global,
    k: &mut Kernel,
    v: &Var,
    c: &Term,
    eq: &Thm,
) -> Result<Thm, AllocError>
    requires over { IsOver (signature_of k.old.defs) [] c.now }
    requires over_v { IsOver (signature_of k.old.defs) [] (tm_free v.now) }
    requires has_eq { Has k.old eq.now }
    requires equation { IsEq eq.now.sequent.concl }
    requires sides { Sides k.old eq.now }
    requires typed { v.now.ty ≡ tm_type (left_of eq.now.sequent.concl) }
    ensures exact { IfOk result (λ th. th.sequent ≡ seq eq.now.sequent.hyps (eq_tm (filled v.now (left_of eq.now.sequent.concl) c.now) (filled v.now (argument eq.now.sequent.concl) c.now))) }
    ensures has { IfOk result (λ th. Has k.new th) }
    ensures grows { Grows k.old k.new }
{
    let f = Term::mk_abs(alloc, v, c)?;
    let same = reduce_sides(alloc, k, &f, eq)?;
    let applied = in_argument(alloc, k, &f, eq)?;
    let th = k.eq_mp(alloc, &same, &applied)?;
    Ok(th)
}

/// `|- (f l = f r) = (b[l] = b[r])`, where f is `\x. b[x]` and the equation is `A |- l = r`.
#[tactic(auto, using(crate::proofs::RuleLemmas::grows_lemmas))]
fn reduce_sides(alloc: Global, k: &mut Kernel, f: &Term, eq: &Thm) -> Result<Thm, AllocError>
    requires abstraction { is_abstraction f.now ≡ true }
    requires over_left { IsOver (signature_of k.old.defs) [] (tm_comb f.now (left_of eq.now.sequent.concl)) }
    requires over_right { IsOver (signature_of k.old.defs) [] (tm_comb f.now (argument eq.now.sequent.concl)) }
    requires equation { IsEq eq.now.sequent.concl }
    ensures exact { IfOk result (λ th. IsEquationOf (eq_tm (tm_comb f.now (left_of eq.now.sequent.concl)) (tm_comb f.now (argument eq.now.sequent.concl))) (eq_tm (reduct f.now (left_of eq.now.sequent.concl)) (reduct f.now (argument eq.now.sequent.concl))) th) }
    ensures has { IfOk result (λ th. Has k.new th) }
    ensures grows { Grows k.old k.new }
{
    let left = apply_to(alloc, k, f, eq.concl().left())?;
    let right = apply_to(alloc, k, f, eq.concl().right())?;
    let th = equate(alloc, k, &left, &right)?;
    Ok(th)
}

/// `|- (s = t) = (u = w)` from `|- s = u` and `|- t = w`.
fn equate(alloc: Global, k: &mut Kernel, a: &Thm, b: &Thm) -> Result<Thm, AllocError>
    requires has_a { Has k.old a.now }
    requires has_b { Has k.old b.now }
    requires plain_a { IsPlain a.now }
    requires plain_b { IsPlain b.now }
    requires typed { tm_type (left_of a.now.sequent.concl) ≡ tm_type (left_of b.now.sequent.concl) }
    ensures exact { IfOk result (λ th. IsEquationOf (eq_tm (left_of a.now.sequent.concl) (left_of b.now.sequent.concl)) (eq_tm (argument a.now.sequent.concl) (argument b.now.sequent.concl)) th) }
    ensures has { IfOk result (λ th. Has k.new th) }
    ensures grows { Grows k.old k.new }
{
    let equals = Term::mk_equals(alloc, a.concl().left().type_of())?;
    let half = in_argument(alloc, k, &equals, a)?;
    let th = k.mk_comb(alloc, &half, b)?;
    Ok(th)
}
