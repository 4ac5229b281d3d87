//! The connectives over terms. What takes several terms or variables nests to the right.

ghost use Rattle.std.specs.Prelude.{◌≡◌, [], ◌∷◌, IfOk};
ghost use Rattle.hol_terms.specs.Typing.{tm_type};
ghost use Rattle.hol_terms.specs.Definition.{bool_ty};
ghost use Rattle.hol_terms.specs.Notation.{◌⇒◌, ◌·◌};
ghost use Rattle.hol_terms.specs.Tm.{tm_const};
ghost use Rattle.hol_terms.specs.Logic.{const_not};
ghost use Rattle.hol_terms.specs.Loose.{IsClosedAt};
ghost use Rattle.hol_terms.specs.Rules.{lambda};
ghost use Rattle.stmt_core.specs.Formulas.{IsBoolean, AreBoolean, HaveNoLoose, eq_of, conj_of, disj_of, imp_of, all_of, ex_of};

use hol_terms::terms::{Term, Var};
use hol_terms::types::HolType;
use std::alloc::{AllocError, Global};

fn truth_values(alloc: Global) -> Result<HolType, AllocError>
    ensures { IfOk result (λ t. t ≡ bool_ty) }
{
    HolType::app(alloc, "bool", &[])
}

/// A truth value of a name, as `T`.
fn truth_value(alloc: Global, name: &str) -> Result<Term, AllocError>
    ensures { IfOk result (λ t. t ≡ tm_const name.now [] bool_ty) }
{
    let ty = truth_values(alloc)?;
    Term::mk_own_const(alloc, name, &ty)
}

/// A connective of one truth value.
fn unary(alloc: Global, name: &str) -> Result<Term, AllocError>
    ensures { IfOk result (λ t. t ≡ tm_const name.now [] (bool_ty ⇒ bool_ty)) }
{
    let truth = truth_values(alloc)?;
    let ty = HolType::fun(alloc, &truth, &truth)?;
    Term::mk_own_const(alloc, name, &ty)
}

/// A connective of two truth values.
fn binary(alloc: Global, name: &str) -> Result<Term, AllocError>
    ensures { IfOk result (λ t. t ≡ tm_const name.now [] (bool_ty ⇒ bool_ty ⇒ bool_ty)) }
{
    let truth = truth_values(alloc)?;
    let to_truth = HolType::fun(alloc, &truth, &truth)?;
    let ty = HolType::fun(alloc, &truth, &to_truth)?;
    Term::mk_own_const(alloc, name, &ty)
}

/// A connective between two formulas.
fn infix(alloc: Global, name: &str, p: &Term, q: &Term) -> Result<Term, AllocError>
    requires left { IsBoolean p.now }
    requires right { IsBoolean q.now }
    ensures exact { IfOk result (λ t. t ≡ (tm_const name.now [] (bool_ty ⇒ bool_ty ⇒ bool_ty)) · p.now · q.now) }
    ensures closed { IsClosedAt 0 p.now → IsClosedAt 0 q.now → IfOk result (λ t. IsClosedAt 0 t) }
{
    let connective = binary(alloc, name)?;
    let half = Term::mk_comb(alloc, &connective, p)?;
    Term::mk_comb(alloc, &half, q)
}

/// The equation of two terms of one type.
pub fn eq(alloc: Global, a: &Term, b: &Term) -> Result<Term, AllocError>
    requires { tm_type a.now ≡ tm_type b.now }
    ensures exact { IfOk result (λ t. t ≡ eq_of a.now b.now) }
    ensures boolean { IfOk result (λ t. IsBoolean t) }
    ensures closed { IsClosedAt 0 a.now → IsClosedAt 0 b.now → IfOk result (λ t. IsClosedAt 0 t) }
{
    Term::mk_eq(alloc, a, b)
}

/// The negation of a formula.
pub fn neg(alloc: Global, t: &Term) -> Result<Term, AllocError>
    requires { IsBoolean t.now }
    ensures exact { IfOk result (λ s. s ≡ const_not · t.now) }
    ensures boolean { IfOk result (λ s. IsBoolean s) }
    ensures closed { IsClosedAt 0 t.now → IfOk result (λ s. IsClosedAt 0 s) }
{
    let connective = unary(alloc, "not")?;
    Term::mk_comb(alloc, &connective, t)
}

/// All of the formulas: `T` if there are none.
#[tactic(auto, using(crate::proofs::FormulaLemmas::rest_lemmas))]
pub fn conj(alloc: Global, ts: &[Term]) -> Result<Term, AllocError>
    requires { AreBoolean ts.now }
    ensures exact { IfOk result (λ t. t ≡ conj_of ts.now) }
    ensures boolean { IfOk result (λ t. IsBoolean t) }
    ensures closed { HaveNoLoose ts.now → IfOk result (λ t. IsClosedAt 0 t) }
{
    match ts {
        [] => truth_value(alloc, "T"),
        [t] => t.copy(),
        [t, rest @ ..] => infix(alloc, "conj", t, &conj(alloc, rest)?),
    }
}

/// One of the formulas: `F` if there are none.
#[tactic(auto, using(crate::proofs::FormulaLemmas::rest_lemmas))]
pub fn disj(alloc: Global, ts: &[Term]) -> Result<Term, AllocError>
    requires { AreBoolean ts.now }
    ensures exact { IfOk result (λ t. t ≡ disj_of ts.now) }
    ensures boolean { IfOk result (λ t. IsBoolean t) }
    ensures closed { HaveNoLoose ts.now → IfOk result (λ t. IsClosedAt 0 t) }
{
    match ts {
        [] => truth_value(alloc, "F"),
        [t] => t.copy(),
        [t, rest @ ..] => infix(alloc, "disj", t, &disj(alloc, rest)?),
    }
}

/// From the formulas `ps` follows `q`.
#[tactic(auto, using(crate::proofs::FormulaLemmas::rest_lemmas))]
pub fn imp(alloc: Global, ps: &[Term], q: &Term) -> Result<Term, AllocError>
    requires premises { AreBoolean ps.now }
    requires conclusion { IsBoolean q.now }
    ensures exact { IfOk result (λ t. t ≡ imp_of ps.now q.now) }
    ensures boolean { IfOk result (λ t. IsBoolean t) }
    ensures closed { HaveNoLoose ps.now → IsClosedAt 0 q.now → IfOk result (λ t. IsClosedAt 0 t) }
{
    match ps {
        [] => q.copy(),
        [p, rest @ ..] => infix(alloc, "imp", p, &imp(alloc, rest, q)?),
    }
}

/// A quantifier over a type.
fn quantifier(alloc: Global, name: &str, a: &HolType) -> Result<Term, AllocError>
    ensures { IfOk result (λ t. t ≡ tm_const name.now (a.now ∷ []) ((a.now ⇒ bool_ty) ⇒ bool_ty)) }
{
    let truth = truth_values(alloc)?;
    let alpha = HolType::var(alloc, "a")?;
    let predicate = HolType::fun(alloc, &alpha, &truth)?;
    let generic = HolType::fun(alloc, &predicate, &truth)?;
    let mut args = Vec::new(alloc);
    args.push(a.copy()?)?;
    Term::mk_const_at(alloc, name, &generic, &args)
}

/// A quantifier over a variable, in a formula.
#[tactic(auto, using(crate::proofs::FormulaLemmas::lambda_lemmas))]
fn quantified(alloc: Global, name: &str, v: &Var, t: &Term) -> Result<Term, AllocError>
    requires boolean { IsBoolean t.now }
    requires closed { IsClosedAt 0 t.now }
    ensures exact { IfOk result (λ s. s ≡ (tm_const name.now (v.now.ty ∷ []) ((v.now.ty ⇒ bool_ty) ⇒ bool_ty)) · lambda v.now t.now) }
    ensures closed { IfOk result (λ s. IsClosedAt 0 s) }
{
    let binder = quantifier(alloc, name, v.ty())?;
    let predicate = Term::mk_abs(alloc, v, t)?;
    Term::mk_comb(alloc, &binder, &predicate)
}

/// The formula for all values of the variables.
pub fn all(alloc: Global, vs: &[Var], t: &Term) -> Result<Term, AllocError>
    requires boolean { IsBoolean t.now }
    requires closed { IsClosedAt 0 t.now }
    ensures exact { IfOk result (λ s. s ≡ all_of vs.now t.now) }
    ensures boolean { IfOk result (λ s. IsBoolean s) }
    ensures closed { IfOk result (λ s. IsClosedAt 0 s) }
{
    match vs {
        [] => t.copy(),
        [v, rest @ ..] => quantified(alloc, "all", v, &all(alloc, rest, t)?),
    }
}

/// The formula for some values of the variables.
pub fn ex(alloc: Global, vs: &[Var], t: &Term) -> Result<Term, AllocError>
    requires boolean { IsBoolean t.now }
    requires closed { IsClosedAt 0 t.now }
    ensures exact { IfOk result (λ s. s ≡ ex_of vs.now t.now) }
    ensures boolean { IfOk result (λ s. IsBoolean s) }
    ensures closed { IfOk result (λ s. IsClosedAt 0 s) }
{
    match vs {
        [] => t.copy(),
        [v, rest @ ..] => quantified(alloc, "ex", v, &ex(alloc, rest, t)?),
    }
}
