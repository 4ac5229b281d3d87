//! What no clause says: that types and terms are printed where there is memory, and texts of some of them.

ghost use Rattle.std.specs.Prelude.{◌≡◌, [], IfOk, codes};
ghost use Rattle.hol_terms.specs.Definition.{bool_ty};
ghost use Rattle.hol_terms.specs.Loose.{IsClosedAt};
ghost use Rattle.hol_terms.specs.Tm.{tm_free, tm_const, tm_comb, tm_abs};
ghost use Rattle.hol_terms.specs.TyVars.{own_const};
ghost use Rattle.hol_terms.specs.Typing.{tm_type, fun_ty};
ghost use Rattle.hol_terms.specs.Binding.{tm_bind};

use hol_terms::terms::{Term, Var};
use hol_terms::types::HolType;
use hol_text::print::{print_term, print_type};
use std::alloc::{AllocError, Global};
use std::test::Fail;

fn truth(alloc: Global) -> Result<HolType, AllocError>
    ensures { IfOk result (λ t. t ≡ bool_ty) }
{
    HolType::app(alloc, "bool", &[])
}

fn truth_var(alloc: Global, name: &str) -> Result<Term, AllocError>
    ensures { IfOk result (λ t. t ≡ tm_free (record { name = name.now; ty = bool_ty })) }
{
    let v = Var::new(alloc, name, &truth(alloc)?)?;
    Term::mk_var(alloc, &v)
}

// The constant of two truth values, applied to both.
fn joined(alloc: Global, name: &str, s: &Term, t: &Term) -> Result<Term, AllocError>
    requires left { tm_type s.now ≡ bool_ty }
    requires right { tm_type t.now ≡ bool_ty }
    ensures { IfOk result (λ p. p ≡ tm_comb (tm_comb (own_const name.now (fun_ty bool_ty (fun_ty bool_ty bool_ty))) s.now) t.now) }
{
    let result_type = HolType::fun(alloc, &truth(alloc)?, &truth(alloc)?)?;
    let ty = HolType::fun(alloc, &truth(alloc)?, &result_type)?;
    let sign = Term::mk_own_const(alloc, name, &ty)?;
    Term::mk_comb(alloc, &Term::mk_comb(alloc, &sign, s)?, t)
}

fn denied(alloc: Global, p: &Term) -> Result<Term, AllocError>
    requires { tm_type p.now ≡ bool_ty }
    ensures { IfOk result (λ q. q ≡ tm_comb (own_const (codes "not") (fun_ty bool_ty bool_ty)) p.now) }
{
    let ty = HolType::fun(alloc, &truth(alloc)?, &truth(alloc)?)?;
    let sign = Term::mk_own_const(alloc, "not", &ty)?;
    Term::mk_comb(alloc, &sign, p)
}

// The quantifier of this name over a variable `v` of this type, which the body may mention.
#[tactic(auto, using(crate::proofs::TestLemmas::quantified_lemmas))]
fn quantified(alloc: Global, name: &str, ty: &HolType, body: &Term) -> Result<Term, AllocError>
    requires typed { tm_type body.now ≡ bool_ty }
    requires closed { IsClosedAt 0 body.now }
    ensures typed { IfOk result (λ q. tm_type q ≡ bool_ty) }
    ensures closed { IfOk result (λ q. IsClosedAt 0 q) }
{
    let v = Var::new(alloc, "v", ty)?;
    let scope = Term::mk_abs(alloc, &v, body)?;
    let sign_type = HolType::fun(
        alloc,
        &HolType::fun(alloc, ty, &truth(alloc)?)?,
        &truth(alloc)?,
    )?;
    let sign = Term::mk_own_const(alloc, name, &sign_type)?;
    Term::mk_comb(alloc, &sign, &scope)
}

// `(a = b) /\ ~ c`
fn connected(alloc: Global) -> Result<Term, AllocError> {
    let equation = Term::mk_eq(alloc, &truth_var(alloc, "a")?, &truth_var(alloc, "b")?)?;
    let denial = denied(alloc, &truth_var(alloc, "c")?)?;
    joined(alloc, "conj", &equation, &denial)
}

// `!x. ?y. y`, at two types
fn nested(alloc: Global) -> Result<Term, AllocError> {
    let a = HolType::var(alloc, "a")?;
    let some = quantified(alloc, "ex", &truth(alloc)?, &truth_var(alloc, "v")?)?;
    quantified(alloc, "all", &a, &some)
}

// A constant at two types.
fn generic(alloc: Global) -> Result<Term, AllocError> {
    let function = HolType::fun(
        alloc,
        &HolType::var(alloc, "a")?,
        &HolType::var(alloc, "b")?,
    )?;
    let ty = HolType::fun(alloc, &function, &truth(alloc)?)?;
    Term::mk_own_const(alloc, "one_one", &ty)
}

#[test]
fn terms_are_printed(rt: HostRuntime) -> Result<(), Fail> {
    let alloc = rt.alloc();
    let table = [
        (connected(alloc)?, "([a:bool] = [b:bool]) /\\ (~ [c:bool])"),
        (nested(alloc)?, "!x0:'a. ?x1:bool. x1"),
        (generic(alloc)?, "one_one{'a,'b}"),
        (truth_var(alloc, "v")?, "[v:bool]"),
    ];
    for (t, want) in &table {
        assert_eq!(rt; print_term(alloc, t)?.as_str(), *want);
    }
    Ok(())
}

#[test]
fn types_are_printed(rt: HostRuntime) -> Result<(), Fail> {
    let alloc = rt.alloc();
    let a = HolType::var(alloc, "a")?;
    let test = HolType::fun(alloc, &a, &truth(alloc)?)?;
    let table = [
        (HolType::app(alloc, "list", &[test])?, "('a -> bool) list"),
        (a, "'a"),
    ];
    for (t, want) in &table {
        assert_eq!(rt; print_type(alloc, t)?.as_str(), *want);
    }
    Ok(())
}
