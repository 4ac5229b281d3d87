//! The two equations of a new type that a predicate P carves out of an old one, with the functions `abs` and `rep` between the
//! two types.

ghost use Rattle.std.specs.Prelude.{◌≡◌, ◌++◌, IfOk, string_bytes};
ghost use Rattle.hol_terms.specs.Table.{IsPredicate};
ghost use Rattle.hol_terms.specs.Definition.{new_type};
ghost use Rattle.hol_terms.specs.Proves.{abs_const, rep_const, new_var, old_var, abs_rep, rep_abs};

use hol_terms::terms::{Term, Var};
use hol_terms::types::HolType;
use std::alloc::{AllocError, Global};

/// `abs (rep a) = a`.
pub(crate) fn abs_of_rep(alloc: Global, name: &str, pred: &Term) -> Result<Term, AllocError>
    requires { IsPredicate pred.now }
    ensures { IfOk result (λ t. t ≡ abs_rep name.now pred.now) }
{
    let abs = abs_function(alloc, name, pred)?;
    let rep = rep_function(alloc, name, pred)?;
    let a = new_variable(alloc, name, pred)?;
    let there = Term::mk_comb(alloc, &rep, &a)?;
    let back = Term::mk_comb(alloc, &abs, &there)?;
    Term::mk_eq(alloc, &back, &a)
}

/// `P r = (rep (abs r) = r)`.
pub(crate) fn rep_of_abs(alloc: Global, name: &str, pred: &Term) -> Result<Term, AllocError>
    requires { IsPredicate pred.now }
    ensures { IfOk result (λ t. t ≡ rep_abs name.now pred.now) }
{
    let abs = abs_function(alloc, name, pred)?;
    let rep = rep_function(alloc, name, pred)?;
    let r = old_variable(alloc, pred)?;
    let holds = Term::mk_comb(alloc, pred, &r)?;
    let there = Term::mk_comb(alloc, &abs, &r)?;
    let back = Term::mk_comb(alloc, &rep, &there)?;
    let same = Term::mk_eq(alloc, &back, &r)?;
    Term::mk_eq(alloc, &holds, &same)
}

fn abs_function(alloc: Global, name: &str, pred: &Term) -> Result<Term, AllocError>
    requires { IsPredicate pred.now }
    ensures { IfOk result (λ t. t ≡ abs_const name.now pred.now) }
{
    let new = type_at_variables(alloc, name, pred)?;
    let ty = HolType::fun(alloc, pred.type_of().domain(), &new)?;
    let name = dotted(alloc, name, ".abs")?;
    Term::mk_own_const(alloc, name.as_str(), &ty)
}

fn rep_function(alloc: Global, name: &str, pred: &Term) -> Result<Term, AllocError>
    requires { IsPredicate pred.now }
    ensures { IfOk result (λ t. t ≡ rep_const name.now pred.now) }
{
    let new = type_at_variables(alloc, name, pred)?;
    let ty = HolType::fun(alloc, &new, pred.type_of().domain())?;
    let name = dotted(alloc, name, ".rep")?;
    Term::mk_own_const(alloc, name.as_str(), &ty)
}

/// A variable of the new type.
fn new_variable(alloc: Global, name: &str, pred: &Term) -> Result<Term, AllocError>
    ensures { IfOk result (λ t. t ≡ new_var name.now pred.now) }
{
    let ty = type_at_variables(alloc, name, pred)?;
    let a = Var::new(alloc, "a", &ty)?;
    Term::mk_var(alloc, &a)
}

/// A variable of the old type.
fn old_variable(alloc: Global, pred: &Term) -> Result<Term, AllocError>
    requires { IsPredicate pred.now }
    ensures { IfOk result (λ t. t ≡ old_var pred.now) }
{
    let r = Var::new(alloc, "r", pred.type_of().domain())?;
    Term::mk_var(alloc, &r)
}

/// The new type at the type variables of the predicate.
fn type_at_variables(alloc: Global, name: &str, pred: &Term) -> Result<HolType, AllocError>
    ensures { IfOk result (λ t. t ≡ new_type name.now pred.now) }
{
    let parameters = pred.ty_vars(alloc)?;
    HolType::app(alloc, name, &parameters)
}

fn dotted(alloc: Global, name: &str, end: &str) -> Result<String, AllocError>
    ensures { IfOk result (λ s. string_bytes s ≡ name.now ++ end.now) }
{
    let mut whole = String::from_str(alloc, name)?;
    whole.push_str(end)?;
    Ok(whole)
}
