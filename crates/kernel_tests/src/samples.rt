//! Types, variables and formulas that the tests start from.

ghost use Rattle.std.specs.Prelude.{◌≡◌, IfOk};
ghost use Rattle.hol_terms.specs.Tm.{tm_free};
ghost use Rattle.hol_terms.specs.Definition.{bool_ty};

use hol_terms::terms::{Term, Var};
use hol_terms::types::HolType;
use std::alloc::{AllocError, Global};

pub(crate) fn truth_values(alloc: Global) -> Result<HolType, AllocError>
    ensures { IfOk result (λ t. t ≡ bool_ty) }
{
    HolType::app(alloc, "bool", &[])
}

pub(crate) fn variable(alloc: Global, name: &str) -> Result<Var, AllocError>
    ensures { IfOk result (λ v. v ≡ record { name = name.now; ty = bool_ty }) }
{
    let truth = truth_values(alloc)?;
    Var::new(alloc, name, &truth)
}

pub(crate) fn formula(alloc: Global, name: &str) -> Result<Term, AllocError>
    ensures { IfOk result (λ t. t ≡ tm_free (record { name = name.now; ty = bool_ty })) }
{
    let v = variable(alloc, name)?;
    Term::mk_var(alloc, &v)
}
