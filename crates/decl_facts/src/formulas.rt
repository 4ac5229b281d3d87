//! Formulas that several families of facts are made of.

ghost use Rattle.std.specs.Prelude.{◌≡◌, if◌then◌else◌, IfOk};
ghost use Rattle.hol_terms.specs.Typing.{tm_type};
ghost use Rattle.hol_terms.specs.Loose.{IsClosedAt};
ghost use Rattle.stmt_core.specs.Formulas.{IsBoolean, all_of};
ghost use Rattle.decl_core.specs.Statements.{◌≐◌, ◌⟹◌, not_of};

use hol_terms::terms::{Term, Var};
use std::alloc::{AllocError, Global};
use stmt_core::connectives::{all, eq, imp, neg};

/// The formula for all values of two lists of variables.
pub(crate) fn for_all(
    alloc: Global,
    outer: &[Var],
    inner: &[Var],
    formula: &Term,
) -> Result<Term, AllocError>
    requires boolean { IsBoolean formula.now }
    requires closed { IsClosedAt 0 formula.now }
    ensures exact { IfOk result (λ s. s ≡ all_of outer.now (all_of inner.now formula.now)) }
    ensures boolean { IfOk result (λ s. IsBoolean s) }
    ensures closed { IfOk result (λ s. IsClosedAt 0 s) }
{
    all(alloc, outer, &all(alloc, inner, formula)?)
}

/// The two terms are different.
pub(crate) fn different(alloc: Global, left: &Term, right: &Term) -> Result<Term, AllocError>
    requires types { tm_type left.now ≡ tm_type right.now }
    requires left { IsClosedAt 0 left.now }
    requires right { IsClosedAt 0 right.now }
    ensures exact { IfOk result (λ s. s ≡ not_of (left.now ≐ right.now)) }
    ensures boolean { IfOk result (λ s. IsBoolean s) }
    ensures closed { IfOk result (λ s. IsClosedAt 0 s) }
{
    neg(alloc, &eq(alloc, left, right)?)
}

/// From the equation of two terms follows the conclusion.
pub(crate) fn if_equal(
    alloc: Global,
    left: &Term,
    right: &Term,
    conclusion: &Term,
) -> Result<Term, AllocError>
    requires types { tm_type left.now ≡ tm_type right.now }
    requires boolean { IsBoolean conclusion.now }
    requires left { IsClosedAt 0 left.now }
    requires right { IsClosedAt 0 right.now }
    requires conclusion { IsClosedAt 0 conclusion.now }
    ensures exact { IfOk result (λ s. s ≡ ((left.now ≐ right.now) ⟹ conclusion.now)) }
    ensures boolean { IfOk result (λ s. IsBoolean s) }
    ensures closed { IfOk result (λ s. IsClosedAt 0 s) }
{
    let premise = [eq(alloc, left, right)?];
    imp(alloc, &premise, conclusion)
}

/// The formula, or its negation.
pub(crate) fn said(alloc: Global, holds: bool, formula: &Term) -> Result<Term, AllocError>
    requires boolean { IsBoolean formula.now }
    requires closed { IsClosedAt 0 formula.now }
    ensures exact { IfOk result (λ s. s ≡ (if holds then formula.now else not_of formula.now)) }
    ensures boolean { IfOk result (λ s. IsBoolean s) }
    ensures closed { IfOk result (λ s. IsClosedAt 0 s) }
{
    if holds {
        formula.copy()
    } else {
        neg(alloc, formula)
    }
}
