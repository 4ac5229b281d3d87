//! On constructors alone: where their values are equal, and that there are no others.

ghost use Rattle.std.specs.Prelude.{◌≡◌, ◌++◌, map, IfOk, OnOk};
ghost use Rattle.hol_terms.specs.Tm.{tm_free};
ghost use Rattle.hol_terms.specs.Typing.{tm_type};
ghost use Rattle.hol_terms.specs.Loose.{IsClosedAt};
ghost use Rattle.stmt_core.specs.Formulas.{HaveNoLoose, AreBoolean, IsBoolean, conj_of, imp_of};
ghost use Rattle.decl_core.specs.Statements.{◌≐◌, equations, when};
ghost use Rattle.decl_core.specs.FreeConstructors.{inject, inject_fact, inject_facts, has_args, distinct, distinct_fact, distinct_from, distinct_facts, case_premise, exhaust, exhaust_facts, t, p};

use crate::formulas::{different, for_all, if_equal};
use crate::parts::{Applied, any_value, joined, proposition, suffixed};
use crate::terms::equations;
use decl_core::declarations::{Constructor, Declaration};
use decl_core::facts::NamedFact;
use hol_terms::terms::{Term, Var};
use std::alloc::{AllocError, Global};
use stmt_core::connectives::{all, conj, eq, imp};

/// Two values are equal where the arguments are.
fn equal_by_arguments(alloc: Global, x: &Applied, y: &Applied) -> Result<Term, AllocError>
    requires types { tm_type x.now.value ≡ tm_type y.now.value }
    requires argument_types { map tm_type x.now.args.items ≡ map tm_type y.now.args.items }
    requires x_closed { IsClosedAt 0 x.now.value × HaveNoLoose x.now.args.items }
    requires y_closed { IsClosedAt 0 y.now.value × HaveNoLoose y.now.args.items }
    ensures exact { IfOk result (λ s. s ≡ ((x.now.value ≐ y.now.value) ≐ conj_of (equations x.now.args.items y.now.args.items))) }
    ensures boolean { IfOk result (λ s. IsBoolean s) }
    ensures closed { IfOk result (λ s. IsClosedAt 0 s) }
{
    let same = eq(alloc, &x.value, &y.value)?;
    let parts = equations(alloc, &x.args, &y.args)?;
    eq(alloc, &same, &conj(alloc, &parts)?)
}

#[tactic(auto, using(crate::proofs::Branches::types_lemmas))]
fn inject(alloc: Global, decl: &Declaration, ctor: &Constructor) -> Result<Term, AllocError>
    ensures { IfOk result (λ s. s ≡ inject decl.now ctor.now) }
{
    let x = Applied::new(alloc, decl, ctor, "x")?;
    let y = Applied::new(alloc, decl, ctor, "y")?;
    let formula = equal_by_arguments(alloc, &x, &y)?;
    for_all(alloc, &x.vars, &y.vars, &formula)
}

fn inject_fact(
    alloc: Global,
    decl: &Declaration,
    ctor: &Constructor,
) -> Result<NamedFact, AllocError>
    ensures { IfOk result (λ f. f ≡ inject_fact decl.now ctor.now) }
{
    let name = joined(alloc, decl.name(), ".inject.", ctor.name())?;
    let statement = inject(alloc, decl, ctor)?;
    Ok(NamedFact::new(name, statement))
}

fn push_inject_fact(
    alloc: Global,
    decl: &Declaration,
    ctor: &Constructor,
    facts: &mut Vec<NamedFact>,
) -> Result<(), AllocError>
    ensures { OnOk result (facts.new.items ≡ facts.old.items ++ when (has_args ctor.now) (inject_fact decl.now ctor.now)) }
{
    if !ctor.args().is_empty() {
        facts.push(inject_fact(alloc, decl, ctor)?)?;
    }
    Ok(())
}

/// Adds the injectivity of each constructor with arguments.
pub(crate) fn push_inject_facts(
    alloc: Global,
    decl: &Declaration,
    facts: &mut Vec<NamedFact>,
) -> Result<(), AllocError>
    ensures { OnOk result (facts.new.items ≡ facts.old.items ++ inject_facts decl.now) }
{
    for ctor in decl.ctors() {
        push_inject_fact(alloc, decl, ctor, facts)?;
    }
    Ok(())
}

fn distinct(
    alloc: Global,
    decl: &Declaration,
    ctor: &Constructor,
    other: &Constructor,
) -> Result<Term, AllocError>
    ensures { IfOk result (λ s. s ≡ distinct decl.now ctor.now other.now) }
{
    let x = Applied::new(alloc, decl, ctor, "x")?;
    let y = Applied::new(alloc, decl, other, "y")?;
    let formula = different(alloc, &x.value, &y.value)?;
    for_all(alloc, &x.vars, &y.vars, &formula)
}

fn distinct_fact(
    alloc: Global,
    decl: &Declaration,
    ctor: &Constructor,
    other: &Constructor,
) -> Result<NamedFact, AllocError>
    ensures { IfOk result (λ f. f ≡ distinct_fact decl.now ctor.now other.now) }
{
    let first = joined(alloc, decl.name(), ".distinct.", ctor.name())?;
    let name = joined(alloc, first.as_str(), ".", other.name())?;
    let statement = distinct(alloc, decl, ctor, other)?;
    Ok(NamedFact::new(name, statement))
}

/// Adds that values of different constructors differ, for each of `ctors` and each behind it.
#[tactic(auto, using(crate::proofs::Numbered::append_lemmas))]
fn push_distinct_from(
    alloc: Global,
    decl: &Declaration,
    ctors: &[Constructor],
    facts: &mut Vec<NamedFact>,
) -> Result<(), AllocError>
    ensures { OnOk result (facts.new.items ≡ facts.old.items ++ distinct_from decl.now ctors.now) }
{
    let [ctor, rest @ ..] = ctors else {
        return Ok(());
    };
    for other in rest {
        facts.push(distinct_fact(alloc, decl, ctor, other)?)?;
    }
    push_distinct_from(alloc, decl, rest, facts)
}

/// Adds that values of different constructors differ.
pub(crate) fn push_distinct_facts(
    alloc: Global,
    decl: &Declaration,
    facts: &mut Vec<NamedFact>,
) -> Result<(), AllocError>
    ensures { OnOk result (facts.new.items ≡ facts.old.items ++ distinct_facts decl.now) }
{
    push_distinct_from(alloc, decl, decl.ctors(), facts)
}

/// Where the value is one of the constructor, the goal holds.
fn case_premise(
    alloc: Global,
    decl: &Declaration,
    ctor: &Constructor,
    value: &Term,
    goal: &Term,
) -> Result<Term, AllocError>
    requires value { value.now ≡ tm_free (t decl.now) }
    requires goal { goal.now ≡ tm_free p }
    ensures exact { IfOk result (λ s. s ≡ case_premise decl.now ctor.now) }
    ensures boolean { IfOk result (λ s. IsBoolean s) }
    ensures closed { IfOk result (λ s. IsClosedAt 0 s) }
{
    let x = Applied::new(alloc, decl, ctor, "x")?;
    let formula = if_equal(alloc, value, &x.value, goal)?;
    all(alloc, &x.vars, &formula)
}

#[tactic(auto, using(crate::proofs::FormulaLists::formulas_lemmas))]
fn case_premises(
    alloc: Global,
    decl: &Declaration,
    value: &Term,
    goal: &Term,
) -> Result<Vec<Term>, AllocError>
    requires value { value.now ≡ tm_free (t decl.now) }
    requires goal { goal.now ≡ tm_free p }
    ensures exact { IfOk result (λ v. v.items ≡ map (case_premise decl.now) decl.now.ctors) }
    ensures boolean { IfOk result (λ v. AreBoolean v.items) }
    ensures closed { IfOk result (λ v. HaveNoLoose v.items) }
{
    let mut premises = Vec::new(alloc);
    for ctor in decl.ctors() {
        premises.push(case_premise(alloc, decl, ctor, value, goal)?)?;
    }
    Ok(premises)
}

#[tactic(auto, using(crate::proofs::FormulaLists::formulas_lemmas))]
fn exhaust_formula(
    alloc: Global,
    decl: &Declaration,
    value: &Var,
    goal: &Var,
) -> Result<Term, AllocError>
    requires value { value.now ≡ t decl.now }
    requires goal { goal.now ≡ p }
    ensures exact { IfOk result (λ s. s ≡ imp_of (map (case_premise decl.now) decl.now.ctors) (tm_free p)) }
    ensures boolean { IfOk result (λ s. IsBoolean s) }
    ensures closed { IfOk result (λ s. IsClosedAt 0 s) }
{
    let value = Term::mk_var(alloc, value)?;
    let goal = Term::mk_var(alloc, goal)?;
    let premises = case_premises(alloc, decl, &value, &goal)?;
    imp(alloc, &premises, &goal)
}

fn exhaust(alloc: Global, decl: &Declaration) -> Result<Term, AllocError>
    ensures { IfOk result (λ s. s ≡ exhaust decl.now) }
{
    let value = any_value(alloc, decl)?;
    let goal = proposition(alloc)?;
    let formula = exhaust_formula(alloc, decl, &value, &goal)?;
    all(alloc, &[value, goal], &formula)
}

/// Adds that each value is one of some constructor.
pub(crate) fn push_exhaust_fact(
    alloc: Global,
    decl: &Declaration,
    facts: &mut Vec<NamedFact>,
) -> Result<(), AllocError>
    ensures { OnOk result (facts.new.items ≡ facts.old.items ++ exhaust_facts decl.now) }
{
    let name = suffixed(alloc, decl.name(), ".exhaust")?;
    let statement = exhaust(alloc, decl)?;
    facts.push(NamedFact::new(name, statement))?;
    Ok(())
}
