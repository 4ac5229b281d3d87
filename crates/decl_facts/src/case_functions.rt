//! On the case function.

ghost use Rattle.std.specs.Prelude.{◌≡◌, [], ◌∷◌, ◌++◌, IfOk, OnOk};
ghost use Rattle.hol_terms.specs.Tm.{tm_free};
ghost use Rattle.hol_terms.specs.Notation.{◌·◌};
ghost use Rattle.hol_terms.specs.Loose.{IsClosedAt};
ghost use Rattle.stmt_core.specs.Formulas.{HaveNoLoose, AreBoolean, IsBoolean, conj_of, all_of};
ghost use Rattle.decl_core.specs.Statements.{◌≐◌, each_from, frees};
ghost use Rattle.decl_core.specs.FreeConstructors.{xs, fs, branch_xs, of_xs, case_of, case_at, case_fact, case_facts, split_part, split, split_facts, t, P};

use crate::formulas::{for_all, if_equal};
use crate::parts::{
    Applied, any_value, branch_result, branches, case_function, joined, property, suffixed,
};
use decl_core::declarations::{Constructor, Declaration};
use decl_core::facts::NamedFact;
use hol_terms::terms::{Term, Var};
use std::alloc::{AllocError, Global};
use stmt_core::connectives::{all, conj, eq};

/// The case function of a value of the constructor is the constructor's function of the arguments.
fn case_equation(
    alloc: Global,
    decl: &Declaration,
    branches: &[Var],
    number: usize,
    ctor: &Constructor,
    x: &Applied,
) -> Result<Term, AllocError>
    requires functions { branches.now ≡ fs decl.now }
    requires value { x.now.value ≡ of_xs decl.now ctor.now }
    requires args { x.now.args.items ≡ frees (xs ctor.now) }
    requires closed { IsClosedAt 0 x.now.value }
    ensures exact { IfOk result (λ s. s ≡ (case_of decl.now (of_xs decl.now ctor.now) ≐ branch_xs number ctor.now)) }
    ensures boolean { IfOk result (λ s. IsBoolean s) }
    ensures closed { IfOk result (λ s. IsClosedAt 0 s) }
{
    let case = case_function(alloc, decl, branches, &x.value)?;
    let branch = branch_result(alloc, number, ctor, &x.args)?;
    eq(alloc, &case, &branch)
}

fn case_at(
    alloc: Global,
    decl: &Declaration,
    branches: &[Var],
    number: usize,
    ctor: &Constructor,
) -> Result<Term, AllocError>
    requires { branches.now ≡ fs decl.now }
    ensures { IfOk result (λ s. s ≡ case_at decl.now number ctor.now) }
{
    let x = Applied::new(alloc, decl, ctor, "x")?;
    let formula = case_equation(alloc, decl, branches, number, ctor, &x)?;
    for_all(alloc, branches, &x.vars, &formula)
}

fn case_fact(
    alloc: Global,
    decl: &Declaration,
    branches: &[Var],
    number: usize,
    ctor: &Constructor,
) -> Result<NamedFact, AllocError>
    requires { branches.now ≡ fs decl.now }
    ensures { IfOk result (λ f. f ≡ case_fact decl.now number ctor.now) }
{
    let name = joined(alloc, decl.name(), ".case.", ctor.name())?;
    let statement = case_at(alloc, decl, branches, number, ctor)?;
    Ok(NamedFact::new(name, statement))
}

/// Adds what the case function is at each constructor.
pub(crate) fn push_case_facts(
    alloc: Global,
    decl: &Declaration,
    facts: &mut Vec<NamedFact>,
) -> Result<(), AllocError>
    ensures { OnOk result (facts.new.items ≡ facts.old.items ++ case_facts decl.now) }
{
    let branches = branches(alloc, decl)?;
    for (i, ctor) in decl.ctors().iter().enumerate() {
        facts.push(case_fact(alloc, decl, &branches, i + 1, ctor)?)?;
    }
    Ok(())
}

/// The property holds of the constructor's function of the arguments.
fn holds_of_branch(
    alloc: Global,
    number: usize,
    ctor: &Constructor,
    args: &[Term],
    property: &Term,
) -> Result<Term, AllocError>
    requires args { args.now ≡ frees (xs ctor.now) }
    requires property { property.now ≡ tm_free P }
    ensures exact { IfOk result (λ s. s ≡ (tm_free P · branch_xs number ctor.now)) }
    ensures boolean { IfOk result (λ s. IsBoolean s) }
    ensures closed { IfOk result (λ s. IsClosedAt 0 s) }
{
    let branch = branch_result(alloc, number, ctor, args)?;
    Term::mk_comb(alloc, property, &branch)
}

/// Where the value is one of the constructor, the property holds of its function of the arguments.
fn split_part(
    alloc: Global,
    decl: &Declaration,
    number: usize,
    ctor: &Constructor,
    value: &Term,
    property: &Term,
) -> Result<Term, AllocError>
    requires value { value.now ≡ tm_free (t decl.now) }
    requires property { property.now ≡ tm_free P }
    ensures exact { IfOk result (λ s. s ≡ split_part decl.now number ctor.now) }
    ensures boolean { IfOk result (λ s. IsBoolean s) }
    ensures closed { IfOk result (λ s. IsClosedAt 0 s) }
{
    let x = Applied::new(alloc, decl, ctor, "x")?;
    let holds = holds_of_branch(alloc, number, ctor, &x.args, property)?;
    let formula = if_equal(alloc, value, &x.value, &holds)?;
    all(alloc, &x.vars, &formula)
}

#[tactic(auto, using(crate::proofs::FormulaLists::formulas_lemmas))]
fn split_parts(
    alloc: Global,
    decl: &Declaration,
    value: &Term,
    property: &Term,
) -> Result<Vec<Term>, AllocError>
    requires value { value.now ≡ tm_free (t decl.now) }
    requires property { property.now ≡ tm_free P }
    ensures exact { IfOk result (λ v. v.items ≡ each_from (split_part decl.now) 1 decl.now.ctors) }
    ensures boolean { IfOk result (λ v. AreBoolean v.items) }
    ensures closed { IfOk result (λ v. HaveNoLoose v.items) }
{
    let mut parts = Vec::new(alloc);
    for (i, ctor) in decl.ctors().iter().enumerate() {
        parts.push(split_part(alloc, decl, i + 1, ctor, value, property)?)?;
    }
    Ok(parts)
}

/// All of the parts.
fn split_right(
    alloc: Global,
    decl: &Declaration,
    value: &Term,
    property: &Term,
) -> Result<Term, AllocError>
    requires value { value.now ≡ tm_free (t decl.now) }
    requires property { property.now ≡ tm_free P }
    ensures exact { IfOk result (λ s. s ≡ conj_of (each_from (split_part decl.now) 1 decl.now.ctors)) }
    ensures boolean { IfOk result (λ s. IsBoolean s) }
    ensures closed { IfOk result (λ s. IsClosedAt 0 s) }
{
    let parts = split_parts(alloc, decl, value, property)?;
    conj(alloc, &parts)
}

/// The property holds of the case function of the value.
fn split_left(
    alloc: Global,
    decl: &Declaration,
    branches: &[Var],
    value: &Term,
    property: &Term,
) -> Result<Term, AllocError>
    requires functions { branches.now ≡ fs decl.now }
    requires value { value.now ≡ tm_free (t decl.now) }
    requires property { property.now ≡ tm_free P }
    ensures exact { IfOk result (λ s. s ≡ (tm_free P · case_of decl.now (tm_free (t decl.now)))) }
    ensures boolean { IfOk result (λ s. IsBoolean s) }
    ensures closed { IfOk result (λ s. IsClosedAt 0 s) }
{
    let case = case_function(alloc, decl, branches, value)?;
    Term::mk_comb(alloc, property, &case)
}

fn split_equation(
    alloc: Global,
    decl: &Declaration,
    branches: &[Var],
    value: &Term,
    property: &Term,
) -> Result<Term, AllocError>
    requires functions { branches.now ≡ fs decl.now }
    requires value { value.now ≡ tm_free (t decl.now) }
    requires property { property.now ≡ tm_free P }
    ensures exact { IfOk result (λ s. s ≡ ((tm_free P · case_of decl.now (tm_free (t decl.now))) ≐ conj_of (each_from (split_part decl.now) 1 decl.now.ctors))) }
    ensures boolean { IfOk result (λ s. IsBoolean s) }
    ensures closed { IfOk result (λ s. IsClosedAt 0 s) }
{
    let left = split_left(alloc, decl, branches, value, property)?;
    let right = split_right(alloc, decl, value, property)?;
    eq(alloc, &left, &right)
}

/// The equation for a value and a property that are variables.
fn split_formula(
    alloc: Global,
    decl: &Declaration,
    branches: &[Var],
    value: &Var,
    property: &Var,
) -> Result<Term, AllocError>
    requires functions { branches.now ≡ fs decl.now }
    requires value { value.now ≡ t decl.now }
    requires property { property.now ≡ P }
    ensures exact { IfOk result (λ s. s ≡ ((tm_free P · case_of decl.now (tm_free (t decl.now))) ≐ conj_of (each_from (split_part decl.now) 1 decl.now.ctors))) }
    ensures boolean { IfOk result (λ s. IsBoolean s) }
    ensures closed { IfOk result (λ s. IsClosedAt 0 s) }
{
    let value = Term::mk_var(alloc, value)?;
    let property = Term::mk_var(alloc, property)?;
    split_equation(alloc, decl, branches, &value, &property)
}

/// The equation for all functions and values.
fn split_for_values(alloc: Global, decl: &Declaration, property: &Var) -> Result<Term, AllocError>
    requires { property.now ≡ P }
    ensures exact { IfOk result (λ s. s ≡ all_of (fs decl.now) (all_of (t decl.now ∷ []) ((tm_free P · case_of decl.now (tm_free (t decl.now))) ≐ conj_of (each_from (split_part decl.now) 1 decl.now.ctors)))) }
    ensures boolean { IfOk result (λ s. IsBoolean s) }
    ensures closed { IfOk result (λ s. IsClosedAt 0 s) }
{
    let branches = branches(alloc, decl)?;
    let value = any_value(alloc, decl)?;
    let formula = split_formula(alloc, decl, &branches, &value, property)?;
    for_all(alloc, &branches, &[value], &formula)
}

fn split(alloc: Global, decl: &Declaration) -> Result<Term, AllocError>
    ensures { IfOk result (λ s. s ≡ split decl.now) }
{
    let property = property(alloc)?;
    let formula = split_for_values(alloc, decl, &property)?;
    all(alloc, &[property], &formula)
}

/// Adds that what holds of the case function's result holds in each case.
pub(crate) fn push_split_fact(
    alloc: Global,
    decl: &Declaration,
    facts: &mut Vec<NamedFact>,
) -> Result<(), AllocError>
    ensures { OnOk result (facts.new.items ≡ facts.old.items ++ split_facts decl.now) }
{
    let name = suffixed(alloc, decl.name(), ".split")?;
    let statement = split(alloc, decl)?;
    facts.push(NamedFact::new(name, statement))?;
    Ok(())
}
