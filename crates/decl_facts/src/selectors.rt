//! On discriminators and selectors.

ghost use Rattle.std.specs.Prelude.{◌≡◌, ◌∷◌, ◌++◌, ◌&&◌, codes, map, unwrap_or, [], if◌then◌else◌, bytes_eq, IfOk, OnOk};
ghost use Rattle.hol_terms.specs.Tm.{tm_free};
ghost use Rattle.hol_terms.specs.Typing.{tm_type};
ghost use Rattle.hol_terms.specs.Loose.{IsClosedAt};
ghost use Rattle.stmt_core.specs.Formulas.{HaveNoLoose, IsBoolean};
ghost use Rattle.decl_core.specs.Statements.{◌≐◌, ◌⟹◌, call, numbered, for_some, flat_map_from, when};
ghost use Rattle.decl_core.specs.FreeConstructors.{t, value, is_of, disc, disc_fact, disc_facts, sel, sel_fact, sel_facts_of, sel_facts, selection, collapse, collapse_fact, collapse_facts, has_args, have_selectors};

use crate::formulas::said;
use crate::parts::{Applied, any_value, discriminator, joined};
use crate::terms::{call, numbered};
use decl_core::declarations::{Argument, Constructor, Declaration};
use decl_core::facts::NamedFact;
use hol_terms::terms::Term;
use std::alloc::{AllocError, Global};
use stmt_core::connectives::{all, eq, imp};

fn disc(
    alloc: Global,
    decl: &Declaration,
    ctor: &Constructor,
    other: &Constructor,
) -> Result<Term, AllocError>
    ensures { IfOk result (λ s. s ≡ disc decl.now ctor.now other.now) }
{
    let x = Applied::new(alloc, decl, other, "x")?;
    let holds = discriminator(alloc, decl, ctor, &x.value)?;
    let formula = said(alloc, ctor.name() == other.name(), &holds)?;
    all(alloc, &x.vars, &formula)
}

fn disc_fact(
    alloc: Global,
    decl: &Declaration,
    ctor: &Constructor,
    other: &Constructor,
) -> Result<NamedFact, AllocError>
    ensures { IfOk result (λ f. f ≡ disc_fact decl.now ctor.now other.now) }
{
    let first = joined(alloc, decl.name(), ".disc.", ctor.name())?;
    let name = joined(alloc, first.as_str(), ".", other.name())?;
    let statement = disc(alloc, decl, ctor, other)?;
    Ok(NamedFact::new(name, statement))
}

/// Adds whether the discriminator of the constructor holds of the values of each.
fn push_disc_facts_of(
    alloc: Global,
    decl: &Declaration,
    ctor: &Constructor,
    facts: &mut Vec<NamedFact>,
) -> Result<(), AllocError>
    ensures { OnOk result (facts.new.items ≡ facts.old.items ++ map (disc_fact decl.now ctor.now) decl.now.ctors) }
{
    for other in decl.ctors() {
        facts.push(disc_fact(alloc, decl, ctor, other)?)?;
    }
    Ok(())
}

/// Adds whether each discriminator holds of the values of each constructor.
pub(crate) fn push_disc_facts(
    alloc: Global,
    decl: &Declaration,
    facts: &mut Vec<NamedFact>,
) -> Result<(), AllocError>
    ensures { OnOk result (facts.new.items ≡ facts.old.items ++ disc_facts decl.now) }
{
    for ctor in decl.ctors() {
        push_disc_facts_of(alloc, decl, ctor, facts)?;
    }
    Ok(())
}

/// The selector of the value is the variable of the number.
fn selected(
    alloc: Global,
    number: usize,
    arg: &Argument,
    selector: &str,
    subject: &Term,
) -> Result<Term, AllocError>
    requires { IsClosedAt 0 subject.now }
    ensures exact { IfOk result (λ s. s ≡ (call selector.now (subject.now ∷ []) arg.now.ty ≐ tm_free (numbered (codes "x") number arg.now.ty))) }
    ensures boolean { IfOk result (λ s. IsBoolean s) }
    ensures closed { IfOk result (λ s. IsClosedAt 0 s) }
{
    let var = numbered(alloc, "x", number, arg.ty())?;
    let got = select(alloc, selector, arg, subject)?;
    eq(alloc, &got, &Term::mk_var(alloc, &var)?)
}

/// The selector of the value.
fn select(alloc: Global, selector: &str, arg: &Argument, subject: &Term) -> Result<Term, AllocError>
    requires { IsClosedAt 0 subject.now }
    ensures exact { IfOk result (λ s. s ≡ call selector.now (subject.now ∷ []) arg.now.ty) }
    ensures typed { IfOk result (λ s. tm_type s ≡ arg.now.ty) }
    ensures closed { IfOk result (λ s. IsClosedAt 0 s) }
{
    let args = [subject.copy()?];
    call(alloc, selector, &args, arg.ty())
}

fn sel(
    alloc: Global,
    decl: &Declaration,
    ctor: &Constructor,
    number: usize,
    arg: &Argument,
    selector: &str,
) -> Result<Term, AllocError>
    ensures { IfOk result (λ s. s ≡ sel decl.now ctor.now number arg.now selector.now) }
{
    let x = Applied::new(alloc, decl, ctor, "x")?;
    let formula = selected(alloc, number, arg, selector, &x.value)?;
    all(alloc, &x.vars, &formula)
}

fn sel_fact(
    alloc: Global,
    decl: &Declaration,
    ctor: &Constructor,
    number: usize,
    arg: &Argument,
    selector: &str,
) -> Result<NamedFact, AllocError>
    ensures { IfOk result (λ f. f ≡ sel_fact decl.now ctor.now number arg.now selector.now) }
{
    let name = joined(alloc, decl.name(), ".sel.", selector)?;
    let statement = sel(alloc, decl, ctor, number, arg, selector)?;
    Ok(NamedFact::new(name, statement))
}

fn push_sel_fact(
    alloc: Global,
    decl: &Declaration,
    ctor: &Constructor,
    number: usize,
    arg: &Argument,
    facts: &mut Vec<NamedFact>,
) -> Result<(), AllocError>
    ensures { OnOk result (facts.new.items ≡ facts.old.items ++ sel_facts_of decl.now ctor.now number arg.now) }
{
    if let Some(selector) = arg.selector() {
        facts.push(sel_fact(alloc, decl, ctor, number, arg, selector)?)?;
    }
    Ok(())
}

/// Adds what each selector of the constructor gives.
fn push_sel_facts_of(
    alloc: Global,
    decl: &Declaration,
    ctor: &Constructor,
    facts: &mut Vec<NamedFact>,
) -> Result<(), AllocError>
    ensures { OnOk result (facts.new.items ≡ facts.old.items ++ flat_map_from (sel_facts_of decl.now ctor.now) 1 ctor.now.args) }
{
    for (i, arg) in ctor.args().iter().enumerate() {
        push_sel_fact(alloc, decl, ctor, i + 1, arg, facts)?;
    }
    Ok(())
}

/// Adds what each selector gives.
pub(crate) fn push_sel_facts(
    alloc: Global,
    decl: &Declaration,
    facts: &mut Vec<NamedFact>,
) -> Result<(), AllocError>
    ensures { OnOk result (facts.new.items ≡ facts.old.items ++ sel_facts decl.now) }
{
    for ctor in decl.ctors() {
        push_sel_facts_of(alloc, decl, ctor, facts)?;
    }
    Ok(())
}

/// What the selector of the argument gives.
fn selection(
    alloc: Global,
    decl: &Declaration,
    arg: &Argument,
    subject: &Term,
) -> Result<Term, AllocError>
    requires { subject.now ≡ tm_free (t decl.now) }
    ensures exact { IfOk result (λ s. s ≡ selection decl.now arg.now) }
    ensures closed { IfOk result (λ s. IsClosedAt 0 s) }
{
    select(alloc, arg.selector().unwrap_or(""), arg, subject)
}

#[tactic(auto, using(crate::proofs::FormulaLists::formulas_lemmas))]
fn selections(
    alloc: Global,
    decl: &Declaration,
    ctor: &Constructor,
    subject: &Term,
) -> Result<Vec<Term>, AllocError>
    requires { subject.now ≡ tm_free (t decl.now) }
    ensures exact { IfOk result (λ v. v.items ≡ map (selection decl.now) ctor.now.args) }
    ensures closed { IfOk result (λ v. HaveNoLoose v.items) }
{
    let mut parts = Vec::new(alloc);
    for arg in ctor.args() {
        parts.push(selection(alloc, decl, arg, subject)?)?;
    }
    Ok(parts)
}

/// What the selectors give makes the value again.
fn remade(
    alloc: Global,
    decl: &Declaration,
    ctor: &Constructor,
    subject: &Term,
) -> Result<Term, AllocError>
    requires { subject.now ≡ tm_free (t decl.now) }
    ensures exact { IfOk result (λ s. s ≡ (value decl.now ctor.now (map (selection decl.now) ctor.now.args) ≐ tm_free (t decl.now))) }
    ensures boolean { IfOk result (λ s. IsBoolean s) }
    ensures closed { IfOk result (λ s. IsClosedAt 0 s) }
{
    let parts = selections(alloc, decl, ctor, subject)?;
    let made = call(alloc, ctor.name(), &parts, decl.ty())?;
    eq(alloc, &made, subject)
}

fn collapse_formula(
    alloc: Global,
    decl: &Declaration,
    ctor: &Constructor,
    subject: &Term,
) -> Result<Term, AllocError>
    requires { subject.now ≡ tm_free (t decl.now) }
    ensures exact { IfOk result (λ s. s ≡ (is_of decl.now ctor.now (tm_free (t decl.now)) ⟹ (value decl.now ctor.now (map (selection decl.now) ctor.now.args) ≐ tm_free (t decl.now)))) }
    ensures boolean { IfOk result (λ s. IsBoolean s) }
    ensures closed { IfOk result (λ s. IsClosedAt 0 s) }
{
    let premise = [discriminator(alloc, decl, ctor, subject)?];
    let equation = remade(alloc, decl, ctor, subject)?;
    imp(alloc, &premise, &equation)
}

fn collapse(alloc: Global, decl: &Declaration, ctor: &Constructor) -> Result<Term, AllocError>
    ensures { IfOk result (λ s. s ≡ collapse decl.now ctor.now) }
{
    let var = any_value(alloc, decl)?;
    let subject = Term::mk_var(alloc, &var)?;
    let formula = collapse_formula(alloc, decl, ctor, &subject)?;
    all(alloc, &[var], &formula)
}

fn collapse_fact(
    alloc: Global,
    decl: &Declaration,
    ctor: &Constructor,
) -> Result<NamedFact, AllocError>
    ensures { IfOk result (λ f. f ≡ collapse_fact decl.now ctor.now) }
{
    let name = joined(alloc, decl.name(), ".collapse.", ctor.name())?;
    let statement = collapse(alloc, decl, ctor)?;
    Ok(NamedFact::new(name, statement))
}

/// Whether each of the arguments has a selector.
fn have_selectors(args: &[Argument]) -> bool
    ensures { result ≡ have_selectors args.now }
{
    args.iter().all(|arg| arg.selector().is_some())
}

fn push_collapse_fact(
    alloc: Global,
    decl: &Declaration,
    ctor: &Constructor,
    facts: &mut Vec<NamedFact>,
) -> Result<(), AllocError>
    ensures { OnOk result (facts.new.items ≡ facts.old.items ++ when (has_args ctor.now && have_selectors ctor.now.args) (collapse_fact decl.now ctor.now)) }
{
    if !ctor.args().is_empty() && have_selectors(ctor.args()) {
        facts.push(collapse_fact(alloc, decl, ctor)?)?;
    }
    Ok(())
}

/// Adds, for each constructor with arguments that all have selectors, that its values are made again of what these give.
pub(crate) fn push_collapse_facts(
    alloc: Global,
    decl: &Declaration,
    facts: &mut Vec<NamedFact>,
) -> Result<(), AllocError>
    ensures { OnOk result (facts.new.items ≡ facts.old.items ++ collapse_facts decl.now) }
{
    for ctor in decl.ctors() {
        push_collapse_fact(alloc, decl, ctor, facts)?;
    }
    Ok(())
}
