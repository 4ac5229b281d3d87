//! Statements as the connectives and quantifiers make them, and base definitions, by their canonical texts.

ghost use Rattle.std.specs.Prelude.{◌≤◌, IfOk};
ghost use Rattle.hol_terms.specs.Loose.{IsClosedAt};
ghost use Rattle.stmt_core.specs.Formulas.{IsBoolean};

use crate::samples::{formula, variable};
use hol_terms::defs::Def;
use hol_terms::terms::Term;
use hol_text::print::print_term;
use std::alloc::{AllocError, Global};
use std::test::Fail;
use stmt_core::base_def;
use stmt_core::connectives::{all, conj, disj, eq, ex, imp, neg};

#[derive(Clone, Copy, Drop)]
enum Sample {
    Conjuncts,
    NoConjuncts,
    Disjuncts,
    NoDisjuncts,
    Premises,
    Equation,
    Denial,
    Universal,
    Existential,
}

static TEXTS: [(Sample, &str); 9] = [
    (Sample::Conjuncts, "[p:bool] /\\ ([q:bool] /\\ [r:bool])"),
    (Sample::NoConjuncts, "T"),
    (Sample::Disjuncts, "[p:bool] \\/ ([q:bool] \\/ [r:bool])"),
    (Sample::NoDisjuncts, "F"),
    (Sample::Premises, "[p:bool] ==> ([q:bool] ==> [r:bool])"),
    (Sample::Equation, "[p:bool] = [q:bool]"),
    (Sample::Denial, "~ ([p:bool] = [q:bool])"),
    (Sample::Universal, "!x0:bool. !x1:bool. x0 = x1"),
    (Sample::Existential, "?x0:bool. ?x1:bool. x1 = x0"),
];

fn conjuncts(alloc: Global) -> Result<Term, AllocError> {
    let p = formula(alloc, "p")?;
    let q = formula(alloc, "q")?;
    let r = formula(alloc, "r")?;
    conj(alloc, &[p, q, r])
}

fn disjuncts(alloc: Global) -> Result<Term, AllocError> {
    let p = formula(alloc, "p")?;
    let q = formula(alloc, "q")?;
    let r = formula(alloc, "r")?;
    disj(alloc, &[p, q, r])
}

fn premises(alloc: Global) -> Result<Term, AllocError> {
    let p = formula(alloc, "p")?;
    let q = formula(alloc, "q")?;
    let r = formula(alloc, "r")?;
    imp(alloc, &[p, q], &r)
}

fn equation(alloc: Global) -> Result<Term, AllocError>
    ensures boolean { IfOk result (λ t. IsBoolean t) }
    ensures closed { IfOk result (λ t. IsClosedAt 0 t) }
{
    let p = formula(alloc, "p")?;
    let q = formula(alloc, "q")?;
    eq(alloc, &p, &q)
}

fn denial(alloc: Global) -> Result<Term, AllocError> {
    let t = equation(alloc)?;
    neg(alloc, &t)
}

fn universal(alloc: Global) -> Result<Term, AllocError> {
    let t = equation(alloc)?;
    let p = variable(alloc, "p")?;
    let q = variable(alloc, "q")?;
    all(alloc, &[p, q], &t)
}

fn existential(alloc: Global) -> Result<Term, AllocError> {
    let t = equation(alloc)?;
    let p = variable(alloc, "p")?;
    let q = variable(alloc, "q")?;
    ex(alloc, &[q, p], &t)
}

fn statement(alloc: Global, sample: Sample) -> Result<Term, AllocError> {
    match sample {
        Sample::Conjuncts => conjuncts(alloc),
        Sample::NoConjuncts => conj(alloc, &[]),
        Sample::Disjuncts => disjuncts(alloc),
        Sample::NoDisjuncts => disj(alloc, &[]),
        Sample::Premises => premises(alloc),
        Sample::Equation => equation(alloc),
        Sample::Denial => denial(alloc),
        Sample::Universal => universal(alloc),
        Sample::Existential => existential(alloc),
    }
}

fn text(alloc: Global, sample: Sample) -> Result<String, AllocError> {
    let t = statement(alloc, sample)?;
    print_term(alloc, &t)
}

#[test]
fn connectives_and_quantifiers_are_put(rt: HostRuntime) -> Result<(), Fail> {
    for (sample, want) in &TEXTS {
        let text = text(rt.alloc(), *sample)?;
        assert_eq!(rt; text.as_str(), *want);
    }
    Ok(())
}

// The names of the base definitions, in order.
static NAMES: [&str; 52] = [
    "T",
    "conj",
    "imp",
    "all",
    "ex",
    "disj",
    "F",
    "not",
    "one_one",
    "onto",
    "id",
    "if",
    "unit",
    "one",
    "prod.graph",
    "prod",
    "pair",
    "fst",
    "snd",
    "prod.map",
    "prod.set1",
    "prod.set2",
    "prod.rel",
    "sum.left",
    "sum.right",
    "sum",
    "inl",
    "inr",
    "sum.case",
    "sum.map",
    "sum.set1",
    "sum.set2",
    "sum.rel",
    "num.suc_ind",
    "num.zero_ind",
    "num.is",
    "num",
    "0",
    "suc",
    "num.rec",
    "num.le",
    "num.dbl",
    "num.cons",
    "countable",
    "cset",
    "cset.empty",
    "cset.map",
    "cset.set1",
    "cset.rel",
    "fun.map",
    "fun.set2",
    "fun.rel",
];

fn base_name(alloc: Global, n: u32) -> Result<String, AllocError>
    requires first { 1 ≤ n }
    requires last { n ≤ 52 }
{
    match base_def(alloc, n)? {
        Def::Const { name, .. } => Ok(name),
        Def::NewType { name, .. } => Ok(name),
    }
}

#[test]
fn base_definitions_are_all_made(rt: HostRuntime) -> Result<(), Fail> {
    for n in 1..=52 {
        let name = base_name(rt.alloc(), n)?;
        assert_eq!(rt; name.as_str(), NAMES[n as usize - 1]);
    }
    Ok(())
}

#[derive(Clone, Copy, Drop)]
enum Base {
    Implication,
    Disjunction,
    Falsity,
    Unit,
}

// Base definitions, with what they define.
static BASES: [(Base, &str); 4] = [
    (Base::Implication, "\\x0:bool. \\x1:bool. (x0 /\\ x1) = x0"),
    (
        Base::Disjunction,
        "\\x0:bool. \\x1:bool. !x2:bool. (x0 ==> x2) ==> ((x1 ==> x2) ==> x2)",
    ),
    (Base::Falsity, "!x0:bool. x0"),
    (Base::Unit, "\\x0:bool. x0"),
];

fn number(base: Base) -> u32
    ensures first { 1 ≤ result }
    ensures last { result ≤ 52 }
{
    match base {
        Base::Implication => 3,
        Base::Disjunction => 6,
        Base::Falsity => 7,
        Base::Unit => 13,
    }
}

fn base_text(alloc: Global, base: Base) -> Result<String, AllocError> {
    match base_def(alloc, number(base))? {
        Def::Const { body, .. } => print_term(alloc, &body),
        Def::NewType { pred, .. } => print_term(alloc, &pred),
    }
}

#[test]
fn base_definitions_are_as_stated(rt: HostRuntime) -> Result<(), Fail> {
    for (base, want) in &BASES {
        let text = base_text(rt.alloc(), *base)?;
        assert_eq!(rt; text.as_str(), *want);
    }
    Ok(())
}
