//! Definitions of constants and of types: why they may not be made, what they say, and that they say it again.

ghost use Rattle.std.specs.Prelude.{◌≡◌, List, [], IfOk};
ghost use Rattle.hol_terms.specs.Typing.{tm_type};
ghost use Rattle.hol_terms.specs.Signature.{IsOver};
ghost use Rattle.hol_terms.specs.Definition.{Definition, bool_ty, signature_of};
ghost use Rattle.hol_kernel.specs.State.{Has};

use crate::rules::sequent_text;
use crate::samples::formula;
use hol_kernel::{Kernel, Thm, Unfit};
use hol_terms::terms::{Term, Var};
use hol_terms::types::HolType;
use std::alloc::{AllocError, Global};
use std::test::Fail;

// A variable p.
fn statement(alloc: Global) -> Result<Term, AllocError>
    ensures over { IfOk result (λ t. (ds : List Definition) → IsOver (signature_of ds) [] t) }
    ensures boolean { IfOk result (λ t. tm_type t ≡ bool_ty) }
{
    let p = formula(alloc, "p")?;
    Ok(p)
}

// The identity of 'a.
fn identity(alloc: Global) -> Result<Term, AllocError>
    ensures { IfOk result (λ t. (ds : List Definition) → IsOver (signature_of ds) [] t) }
{
    let ty = HolType::var(alloc, "a")?;
    let x = Var::new(alloc, "x", &ty)?;
    let body = Term::mk_var(alloc, &x)?;
    let t = Term::mk_abs(alloc, &x, &body)?;
    Ok(t)
}

fn equation(alloc: Global) -> Result<Term, AllocError> {
    let t = identity(alloc)?;
    Term::mk_eq(alloc, &t, &t)
}

#[derive(Clone, Copy, Drop)]
enum Body {
    Variable,
    Identity,
    // Of the identity with itself: its type lacks 'a.
    Equation,
}

static CONSTANT_FAULTS: [(&str, Body, Option<Unfit>); 7] = [
    ("bool", Body::Identity, Some(Unfit::Name)),
    ("where", Body::Identity, Some(Unfit::Name)),
    ("x1", Body::Identity, Some(Unfit::Name)),
    ("bool", Body::Variable, Some(Unfit::Name)),
    ("c", Body::Variable, Some(Unfit::Free)),
    ("c", Body::Equation, Some(Unfit::TypeVar)),
    ("c", Body::Identity, None),
];

fn body_of(alloc: Global, body: Body) -> Result<Term, AllocError> {
    match body {
        Body::Variable => formula(alloc, "p"),
        Body::Identity => identity(alloc),
        Body::Equation => equation(alloc),
    }
}

fn fault_of(
    alloc: Global,
    k: &Kernel,
    name: &str,
    body: Body,
) -> Result<Option<Unfit>, AllocError> {
    let t = body_of(alloc, body)?;
    Ok(k.may_define(name, &t))
}

fn constant_fault(alloc: Global, name: &str, body: Body) -> Result<Option<Unfit>, AllocError> {
    let k = Kernel::new(alloc)?;
    fault_of(alloc, &k, name, body)
}

#[test]
fn faults_of_constants_are_named(rt: HostRuntime) -> Result<(), Fail> {
    for (name, body, want) in &CONSTANT_FAULTS {
        let fault = constant_fault(rt.alloc(), name, *body)?;
        assert_eq!(rt; fault, *want);
    }
    Ok(())
}

#[derive(Clone, Copy, Drop)]
enum Shown {
    // `p |- p`
    Assumption,
    // `|- p = p`
    Equation,
    // `|- (\x. x) = (\x. x)`
    Identity,
}

static TYPE_FAULTS: [(&str, Shown, Option<Unfit>); 6] = [
    ("bool", Shown::Identity, Some(Unfit::Name)),
    ("0", Shown::Identity, Some(Unfit::Name)),
    ("0", Shown::Assumption, Some(Unfit::Name)),
    ("u", Shown::Assumption, Some(Unfit::Shape)),
    ("u", Shown::Equation, Some(Unfit::Free)),
    ("u", Shown::Identity, None),
];

fn assumption(alloc: Global, k: &mut Kernel) -> Result<Thm, AllocError> {
    let p = statement(alloc)?;
    k.assume(alloc, &p)
}

fn reflexive(alloc: Global, k: &mut Kernel) -> Result<Thm, AllocError> {
    let p = statement(alloc)?;
    k.refl(alloc, &p)
}

fn reflexive_identity(alloc: Global, k: &mut Kernel) -> Result<Thm, AllocError>
    ensures { IfOk result (λ th. Has k.new th) }
{
    let t = identity(alloc)?;
    let th = k.refl(alloc, &t)?;
    Ok(th)
}

fn theorem(alloc: Global, k: &mut Kernel, shown: Shown) -> Result<Thm, AllocError> {
    match shown {
        Shown::Assumption => assumption(alloc, k),
        Shown::Equation => reflexive(alloc, k),
        Shown::Identity => reflexive_identity(alloc, k),
    }
}

fn fault_of_type(
    alloc: Global,
    k: &mut Kernel,
    name: &str,
    shown: Shown,
) -> Result<Option<Unfit>, AllocError> {
    let th = theorem(alloc, k, shown)?;
    Ok(k.may_define_type(name, &th))
}

fn type_fault(alloc: Global, name: &str, shown: Shown) -> Result<Option<Unfit>, AllocError> {
    let mut k = Kernel::new(alloc)?;
    fault_of_type(alloc, &mut k, name, shown)
}

#[test]
fn faults_of_types_are_named(rt: HostRuntime) -> Result<(), Fail> {
    for (name, shown, want) in &TYPE_FAULTS {
        let fault = type_fault(rt.alloc(), name, *shown)?;
        assert_eq!(rt; fault, *want);
    }
    Ok(())
}

fn says(alloc: Global, th: &Thm, want: &str) -> Result<bool, AllocError> {
    let text = sequent_text(alloc, th)?;
    Ok(text.as_str() == want)
}

// The theorem of a constant's definition as it is made and as it is recalled; None where the constant may not be defined.
fn constant(alloc: Global, k: &mut Kernel) -> Result<Option<(Thm, Thm)>, AllocError> {
    let t = identity(alloc)?;
    if k.may_define("c", &t).is_some() {
        return Ok(None);
    }
    let place = k.defs().len();
    let th = k.define(alloc, "c", &t)?;
    let again = k.def_at(alloc, place)?;
    Ok(Some((th, again)))
}

const CONSTANT: &str = "|- c{'a} = (\\x0:'a. x0)";

fn is_constant_told(alloc: Global, k: &mut Kernel) -> Result<bool, AllocError> {
    match constant(alloc, k)? {
        Some((th, again)) => Ok(
            says(alloc, &th, CONSTANT)?
                && says(alloc, &again, CONSTANT)?
                && th.step() == again.step(),
        ),
        None => Ok(false),
    }
}

// Whether a constant's definition is told, is the first step, and can't be made again.
fn is_constant_first(alloc: Global, k: &mut Kernel) -> Result<bool, AllocError> {
    let is_told = is_constant_told(alloc, k)?;
    let t = identity(alloc)?;
    Ok(
        is_told
            && k.defs().len() == 1
            && k.steps().len() == 1
            && k.may_define("c", &t) == Some(Unfit::Name),
    )
}

fn is_constant_defined(alloc: Global) -> Result<bool, AllocError> {
    let mut k = Kernel::new(alloc)?;
    is_constant_first(alloc, &mut k)
}

#[test]
fn constants_are_defined(rt: HostRuntime) -> Result<(), Fail> {
    let is_defined = is_constant_defined(rt.alloc())?;
    assert!(rt; is_defined);
    Ok(())
}

// The two theorems of a type's definition as they are made and as they are recalled; None where the type may not be defined.
fn new_type(
    alloc: Global,
    k: &mut Kernel,
    a: &Thm,
) -> Result<Option<((Thm, Thm), (Thm, Thm))>, AllocError>
    requires { Has k.old a.now }
{
    if k.may_define_type("u", a).is_some() {
        return Ok(None);
    }
    let place = k.defs().len();
    let both = k.define_type(alloc, "u", a)?;
    let again = k.type_at(alloc, place)?;
    Ok(Some((both, again)))
}

const ABS_REP: &str = "|- u.abs{'a} (u.rep{'a} [a:'a u]) = [a:'a u]";

const REP_ABS: &str =
    "|- ((\\x0:'a. x0) = [r:'a -> 'a]) = (u.rep{'a} (u.abs{'a} [r:'a -> 'a]) = [r:'a -> 'a])";

fn are_told(alloc: Global, both: &(Thm, Thm)) -> Result<bool, AllocError> {
    Ok(says(alloc, &both.0, ABS_REP)? && says(alloc, &both.1, REP_ABS)?)
}

fn is_type_told(alloc: Global, k: &mut Kernel, a: &Thm) -> Result<bool, AllocError>
    requires { Has k.old a.now }
{
    match new_type(alloc, k, a)? {
        Some((both, again)) => Ok(
            are_told(alloc, &both)?
                && are_told(alloc, &again)?
                && both.0.step() == again.0.step()
                && both.1.step() == again.1.step(),
        ),
        None => Ok(false),
    }
}

// Whether a type's definition is told, and is two steps behind the one that shows it inhabited.
fn is_type_second(alloc: Global, k: &mut Kernel) -> Result<bool, AllocError> {
    let a = reflexive_identity(alloc, k)?;
    let is_told = is_type_told(alloc, k, &a)?;
    Ok(is_told && k.defs().len() == 1 && k.steps().len() == 3)
}

fn is_type_defined(alloc: Global) -> Result<bool, AllocError> {
    let mut k = Kernel::new(alloc)?;
    is_type_second(alloc, &mut k)
}

#[test]
fn types_are_defined(rt: HostRuntime) -> Result<(), Fail> {
    let is_defined = is_type_defined(rt.alloc())?;
    assert!(rt; is_defined);
    Ok(())
}
