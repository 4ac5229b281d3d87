//! Names, and terms as they are made, by their canonical texts.

ghost use Rattle.std.specs.Prelude.{◌≡◌, IfOk, codes};
ghost use Rattle.hol_terms.specs.Ty.{ty_var};
ghost use Rattle.hol_terms.specs.Tm.{tm_index, tm_free, tm_abs};
ghost use Rattle.hol_terms.specs.Typing.{fun_ty};
ghost use Rattle.hol_terms.specs.Definition.{bool_ty, type_def};
ghost use Rattle.hol_terms.specs.DefShape.{definition_of};
ghost use Rattle.hol_terms.specs.Opening.{IsAbsOf};
ghost use Rattle.hol_terms.specs.Sequent.{eq_tm};

use crate::samples::{formula, truth_values, variable};
use hol_terms::defs::Def;
use hol_terms::names::{is_name, is_numbered};
use hol_terms::sig::Sig;
use hol_terms::terms::{Term, Var};
use hol_terms::types::HolType;
use hol_text::print::print_term;
use std::alloc::{AllocError, Global};
use std::test::Fail;

// Each text, whether it is a name, and whether it is `x` and digits.
static NAMES: [(&str, bool, bool); 13] = [
    ("T", true, false),
    ("prod.graph", true, false),
    ("0", true, false),
    ("x1", true, true),
    ("x", true, false),
    ("x1a", true, false),
    ("_", true, false),
    ("\u{e9}", true, false),
    ("where", false, false),
    ("a..b", false, false),
    ("a.", false, false),
    ("1a", false, false),
    ("", false, false),
];

#[test]
fn texts_are_names_or_none(rt: HostRuntime) {
    for (text, name, numbered) in &NAMES {
        assert_eq!(rt; is_name(text), *name, "{text}");
        assert_eq!(rt; is_numbered(text), *numbered, "{text}");
    }
}

#[derive(Clone, Copy, Drop)]
enum Sample {
    Variable,
    VariableCopy,
    Copy,
    Application,
    Equation,
    Equality,
    Generic,
    FromSignature,
    OwnConstant,
    TypeVariables,
    Abstraction,
    Opened,
    Exchange,
    TypeInstance,
    NameClash,
    Replaced,
    ReplacedOnTheRight,
    CopiedDefinition,
}

static TEXTS: [(Sample, &str); 18] = [
    (Sample::Variable, "[a:bool]"),
    (Sample::VariableCopy, "[a:bool]"),
    (Sample::Copy, "[a:bool] = [b:bool]"),
    (Sample::Application, "[f:bool -> bool] [a:bool]"),
    (Sample::Equation, "[a:bool] = [b:bool]"),
    (Sample::Equality, "eq{bool}"),
    (Sample::Generic, "c{bool,ind}"),
    (Sample::FromSignature, "eq{bool}"),
    (Sample::OwnConstant, "c{'b,'a}"),
    (Sample::TypeVariables, "[x:('b,'a) prod]"),
    (Sample::Abstraction, "\\x0:bool. x0 = [b:bool]"),
    (Sample::Opened, "[c:bool] = [b:bool]"),
    (Sample::Exchange, "[b:bool] = [a:bool]"),
    (Sample::TypeInstance, "eq{bool}"),
    (Sample::NameClash, "\\x0:bool. [x:bool]"),
    (Sample::Replaced, "[b:bool] = [b:bool]"),
    (Sample::ReplacedOnTheRight, "[a:bool] = [b:bool]"),
    (Sample::CopiedDefinition, "\\x0:bool. x0"),
];

fn variable_copy(alloc: Global) -> Result<Term, AllocError> {
    let v = variable(alloc, "a")?;
    let copy = v.copy(alloc)?;
    Term::mk_var(alloc, &copy)
}

fn equation(alloc: Global, left: &str, right: &str) -> Result<Term, AllocError>
    ensures { IfOk result (λ e. e ≡ eq_tm (tm_free (record { name = left.now; ty = bool_ty })) (tm_free (record { name = right.now; ty = bool_ty }))) }
{
    let s = formula(alloc, left)?;
    let t = formula(alloc, right)?;
    Term::mk_eq(alloc, &s, &t)
}

fn copy(alloc: Global) -> Result<Term, AllocError> {
    let t = equation(alloc, "a", "b")?;
    t.copy()
}

fn function(alloc: Global) -> Result<Term, AllocError>
    ensures { IfOk result (λ f. f ≡ tm_free (record { name = codes "f"; ty = fun_ty bool_ty bool_ty })) }
{
    let truth = truth_values(alloc)?;
    let ty = HolType::fun(alloc, &truth, &truth)?;
    let f = Var::new(alloc, "f", &ty)?;
    Term::mk_var(alloc, &f)
}

fn application(alloc: Global) -> Result<Term, AllocError> {
    let f = function(alloc)?;
    let a = formula(alloc, "a")?;
    Term::mk_comb(alloc, &f, &a)
}

fn equality(alloc: Global) -> Result<Term, AllocError> {
    let truth = truth_values(alloc)?;
    Term::mk_equals(alloc, &truth)
}

// `'b -> 'a`.
fn generic_type(alloc: Global) -> Result<HolType, AllocError>
    ensures { IfOk result (λ ty. ty ≡ fun_ty (ty_var (codes "b")) (ty_var (codes "a"))) }
{
    let a = HolType::var(alloc, "a")?;
    let b = HolType::var(alloc, "b")?;
    HolType::fun(alloc, &b, &a)
}

fn generic(alloc: Global) -> Result<Term, AllocError> {
    let args = [truth_values(alloc)?, HolType::app(alloc, "ind", &[])?];
    let ty = generic_type(alloc)?;
    Term::mk_const_at(alloc, "c", &ty, &args)
}

fn from_signature(alloc: Global) -> Result<Term, AllocError> {
    let sig = Sig::start(alloc)?;
    let truth = truth_values(alloc)?;
    Term::mk_const(alloc, &sig, "eq", &[truth])
}

fn own_constant(alloc: Global) -> Result<Term, AllocError> {
    let ty = generic_type(alloc)?;
    Term::mk_own_const(alloc, "c", &ty)
}

// A variable whose type has the type variables of a constant as its arguments.
fn type_variables(alloc: Global) -> Result<Term, AllocError> {
    let c = own_constant(alloc)?;
    let vars = c.ty_vars(alloc)?;
    let ty = HolType::app(alloc, "prod", &vars)?;
    let x = Var::new(alloc, "x", &ty)?;
    Term::mk_var(alloc, &x)
}

fn abstraction(alloc: Global) -> Result<Term, AllocError>
    ensures { IfOk result (λ t. IsAbsOf bool_ty t) }
{
    let a = variable(alloc, "a")?;
    let body = equation(alloc, "a", "b")?;
    let t = Term::mk_abs(alloc, &a, &body)?;
    Ok(t)
}

fn opened(alloc: Global) -> Result<Term, AllocError> {
    let t = abstraction(alloc)?;
    let c = variable(alloc, "c")?;
    t.open(alloc, &c)
}

// `a = b` with b for a and a for b, at once.
fn exchange(alloc: Global) -> Result<Term, AllocError> {
    let t = equation(alloc, "a", "b")?;
    let pairs = [
        (variable(alloc, "a")?, formula(alloc, "b")?),
        (variable(alloc, "b")?, formula(alloc, "a")?),
    ];
    t.inst(alloc, &pairs)
}

// The term with `bool` for 'a.
fn at_truth_values(alloc: Global, t: &Term) -> Result<Term, AllocError> {
    let pairs = [(String::from_str(alloc, "a")?, truth_values(alloc)?)];
    t.inst_type(alloc, &pairs)
}

fn type_instance(alloc: Global) -> Result<Term, AllocError> {
    let a = HolType::var(alloc, "a")?;
    let t = Term::mk_equals(alloc, &a)?;
    at_truth_values(alloc, &t)
}

// The abstraction of `x` at 'a, whose body is the free variable `x` of type bool, with `bool` for 'a.
fn name_clash(alloc: Global) -> Result<Term, AllocError> {
    let a = HolType::var(alloc, "a")?;
    let x = Var::new(alloc, "x", &a)?;
    let body = formula(alloc, "x")?;
    let t = Term::mk_abs(alloc, &x, &body)?;
    at_truth_values(alloc, &t)
}

// `a = a` with b for a.
fn replaced(alloc: Global) -> Result<Term, AllocError> {
    let t = equation(alloc, "a", "a")?;
    let a = formula(alloc, "a")?;
    let b = formula(alloc, "b")?;
    t.replace(alloc, &a, &b)
}

// `a = a` with b for the argument.
fn replaced_on_the_right(alloc: Global) -> Result<Term, AllocError> {
    let t = equation(alloc, "a", "a")?;
    let b = formula(alloc, "b")?;
    t.replace_at(alloc, &[1], &b)
}

// The identity of truth values.
fn identity(alloc: Global) -> Result<Term, AllocError>
    ensures { IfOk result (λ t. t ≡ tm_abs bool_ty (tm_index 0 bool_ty)) }
{
    let x = variable(alloc, "x")?;
    let body = Term::mk_var(alloc, &x)?;
    Term::mk_abs(alloc, &x, &body)
}

// A type that the identity carves out of the truth values.
fn new_type(alloc: Global) -> Result<Def, AllocError>
    ensures { IfOk result (λ d. definition_of d ≡ type_def (codes "t") (tm_abs bool_ty (tm_index 0 bool_ty))) }
{
    let pred = identity(alloc)?;
    let name = String::from_str(alloc, "t")?;
    Ok(Def::NewType {
        name,
        pred,
        from: 3,
    })
}

fn copied_definition(alloc: Global) -> Result<Term, AllocError> {
    let d = new_type(alloc)?;
    match d.copy()? {
        Def::Const { body, .. } => Ok(body),
        Def::NewType { pred, .. } => Ok(pred),
    }
}

fn made(alloc: Global, what: Sample) -> Result<Term, AllocError> {
    match what {
        Sample::Variable => formula(alloc, "a"),
        Sample::VariableCopy => variable_copy(alloc),
        Sample::Copy => copy(alloc),
        Sample::Application => application(alloc),
        Sample::Equation => equation(alloc, "a", "b"),
        Sample::Equality => equality(alloc),
        Sample::Generic => generic(alloc),
        Sample::FromSignature => from_signature(alloc),
        Sample::OwnConstant => own_constant(alloc),
        Sample::TypeVariables => type_variables(alloc),
        Sample::Abstraction => abstraction(alloc),
        Sample::Opened => opened(alloc),
        Sample::Exchange => exchange(alloc),
        Sample::TypeInstance => type_instance(alloc),
        Sample::NameClash => name_clash(alloc),
        Sample::Replaced => replaced(alloc),
        Sample::ReplacedOnTheRight => replaced_on_the_right(alloc),
        Sample::CopiedDefinition => copied_definition(alloc),
    }
}

fn text(alloc: Global, what: Sample) -> Result<String, AllocError> {
    let t = made(alloc, what)?;
    print_term(alloc, &t)
}

#[test]
fn terms_are_made(rt: HostRuntime) -> Result<(), Fail> {
    for (what, want) in &TEXTS {
        let text = text(rt.alloc(), *what)?;
        assert_eq!(rt; text.as_str(), *want);
    }
    Ok(())
}

// Whether the instance of the clash has the free variable still free.
fn is_still_free(alloc: Global) -> Result<bool, AllocError> {
    let t = name_clash(alloc)?;
    let x = variable(alloc, "x")?;
    Ok(t.free_in(&x))
}

// Whether a was replaced everywhere.
fn is_replaced(alloc: Global) -> Result<bool, AllocError> {
    let t = replaced(alloc)?;
    let a = formula(alloc, "a")?;
    Ok(!t.has_subterm(&a))
}

// Whether a signature that was given a definition of a type has its three names, and no parameter of the type.
fn is_introduced(alloc: Global) -> Result<bool, AllocError> {
    let d = new_type(alloc)?;
    let mut sig = Sig::start(alloc)?;
    sig.add_def(alloc, &d)?;
    Ok(sig.arity("t") == Some(0) && !sig.is_new("t.abs") && !sig.is_new("t.rep"))
}

#[test]
fn terms_and_signatures_answer(rt: HostRuntime) -> Result<(), Fail> {
    let is_still_free = is_still_free(rt.alloc())?;
    assert!(rt; is_still_free);
    let is_replaced = is_replaced(rt.alloc())?;
    assert!(rt; is_replaced);
    let is_introduced = is_introduced(rt.alloc())?;
    assert!(rt; is_introduced);
    Ok(())
}
