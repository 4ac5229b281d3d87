//! The terms that lines make.

ghost use Rattle.std.specs.Prelude.{◌≡◌, [], ◌∷◌, IfOk, IsSome, Some, slice_get};
ghost use Rattle.hol_terms.specs.Tm.{tm_free, tm_const, tm_comb};
ghost use Rattle.hol_terms.specs.Signature.{IsOver};
ghost use Rattle.hol_terms.specs.Definition.{bool_ty, alpha, signature_of};
ghost use Rattle.hol_terms.specs.Rules.{if_so, fits, lambda};
ghost use Rattle.hol_terms.specs.Typing.{tm_type, fun_ty};
ghost use Rattle.hol_kernel.specs.State.{Has};
ghost use Rattle.kernel_lines.specs.Names.{connective, generic_at, letter_name};
ghost use Rattle.kernel_lines.specs.Bases.{HasBase};
ghost use Rattle.kernel_lines.specs.Lines.{on, shape_made, var_at, left_side, right_side, term_made};
ghost use Rattle.kernel_lines.specs.Ready.{sequents, AllOver, AllHad};

use crate::line::{Connective, Generic, Letter, Make, Shape};
use hol_kernel::{Kernel, Thm};
use hol_terms::terms::{Term, TermNode, Var};
use hol_terms::types::HolType;
use std::alloc::{AllocError, Global};

#[tactic(auto, using(crate::proofs::Had::at_lemmas))]
pub(crate) fn term_at<'a>(k: &Kernel, terms: &'a [Term], i: usize) -> &'a Term
    requires over { AllOver k.now.defs terms.now }
    requires fits { IsSome (slice_get terms.now i) }
    ensures exact { slice_get terms.now i ≡ Some result.now }
    ensures over { IsOver (signature_of k.now.defs) [] result.now }
{
    match terms.get(i) {
        Some(t) => t,
        None => unreachable!(),
    }
}

#[tactic(auto, using(crate::proofs::Had::at_lemmas))]
pub(crate) fn thm_at<'a>(k: &Kernel, thms: &'a [Thm], i: usize) -> &'a Thm
    requires had { AllHad k.now thms.now }
    requires fits { IsSome (slice_get (sequents thms.now) i) }
    ensures exact { slice_get (sequents thms.now) i ≡ Some result.now.sequent }
    ensures had { Has k.now result.now }
{
    match thms.get(i) {
        Some(th) => th,
        None => unreachable!(),
    }
}

#[tactic(auto, using(crate::proofs::Had::var_lemmas))]
pub(crate) fn var_of<'a>(k: &Kernel, terms: &'a [Term], i: usize) -> &'a Var
    requires over { AllOver k.now.defs terms.now }
    requires fits { IsSome (var_at terms.now i) }
    ensures exact { var_at terms.now i ≡ Some result.now }
    ensures over { IsOver (signature_of k.now.defs) [] (tm_free result.now) }
{
    match term_at(k, terms, i).view() {
        TermNode::Free(v) => v,
        _ => unreachable!(),
    }
}

fn bool_type(alloc: Global) -> Result<HolType, AllocError>
    ensures { IfOk result (λ t. t ≡ bool_ty) }
{
    HolType::app(alloc, "bool", &[])
}

fn unary_type(alloc: Global) -> Result<HolType, AllocError>
    ensures { IfOk result (λ t. t ≡ fun_ty bool_ty bool_ty) }
{
    let truth = bool_type(alloc)?;
    HolType::fun(alloc, &truth, &truth)
}

fn binary_type(alloc: Global) -> Result<HolType, AllocError>
    ensures { IfOk result (λ t. t ≡ fun_ty bool_ty (fun_ty bool_ty bool_ty)) }
{
    let truth = bool_type(alloc)?;
    let unary = unary_type(alloc)?;
    HolType::fun(alloc, &truth, &unary)
}

fn connective_of(alloc: Global, c: &Connective) -> Result<Term, AllocError>
    ensures { IfOk result (λ t. t ≡ connective c.now) }
{
    let (name, ty) = match c {
        Connective::Truth => ("T", bool_type(alloc)?),
        Connective::Falsity => ("F", bool_type(alloc)?),
        Connective::Not => ("not", unary_type(alloc)?),
        Connective::Conj => ("conj", binary_type(alloc)?),
        Connective::Disj => ("disj", binary_type(alloc)?),
        Connective::Imp => ("imp", binary_type(alloc)?),
    };
    Term::mk_own_const(alloc, name, &ty)
}

fn constant(alloc: Global, k: &Kernel, c: &Connective) -> Result<Term, AllocError>
    requires base { HasBase k.now.defs }
    ensures exact { IfOk result (λ t. t ≡ connective c.now) }
    ensures over { IfOk result (λ t. IsOver (signature_of k.now.defs) [] t) }
{
    let t = connective_of(alloc, c)?;
    Ok(t)
}

// The generic type of a quantifier.
fn quantifier_type(alloc: Global) -> Result<HolType, AllocError>
    ensures { IfOk result (λ t. t ≡ fun_ty (fun_ty alpha bool_ty) bool_ty) }
{
    let a = HolType::var(alloc, "a")?;
    let truth = bool_type(alloc)?;
    let pred = HolType::fun(alloc, &a, &truth)?;
    HolType::fun(alloc, &pred, &truth)
}

fn quantifier(alloc: Global, name: &str, ty: &HolType) -> Result<Term, AllocError>
    ensures { IfOk result (λ t. t ≡ tm_const name.now (ty.now ∷ []) (fun_ty (fun_ty ty.now bool_ty) bool_ty)) }
{
    let generic = quantifier_type(alloc)?;
    let mut args = Vec::new(alloc);
    args.push(ty.copy()?)?;
    Term::mk_const_at(alloc, name, &generic, &args)
}

fn generic_of(alloc: Global, g: &Generic, ty: &HolType) -> Result<Term, AllocError>
    ensures { IfOk result (λ t. t ≡ generic_at g.now ty.now) }
{
    match g {
        Generic::Equality => Term::mk_equals(alloc, ty),
        Generic::All => quantifier(alloc, "all", ty),
        Generic::Ex => quantifier(alloc, "ex", ty),
    }
}

fn generic(alloc: Global, k: &Kernel, g: &Generic, at: &Term) -> Result<Term, AllocError>
    requires base { HasBase k.now.defs }
    requires over { IsOver (signature_of k.now.defs) [] at.now }
    ensures exact { IfOk result (λ t. t ≡ generic_at g.now (tm_type at.now)) }
    ensures over { IfOk result (λ t. IsOver (signature_of k.now.defs) [] t) }
{
    let t = generic_of(alloc, g, at.type_of())?;
    Ok(t)
}

fn name_of(l: &Letter) -> &'static str
    ensures { result.now ≡ letter_name l.now }
{
    match l {
        Letter::F => "f",
        Letter::H => "h",
        Letter::P => "p",
        Letter::Q => "q",
        Letter::R => "r",
        Letter::X => "x",
        Letter::Y => "y",
    }
}

fn shaped(alloc: Global, k: &Kernel, terms: &[Term], shape: &Shape) -> Result<HolType, AllocError>
    requires over { AllOver k.now.defs terms.now }
    requires fits { IsSome (shape_made terms.now shape.now) }
    ensures { IfOk result (λ t. shape_made terms.now shape.now ≡ Some t) }
{
    match shape {
        Shape::Boolean => bool_type(alloc),
        Shape::Alpha => HolType::var(alloc, "a"),
        Shape::Of(i) => term_at(k, terms, *i).type_of().copy(),
        Shape::Fun(i, j) => HolType::fun(
            alloc,
            term_at(k, terms, *i).type_of(),
            term_at(k, terms, *j).type_of(),
        ),
    }
}

fn variable_of(alloc: Global, l: &Letter, ty: &HolType) -> Result<Term, AllocError>
    ensures { IfOk result (λ t. t ≡ tm_free (record { name = letter_name l.now; ty = ty.now })) }
{
    let v = Var::new(alloc, name_of(l), ty)?;
    Term::mk_var(alloc, &v)
}

fn var_made(
    alloc: Global,
    k: &Kernel,
    terms: &[Term],
    l: &Letter,
    shape: &Shape,
) -> Result<Term, AllocError>
    requires over { AllOver k.now.defs terms.now }
    requires fits { IsSome (shape_made terms.now shape.now) }
    ensures exact { IfOk result (λ t. on (shape_made terms.now shape.now) (λ a. Some (tm_free (record { name = letter_name l.now; ty = a }))) ≡ Some t) }
    ensures over { IfOk result (λ t. IsOver (signature_of k.now.defs) [] t) }
{
    let ty = shaped(alloc, k, terms, shape)?;
    let t = variable_of(alloc, l, &ty)?;
    Ok(t)
}

#[tactic(auto, using(crate::proofs::Had::fit_lemmas))]
fn apply(alloc: Global, k: &Kernel, f: &Term, x: &Term) -> Result<Term, AllocError>
    requires over_f { IsOver (signature_of k.now.defs) [] f.now }
    requires over_x { IsOver (signature_of k.now.defs) [] x.now }
    requires fits { IsSome (if_so (fits f.now x.now) (tm_comb f.now x.now)) }
    ensures exact { IfOk result (λ t. if_so (fits f.now x.now) (tm_comb f.now x.now) ≡ Some t) }
    ensures over { IfOk result (λ t. IsOver (signature_of k.now.defs) [] t) }
{
    let t = Term::mk_comb(alloc, f, x)?;
    Ok(t)
}

fn abstract_over(alloc: Global, k: &Kernel, v: &Var, body: &Term) -> Result<Term, AllocError>
    requires over_v { IsOver (signature_of k.now.defs) [] (tm_free v.now) }
    requires over { IsOver (signature_of k.now.defs) [] body.now }
    ensures exact { IfOk result (λ t. t ≡ lambda v.now body.now) }
    ensures over { IfOk result (λ t. IsOver (signature_of k.now.defs) [] t) }
{
    let t = Term::mk_abs(alloc, v, body)?;
    Ok(t)
}

#[tactic(auto, using(crate::proofs::Had::side_lemmas))]
fn left(alloc: Global, k: &Kernel, th: &Thm) -> Result<Term, AllocError>
    requires has { Has k.now th.now }
    requires fits { IsSome (left_side th.now.sequent) }
    ensures exact { IfOk result (λ t. left_side th.now.sequent ≡ Some t) }
    ensures over { IfOk result (λ t. IsOver (signature_of k.now.defs) [] t) }
{
    let t = th.concl().left().copy()?;
    Ok(t)
}

#[tactic(auto, using(crate::proofs::Had::side_lemmas))]
fn right(alloc: Global, k: &Kernel, th: &Thm) -> Result<Term, AllocError>
    requires has { Has k.now th.now }
    requires fits { IsSome (right_side th.now.sequent) }
    ensures exact { IfOk result (λ t. right_side th.now.sequent ≡ Some t) }
    ensures over { IfOk result (λ t. IsOver (signature_of k.now.defs) [] t) }
{
    let t = th.concl().right().copy()?;
    Ok(t)
}

/// The term that a line makes.
pub(crate) fn make_term(
    alloc: Global,
    k: &Kernel,
    terms: &[Term],
    thms: &[Thm],
    m: &Make,
) -> Result<Term, AllocError>
    requires base { HasBase k.now.defs }
    requires had { AllHad k.now thms.now }
    requires over { AllOver k.now.defs terms.now }
    requires fits { IsSome (term_made terms.now (sequents thms.now) m.now) }
    ensures exact { IfOk result (λ t. term_made terms.now (sequents thms.now) m.now ≡ Some t) }
    ensures over { IfOk result (λ t. IsOver (signature_of k.now.defs) [] t) }
{
    match m {
        Make::Const(c) => constant(alloc, k, c),
        Make::At(g, i) => generic(alloc, k, g, term_at(k, terms, *i)),
        Make::Var(l, shape) => var_made(alloc, k, terms, l, shape),
        Make::App(i, j) => apply(alloc, k, term_at(k, terms, *i), term_at(k, terms, *j)),
        Make::Lambda(i, j) => abstract_over(alloc, k, var_of(k, terms, *i), term_at(k, terms, *j)),
        Make::Left(i) => left(alloc, k, thm_at(k, thms, *i)),
        Make::Right(i) => right(alloc, k, thm_at(k, thms, *i)),
    }
}
