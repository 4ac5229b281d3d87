//! Eta conversion.

ghost use Rattle.std.specs.Prelude.{◌≡◌, [], IfOk};
ghost use Rattle.hol_terms.specs.Tm.{tm_free};
ghost use Rattle.hol_terms.specs.Signature.{IsOver, IsTyOver};
ghost use Rattle.hol_terms.specs.Definition.{signature_of, alpha};
ghost use Rattle.hol_terms.specs.Notation.{beta};
ghost use Rattle.hol_terms.specs.Sequent.{seq};
ghost use Rattle.hol_terms.specs.Logic.{axiom_1};
ghost use Rattle.hol_kernel.specs.State.{Has, Grows};
ghost use Rattle.kernel_lines.specs.Bases.{HasBase};
ghost use Rattle.hol_conv.specs.Conv.{IsEquationOf};
ghost use Rattle.hol_conv.specs.Eta.{IsEtaRedex, applied_in, eta_fact, function_between};

use hol_kernel::{Kernel, Thm};
use hol_terms::terms::{Term, TermNode, Var};
use hol_terms::types::HolType;
use kernel_lines::{BaseName, Connective, Generic, Infer, Letter, Line, Make, Shape, run_lines};
use std::alloc::{AllocError, Global};

/// `|- (\x. f x) = f`, where x does not occur in f (HOL Light's `ETA_CONV`, from its axiom `ETA_AX`). The connectives are
/// defined.
#[tactic(auto, using(kernel_lines::proofs::Given::grows_lemmas))]
pub fn eta_conv(alloc: Global, k: &mut Kernel, t: &Term) -> Result<Thm, AllocError>
    requires base { HasBase k.old.defs }
    requires over { IsOver (signature_of k.old.defs) [] t.now }
    requires redex { IsEtaRedex t.now }
    ensures exact { IfOk result (λ th. IsEquationOf t.now (applied_in t.now) th) }
    ensures has { IfOk result (λ th. Has k.new th) }
    ensures grows { Grows k.old k.new }
{
    let f = applied(t)?;
    let v = function(alloc, f.type_of().domain(), f.type_of().range())?;
    let typed = at_types(alloc, k, v.ty().domain(), v.ty().range())?;
    let mut pairs = Vec::new(alloc);
    pairs.push((v, f))?;
    let th = k.inst(alloc, &typed, &pairs)?;
    Ok(th)
}

/// f, of `\x. f x`.
fn applied(t: &Term) -> Result<Term, AllocError>
    requires { IsEtaRedex t.now }
    ensures { IfOk result (λ f. f ≡ applied_in t.now) }
{
    match t.view() {
        TermNode::Abs(_, body) => match body.view() {
            TermNode::Comb(f, _) => f.copy(),
            _ => unreachable!(),
        },
        _ => unreachable!(),
    }
}

/// The variable f of functions between two types.
fn function(alloc: Global, a: &HolType, b: &HolType) -> Result<Var, AllocError>
    ensures { IfOk result (λ v. v ≡ function_between a.now b.now) }
{
    let ty = HolType::fun(alloc, a, b)?;
    Var::new(alloc, "f", &ty)
}

/// `|- (\x. f x) = f` for the variable f of functions between two types.
#[tactic(auto, using(kernel_lines::proofs::Given::grows_lemmas))]
fn at_types(alloc: Global, k: &mut Kernel, a: &HolType, b: &HolType) -> Result<Thm, AllocError>
    requires base { HasBase k.old.defs }
    requires over_a { IsTyOver (signature_of k.old.defs) a.now }
    requires over_b { IsTyOver (signature_of k.old.defs) b.now }
    ensures exact { IfOk result (λ th. th.sequent ≡ eta_fact a.now b.now) }
    ensures has { IfOk result (λ th. Has k.new th) }
    ensures grows { Grows k.old k.new }
{
    let general = general(alloc, k)?;
    let mut pairs = Vec::new(alloc);
    pairs.push((String::from_str(alloc, "a")?, a.copy()?))?;
    pairs.push((String::from_str(alloc, "b")?, b.copy()?))?;
    let th = k.inst_type(alloc, &general, &pairs)?;
    Ok(th)
}

/// `|- (\x. f x) = f` for the variable f of functions from 'a to 'b.
#[tactic(auto, using(kernel_lines::proofs::Given::given_lemmas, kernel_lines::proofs::Given::grows_lemmas))]
fn general(alloc: Global, k: &mut Kernel) -> Result<Thm, AllocError>
    requires base { HasBase k.old.defs }
    ensures exact { IfOk result (λ th. th.sequent ≡ eta_fact alpha beta) }
    ensures has { IfOk result (λ th. Has k.new th) }
    ensures grows { Grows k.old k.new }
{
    let alpha = HolType::var(alloc, "a")?;
    let beta = HolType::var(alloc, "b")?;
    let v = function(alloc, &alpha, &beta)?;
    let f = Term::mk_var(alloc, &v)?;
    let axiom = k.axiom(alloc, 1)?;
    let th = from_axiom(alloc, k, &f, &axiom)?;
    Ok(th)
}

/// `|- (\x. f x) = f` from the axiom, for the variable f of functions from 'a to 'b.
#[tactic(auto, using(kernel_lines::proofs::Given::given_lemmas), unfolding(crate::specs::Eta::eta_fact, hol_terms::specs::Rules::same, hol_terms::specs::Rules::same_ty, hol_terms::specs::Logic::base_1, hol_terms::specs::Logic::base_4))]
fn from_axiom(
    alloc: Global,
    k: &mut Kernel,
    f: &Term,
    extensionality: &Thm,
) -> Result<Thm, AllocError>
    requires base { HasBase k.old.defs }
    requires over { IsOver (signature_of k.old.defs) [] f.now }
    requires has_axiom { Has k.old extensionality.now }
    requires function { f.now ≡ tm_free (function_between alpha beta) }
    requires is_axiom { extensionality.now.sequent ≡ seq [] axiom_1 }
    ensures exact { IfOk result (λ th. th.sequent ≡ eta_fact alpha beta) }
    ensures has { IfOk result (λ th. Has k.new th) }
    ensures grows { Grows k.old k.new }
{
    let th = run_lines(alloc, k, &[f], &[extensionality], &ETA_LINES)?;
    Ok(th)
}

static ETA_LINES: [Line; 48] = [
    // 1: x:'a
    Line::Term(Make::Var(Letter::X, Shape::Alpha)),
    // 2: f x
    Line::Term(Make::App(0, 1)),
    // 3: \x. f x
    Line::Term(Make::Lambda(1, 2)),
    // 4: eq, 5: eq (\x. f x), 6: (\x. f x) = f
    Line::Term(Make::At(Generic::Equality, 3)),
    Line::Term(Make::App(4, 3)),
    Line::Term(Make::App(5, 0)),
    // 7: P, which is \f. (\x. f x) = f
    Line::Term(Make::Lambda(0, 6)),
    // 1: all = (\P. P = (\x. T)), 2: the same at the type of f, 3: P = P, 4: all P = (\P. P = (\x. T)) P
    Line::Thm(Infer::Definition(BaseName::All)),
    Line::Thm(Infer::InstType(1, &[("a", 0)])),
    Line::Thm(Infer::Refl(7)),
    Line::Thm(Infer::Comb(2, 3)),
    // 8: p, 9: \P. P = (\x. T), 10: (\P. P = (\x. T)) p
    Line::Term(Make::Var(Letter::P, Shape::Of(7))),
    Line::Term(Make::Right(2)),
    Line::Term(Make::App(9, 8)),
    // 5: (\P. P = (\x. T)) p = (p = (\x. T)), 6: the same of P, 7: all P = (P = (\x. T)), 8: P = (\x. T)
    Line::Thm(Infer::Beta(10)),
    Line::Thm(Infer::Inst(5, &[(8, 7)])),
    Line::Thm(Infer::Trans(4, 6)),
    Line::Thm(Infer::EqMp(7, 0)),
    // 9: f = f, 10: P f = (\x. T) f
    Line::Thm(Infer::Refl(0)),
    Line::Thm(Infer::Comb(8, 9)),
    // 11: P f; 11: P f = ((\x. f x) = f)
    Line::Term(Make::App(7, 0)),
    Line::Thm(Infer::Beta(11)),
    // 12: \x. T, 13: (\x. T) f; 12: (\x. T) f = T, 13: P f = T
    Line::Term(Make::Right(8)),
    Line::Term(Make::App(12, 0)),
    Line::Thm(Infer::Beta(13)),
    Line::Thm(Infer::Trans(10, 12)),
    // 14: eq at bool
    Line::Term(Make::At(Generic::Equality, 11)),
    // 14: eq = eq, 15: eq (P f) = eq ((\x. f x) = f), 16: P f = P f, 17: (P f = P f) = (((\x. f x) = f) = P f)
    Line::Thm(Infer::Refl(14)),
    Line::Thm(Infer::Comb(14, 11)),
    Line::Thm(Infer::Refl(11)),
    Line::Thm(Infer::Comb(15, 16)),
    // 18: ((\x. f x) = f) = P f, 19: ((\x. f x) = f) = T
    Line::Thm(Infer::EqMp(17, 16)),
    Line::Thm(Infer::Trans(18, 13)),
    // 15: T; 20: T = ((\p. p) = (\p. p)), 21: eq T = eq ((\p. p) = (\p. p)), 22: T = T
    Line::Term(Make::Const(Connective::Truth)),
    Line::Thm(Infer::Definition(BaseName::Truth)),
    Line::Thm(Infer::Comb(14, 20)),
    Line::Thm(Infer::Refl(15)),
    // 23: (T = T) = (((\p. p) = (\p. p)) = T), 24: ((\p. p) = (\p. p)) = T
    Line::Thm(Infer::Comb(21, 22)),
    Line::Thm(Infer::EqMp(23, 22)),
    // 16: p, 17: \p. p; 25: (\p. p) = (\p. p), 26: T
    Line::Term(Make::Var(Letter::P, Shape::Boolean)),
    Line::Term(Make::Lambda(16, 16)),
    Line::Thm(Infer::Refl(17)),
    Line::Thm(Infer::EqMp(24, 25)),
    // 27: eq ((\x. f x) = f) = eq T, 28: ((\x. f x) = f) = ((\x. f x) = f)
    Line::Thm(Infer::Comb(14, 19)),
    Line::Thm(Infer::Refl(6)),
    // 29: (((\x. f x) = f) = ((\x. f x) = f)) = (T = ((\x. f x) = f)), 30: T = ((\x. f x) = f), 31: (\x. f x) = f
    Line::Thm(Infer::Comb(27, 28)),
    Line::Thm(Infer::EqMp(29, 28)),
    Line::Thm(Infer::EqMp(30, 26)),
];
