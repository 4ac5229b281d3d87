//! The runner of tables.

ghost use Rattle.std.specs.Prelude.{◌≡◌, IfOk, OnOk, IsSome, Some};
ghost use Rattle.hol_kernel.specs.State.{Has, Grows};
ghost use Rattle.kernel_lines.specs.Bases.{HasBase, base_of, place_of, said};
ghost use Rattle.kernel_lines.specs.Lines.{inferred};
ghost use Rattle.kernel_lines.specs.Ready.{behind, sequents, AllOver, AllHad, Fits, Gives, LineFits, LineSteps};

use crate::line::{BaseName, Infer, Line};
use crate::made::{make_term, term_at, thm_at, var_of};
use crate::put::{put_terms, put_types};
use hol_kernel::{Kernel, Thm};
use hol_terms::terms::Term;
use std::alloc::{AllocError, Global};

fn place(d: &BaseName) -> usize
    ensures { result ≡ place_of d.now }
{
    match d {
        BaseName::Truth => 0,
        BaseName::Conj => 1,
        BaseName::Imp => 2,
        BaseName::All => 3,
        BaseName::Ex => 4,
        BaseName::Disj => 5,
        BaseName::Falsity => 6,
        BaseName::Not => 7,
        BaseName::OneOne => 8,
        BaseName::Onto => 9,
    }
}

fn definition(alloc: Global, k: &Kernel, d: &BaseName) -> Result<Thm, AllocError>
    requires { HasBase k.now.defs }
    ensures exact { IfOk result (λ th. said (base_of d.now) ≡ Some th.sequent) }
    ensures has { IfOk result (λ th. Has k.now th) }
{
    let th = k.def_at(alloc, place(d))?;
    Ok(th)
}

/// The theorem that a line makes.
fn infer_thm(
    alloc: Global,
    k: &mut Kernel,
    terms: &[Term],
    thms: &[Thm],
    i: &Infer,
) -> Result<Thm, AllocError>
    requires base { HasBase k.old.defs }
    requires had { AllHad k.old thms.now }
    requires over { AllOver k.old.defs terms.now }
    requires fits { IsSome (inferred terms.now (sequents thms.now) i.now) }
    ensures exact { IfOk result (λ th. inferred terms.now (sequents thms.now) i.now ≡ Some th.sequent) }
    ensures has { IfOk result (λ th. Has k.new th) }
    ensures grows { Grows k.old k.new }
{
    match i {
        Infer::Refl(t) => {
            let t = term_at(k, terms, *t);
            k.refl(alloc, t)
        }
        Infer::Assume(t) => {
            let t = term_at(k, terms, *t);
            k.assume(alloc, t)
        }
        Infer::Beta(t) => {
            let t = term_at(k, terms, *t);
            k.beta(alloc, t)
        }
        Infer::Trans(a, b) => {
            let a = thm_at(k, thms, *a);
            let b = thm_at(k, thms, *b);
            k.trans(alloc, a, b)
        }
        Infer::Comb(a, b) => {
            let a = thm_at(k, thms, *a);
            let b = thm_at(k, thms, *b);
            k.mk_comb(alloc, a, b)
        }
        Infer::EqMp(a, b) => {
            let a = thm_at(k, thms, *a);
            let b = thm_at(k, thms, *b);
            k.eq_mp(alloc, a, b)
        }
        Infer::Deduct(a, b) => {
            let a = thm_at(k, thms, *a);
            let b = thm_at(k, thms, *b);
            k.deduct(alloc, a, b)
        }
        Infer::Abs(v, a) => {
            let v = var_of(k, terms, *v);
            let a = thm_at(k, thms, *a);
            k.abs(alloc, v, a)
        }
        Infer::InstType(a, pairs) => {
            let a = thm_at(k, thms, *a);
            let pairs = put_types(alloc, k, terms, pairs)?;
            k.inst_type(alloc, a, &pairs)
        }
        Infer::Inst(a, pairs) => {
            let a = thm_at(k, thms, *a);
            let pairs = put_terms(alloc, k, terms, pairs)?;
            k.inst(alloc, a, &pairs)
        }
        Infer::Definition(d) => definition(alloc, k, d),
    }
}

fn run_line(
    alloc: Global,
    k: &mut Kernel,
    terms: &mut Vec<Term>,
    thms: &mut Vec<Thm>,
    line: &Line,
) -> Result<(), AllocError>
    requires base { HasBase k.old.defs }
    requires had { AllHad k.old thms.old.items }
    requires over { AllOver k.old.defs terms.old.items }
    requires fits { LineFits terms.old.items (sequents thms.old.items) line.now }
    ensures had { OnOk result (AllHad k.new thms.new.items) }
    ensures over { OnOk result (AllOver k.new.defs terms.new.items) }
    ensures exact { OnOk result (LineSteps terms.old.items (sequents thms.old.items) line.now terms.new.items (sequents thms.new.items)) }
    ensures grows { Grows k.old k.new }
{
    match line {
        Line::Term(m) => {
            let t = make_term(alloc, k, terms, thms, m)?;
            terms.push(t)?;
            Ok(())
        }
        Line::Thm(i) => {
            let th = infer_thm(alloc, k, terms, thms, i)?;
            thms.push(th)?;
            Ok(())
        }
    }
}

fn copy_terms(alloc: Global, given: &[&Term]) -> Result<Vec<Term>, AllocError>
    ensures { IfOk result (λ v. v.items ≡ behind given.now) }
{
    let mut terms = Vec::new(alloc);
    for t in given {
        terms.push(t.copy()?)?;
    }
    Ok(terms)
}

fn copy_thms(alloc: Global, given: &[&Thm]) -> Result<Vec<Thm>, AllocError>
    ensures { IfOk result (λ v. v.items ≡ behind given.now) }
{
    let mut thms = Vec::new(alloc);
    for th in given {
        thms.push(th.copy(alloc)?)?;
    }
    Ok(thms)
}

/// The theorem that the last line makes. Terms and theorems stand in two registers, the given ones first; each line adds one, from
/// those before it by their places.
pub fn run_lines(
    alloc: Global,
    k: &mut Kernel,
    terms: &[&Term],
    thms: &[&Thm],
    lines: &[Line],
) -> Result<Thm, AllocError>
    requires base { HasBase k.old.defs }
    requires had { AllHad k.old (behind thms.now) }
    requires over { AllOver k.old.defs (behind terms.now) }
    requires fits { Fits (behind terms.now) (sequents (behind thms.now)) lines.now }
    ensures exact { IfOk result (λ th. Gives (behind terms.now) (sequents (behind thms.now)) lines.now th.sequent) }
    ensures has { IfOk result (λ th. Has k.new th) }
    ensures grows { Grows k.old k.new }
{
    let mut terms = copy_terms(alloc, terms)?;
    let mut thms = copy_thms(alloc, thms)?;
    for line in lines {
        run_line(alloc, k, &mut terms, &mut thms, line)?;
    }
    match thms.pop() {
        Some(th) => Ok(th),
        None => unreachable!(),
    }
}
