//! Lists of hypotheses, which ascend in the term order, and copies of what is put for variables.

ghost use Rattle.std.specs.Prelude.{◌≡◌, [], map, IfOk, OnOk};
ghost use Rattle.hol_terms.specs.Subst.{ty_pairs};
ghost use Rattle.hol_terms.specs.Binding.{tm_inst, tm_ty_subst};
ghost use Rattle.hol_terms.specs.Keeps.{KeepsTypes};
ghost use Rattle.hol_terms.specs.Loose.{AreClosed};
ghost use Rattle.hol_terms.specs.Sequent.{insert_hyp, union};
ghost use Rattle.hol_terms.specs.Rules.{without};
ghost use Rattle.hol_kernel.specs.Place.{IsPlace};

use crate::theorem::copy_all;
use hol_terms::terms::{Term, Var};
use hol_terms::types::HolType;
use std::alloc::{AllocError, Global};
use std::cmp::Ordering;

/// The place of the term among the hypotheses, or None where it is there.
#[tactic(auto, using(crate::proofs::Placing::place_lemmas))]
fn place(t: &Term, hyps: &[Term]) -> Option<usize>
    ensures { IsPlace t.now hyps.now result }
{
    for (i, hyp) in hyps.iter().enumerate() {
        match t.cmp(hyp) {
            Ordering::Less => return Some(i),
            Ordering::Equal => return None,
            Ordering::Greater => {}
        }
    }
    Some(hyps.len())
}

/// Puts the term at its place among the hypotheses, if it is not there.
fn insert_term(hyps: &mut Vec<Term>, t: &Term) -> Result<(), AllocError>
    ensures { OnOk result (hyps.new.items ≡ insert_hyp t.now hyps.old.items) }
{
    if let Some(at) = place(t, hyps) {
        hyps.insert(at, t.copy()?)?;
    }
    Ok(())
}

/// The hypotheses of both lists.
#[tactic(auto, using(crate::proofs::Placing::union_lemmas))]
pub(crate) fn union_of(alloc: Global, a: &[Term], b: &[Term]) -> Result<Vec<Term>, AllocError>
    ensures { IfOk result (λ v. v.items ≡ union a.now b.now) }
{
    let mut hyps = copy_all(alloc, b)?;
    for t in a {
        insert_term(&mut hyps, t)?;
    }
    Ok(hyps)
}

/// The hypotheses but for the term.
#[tactic(auto, using(crate::proofs::Placing::without_lemmas), unfolding(hol_terms::specs::Rules::same))]
pub(crate) fn hyps_without(alloc: Global, t: &Term, hyps: &[Term]) -> Result<Vec<Term>, AllocError>
    ensures { IfOk result (λ v. v.items ≡ without t.now hyps.now) }
{
    let mut left = Vec::new(alloc);
    for hyp in hyps {
        if !matches!(t.cmp(hyp), Ordering::Equal) {
            left.push(hyp.copy()?)?;
        }
    }
    Ok(left)
}

/// The hypotheses with terms for variables.
pub(crate) fn inst_all(
    alloc: Global,
    hyps: &[Term],
    s: &[(Var, Term)],
) -> Result<Vec<Term>, AllocError>
    requires types { KeepsTypes s.now }
    requires closed { AreClosed s.now }
    ensures { IfOk result (λ v. v.items ≡ union (map (tm_inst s.now) hyps.now) []) }
{
    let mut all = Vec::new(alloc);
    for hyp in hyps {
        all.push(hyp.inst(alloc, s)?)?;
    }
    union_of(alloc, &all, &[])
}

/// The hypotheses with types for type variables.
pub(crate) fn inst_type_all(
    alloc: Global,
    hyps: &[Term],
    s: &[(String, HolType)],
) -> Result<Vec<Term>, AllocError>
    ensures { IfOk result (λ v. v.items ≡ union (map (tm_ty_subst (ty_pairs s.now)) hyps.now) []) }
{
    let mut all = Vec::new(alloc);
    for hyp in hyps {
        all.push(hyp.inst_type(alloc, s)?)?;
    }
    union_of(alloc, &all, &[])
}

/// Copies of the variables and of the terms that are put for them.
pub(crate) fn copy_terms(alloc: Global, s: &[(Var, Term)]) -> Result<Vec<(Var, Term)>, AllocError>
    ensures { IfOk result (λ v. v.items ≡ s.now) }
{
    let mut pairs = Vec::new(alloc);
    for (v, t) in s {
        pairs.push((v.copy(alloc)?, t.copy()?))?;
    }
    Ok(pairs)
}

/// Copies of the type variables and of the types that are put for them.
#[tactic(auto, using(crate::proofs::Placing::pairs_lemmas))]
pub(crate) fn copy_types(
    alloc: Global,
    s: &[(String, HolType)],
) -> Result<Vec<(String, HolType)>, AllocError>
    ensures { IfOk result (λ v. ty_pairs v.items ≡ ty_pairs s.now) }
{
    let mut pairs = Vec::new(alloc);
    for (name, ty) in s {
        pairs.push((String::from_str(alloc, name.as_str())?, ty.copy()?))?;
    }
    Ok(pairs)
}
