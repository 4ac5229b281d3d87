//! Variables that a term doesn't have.

ghost use Rattle.std.specs.Prelude.{◌≡◌, ◌≤◌, IfOk, string_bytes};
ghost use Rattle.hol_conv.specs.Fresh.{IsFresh, NamesWithin, AllNamesWithin, letters};

use hol_terms::terms::{Term, TermNode, Var};
use hol_terms::types::HolType;
use std::alloc::{AllocError, Global};

/// A variable of the type that is free neither in the term nor in the hypotheses.
pub fn fresh(alloc: Global, t: &Term, hyps: &[Term], ty: &HolType) -> Result<Var, AllocError>
    ensures { IfOk result (λ v. IsFresh t.now hyps.now ty.now v) }
{
    let most = longest(t, longest_of(hyps));
    let mut name = repeated(alloc, most)?;
    name.push_str("v")?;
    let v = Var::new(alloc, name.as_str(), ty)?;
    Ok(v)
}

/// A number of bytes that no name of a free variable exceeds, not below `least`.
#[tactic(auto, using(crate::proofs::FreshLemmas::within_lemmas))]
fn longest(t: &Term, least: usize) -> usize
    ensures more { least ≤ result }
    ensures within { NamesWithin result t.now }
{
    match t.view() {
        TermNode::Index(_) => least,
        TermNode::Free(v) => least.max(v.name().len()),
        TermNode::Const(_, _) => least,
        TermNode::Comb(f, x) => longest(x, longest(f, least)),
        TermNode::Abs(_, b) => longest(b, least),
    }
}

#[tactic(auto, using(crate::proofs::FreshLemmas::all_lemmas))]
fn longest_of(terms: &[Term]) -> usize
    ensures { AllNamesWithin result terms.now }
{
    let mut most = 0;
    for t in terms {
        most = longest(t, most);
    }
    most
}

#[tactic(auto, using(crate::proofs::FreshLemmas::letters_lemmas))]
fn repeated(alloc: Global, count: usize) -> Result<String, AllocError>
    ensures { IfOk result (λ s. string_bytes s ≡ letters count) }
{
    let mut name = String::new(alloc);
    for _ in 0..count {
        name.push_str("v")?;
    }
    Ok(name)
}
