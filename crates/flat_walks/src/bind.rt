ghost use Rattle.std.specs.Prelude.{◌≡◌, Some, slice_get, IfOk, IfSome, OnErr, OnOk};
ghost use Rattle.hol_terms.specs.Binding.{tm_bind};
ghost use Rattle.flat_terms.specs.Plain.{HasTerm, term_of};
ghost use Rattle.flat_walks.specs.Walk.{IsVariable, var_of, Grows, AreBound, IsBound, IsRight, Walks, found, IsNoted};

use flat_terms::nodes::{TermId, TermView};
use flat_terms::tables::Tables;
use indexmap::IndexMap;
use std::alloc::{AllocError, Global};

/// A term below some binders.
#[derive(Clone, Copy, PartialEq, Eq, Hash)]
pub(crate) struct Place {
    pub(crate) term: TermId,
    pub(crate) depth: usize,
}

/// What a walk made of places before.
#[derive(Drop)]
pub(crate) struct Memo {
    pub(crate) done: IndexMap<Place, TermId>,
}

/// The number of a term in which a free variable became the index of the binder around the whole. After want of memory the tables may
/// have more terms; where the binders within the term can't be counted, the answer is as for want of memory.
pub fn bind(
    tables: &mut Tables,
    alloc: Global,
    variable: TermId,
    term: TermId,
) -> Result<TermId, AllocError>
    requires variable { IsVariable tables.old variable }
    requires term { HasTerm tables.old term }
    ensures grows { Grows tables.old tables.new }
    ensures ok { IfOk result (λ t. IsBound tables.old tables.new variable 0 term t) }
{
    let mut memo = Memo {
        done: IndexMap::new(alloc),
    };
    bind_at(tables, &mut memo, variable, 0, term)
}

/// The number of a term in which a free variable became the index of the binder that `depth` binders lie before.
fn bind_at(
    tables: &mut Tables,
    memo: &mut Memo,
    variable: TermId,
    depth: usize,
    term: TermId,
) -> Result<TermId, AllocError>
    requires variable { IsVariable tables.old variable }
    requires term { HasTerm tables.old term }
    requires memo { AreBound tables.old variable memo.old.done.entries }
    ensures walks { Walks tables.old tables.new variable memo.new.done.entries }
    ensures ok { IfOk result (λ t. IsBound tables.old tables.new variable depth term t) }
{
    let place = Place { term, depth };
    if let Some(bound) = find(memo, place) {
        return Ok(bound);
    }
    match tables.term_view(term) {
        TermView::Comb(f, x) => {
            let f = bind_at(tables, memo, variable, depth, f)?;
            let x = bind_at(tables, memo, variable, depth, x)?;
            let bound = tables.application(f, x)?;
            note(memo, place, bound)
        }
        TermView::Abs(a, b) => {
            let ty = tables.type_of(term);
            let Some(deeper) = depth.checked_add(1) else {
                return Err(AllocError);
            };
            let b = bind_at(tables, memo, variable, deeper, b)?;
            let bound = tables.abstraction(a, b, ty)?;
            note(memo, place, bound)
        }
        TermView::Index(_, _) => Ok(term),
        TermView::Const(_, _, _) => Ok(term),
        TermView::Free(_, ty) => {
            if tables.same_term(term, variable) {
                tables.index(depth, ty)
            } else {
                Ok(term)
            }
        }
    }
}

/// What a walk made of a place before.
pub(crate) fn find(memo: &Memo, place: Place) -> Option<TermId>
    ensures { found (memo.now.done.entries) place ≡ result }
{
    memo.done.get(&place).copied()
}

/// Notes what a walk made of a place, and gives it.
pub(crate) fn note(memo: &mut Memo, place: Place, made: TermId) -> Result<TermId, AllocError>
    ensures same { IfOk result (λ t. t ≡ made) }
    ensures noted { IsNoted memo.old.done.entries memo.new.done.entries place made }
{
    memo.done.insert(place, made)?;
    Ok(made)
}
