ghost use Rattle.std.specs.Prelude.{◌≡◌, IfOk};
ghost use Rattle.hol_terms.specs.Binding.{tm_open};
ghost use Rattle.flat_terms.specs.Plain.{HasTerm, term_of};
ghost use Rattle.flat_walks.specs.Walk.{IsVariable, var_of, Grows};
ghost use Rattle.flat_walks.specs.Number.{IsNumber, AreAll};
ghost use Rattle.flat_walks.specs.Opens.{IsOpenable, opened, IsOpened, Opens};

use crate::bind::{Memo, Place, find, note};
use flat_terms::nodes::{TermId, TermView};
use flat_terms::tables::Tables;
use indexmap::IndexMap;
use std::alloc::{AllocError, Global};

/// The number of a term with a free variable in place of each index of the binder around the whole, as the body of an abstraction
/// applied to the variable. These indices have the variable's type. After want of memory the tables may have more terms; where the
/// binders within the term can't be counted, the answer is as for want of memory.
pub fn open(
    tables: &mut Tables,
    alloc: Global,
    variable: TermId,
    term: TermId,
) -> Result<TermId, AllocError>
    requires variable { IsVariable tables.old variable }
    requires term { HasTerm tables.old term }
    requires openable { IsOpenable tables.old variable 0 term }
    ensures grows { Grows tables.old tables.new }
    ensures ok { IfOk result (λ r. IsNumber tables.new r (tm_open 0 (var_of (term_of tables.old variable)) (term_of tables.old term))) }
{
    let mut memo = Memo {
        done: IndexMap::new(alloc),
    };
    open_at(tables, &mut memo, variable, 0, term)
}

/// The number of a term with a free variable in place of each index that `depth` binders lie before.
fn open_at(
    tables: &mut Tables,
    memo: &mut Memo,
    variable: TermId,
    depth: usize,
    term: TermId,
) -> Result<TermId, AllocError>
    requires variable { IsVariable tables.old variable }
    requires term { HasTerm tables.old term }
    requires openable { IsOpenable tables.old variable depth term }
    requires memo { AreAll (IsOpened tables.old variable) memo.old.done.entries }
    ensures opens { Opens tables.old tables.new variable memo.new.done.entries }
    ensures ok { IfOk result (λ r. IsNumber tables.new r (opened tables.old variable depth term)) }
{
    let place = Place { term, depth };
    if let Some(made) = find(memo, place) {
        return Ok(made);
    }
    match tables.term_view(term) {
        TermView::Comb(f, x) => {
            let f = open_at(tables, memo, variable, depth, f)?;
            let x = open_at(tables, memo, variable, depth, x)?;
            let made = tables.application(f, x)?;
            note(memo, place, made)
        }
        TermView::Abs(a, b) => {
            let ty = tables.type_of(term);
            let Some(deeper) = depth.checked_add(1) else {
                return Err(AllocError);
            };
            let b = open_at(tables, memo, variable, deeper, b)?;
            let made = tables.abstraction(a, b, ty)?;
            note(memo, place, made)
        }
        TermView::Index(index, _) => {
            if index == depth {
                Ok(variable)
            } else {
                Ok(term)
            }
        }
        TermView::Const(_, _, _) => Ok(term),
        TermView::Free(_, _) => Ok(term),
    }
}
