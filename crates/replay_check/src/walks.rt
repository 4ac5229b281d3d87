//! Tests of all parts of a term, each part once.

ghost use Rattle.std.specs.Prelude.{◌≡◌, false, IfOk};
ghost use Rattle.hol_terms.specs.Definition.{has_frees};
ghost use Rattle.flat_terms.specs.Plain.{HasTerm, term_of};
ghost use Rattle.flat_walks.specs.Lacks.{IsAdded};
ghost use Rattle.replay_check.specs.Walks.{AllMeet, IsClosed};

use flat_terms::nodes::{TermId, TermView};
use flat_terms::tables::Tables;
use indexmap::IndexSet;
use std::alloc::{AllocError, Global};

/// Whether a term has a free variable.
pub(crate) fn has_frees(tables: &Tables, alloc: Global, term: TermId) -> Result<bool, AllocError>
    requires { HasTerm tables.now term }
    ensures { IfOk result (λ b. b ≡ has_frees (term_of tables.now term)) }
{
    let mut closed = IndexSet::new(alloc);
    has_frees_at(tables, &mut closed, term)
}

/// Whether a term has a free variable, beside terms that are known to have none.
fn has_frees_at(
    tables: &Tables,
    closed: &mut IndexSet<TermId>,
    term: TermId,
) -> Result<bool, AllocError>
    requires term { HasTerm tables.now term }
    requires closed { AllMeet IsClosed tables.now closed.old.keys }
    ensures closed { AllMeet IsClosed tables.now closed.new.keys }
    ensures ok { IfOk result (λ b. b ≡ has_frees (term_of tables.now term)) }
{
    if closed.contains(&term) {
        return Ok(false);
    }
    match tables.term_view(term) {
        TermView::Comb(f, x) => {
            if has_frees_at(tables, closed, f)? {
                return Ok(true);
            }
            if has_frees_at(tables, closed, x)? {
                return Ok(true);
            }
            note(closed, term)
        }
        TermView::Abs(_, body) => {
            if has_frees_at(tables, closed, body)? {
                return Ok(true);
            }
            note(closed, term)
        }
        TermView::Index(_, _) => Ok(false),
        TermView::Const(_, _, _) => Ok(false),
        TermView::Free(_, _) => Ok(true),
    }
}

/// Notes a term that has no free variable.
fn note(closed: &mut IndexSet<TermId>, term: TermId) -> Result<bool, AllocError>
    ensures answer { IfOk result (λ b. b ≡ false) }
    ensures added { IsAdded closed.old.keys closed.new.keys term }
{
    closed.insert(term)?;
    Ok(false)
}
