ghost use Rattle.std.specs.Prelude.{◌≡◌, IfOk, false};
ghost use Rattle.hol_terms.specs.Binding.{has_free};
ghost use Rattle.flat_terms.specs.Plain.{HasTerm, term_of};
ghost use Rattle.flat_walks.specs.Walk.{IsVariable, var_of};
ghost use Rattle.flat_walks.specs.Lacks.{LackAll, IsAdded};

use flat_terms::nodes::{TermId, TermView};
use flat_terms::tables::Tables;
use indexmap::IndexSet;
use std::alloc::{AllocError, Global};

/// Whether a free variable occurs in a term.
pub fn occurs(
    tables: &Tables,
    alloc: Global,
    variable: TermId,
    term: TermId,
) -> Result<bool, AllocError>
    requires variable { IsVariable tables.now variable }
    requires term { HasTerm tables.now term }
    ensures { IfOk result (λ b. b ≡ has_free (var_of (term_of tables.now variable)) (term_of tables.now term)) }
{
    let mut lacking = IndexSet::new(alloc);
    occurs_at(tables, &mut lacking, variable, term)
}

/// Whether a free variable occurs in a term, beside terms that are known to lack it.
fn occurs_at(
    tables: &Tables,
    lacking: &mut IndexSet<TermId>,
    variable: TermId,
    term: TermId,
) -> Result<bool, AllocError>
    requires variable { IsVariable tables.now variable }
    requires term { HasTerm tables.now term }
    requires lacking { LackAll tables.now variable lacking.old.keys }
    ensures lacking { LackAll tables.now variable lacking.new.keys }
    ensures ok { IfOk result (λ b. b ≡ has_free (var_of (term_of tables.now variable)) (term_of tables.now term)) }
{
    if lacking.contains(&term) {
        return Ok(false);
    }
    match tables.term_view(term) {
        TermView::Comb(f, x) => {
            if occurs_at(tables, lacking, variable, f)? {
                return Ok(true);
            }
            if occurs_at(tables, lacking, variable, x)? {
                return Ok(true);
            }
            lacks(lacking, term)
        }
        TermView::Abs(_, body) => {
            if occurs_at(tables, lacking, variable, body)? {
                return Ok(true);
            }
            lacks(lacking, term)
        }
        TermView::Index(_, _) => Ok(false),
        TermView::Const(_, _, _) => Ok(false),
        TermView::Free(_, _) => Ok(tables.same_term(term, variable)),
    }
}

/// Notes that a term lacks the variable.
fn lacks(lacking: &mut IndexSet<TermId>, term: TermId) -> Result<bool, AllocError>
    ensures answer { IfOk result (λ b. b ≡ false) }
    ensures added { IsAdded lacking.old.keys lacking.new.keys term }
{
    lacking.insert(term)?;
    Ok(false)
}
