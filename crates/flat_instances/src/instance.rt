ghost use Rattle.std.specs.Prelude.{◌≡◌, IfOk};
ghost use Rattle.hol_terms.specs.Tm.{tm_free};
ghost use Rattle.hol_terms.specs.Binding.{tm_inst, var_lookup};
ghost use Rattle.flat_terms.specs.Plain.{HasTerm, term_of};
ghost use Rattle.flat_walks.specs.Walk.{IsVariable, var_of, Grows};
ghost use Rattle.flat_walks.specs.Number.{IsNumber, AreAll};
ghost use Rattle.flat_instances.specs.Terms.{HasTermPairs, term_pairs, instance_of, IsInstance, TakesTerms, found_term, IsTermNoted};

use flat_terms::nodes::{TermId, TermView};
use flat_terms::tables::Tables;
use indexmap::IndexMap;
use std::alloc::{AllocError, Global};

/// The number of a term with terms in place of free variables, all at once; of the pairs of a variable and a term of its type the first
/// counts. After want of memory the tables may have more terms.
pub fn instance(
    tables: &mut Tables,
    alloc: Global,
    pairs: &[(TermId, TermId)],
    term: TermId,
) -> Result<TermId, AllocError>
    requires pairs { HasTermPairs tables.old pairs.now }
    requires term { HasTerm tables.old term }
    ensures grows { Grows tables.old tables.new }
    ensures ok { IfOk result (λ r. IsNumber tables.new r (tm_inst (term_pairs tables.old pairs.now) (term_of tables.old term))) }
{
    let mut memo = IndexMap::new(alloc);
    instance_at(tables, &mut memo, pairs, term)
}

/// The number of a term's instance, beside instances that are known.
fn instance_at(
    tables: &mut Tables,
    memo: &mut IndexMap<TermId, TermId>,
    pairs: &[(TermId, TermId)],
    term: TermId,
) -> Result<TermId, AllocError>
    requires pairs { HasTermPairs tables.old pairs.now }
    requires term { HasTerm tables.old term }
    requires memo { AreAll (IsInstance tables.old pairs.now) memo.old.entries }
    ensures takes { TakesTerms tables.old tables.new pairs.now memo.new.entries }
    ensures ok { IfOk result (λ r. IsNumber tables.new r (instance_of tables.old pairs.now term)) }
{
    if let Some(made) = find_term(memo, term) {
        return Ok(made);
    }
    match tables.term_view(term) {
        TermView::Comb(f, x) => {
            let f = instance_at(tables, memo, pairs, f)?;
            let x = instance_at(tables, memo, pairs, x)?;
            let made = tables.application(f, x)?;
            note_term(memo, term, made)
        }
        TermView::Abs(a, b) => {
            let ty = tables.type_of(term);
            let b = instance_at(tables, memo, pairs, b)?;
            let made = tables.abstraction(a, b, ty)?;
            note_term(memo, term, made)
        }
        TermView::Index(_, _) => Ok(term),
        TermView::Const(_, _, _) => Ok(term),
        TermView::Free(_, _) => Ok(stand_in(tables, pairs, term)),
    }
}

/// The number of the term that stands for a variable, which is its own where no pair has it.
fn stand_in(tables: &Tables, pairs: &[(TermId, TermId)], variable: TermId) -> TermId
    requires pairs { HasTermPairs tables.now pairs.now }
    requires variable { IsVariable tables.now variable }
    ensures { IsNumber tables.now result (var_lookup (term_pairs tables.now pairs.now) (var_of (term_of tables.now variable))) }
{
    for (key, term) in pairs {
        if tables.same_term(*key, variable) {
            return *term;
        }
    }
    variable
}

/// The instance that is known of a term.
pub(crate) fn find_term(memo: &IndexMap<TermId, TermId>, term: TermId) -> Option<TermId>
    ensures { found_term memo.now.entries term ≡ result }
{
    memo.get(&term).copied()
}

/// Notes the instance of a term, and gives it.
pub(crate) fn note_term(
    memo: &mut IndexMap<TermId, TermId>,
    term: TermId,
    made: TermId,
) -> Result<TermId, AllocError>
    ensures same { IfOk result (λ t. t ≡ made) }
    ensures noted { IsTermNoted memo.old.entries memo.new.entries term made }
{
    memo.insert(term, made)?;
    Ok(made)
}
