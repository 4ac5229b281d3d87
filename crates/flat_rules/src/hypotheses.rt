//! Lists of hypotheses over the tables, which ascend in the term order.

ghost use Rattle.std.specs.Prelude.{◌≡◌, [], map, IfOk, OnOk};
ghost use Rattle.hol_terms.specs.Binding.{tm_inst, tm_ty_subst};
ghost use Rattle.hol_terms.specs.Sequent.{insert_hyp, union};
ghost use Rattle.hol_terms.specs.Rules.{without, free_in_none};
ghost use Rattle.flat_terms.specs.Plain.{HasTerm, term_of};
ghost use Rattle.flat_walks.specs.Walk.{IsVariable, var_of};
ghost use Rattle.flat_instances.specs.Types.{HasTypePairs, type_pairs};
ghost use Rattle.flat_instances.specs.Terms.{HasTermPairs, term_pairs};
ghost use Rattle.flat_instances.specs.TablesGrow.{TablesGrow};
ghost use Rattle.flat_rules.specs.Sequents.{HasTerms, terms_of, AreNumbers};
ghost use Rattle.flat_rules.specs.Places.{IsPlace};

use flat_instances::compare::compare;
use flat_instances::instance::instance;
use flat_instances::retype::type_instance_in;
use flat_terms::nodes::{NameId, TermId, TypeId};
use flat_terms::tables::Tables;
use flat_walks::occurs::occurs;
use std::alloc::{AllocError, Global};
use std::cmp::Ordering;

/// The place of a term among hypotheses, or None where it is there.
fn place(tables: &Tables, term: TermId, hyps: &[TermId]) -> Option<usize>
    requires term { HasTerm tables.now term }
    requires hyps { HasTerms tables.now hyps.now }
    ensures { IsPlace (term_of tables.now term) (terms_of tables.now hyps.now) result }
{
    for (i, hyp) in hyps.iter().enumerate() {
        match compare(tables, term, *hyp) {
            Ordering::Less => return Some(i),
            Ordering::Equal => return None,
            Ordering::Greater => {}
        }
    }
    Some(hyps.len())
}

/// Puts a term at its place among hypotheses, if it is not there.
pub fn insert_term(tables: &Tables, hyps: &mut Vec<TermId>, term: TermId) -> Result<(), AllocError>
    requires hyps { HasTerms tables.now hyps.old.items }
    requires term { HasTerm tables.now term }
    ensures { OnOk result (AreNumbers tables.now hyps.new.items (insert_hyp (term_of tables.now term) (terms_of tables.now hyps.old.items))) }
{
    if let Some(at) = place(tables, term, hyps) {
        hyps.insert(at, term)?;
    }
    Ok(())
}

/// A copy of a list of terms.
pub fn copied(alloc: Global, terms: &[TermId]) -> Result<Vec<TermId>, AllocError>
    ensures { IfOk result (λ v. v.items ≡ terms.now) }
{
    let mut list = Vec::new(alloc);
    list.extend_from_slice(terms)?;
    Ok(list)
}

/// The hypotheses of both lists.
pub fn union_of(
    tables: &Tables,
    alloc: Global,
    a: &[TermId],
    b: &[TermId],
) -> Result<Vec<TermId>, AllocError>
    requires a { HasTerms tables.now a.now }
    requires b { HasTerms tables.now b.now }
    ensures { IfOk result (λ v. AreNumbers tables.now v.items (union (terms_of tables.now a.now) (terms_of tables.now b.now))) }
{
    let mut hyps = copied(alloc, b)?;
    for term in a {
        insert_term(tables, &mut hyps, *term)?;
    }
    Ok(hyps)
}

/// The hypotheses but for a term.
pub fn without_term(
    tables: &Tables,
    alloc: Global,
    term: TermId,
    hyps: &[TermId],
) -> Result<Vec<TermId>, AllocError>
    requires term { HasTerm tables.now term }
    requires hyps { HasTerms tables.now hyps.now }
    ensures { IfOk result (λ v. AreNumbers tables.now v.items (without (term_of tables.now term) (terms_of tables.now hyps.now))) }
{
    let mut left = Vec::new(alloc);
    for hyp in hyps {
        if !tables.same_term(term, *hyp) {
            left.push(*hyp)?;
        }
    }
    Ok(left)
}

/// Whether a variable is free in none of the hypotheses.
pub fn is_free_in_none(
    tables: &Tables,
    alloc: Global,
    variable: TermId,
    hyps: &[TermId],
) -> Result<bool, AllocError>
    requires variable { IsVariable tables.now variable }
    requires hyps { HasTerms tables.now hyps.now }
    ensures { IfOk result (λ b. b ≡ free_in_none (var_of (term_of tables.now variable)) (terms_of tables.now hyps.now)) }
{
    for hyp in hyps {
        if occurs(tables, alloc, variable, *hyp)? {
            return Ok(false);
        }
    }
    Ok(true)
}

/// The numbers of the hypotheses with terms in place of free variables. After want of memory the tables may have more entries.
pub fn instances(
    tables: &mut Tables,
    alloc: Global,
    pairs: &[(TermId, TermId)],
    hyps: &[TermId],
) -> Result<Vec<TermId>, AllocError>
    requires pairs { HasTermPairs tables.old pairs.now }
    requires hyps { HasTerms tables.old hyps.now }
    ensures grows { TablesGrow tables.old tables.new }
    ensures ok { IfOk result (λ v. AreNumbers tables.new v.items (map (tm_inst (term_pairs tables.old pairs.now)) (terms_of tables.old hyps.now))) }
{
    let mut all = Vec::new(alloc);
    for hyp in hyps {
        let made = instance(tables, alloc, pairs, *hyp)?;
        all.push(made)?;
    }
    Ok(all)
}

/// The numbers of the hypotheses with types in place of type variables. After want of memory the tables may have more entries.
pub fn type_instances(
    tables: &mut Tables,
    alloc: Global,
    pairs: &[(NameId, TypeId)],
    hyps: &[TermId],
) -> Result<Vec<TermId>, AllocError>
    requires pairs { HasTypePairs tables.old pairs.now }
    requires hyps { HasTerms tables.old hyps.now }
    ensures grows { TablesGrow tables.old tables.new }
    ensures ok { IfOk result (λ v. AreNumbers tables.new v.items (map (tm_ty_subst (type_pairs tables.old pairs.now)) (terms_of tables.old hyps.now))) }
{
    let mut all = Vec::new(alloc);
    for hyp in hyps {
        let made = type_instance_in(tables, alloc, pairs, *hyp)?;
        all.push(made)?;
    }
    Ok(all)
}
