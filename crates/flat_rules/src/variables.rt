//! The type variables of terms.

ghost use Rattle.std.specs.Prelude.{◌≡◌, [], IfOk, OnOk};
ghost use Rattle.std.specs.List.{list_all};
ghost use Rattle.hol_terms.specs.TyVars.{is_among, tm_ty_vars, tm_within};
ghost use Rattle.flat_terms.specs.Plain.{HasType, HasTypes, HasTerm, type_of, types_of, term_of};
ghost use Rattle.flat_walks.specs.Lacks.{IsAdded};
ghost use Rattle.flat_signatures.specs.Reads.{AreTypeNumbers};
ghost use Rattle.flat_signatures.specs.Walked.{AllWalked};
ghost use Rattle.flat_rules.specs.WalkedTerms.{AllTermsWalked};

use flat_signatures::variables::{add_variables, add_variables_of, type_variables};
use flat_terms::nodes::{TermId, TermView, TypeId};
use flat_terms::tables::Tables;
use indexmap::IndexSet;
use std::alloc::{AllocError, Global};

/// The numbers of a term's type variables, each once, by first occurrence.
pub fn term_type_variables(
    tables: &Tables,
    alloc: Global,
    term: TermId,
) -> Result<IndexSet<TypeId>, AllocError>
    requires { HasTerm tables.now term }
    ensures { IfOk result (λ v. AreTypeNumbers tables.now v.keys (tm_ty_vars (term_of tables.now term) [])) }
{
    let mut seen = IndexSet::new(alloc);
    let mut types = IndexSet::new(alloc);
    let mut terms = IndexSet::new(alloc);
    add_term_variables(tables, &mut seen, &mut types, &mut terms, term)?;
    Ok(seen)
}

/// Whether each type variable of a term occurs in a type.
pub fn is_within(
    tables: &Tables,
    alloc: Global,
    term: TermId,
    ty: TypeId,
) -> Result<bool, AllocError>
    requires term { HasTerm tables.now term }
    requires ty { HasType tables.now ty }
    ensures { IfOk result (λ b. b ≡ tm_within (term_of tables.now term) (type_of tables.now ty)) }
{
    let variables = term_type_variables(tables, alloc, term)?;
    let own = type_variables(tables, alloc, ty)?;
    Ok(are_among(tables, variables.as_slice(), &own))
}

/// Whether each of the types is in the set.
fn are_among(tables: &Tables, types: &[TypeId], set: &IndexSet<TypeId>) -> bool
    requires types { HasTypes tables.now types.now }
    requires set { HasTypes tables.now set.now.keys }
    ensures { result ≡ list_all (λ v. is_among v (types_of tables.now set.now.keys)) (types_of tables.now types.now) }
{
    tables.entries_once();
    for ty in types {
        if !set.contains(ty) {
            return false;
        }
    }
    true
}

/// Adds a term's type variables that weren't seen before, beside types and terms of which all were.
fn add_term_variables(
    tables: &Tables,
    seen: &mut IndexSet<TypeId>,
    types: &mut IndexSet<TypeId>,
    terms: &mut IndexSet<TermId>,
    term: TermId,
) -> Result<(), AllocError>
    requires term { HasTerm tables.now term }
    requires seen { HasTypes tables.now seen.old.keys }
    requires types { AllWalked tables.now (types_of tables.now seen.old.keys) types.old.keys }
    requires terms { AllTermsWalked tables.now (types_of tables.now seen.old.keys) terms.old.keys }
    ensures seen { HasTypes tables.now seen.new.keys }
    ensures types { OnOk result (AllWalked tables.now (types_of tables.now seen.new.keys) types.new.keys) }
    ensures terms { OnOk result (AllTermsWalked tables.now (types_of tables.now seen.new.keys) terms.new.keys) }
    ensures ok { OnOk result (types_of tables.now seen.new.keys ≡ tm_ty_vars (term_of tables.now term) (types_of tables.now seen.old.keys)) }
{
    if terms.contains(&term) {
        return Ok(());
    }
    match tables.term_view(term) {
        TermView::Comb(f, x) => {
            add_term_variables(tables, seen, types, terms, f)?;
            add_term_variables(tables, seen, types, terms, x)?;
            note_walked(terms, term)
        }
        TermView::Abs(bound, body) => {
            add_variables(tables, seen, types, bound)?;
            add_term_variables(tables, seen, types, terms, body)?;
            note_walked(terms, term)
        }
        TermView::Index(_, _) => Ok(()),
        TermView::Const(_, args, _) => add_variables_of(tables, seen, types, args),
        TermView::Free(_, ty) => add_variables(tables, seen, types, ty),
    }
}

/// Notes that all type variables of a term were seen.
fn note_walked(terms: &mut IndexSet<TermId>, term: TermId) -> Result<(), AllocError>
    ensures { IsAdded terms.old.keys terms.new.keys term }
{
    terms.insert(term)?;
    Ok(())
}
