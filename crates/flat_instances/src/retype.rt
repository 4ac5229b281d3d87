ghost use Rattle.std.specs.Prelude.{◌≡◌, IfOk};
ghost use Rattle.hol_terms.specs.Binding.{tm_ty_subst};
ghost use Rattle.flat_terms.specs.Plain.{HasTerm, term_of};
ghost use Rattle.flat_walks.specs.Number.{IsNumber, AreAll};
ghost use Rattle.flat_instances.specs.Types.{HasTypePairs, type_pairs, IsTypeInstance};
ghost use Rattle.flat_instances.specs.Retypings.{Extends, KeepsType, IsRetyped, IsRetyping, Retypes};

use crate::instance::{find_term, note_term};
use crate::types::{copied, type_instance_at, type_instances_at};
use flat_terms::nodes::{NameId, TermId, TermView, TypeId};
use flat_terms::tables::Tables;
use indexmap::IndexMap;
use std::alloc::{AllocError, Global};

/// Instances that are known.
#[derive(Drop)]
struct Known {
    types: IndexMap<TypeId, TypeId>,
    terms: IndexMap<TermId, TermId>,
}

/// The number of a term with types in place of type variables, all at once; of the pairs of a variable's name and a type the first
/// counts. Its type is that instance of the term's type. After want of memory the tables may have more types and terms.
pub fn type_instance_in(
    tables: &mut Tables,
    alloc: Global,
    pairs: &[(NameId, TypeId)],
    term: TermId,
) -> Result<TermId, AllocError>
    requires pairs { HasTypePairs tables.old pairs.now }
    requires term { HasTerm tables.old term }
    ensures grows { Extends tables.old tables.new }
    ensures ok { IfOk result (λ r. IsNumber tables.new r (tm_ty_subst (type_pairs tables.old pairs.now) (term_of tables.old term))) }
    ensures typed { IfOk result (λ r. KeepsType (type_pairs tables.old pairs.now) (term_of tables.old term)) }
{
    let mut known = Known {
        types: IndexMap::new(alloc),
        terms: IndexMap::new(alloc),
    };
    retype_at(tables, alloc, &mut known, pairs, term)
}

/// The number of a term's instance, beside instances that are known.
fn retype_at(
    tables: &mut Tables,
    alloc: Global,
    known: &mut Known,
    pairs: &[(NameId, TypeId)],
    term: TermId,
) -> Result<TermId, AllocError>
    requires pairs { HasTypePairs tables.old pairs.now }
    requires term { HasTerm tables.old term }
    requires types { AreAll (IsTypeInstance tables.old pairs.now) known.old.types.entries }
    requires terms { AreAll (IsRetyping tables.old pairs.now) known.old.terms.entries }
    ensures retypes { Retypes tables.old tables.new pairs.now known.new.types.entries known.new.terms.entries }
    ensures ok { IfOk result (λ r. IsRetyped tables.old tables.new pairs.now term r) }
{
    if let Some(made) = find_term(&known.terms, term) {
        return Ok(made);
    }
    match tables.term_view(term) {
        TermView::Comb(f, x) => {
            let f = retype_at(tables, alloc, known, pairs, f)?;
            let x = retype_at(tables, alloc, known, pairs, x)?;
            let made = tables.application(f, x)?;
            note_term(&mut known.terms, term, made)
        }
        TermView::Abs(a, b) => {
            let ty = tables.type_of(term);
            let b = retype_at(tables, alloc, known, pairs, b)?;
            let a = type_instance_at(tables, alloc, &mut known.types, pairs, a)?;
            let ty = type_instance_at(tables, alloc, &mut known.types, pairs, ty)?;
            let made = tables.abstraction(a, b, ty)?;
            note_term(&mut known.terms, term, made)
        }
        TermView::Index(index, ty) => {
            let ty = type_instance_at(tables, alloc, &mut known.types, pairs, ty)?;
            tables.index(index, ty)
        }
        TermView::Const(name, args, ty) => {
            let args = copied(alloc, args)?;
            let args = type_instances_at(tables, alloc, &mut known.types, pairs, args.as_slice())?;
            let ty = type_instance_at(tables, alloc, &mut known.types, pairs, ty)?;
            tables.constant(alloc, name, args.as_slice(), ty)
        }
        TermView::Free(name, ty) => {
            let ty = type_instance_at(tables, alloc, &mut known.types, pairs, ty)?;
            tables.free(name, ty)
        }
    }
}
