//! Types that are well formed over a signature.

ghost use Rattle.std.specs.Prelude.{◌≡◌, IfOk, true};
ghost use Rattle.hol_terms.specs.Ty.{tys};
ghost use Rattle.strict_reading.specs.Terms.{is_type_over, are_types_over};
ghost use Rattle.flat_terms.specs.Plain.{HasType, HasTypes, type_of, types_of};
ghost use Rattle.flat_signatures.specs.FlatNames.{plain_signature, HasSignature};
ghost use Rattle.flat_signatures.specs.Over.{AllOver, IsTypeAdded};

use crate::names::is_segment;
use crate::signature::FlatSignature;
use flat_terms::nodes::{TypeId, TypeView};
use flat_terms::tables::Tables;
use indexmap::IndexSet;
use std::alloc::{AllocError, Global};

/// Whether a type is well formed over the signature: each name has its number of arguments, and type variables are segments.
pub fn is_type_over(
    tables: &Tables,
    alloc: Global,
    signature: &FlatSignature,
    ty: TypeId,
) -> Result<bool, AllocError>
    requires signature { HasSignature tables.now signature.now }
    requires ty { HasType tables.now ty }
    ensures { IfOk result (λ b. b ≡ is_type_over (plain_signature tables.now signature.now) (type_of tables.now ty)) }
{
    let mut known = IndexSet::new(alloc);
    is_over(tables, signature, &mut known, ty)
}

/// Whether each of the types is well formed over the signature.
pub fn are_types_over(
    tables: &Tables,
    alloc: Global,
    signature: &FlatSignature,
    types: &[TypeId],
) -> Result<bool, AllocError>
    requires signature { HasSignature tables.now signature.now }
    requires types { HasTypes tables.now types.now }
    ensures { IfOk result (λ b. b ≡ are_types_over (plain_signature tables.now signature.now) (tys (types_of tables.now types.now))) }
{
    let mut known = IndexSet::new(alloc);
    are_over(tables, signature, &mut known, types)
}

/// Whether a type is well formed, beside types that are known to be.
#[cycle(over)]
fn is_over(
    tables: &Tables,
    signature: &FlatSignature,
    known: &mut IndexSet<TypeId>,
    ty: TypeId,
) -> Result<bool, AllocError>
    requires signature { HasSignature tables.now signature.now }
    requires ty { HasType tables.now ty }
    requires known { AllOver tables.now signature.now known.old.keys }
    ensures known { AllOver tables.now signature.now known.new.keys }
    ensures ok { IfOk result (λ b. b ≡ is_type_over (plain_signature tables.now signature.now) (type_of tables.now ty)) }
{
    if known.contains(&ty) {
        return Ok(true);
    }
    match tables.type_view(ty) {
        TypeView::Var(name) => Ok(is_segment(tables.name_text(name))),
        TypeView::App(name, args) => {
            if !signature.has_arity(tables, name, args.len()) {
                return Ok(false);
            }
            if !are_over(tables, signature, known, args)? {
                return Ok(false);
            }
            note_over(known, ty)
        }
    }
}

/// Whether each of the types is well formed, beside types that are known to be.
#[cycle(over)]
fn are_over(
    tables: &Tables,
    signature: &FlatSignature,
    known: &mut IndexSet<TypeId>,
    types: &[TypeId],
) -> Result<bool, AllocError>
    requires signature { HasSignature tables.now signature.now }
    requires types { HasTypes tables.now types.now }
    requires known { AllOver tables.now signature.now known.old.keys }
    ensures known { AllOver tables.now signature.now known.new.keys }
    ensures ok { IfOk result (λ b. b ≡ are_types_over (plain_signature tables.now signature.now) (tys (types_of tables.now types.now))) }
{
    for ty in types {
        if !is_over(tables, signature, known, *ty)? {
            return Ok(false);
        }
    }
    Ok(true)
}

/// Notes that a type is well formed.
fn note_over(known: &mut IndexSet<TypeId>, ty: TypeId) -> Result<bool, AllocError>
    ensures answer { IfOk result (λ b. b ≡ true) }
    ensures added { IsTypeAdded known.old.keys known.new.keys ty }
{
    known.insert(ty)?;
    Ok(true)
}
