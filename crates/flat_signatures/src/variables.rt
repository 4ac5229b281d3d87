//! The type variables of a type.

ghost use Rattle.std.specs.Prelude.{◌≡◌, IfOk, OnOk, []};
ghost use Rattle.hol_terms.specs.Ty.{tys};
ghost use Rattle.hol_terms.specs.TyVars.{ty_vars, tys_vars, with_var};
ghost use Rattle.flat_terms.specs.Plain.{HasType, HasTypes, type_of, types_of};
ghost use Rattle.flat_signatures.specs.Over.{IsTypeAdded};
ghost use Rattle.flat_signatures.specs.Reads.{AreTypeNumbers};
ghost use Rattle.flat_signatures.specs.Walked.{AllWalked};

use flat_terms::nodes::{TypeId, TypeView};
use flat_terms::tables::Tables;
use indexmap::IndexSet;
use std::alloc::{AllocError, Global};

/// The numbers of a type's variables, each once, by first occurrence.
pub fn type_variables(
    tables: &Tables,
    alloc: Global,
    ty: TypeId,
) -> Result<IndexSet<TypeId>, AllocError>
    requires { HasType tables.now ty }
    ensures { IfOk result (λ v. AreTypeNumbers tables.now v.keys (ty_vars (type_of tables.now ty) [])) }
{
    let mut seen = IndexSet::new(alloc);
    let mut walked = IndexSet::new(alloc);
    add_variables(tables, &mut seen, &mut walked, ty)?;
    Ok(seen)
}

/// Adds a type's variables that weren't seen before, by first occurrence, beside types of which all were. After want of memory only
/// some may be added.
#[cycle(variables)]
pub fn add_variables(
    tables: &Tables,
    seen: &mut IndexSet<TypeId>,
    walked: &mut IndexSet<TypeId>,
    ty: TypeId,
) -> Result<(), AllocError>
    requires ty { HasType tables.now ty }
    requires seen { HasTypes tables.now seen.old.keys }
    requires walked { AllWalked tables.now (types_of tables.now seen.old.keys) walked.old.keys }
    ensures seen { HasTypes tables.now seen.new.keys }
    ensures walked { OnOk result (AllWalked tables.now (types_of tables.now seen.new.keys) walked.new.keys) }
    ensures ok { OnOk result (types_of tables.now seen.new.keys ≡ ty_vars (type_of tables.now ty) (types_of tables.now seen.old.keys)) }
{
    if walked.contains(&ty) {
        return Ok(());
    }
    match tables.type_view(ty) {
        TypeView::Var(_) => add_variable(tables, seen, ty),
        TypeView::App(_, args) => {
            add_variables_of(tables, seen, walked, args)?;
            note_walked(walked, ty)
        }
    }
}

/// Adds the variables of several types, in their order, as `add_variables` does.
#[cycle(variables)]
pub fn add_variables_of(
    tables: &Tables,
    seen: &mut IndexSet<TypeId>,
    walked: &mut IndexSet<TypeId>,
    types: &[TypeId],
) -> Result<(), AllocError>
    requires types { HasTypes tables.now types.now }
    requires seen { HasTypes tables.now seen.old.keys }
    requires walked { AllWalked tables.now (types_of tables.now seen.old.keys) walked.old.keys }
    ensures seen { HasTypes tables.now seen.new.keys }
    ensures walked { OnOk result (AllWalked tables.now (types_of tables.now seen.new.keys) walked.new.keys) }
    ensures ok { OnOk result (types_of tables.now seen.new.keys ≡ tys_vars (tys (types_of tables.now types.now)) (types_of tables.now seen.old.keys)) }
{
    for ty in types {
        add_variables(tables, seen, walked, *ty)?;
    }
    Ok(())
}

/// Adds a type that isn't in the list.
fn add_variable(tables: &Tables, seen: &mut IndexSet<TypeId>, ty: TypeId) -> Result<(), AllocError>
    requires ty { HasType tables.now ty }
    requires seen { HasTypes tables.now seen.old.keys }
    ensures seen { HasTypes tables.now seen.new.keys }
    ensures ok { OnOk result (types_of tables.now seen.new.keys ≡ with_var (type_of tables.now ty) (types_of tables.now seen.old.keys)) }
{
    tables.entries_once();
    seen.insert(ty)?;
    Ok(())
}

/// Notes that all variables of a type were seen.
fn note_walked(walked: &mut IndexSet<TypeId>, ty: TypeId) -> Result<(), AllocError>
    ensures { IsTypeAdded walked.old.keys walked.new.keys ty }
{
    walked.insert(ty)?;
    Ok(())
}
