ghost use Rattle.std.specs.Prelude.{◌≡◌, IfOk, length};
ghost use Rattle.hol_terms.specs.Ty.{ty_var};
ghost use Rattle.hol_terms.specs.Subst.{ty_subst, ty_lookup};
ghost use Rattle.flat_terms.specs.Plain.{HasName, HasType, HasTypes, name_of, type_of};
ghost use Rattle.flat_walks.specs.Number.{AreAll};
ghost use Rattle.flat_instances.specs.Types.{TypesGrow, IsTypeNumber, HasTypePairs, type_pairs, type_instance_of, IsTypeInstance, TakesTypes, AreTypeInstances, found_type, IsTypeNoted};

use flat_terms::nodes::{NameId, TypeId, TypeView};
use flat_terms::tables::Tables;
use indexmap::IndexMap;
use std::alloc::{AllocError, Global};

/// The number of a type with types in place of type variables, all at once; of the pairs of a variable's name and a type the first
/// counts. After want of memory the tables may have more types.
pub fn type_instance(
    tables: &mut Tables,
    alloc: Global,
    pairs: &[(NameId, TypeId)],
    ty: TypeId,
) -> Result<TypeId, AllocError>
    requires pairs { HasTypePairs tables.old pairs.now }
    requires ty { HasType tables.old ty }
    ensures grows { TypesGrow tables.old tables.new }
    ensures ok { IfOk result (λ r. IsTypeNumber tables.new r (ty_subst (type_pairs tables.old pairs.now) (type_of tables.old ty))) }
{
    let mut memo = IndexMap::new(alloc);
    type_instance_at(tables, alloc, &mut memo, pairs, ty)
}

/// The number of a type's instance, beside instances that are known.
#[cycle(type_instances)]
pub(crate) fn type_instance_at(
    tables: &mut Tables,
    alloc: Global,
    memo: &mut IndexMap<TypeId, TypeId>,
    pairs: &[(NameId, TypeId)],
    ty: TypeId,
) -> Result<TypeId, AllocError>
    requires pairs { HasTypePairs tables.old pairs.now }
    requires ty { HasType tables.old ty }
    requires memo { AreAll (IsTypeInstance tables.old pairs.now) memo.old.entries }
    ensures takes { TakesTypes tables.old tables.new pairs.now memo.new.entries }
    ensures ok { IfOk result (λ r. IsTypeNumber tables.new r (type_instance_of tables.old pairs.now ty)) }
{
    if let Some(made) = find_type(memo, ty) {
        return Ok(made);
    }
    match tables.type_view(ty) {
        TypeView::Var(name) => Ok(replacement(tables, pairs, name, ty)),
        TypeView::App(name, args) => {
            let args = copied(alloc, args)?;
            let args = type_instances_at(tables, alloc, memo, pairs, args.as_slice())?;
            let made = tables.type_application(alloc, name, args.as_slice())?;
            note_type(memo, ty, made)
        }
    }
}

/// The numbers of types' instances, in their order.
#[cycle(type_instances)]
pub(crate) fn type_instances_at(
    tables: &mut Tables,
    alloc: Global,
    memo: &mut IndexMap<TypeId, TypeId>,
    pairs: &[(NameId, TypeId)],
    types: &[TypeId],
) -> Result<Vec<TypeId>, AllocError>
    requires pairs { HasTypePairs tables.old pairs.now }
    requires types { HasTypes tables.old types.now }
    requires memo { AreAll (IsTypeInstance tables.old pairs.now) memo.old.entries }
    ensures takes { TakesTypes tables.old tables.new pairs.now memo.new.entries }
    ensures ok { IfOk result (λ v. AreTypeInstances tables.old tables.new pairs.now types.now v.items) }
{
    let mut instances = Vec::new(alloc);
    for ty in types {
        let instance = type_instance_at(tables, alloc, memo, pairs, *ty)?;
        instances.push(instance)?;
    }
    Ok(instances)
}

/// The number of the type that stands for a type variable, which is its own where no pair has its name.
fn replacement(
    tables: &Tables,
    pairs: &[(NameId, TypeId)],
    name: NameId,
    variable: TypeId,
) -> TypeId
    requires pairs { HasTypePairs tables.now pairs.now }
    requires name { HasName tables.now name }
    requires variable { IsTypeNumber tables.now variable (ty_var (name_of tables.now name)) }
    ensures { IsTypeNumber tables.now result (ty_lookup (type_pairs tables.now pairs.now) (name_of tables.now name)) }
{
    tables.entries_once();
    for (key, ty) in pairs {
        if *key == name {
            return *ty;
        }
    }
    variable
}

/// A copy of a list of types.
pub(crate) fn copied(alloc: Global, types: &[TypeId]) -> Result<Vec<TypeId>, AllocError>
    ensures { IfOk result (λ v. v.items ≡ types.now) }
{
    let mut list = Vec::new(alloc);
    list.extend_from_slice(types)?;
    Ok(list)
}

/// The instance that is known of a type.
fn find_type(memo: &IndexMap<TypeId, TypeId>, ty: TypeId) -> Option<TypeId>
    ensures { found_type memo.now.entries ty ≡ result }
{
    memo.get(&ty).copied()
}

/// Notes the instance of a type, and gives it.
fn note_type(
    memo: &mut IndexMap<TypeId, TypeId>,
    ty: TypeId,
    made: TypeId,
) -> Result<TypeId, AllocError>
    ensures same { IfOk result (λ t. t ≡ made) }
    ensures noted { IsTypeNoted memo.old.entries memo.new.entries ty made }
{
    memo.insert(ty, made)?;
    Ok(made)
}
