//! Constants of a signature at type arguments.

ghost use Rattle.std.specs.Prelude.{◌≡◌, ◌==◌, IfOk, [], length};
ghost use Rattle.hol_terms.specs.Ty.{ty_var};
ghost use Rattle.hol_terms.specs.TyVars.{ty_vars, instance_at, pairs_of, var_name};
ghost use Rattle.strict_reading.specs.Terms.{constant};
ghost use Rattle.flat_terms.specs.Plain.{HasName, HasType, HasTypes, name_of, type_of, types_of};
ghost use Rattle.flat_instances.specs.TablesGrow.{TablesGrow};
ghost use Rattle.flat_instances.specs.Types.{TypesGrow, HasTypePairs, type_pairs};
ghost use Rattle.flat_signatures.specs.FlatNames.{plain_signature, HasSignature};
ghost use Rattle.flat_signatures.specs.Reads.{IsNameNumber, IsTypeWhere, IsTermOf};

use crate::over::{are_types_over, is_type_over};
use crate::signature::FlatSignature;
use crate::variables::type_variables;
use flat_instances::types::type_instance;
use flat_terms::nodes::{NameId, TermId, TypeId, TypeView};
use flat_terms::tables::Tables;
use std::alloc::{AllocError, Global};

/// The number of the constant of that name at type arguments, or None where the signature has none of the name, or one with another
/// number of type variables, or an argument or its type isn't well formed. After want of memory the tables may have more types.
pub fn constant(
    tables: &mut Tables,
    alloc: Global,
    signature: &FlatSignature,
    name: NameId,
    args: &[TypeId],
) -> Result<Option<TermId>, AllocError>
    requires signature { HasSignature tables.old signature.now }
    requires name { HasName tables.old name }
    requires args { HasTypes tables.old args.now }
    ensures grows { TablesGrow tables.old tables.new }
    ensures ok { IfOk result (λ r. IsTermOf tables.new r (constant (plain_signature tables.old signature.now) (name_of tables.old name) (types_of tables.old args.now))) }
{
    let Some(generic) = signature.generic(tables, name) else {
        return Ok(None);
    };
    if !are_types_over(tables, alloc, signature, args)? {
        return Ok(None);
    }
    let Some(ty) = instance_at(tables, alloc, generic, args)? else {
        return Ok(None);
    };
    if !is_type_over(tables, alloc, signature, ty)? {
        return Ok(None);
    }
    let made = tables.constant(alloc, name, args, ty)?;
    Ok(Some(made))
}

/// The number of a generic type with the arguments in place of its type variables, or None where they aren't as many. After want of
/// memory the tables may have more types.
pub fn instance_at(
    tables: &mut Tables,
    alloc: Global,
    generic: TypeId,
    args: &[TypeId],
) -> Result<Option<TypeId>, AllocError>
    requires generic { HasType tables.old generic }
    requires args { HasTypes tables.old args.now }
    ensures grows { TypesGrow tables.old tables.new }
    ensures ok { IfOk result (λ r. IsTypeWhere tables.new r (length args.now == length (ty_vars (type_of tables.old generic) [])) (instance_at (type_of tables.old generic) (types_of tables.old args.now))) }
{
    let variables = type_variables(tables, alloc, generic)?;
    if args.len() != variables.len() {
        return Ok(None);
    }
    let pairs = pairs_of(tables, alloc, variables.as_slice(), args)?;
    let instance = type_instance(tables, alloc, pairs.as_slice(), generic)?;
    Ok(Some(instance))
}

/// The pairs of each variable's name and the argument at its place.
fn pairs_of(
    tables: &Tables,
    alloc: Global,
    variables: &[TypeId],
    args: &[TypeId],
) -> Result<Vec<(NameId, TypeId)>, AllocError>
    requires variables { HasTypes tables.now variables.now }
    requires args { HasTypes tables.now args.now }
    requires as_many { length args.now ≡ length variables.now }
    ensures has { IfOk result (λ v. HasTypePairs tables.now v.items) }
    ensures pairs { IfOk result (λ v. type_pairs tables.now v.items ≡ pairs_of (types_of tables.now variables.now) (types_of tables.now args.now)) }
{
    let mut pairs = Vec::new(alloc);
    for (i, variable) in variables.iter().enumerate() {
        pairs.push((name_of(tables, *variable), args[i]))?;
    }
    Ok(pairs)
}

/// The name of a type variable.
fn name_of(tables: &Tables, ty: TypeId) -> NameId
    requires { HasType tables.now ty }
    ensures { IsNameNumber tables.now result (var_name (type_of tables.now ty)) }
{
    match tables.type_view(ty) {
        TypeView::Var(name) => name,
        TypeView::App(name, _) => name,
    }
}
