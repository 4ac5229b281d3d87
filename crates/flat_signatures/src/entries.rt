//! Entries of the tables that readings add.

ghost use Rattle.std.specs.Prelude.{◌≡◌, ◌++◌, IfOk};
ghost use Rattle.hol_terms.specs.Ty.{ty_var, ty_app, no_tys};
ghost use Rattle.hol_terms.specs.Typing.{fun_ty};
ghost use Rattle.hol_terms.specs.Name.{is_segment};
ghost use Rattle.flat_terms.specs.Plain.{HasName, HasType, name_of, type_of};
ghost use Rattle.flat_instances.specs.Types.{IsTypeNumber};
ghost use Rattle.flat_instances.specs.TablesGrow.{TablesGrow};
ghost use Rattle.flat_signatures.specs.Reads.{IsNameNumber, IsTypeWhere};

use crate::names::is_segment;
use flat_terms::nodes::{NameId, TypeId};
use flat_terms::tables::Tables;
use std::alloc::{AllocError, Global};

/// The number of a name, which is added if it isn't there. After want of memory the tables are as before.
pub fn put_name(tables: &mut Tables, alloc: Global, text: &str) -> Result<NameId, AllocError>
    ensures grows { TablesGrow tables.old tables.new }
    ensures ok { IfOk result (λ n. IsNameNumber tables.new n text.now) }
{
    tables.name(alloc, text)
}

/// The number of a name followed by `end`. After want of memory the tables are as before.
pub fn put_dotted(
    tables: &mut Tables,
    alloc: Global,
    name: NameId,
    end: &str,
) -> Result<NameId, AllocError>
    requires { HasName tables.old name }
    ensures grows { TablesGrow tables.old tables.new }
    ensures ok { IfOk result (λ n. IsNameNumber tables.new n (name_of tables.old name ++ end.now)) }
{
    let mut whole = String::from_str(alloc, tables.name_text(name))?;
    whole.push_str(end)?;
    put_name(tables, alloc, whole.as_str())
}

/// The number of a type variable of any name. After want of memory the tables may have more names.
pub fn put_type_variable(
    tables: &mut Tables,
    alloc: Global,
    text: &str,
) -> Result<TypeId, AllocError>
    ensures grows { TablesGrow tables.old tables.new }
    ensures ok { IfOk result (λ t. IsTypeNumber tables.new t (ty_var text.now)) }
{
    let name = put_name(tables, alloc, text)?;
    tables.type_variable(name)
}

/// The number of a type of that name without arguments. After want of memory the tables may have more names.
pub fn put_type_constant(
    tables: &mut Tables,
    alloc: Global,
    text: &str,
) -> Result<TypeId, AllocError>
    ensures grows { TablesGrow tables.old tables.new }
    ensures ok { IfOk result (λ t. IsTypeNumber tables.new t (ty_app text.now no_tys)) }
{
    let name = put_name(tables, alloc, text)?;
    tables.type_application(alloc, name, &[])
}

/// The number of a function type. After want of memory the tables may have more names.
pub fn put_function(
    tables: &mut Tables,
    alloc: Global,
    domain: TypeId,
    range: TypeId,
) -> Result<TypeId, AllocError>
    requires domain { HasType tables.old domain }
    requires range { HasType tables.old range }
    ensures grows { TablesGrow tables.old tables.new }
    ensures ok { IfOk result (λ t. IsTypeNumber tables.new t (fun_ty (type_of tables.old domain) (type_of tables.old range))) }
{
    let name = put_name(tables, alloc, "fun")?;
    tables.type_application(alloc, name, &[domain, range])
}

/// The number of the type variable of that name, or None where the name is no segment. After want of memory the tables may have
/// more names.
pub fn put_variable(
    tables: &mut Tables,
    alloc: Global,
    word: &[u8],
) -> Result<Option<TypeId>, AllocError>
    ensures grows { TablesGrow tables.old tables.new }
    ensures ok { IfOk result (λ r. IsTypeWhere tables.new r (is_segment word.now) (ty_var word.now)) }
{
    let Ok(text) = str::from_utf8(word) else {
        return Ok(None);
    };
    if !is_segment(text) {
        return Ok(None);
    }
    let variable = put_type_variable(tables, alloc, text)?;
    Ok(Some(variable))
}
