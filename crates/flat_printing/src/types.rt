//! Types in canonical text.

ghost use Rattle.std.specs.Prelude.{◌≡◌, ◌++◌, OnOk, string_bytes};
ghost use Rattle.hol_terms.specs.Ty.{ty_app, tys};
ghost use Rattle.hol_terms.specs.Text.{is_arrow, is_function, parenthesized, with_commas, with_arguments, ty_text, tys_texts};
ghost use Rattle.flat_terms.specs.Plain.{HasName, HasType, HasTypes, name_of, type_of, types_of};
ghost use Rattle.flat_printing.specs.Commas.{comma_before};

use flat_terms::nodes::{NameId, TypeId, TypeView};
use flat_terms::tables::Tables;
use std::alloc::AllocError;

/// Whether a name, applied to these types, makes a function type.
fn is_arrow(tables: &Tables, name: NameId, args: &[TypeId]) -> bool
    requires { HasName tables.now name }
    ensures { result ≡ is_arrow (name_of tables.now name) (tys (types_of tables.now args.now)) }
{
    tables.name_text(name) == "fun" && args.len() == 2
}

/// Whether a type is a function type.
fn is_function(tables: &Tables, ty: TypeId) -> bool
    requires { HasType tables.now ty }
    ensures { result ≡ is_function (type_of tables.now ty) }
{
    match tables.type_view(ty) {
        TypeView::Var(_) => false,
        TypeView::App(name, args) => is_arrow(tables, name, args),
    }
}

/// Writes a type at the end of `out`: a function type stands in parentheses as a domain and as the only argument of a name. An `Err`,
/// for want of memory, leaves a part there.
#[cycle(types)]
pub fn push_type(tables: &Tables, out: &mut String, ty: TypeId) -> Result<(), AllocError>
    requires { HasType tables.now ty }
    ensures { OnOk result (string_bytes out.new ≡ string_bytes out.old ++ ty_text (type_of tables.now ty)) }
{
    match tables.type_view(ty) {
        TypeView::Var(name) => {
            out.push_str("'")?;
            out.push_str(tables.name_text(name))
        }
        TypeView::App(name, args) => push_named(tables, out, name, args),
    }
}

/// Writes a name applied to types.
#[cycle(types)]
#[tactic(auto, using(crate::proofs::Texts::named_lemmas))]
fn push_named(
    tables: &Tables,
    out: &mut String,
    name: NameId,
    args: &[TypeId],
) -> Result<(), AllocError>
    requires name { HasName tables.now name }
    requires args { HasTypes tables.now args.now }
    ensures { OnOk result (string_bytes out.new ≡ string_bytes out.old ++ ty_text (ty_app (name_of tables.now name) (tys (types_of tables.now args.now)))) }
{
    match args {
        [] => out.push_str(tables.name_text(name)),
        [arg] => {
            push_domain(tables, out, *arg)?;
            out.push_str(" ")?;
            out.push_str(tables.name_text(name))
        }
        [first, second, ..] => {
            if is_arrow(tables, name, args) {
                push_domain(tables, out, *first)?;
                out.push_str(" -> ")?;
                push_type(tables, out, *second)
            } else {
                out.push_str("(")?;
                push_types(tables, out, args)?;
                out.push_str(") ")?;
                out.push_str(tables.name_text(name))
            }
        }
    }
}

/// Writes a type, in parentheses if it is a function type.
#[cycle(types)]
fn push_domain(tables: &Tables, out: &mut String, ty: TypeId) -> Result<(), AllocError>
    requires { HasType tables.now ty }
    ensures { OnOk result (string_bytes out.new ≡ string_bytes out.old ++ parenthesized (is_function (type_of tables.now ty)) (ty_text (type_of tables.now ty))) }
{
    if is_function(tables, ty) {
        out.push_str("(")?;
        push_type(tables, out, ty)?;
        out.push_str(")")
    } else {
        push_type(tables, out, ty)
    }
}

/// Writes types with commas between them.
#[cycle(types)]
fn push_types(tables: &Tables, out: &mut String, types: &[TypeId]) -> Result<(), AllocError>
    requires { HasTypes tables.now types.now }
    ensures { OnOk result (string_bytes out.new ≡ string_bytes out.old ++ with_commas (tys_texts (tys (types_of tables.now types.now)))) }
{
    for (i, ty) in types.iter().enumerate() {
        push_comma(out, i)?;
        push_type(tables, out, *ty)?;
    }
    Ok(())
}

/// Writes the comma before the text at a place, which the first has not.
fn push_comma(out: &mut String, place: usize) -> Result<(), AllocError>
    ensures { OnOk result (string_bytes out.new ≡ string_bytes out.old ++ comma_before place) }
{
    if place == 0 {
        Ok(())
    } else {
        out.push_str(",")
    }
}

/// Writes a name with its type arguments in braces, which are absent where there are none.
#[tactic(auto, using(crate::proofs::Texts::constant_lemmas))]
pub(crate) fn push_constant(
    tables: &Tables,
    out: &mut String,
    name: NameId,
    args: &[TypeId],
) -> Result<(), AllocError>
    requires name { HasName tables.now name }
    requires args { HasTypes tables.now args.now }
    ensures { OnOk result (string_bytes out.new ≡ string_bytes out.old ++ with_arguments (name_of tables.now name) (tys_texts (tys (types_of tables.now args.now)))) }
{
    out.push_str(tables.name_text(name))?;
    match args {
        [] => Ok(()),
        [_, ..] => {
            out.push_str("{")?;
            push_types(tables, out, args)?;
            out.push_str("}")
        }
    }
}
