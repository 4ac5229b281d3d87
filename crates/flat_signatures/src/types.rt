//! Types read strictly from canonical text.

ghost use Rattle.std.specs.Prelude.{◌≡◌, IfOk, length, [], ◌∷◌};
ghost use Rattle.hol_terms.specs.Ty.{ty_app, tys};
ghost use Rattle.hol_terms.specs.Text.{is_function};
ghost use Rattle.strict_reading.specs.Types.{has_arity, reads_type, reads_types, reads_onward, type_readings, group_step, stop_type};
ghost use Rattle.flat_terms.specs.Plain.{HasType, HasTypes, type_of, types_of};
ghost use Rattle.flat_instances.specs.TablesGrow.{TablesGrow};
ghost use Rattle.flat_signatures.specs.FlatNames.{plain_signature, HasSignature};
ghost use Rattle.flat_signatures.specs.Reads.{IsTypeWhere, IsTypeRead, AreTypesRead};
ghost use Rattle.flat_signatures.specs.Behind.{may_stand_behind, stands_behind, with_front};

use crate::entries::{put_name, put_variable};
use crate::signature::FlatSignature;
use crate::words::{begins_word, behind, split_word};
use flat_terms::nodes::TypeId;
use flat_terms::tables::Tables;
use std::alloc::{AllocError, Global};

/// A type that was read, and what is left of the text.
#[derive(Clone, Copy)]
pub struct TypeRead<'a> {
    pub ty: TypeId,
    pub rest: &'a [u8],
}

/// Types that were read, and what is left of the text.
#[derive(Drop)]
pub struct TypesRead<'a> {
    pub types: Vec<TypeId>,
    pub rest: &'a [u8],
}

/// The type whose canonical text the text begins with, and what is left, or None where there is none. After want of memory the tables
/// may have more names and types.
#[cycle(types)]
pub fn read_type<'a>(
    tables: &mut Tables,
    alloc: Global,
    signature: &FlatSignature,
    text: &'a [u8],
) -> Result<Option<TypeRead<'a>>, AllocError>
    requires { HasSignature tables.old signature.now }
    ensures grows { TablesGrow tables.old tables.new }
    ensures ok { IfOk result (λ r. IsTypeRead tables.new r (reads_type (plain_signature tables.old signature.now) text.now)) }
{
    if let Some(quoted) = behind(b"'", text) {
        let (word, rest) = split_word(quoted);
        let Some(variable) = put_variable(tables, alloc, word)? else {
            return Ok(None);
        };
        return read_onward(tables, alloc, signature, variable, rest);
    }
    if let Some(inner) = behind(b"(", text) {
        let Some(first) = read_type(tables, alloc, signature, inner)? else {
            return Ok(None);
        };
        return read_group(tables, alloc, signature, first.ty, first.rest);
    }
    if !begins_word(text) {
        return Ok(None);
    }
    let (word, rest) = split_word(text);
    let Some(named) = apply_name(tables, alloc, signature, word, &[])? else {
        return Ok(None);
    };
    read_onward(tables, alloc, signature, named, rest)
}

/// The types that follow commas, and what is left, or None where a comma is followed by none. After want of memory the tables may have
/// more names and types.
pub fn read_types<'a>(
    tables: &mut Tables,
    alloc: Global,
    signature: &FlatSignature,
    text: &'a [u8],
) -> Result<Option<TypesRead<'a>>, AllocError>
    requires { HasSignature tables.old signature.now }
    ensures grows { TablesGrow tables.old tables.new }
    ensures ok { IfOk result (λ r. AreTypesRead tables.new r (reads_types (plain_signature tables.old signature.now) text.now)) }
{
    read_more(tables, alloc, signature, Vec::new(alloc), text)
}

/// What follows a type that was read: names of one argument and ranges, which are taken up in it.
#[cycle(types)]
fn read_onward<'a>(
    tables: &mut Tables,
    alloc: Global,
    signature: &FlatSignature,
    ty: TypeId,
    text: &'a [u8],
) -> Result<Option<TypeRead<'a>>, AllocError>
    requires signature { HasSignature tables.old signature.now }
    requires ty { HasType tables.old ty }
    ensures grows { TablesGrow tables.old tables.new }
    ensures ok { IfOk result (λ r. IsTypeRead tables.new r (reads_onward (plain_signature tables.old signature.now) (type_of tables.old ty) text.now)) }
{
    let Some(space) = behind(b" ", text) else {
        return Ok(stop_type(tables, ty, text));
    };
    if begins_word(space) {
        let (word, rest) = split_word(space);
        let Some(applied) = apply_name(tables, alloc, signature, word, &[ty])? else {
            return Ok(None);
        };
        return read_onward(tables, alloc, signature, applied, rest);
    }
    let Some(range) = behind(b"-> ", space) else {
        return Ok(stop_type(tables, ty, text));
    };
    let Some(read) = read_type(tables, alloc, signature, range)? else {
        return Ok(None);
    };
    let Some(made) = apply_name(tables, alloc, signature, b"fun", &[ty, read.ty])? else {
        return Ok(None);
    };
    Ok(Some(TypeRead {
        ty: made,
        rest: read.rest,
    }))
}

/// What follows the first type in parentheses.
#[cycle(types)]
fn read_group<'a>(
    tables: &mut Tables,
    alloc: Global,
    signature: &FlatSignature,
    ty: TypeId,
    text: &'a [u8],
) -> Result<Option<TypeRead<'a>>, AllocError>
    requires signature { HasSignature tables.old signature.now }
    requires ty { HasType tables.old ty }
    ensures grows { TablesGrow tables.old tables.new }
    ensures ok { IfOk result (λ r. IsTypeRead tables.new r (group_step (plain_signature tables.old signature.now) (type_readings (plain_signature tables.old signature.now)) (type_of tables.old ty) text.now)) }
{
    if let Some(rest) = behind(b")", text) {
        if !is_function(tables, ty) {
            return Ok(None);
        }
        return read_onward(tables, alloc, signature, ty, rest);
    }
    let mut types = Vec::new(alloc);
    types.push(ty)?;
    let Some(read) = read_more(tables, alloc, signature, types, text)? else {
        return Ok(None);
    };
    let Some(space) = behind(b") ", read.rest) else {
        return Ok(None);
    };
    let (word, rest) = split_word(space);
    let Some(made) = apply_behind(tables, alloc, signature, word, read.types.as_slice())? else {
        return Ok(None);
    };
    read_onward(tables, alloc, signature, made, rest)
}

/// The types of a list, and those that follow commas.
#[cycle(types)]
fn read_more<'a>(
    tables: &mut Tables,
    alloc: Global,
    signature: &FlatSignature,
    types: Vec<TypeId>,
    text: &'a [u8],
) -> Result<Option<TypesRead<'a>>, AllocError>
    requires signature { HasSignature tables.old signature.now }
    requires types { HasTypes tables.old types.items }
    ensures grows { TablesGrow tables.old tables.new }
    ensures ok { IfOk result (λ r. AreTypesRead tables.new r (with_front (types_of tables.old types.items) (reads_types (plain_signature tables.old signature.now) text.now))) }
{
    let mut types = types;
    let mut rest = text;
    while let Some(next) = behind(b",", rest) {
        let Some(read) = read_type(tables, alloc, signature, next)? else {
            return Ok(None);
        };
        types.push(read.ty)?;
        rest = read.rest;
    }
    Ok(Some(TypesRead { types, rest }))
}

/// The type at which a reading ends, but for a function type, which would stand in parentheses before something else.
fn stop_type<'a>(tables: &Tables, ty: TypeId, text: &'a [u8]) -> Option<TypeRead<'a>>
    requires { HasType tables.now ty }
    ensures { IsTypeRead tables.now result (stop_type (type_of tables.now ty) text.now) }
{
    if is_function(tables, ty) {
        None
    } else {
        Some(TypeRead { ty, rest: text })
    }
}

/// Whether the type is a function type.
pub fn is_function(tables: &Tables, ty: TypeId) -> bool
    requires { HasType tables.now ty }
    ensures { result ≡ is_function (type_of tables.now ty) }
{
    tables.function_parts(ty).is_some()
}

/// The number of a name applied to types, or None where the signature has no type of that name and number of arguments.
fn apply_name(
    tables: &mut Tables,
    alloc: Global,
    signature: &FlatSignature,
    word: &[u8],
    args: &[TypeId],
) -> Result<Option<TypeId>, AllocError>
    requires signature { HasSignature tables.old signature.now }
    requires args { HasTypes tables.old args.now }
    ensures grows { TablesGrow tables.old tables.new }
    ensures ok { IfOk result (λ r. IsTypeWhere tables.new r (has_arity (plain_signature tables.old signature.now) word.now (length args.now)) (ty_app word.now (tys (types_of tables.old args.now)))) }
{
    let Ok(text) = str::from_utf8(word) else {
        return Ok(None);
    };
    let name = put_name(tables, alloc, text)?;
    if !signature.has_arity(tables, name, args.len()) {
        return Ok(None);
    }
    let applied = tables.type_application(alloc, name, args)?;
    Ok(Some(applied))
}

/// The number of a name behind several types in parentheses, or None where they are fewer than two, the signature has no type of that
/// name and number of arguments, or the type is a function type.
fn apply_behind(
    tables: &mut Tables,
    alloc: Global,
    signature: &FlatSignature,
    word: &[u8],
    args: &[TypeId],
) -> Result<Option<TypeId>, AllocError>
    requires signature { HasSignature tables.old signature.now }
    requires args { HasTypes tables.old args.now }
    ensures grows { TablesGrow tables.old tables.new }
    ensures ok { IfOk result (λ r. IsTypeWhere tables.new r (stands_behind (plain_signature tables.old signature.now) word.now (length args.now)) (ty_app word.now (tys (types_of tables.old args.now)))) }
{
    if !may_stand_behind(word, args.len()) {
        return Ok(None);
    }
    apply_name(tables, alloc, signature, word, args)
}

/// Whether a name stands behind so many types in parentheses, as `fun` doesn't behind two.
fn may_stand_behind(word: &[u8], count: usize) -> bool
    ensures { result ≡ may_stand_behind word.now count }
{
    count > 1 && !(count == 2 && word == b"fun".as_slice())
}
