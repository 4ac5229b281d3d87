//! Variables and constants read from canonical text.

ghost use Rattle.std.specs.Prelude.{◌≡◌, IfOk};
ghost use Rattle.strict_reading.specs.Terms.{free_step, reads_free, arguments_step, constant_step, named_step, atom};
ghost use Rattle.flat_terms.specs.Plain.{HasTypes, types_of};
ghost use Rattle.flat_instances.specs.TablesGrow.{TablesGrow};
ghost use Rattle.flat_signatures.specs.FlatNames.{plain_signature, HasSignature};
ghost use Rattle.flat_reading.specs.Reads.{IsTermRead, IsFreeRead, AreBinders};

use crate::applying::constant_named;
use crate::signs::find_binder;
use flat_signatures::entries::put_name;
use flat_signatures::names::is_name;
use flat_signatures::signature::FlatSignature;
use flat_signatures::types::{read_type, read_types};
use flat_signatures::words::{begins_word, behind, split_word};
use flat_terms::nodes::{TermId, TypeId};
use flat_terms::tables::Tables;
use std::alloc::{AllocError, Global};

/// A term that was read, and what is left of the text.
#[derive(Clone, Copy)]
pub struct TermRead<'a> {
    pub term: TermId,
    pub rest: &'a [u8],
}

/// The free variable that the text begins with, and what is left, or None where there is none. After want of memory the tables may
/// have more names and types.
pub fn read_free<'a>(
    tables: &mut Tables,
    alloc: Global,
    signature: &FlatSignature,
    text: &'a [u8],
) -> Result<Option<TermRead<'a>>, AllocError>
    requires { HasSignature tables.old signature.now }
    ensures grows { TablesGrow tables.old tables.new }
    ensures ok { IfOk result (λ r. IsFreeRead tables.new r (reads_free (plain_signature tables.old signature.now) text.now)) }
{
    let Some(inner) = behind(b"[", text) else {
        return Ok(None);
    };
    read_free_behind(tables, alloc, signature, inner)
}

/// A free variable behind its bracket.
fn read_free_behind<'a>(
    tables: &mut Tables,
    alloc: Global,
    signature: &FlatSignature,
    text: &'a [u8],
) -> Result<Option<TermRead<'a>>, AllocError>
    requires { HasSignature tables.old signature.now }
    ensures grows { TablesGrow tables.old tables.new }
    ensures ok { IfOk result (λ r. IsFreeRead tables.new r (free_step (plain_signature tables.old signature.now) text.now)) }
{
    let (word, behind_name) = split_word(text);
    let Ok(name) = str::from_utf8(word) else {
        return Ok(None);
    };
    if !is_name(name) {
        return Ok(None);
    }
    let Some(colon) = behind(b":", behind_name) else {
        return Ok(None);
    };
    let Some(read) = read_type(tables, alloc, signature, colon)? else {
        return Ok(None);
    };
    let Some(rest) = behind(b"]", read.rest) else {
        return Ok(None);
    };
    let name = put_name(tables, alloc, name)?;
    let term = tables.free(name, read.ty)?;
    Ok(Some(TermRead { term, rest }))
}

/// A variable or a constant, below binders of these types, the innermost first.
pub(crate) fn read_atom<'a>(
    tables: &mut Tables,
    alloc: Global,
    signature: &FlatSignature,
    bound: &[TypeId],
    text: &'a [u8],
) -> Result<Option<TermRead<'a>>, AllocError>
    requires { AreBinders tables.old signature.now bound.now }
    ensures grows { TablesGrow tables.old tables.new }
    ensures ok { IfOk result (λ r. IsTermRead tables.new r (atom (plain_signature tables.old signature.now) (types_of tables.old bound.now) text.now)) }
{
    if let Some(inner) = behind(b"[", text) {
        return read_free_behind(tables, alloc, signature, inner);
    }
    if !begins_word(text) {
        return Ok(None);
    }
    let (word, rest) = split_word(text);
    if let Some((index, ty)) = find_binder(tables, bound, word) {
        let term = tables.index(index, ty)?;
        return Ok(Some(TermRead { term, rest }));
    }
    read_constant(tables, alloc, signature, word, rest)
}

/// The constant of a name, with the type arguments that stand behind it.
fn read_constant<'a>(
    tables: &mut Tables,
    alloc: Global,
    signature: &FlatSignature,
    word: &[u8],
    text: &'a [u8],
) -> Result<Option<TermRead<'a>>, AllocError>
    requires { HasSignature tables.old signature.now }
    ensures grows { TablesGrow tables.old tables.new }
    ensures ok { IfOk result (λ r. IsTermRead tables.new r (constant_step (plain_signature tables.old signature.now) word.now text.now)) }
{
    if let Some(inner) = behind(b"{", text) {
        return read_arguments_of(tables, alloc, signature, word, inner);
    }
    let Some(term) = constant_named(tables, alloc, signature, word, &[])? else {
        return Ok(None);
    };
    Ok(Some(TermRead { term, rest: text }))
}

/// The constant of a name, whose type arguments are to be read.
fn read_arguments_of<'a>(
    tables: &mut Tables,
    alloc: Global,
    signature: &FlatSignature,
    word: &[u8],
    text: &'a [u8],
) -> Result<Option<TermRead<'a>>, AllocError>
    requires { HasSignature tables.old signature.now }
    ensures grows { TablesGrow tables.old tables.new }
    ensures ok { IfOk result (λ r. IsTermRead tables.new r (arguments_step (plain_signature tables.old signature.now) word.now text.now)) }
{
    let Some(first) = read_type(tables, alloc, signature, text)? else {
        return Ok(None);
    };
    let mut args = Vec::new(alloc);
    args.push(first.ty)?;
    let Some(more) = read_types(tables, alloc, signature, first.rest)? else {
        return Ok(None);
    };
    let Some(rest) = behind(b"}", more.rest) else {
        return Ok(None);
    };
    args.extend_from_slice(more.types.as_slice())?;
    let Some(term) = constant_named(tables, alloc, signature, word, args.as_slice())? else {
        return Ok(None);
    };
    Ok(Some(TermRead { term, rest }))
}
