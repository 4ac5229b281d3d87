//! Pairs of variables and what stands for them.

ghost use Rattle.std.specs.Prelude.{◌≡◌, IfOk};
ghost use Rattle.strict_lines.specs.Operands.{reads_type_pair, reads_pair, reads_type_pairs, reads_pairs};
ghost use Rattle.flat_instances.specs.TablesGrow.{TablesGrow};
ghost use Rattle.flat_signatures.specs.FlatNames.{plain_signature, HasSignature};
ghost use Rattle.flat_lines.specs.Reads.{Reads};
ghost use Rattle.flat_lines.specs.Operands.{IsTypePairRead, IsPairRead, AreTypePairs, ArePairs};

use crate::words::read_segment;
use flat_reading::atoms::read_free;
use flat_reading::terms::read_term;
use flat_signatures::signature::FlatSignature;
use flat_signatures::types::read_type;
use flat_signatures::words::behind;
use flat_terms::nodes::{NameId, TermId, TypeId};
use flat_terms::tables::Tables;
use std::alloc::{AllocError, Global};

/// A type for a type variable that was read, and what is left of the text.
#[derive(Clone, Copy)]
pub struct TypePairRead<'a> {
    pub variable: NameId,
    pub ty: TypeId,
    pub rest: &'a [u8],
}

/// A term for a free variable that was read, and what is left of the text.
#[derive(Clone, Copy)]
pub struct PairRead<'a> {
    pub variable: TermId,
    pub term: TermId,
    pub rest: &'a [u8],
}

/// The pairs of a type variable and a type that the whole text is, with semicolons between them, or None where it isn't so. After want
/// of memory the tables may have more names and types.
pub fn read_type_pairs(
    tables: &mut Tables,
    alloc: Global,
    signature: &FlatSignature,
    text: &[u8],
) -> Result<Option<Vec<(NameId, TypeId)>>, AllocError>
    requires { HasSignature tables.old signature.now }
    ensures grows { TablesGrow tables.old tables.new }
    ensures ok { IfOk result (λ r. Reads (AreTypePairs tables.new) r (reads_type_pairs (plain_signature tables.old signature.now) text.now)) }
{
    let mut pairs = Vec::new(alloc);
    let mut rest = text;
    loop {
        let Some(read) = read_type_pair(tables, alloc, signature, rest)? else {
            return Ok(None);
        };
        pairs.push((read.variable, read.ty))?;
        let Some(next) = behind(b" ; ", read.rest) else {
            if read.rest.is_empty() {
                return Ok(Some(pairs));
            }
            return Ok(None);
        };
        rest = next;
    }
}

/// The pairs of a free variable and a term that the whole text is, with semicolons between them, or None where it isn't so. After want
/// of memory the tables may have more names, types and terms.
pub fn read_pairs(
    tables: &mut Tables,
    alloc: Global,
    signature: &FlatSignature,
    text: &[u8],
) -> Result<Option<Vec<(TermId, TermId)>>, AllocError>
    requires { HasSignature tables.old signature.now }
    ensures grows { TablesGrow tables.old tables.new }
    ensures ok { IfOk result (λ r. Reads (ArePairs tables.new) r (reads_pairs (plain_signature tables.old signature.now) text.now)) }
{
    let mut pairs = Vec::new(alloc);
    let mut rest = text;
    loop {
        let Some(read) = read_pair(tables, alloc, signature, rest)? else {
            return Ok(None);
        };
        pairs.push((read.variable, read.term))?;
        let Some(next) = behind(b" ; ", read.rest) else {
            if read.rest.is_empty() {
                return Ok(Some(pairs));
            }
            return Ok(None);
        };
        rest = next;
    }
}

/// The pair of a type variable and a type that a text begins with.
fn read_type_pair<'a>(
    tables: &mut Tables,
    alloc: Global,
    signature: &FlatSignature,
    text: &'a [u8],
) -> Result<Option<TypePairRead<'a>>, AllocError>
    requires { HasSignature tables.old signature.now }
    ensures grows { TablesGrow tables.old tables.new }
    ensures ok { IfOk result (λ r. Reads (IsTypePairRead tables.new) r (reads_type_pair (plain_signature tables.old signature.now) text.now)) }
{
    let Some(quoted) = behind(b"'", text) else {
        return Ok(None);
    };
    let Some(variable) = read_segment(tables, alloc, quoted)? else {
        return Ok(None);
    };
    let Some(rest) = behind(b" := ", variable.rest) else {
        return Ok(None);
    };
    let Some(read) = read_type(tables, alloc, signature, rest)? else {
        return Ok(None);
    };
    Ok(Some(TypePairRead {
        variable: variable.name,
        ty: read.ty,
        rest: read.rest,
    }))
}

/// The pair of a free variable and a term that a text begins with.
fn read_pair<'a>(
    tables: &mut Tables,
    alloc: Global,
    signature: &FlatSignature,
    text: &'a [u8],
) -> Result<Option<PairRead<'a>>, AllocError>
    requires { HasSignature tables.old signature.now }
    ensures grows { TablesGrow tables.old tables.new }
    ensures ok { IfOk result (λ r. Reads (IsPairRead tables.new) r (reads_pair (plain_signature tables.old signature.now) text.now)) }
{
    let Some(variable) = read_free(tables, alloc, signature, text)? else {
        return Ok(None);
    };
    let Some(rest) = behind(b" := ", variable.rest) else {
        return Ok(None);
    };
    let Some(read) = read_term(tables, alloc, signature, rest)? else {
        return Ok(None);
    };
    Ok(Some(PairRead {
        variable: variable.term,
        term: read.term,
        rest: read.rest,
    }))
}
