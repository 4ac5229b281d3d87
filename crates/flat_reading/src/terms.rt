//! Terms read strictly from canonical text.

ghost use Rattle.std.specs.Prelude.{◌≡◌, IfOk, [], length};
ghost use Rattle.strict_reading.specs.Terms.{reads_term, reads_arguments, term_readings, enclosed, argument_step, head_step, operand_step, sign_step};
ghost use Rattle.flat_terms.specs.Plain.{HasType, HasTypes, HasTerm, term_of, types_of};
ghost use Rattle.flat_instances.specs.TablesGrow.{TablesGrow};
ghost use Rattle.flat_signatures.specs.FlatNames.{plain_signature, HasSignature};
ghost use Rattle.flat_reading.specs.Reads.{IsTermRead, AreBinders};
ghost use Rattle.flat_reading.specs.Scopes.{scope_step, IsScopeRead};

use crate::applying::{apply, bind_by, connect, negate};
use crate::atoms::{TermRead, read_atom};
use crate::shapes::{is_atom, is_plain, is_sugar};
use crate::signs::{begins_argument, behind_bound, binder_sign, connective_sign};
use flat_signatures::signature::FlatSignature;
use flat_signatures::types::read_type;
use flat_signatures::words::behind;
use flat_terms::nodes::{TermId, TypeId};
use flat_terms::tables::Tables;
use std::alloc::{AllocError, Global};

/// What stands behind the sign of a binder, and what is left of the text.
#[derive(Clone, Copy)]
struct ScopeRead<'a> {
    ty: TypeId,
    body: TermId,
    rest: &'a [u8],
}

/// The term whose canonical text the text begins with, and what is left, or None where there is none. After want of memory the tables
/// may have more names, types and terms.
pub fn read_term<'a>(
    tables: &mut Tables,
    alloc: Global,
    signature: &FlatSignature,
    text: &'a [u8],
) -> Result<Option<TermRead<'a>>, AllocError>
    requires { HasSignature tables.old signature.now }
    ensures grows { TablesGrow tables.old tables.new }
    ensures ok { IfOk result (λ r. IsTermRead tables.new r (reads_term (plain_signature tables.old signature.now) [] text.now)) }
{
    read_below(tables, alloc, signature, &[], text)
}

/// A term below binders of these types, the innermost first.
#[cycle(terms)]
fn read_below<'a>(
    tables: &mut Tables,
    alloc: Global,
    signature: &FlatSignature,
    bound: &[TypeId],
    text: &'a [u8],
) -> Result<Option<TermRead<'a>>, AllocError>
    requires { AreBinders tables.old signature.now bound.now }
    ensures grows { TablesGrow tables.old tables.new }
    ensures ok { IfOk result (λ r. IsTermRead tables.new r (reads_term (plain_signature tables.old signature.now) (types_of tables.old bound.now) text.now)) }
{
    if let Some((sign, behind_sign)) = binder_sign(text) {
        let Some(scope) = read_scope(tables, alloc, signature, bound, behind_sign)? else {
            return Ok(None);
        };
        let Some(term) = bind_by(tables, alloc, signature, sign, scope.ty, scope.body)? else {
            return Ok(None);
        };
        return Ok(Some(TermRead {
            term,
            rest: scope.rest,
        }));
    }
    if let Some(behind_sign) = behind(b"~ ", text) {
        let Some(read) = read_operand(tables, alloc, signature, bound, behind_sign)? else {
            return Ok(None);
        };
        let Some(term) = negate(tables, alloc, signature, read.term)? else {
            return Ok(None);
        };
        return Ok(Some(TermRead {
            term,
            rest: read.rest,
        }));
    }
    let Some(first) = read_operand(tables, alloc, signature, bound, text)? else {
        return Ok(None);
    };
    read_behind(tables, alloc, signature, bound, first.term, first.rest)
}

/// What stands behind the sign of a binder.
#[cycle(terms)]
fn read_scope<'a>(
    tables: &mut Tables,
    alloc: Global,
    signature: &FlatSignature,
    bound: &[TypeId],
    text: &'a [u8],
) -> Result<Option<ScopeRead<'a>>, AllocError>
    requires { AreBinders tables.old signature.now bound.now }
    ensures grows { TablesGrow tables.old tables.new }
    ensures ok { IfOk result (λ r. IsScopeRead tables.new r (scope_step (plain_signature tables.old signature.now) (term_readings (plain_signature tables.old signature.now)) (types_of tables.old bound.now) text.now)) }
{
    let Some(colon) = behind_bound(bound.len(), text) else {
        return Ok(None);
    };
    let Some(ty_text) = behind(b":", colon) else {
        return Ok(None);
    };
    let Some(read) = read_type(tables, alloc, signature, ty_text)? else {
        return Ok(None);
    };
    let Some(body_text) = behind(b". ", read.rest) else {
        return Ok(None);
    };
    let mut inner = Vec::new(alloc);
    inner.push(read.ty)?;
    inner.extend_from_slice(bound)?;
    let Some(body) = read_below(tables, alloc, signature, inner.as_slice(), body_text)? else {
        return Ok(None);
    };
    Ok(Some(ScopeRead {
        ty: read.ty,
        body: body.term,
        rest: body.rest,
    }))
}

/// An operand: a head and its arguments.
#[cycle(terms)]
fn read_operand<'a>(
    tables: &mut Tables,
    alloc: Global,
    signature: &FlatSignature,
    bound: &[TypeId],
    text: &'a [u8],
) -> Result<Option<TermRead<'a>>, AllocError>
    requires { AreBinders tables.old signature.now bound.now }
    ensures grows { TablesGrow tables.old tables.new }
    ensures ok { IfOk result (λ r. IsTermRead tables.new r (operand_step (plain_signature tables.old signature.now) (term_readings (plain_signature tables.old signature.now)) (types_of tables.old bound.now) text.now)) }
{
    let Some(head) = read_head(tables, alloc, signature, bound, text)? else {
        return Ok(None);
    };
    read_arguments(tables, alloc, signature, bound, head.term, head.rest)
}

/// What an operand begins with: an atom, or in parentheses a term that is neither an atom nor an application that no sign stands for.
#[cycle(terms)]
fn read_head<'a>(
    tables: &mut Tables,
    alloc: Global,
    signature: &FlatSignature,
    bound: &[TypeId],
    text: &'a [u8],
) -> Result<Option<TermRead<'a>>, AllocError>
    requires { AreBinders tables.old signature.now bound.now }
    ensures grows { TablesGrow tables.old tables.new }
    ensures ok { IfOk result (λ r. IsTermRead tables.new r (head_step (plain_signature tables.old signature.now) (term_readings (plain_signature tables.old signature.now)) (types_of tables.old bound.now) text.now)) }
{
    let Some(inner) = behind(b"(", text) else {
        return read_atom(tables, alloc, signature, bound, text);
    };
    let Some(read) = read_enclosed(tables, alloc, signature, bound, inner)? else {
        return Ok(None);
    };
    if is_plain(tables, read.term) {
        return Ok(None);
    }
    Ok(Some(read))
}

/// An argument: an atom, or another term in parentheses.
#[cycle(terms)]
fn read_argument<'a>(
    tables: &mut Tables,
    alloc: Global,
    signature: &FlatSignature,
    bound: &[TypeId],
    text: &'a [u8],
) -> Result<Option<TermRead<'a>>, AllocError>
    requires { AreBinders tables.old signature.now bound.now }
    ensures grows { TablesGrow tables.old tables.new }
    ensures ok { IfOk result (λ r. IsTermRead tables.new r (argument_step (plain_signature tables.old signature.now) (term_readings (plain_signature tables.old signature.now)) (types_of tables.old bound.now) text.now)) }
{
    let Some(inner) = behind(b"(", text) else {
        return read_atom(tables, alloc, signature, bound, text);
    };
    let Some(read) = read_enclosed(tables, alloc, signature, bound, inner)? else {
        return Ok(None);
    };
    if is_atom(tables, read.term) {
        return Ok(None);
    }
    Ok(Some(read))
}

/// A term and the parenthesis behind it.
#[cycle(terms)]
fn read_enclosed<'a>(
    tables: &mut Tables,
    alloc: Global,
    signature: &FlatSignature,
    bound: &[TypeId],
    text: &'a [u8],
) -> Result<Option<TermRead<'a>>, AllocError>
    requires { AreBinders tables.old signature.now bound.now }
    ensures grows { TablesGrow tables.old tables.new }
    ensures ok { IfOk result (λ r. IsTermRead tables.new r (enclosed (term_readings (plain_signature tables.old signature.now)) (types_of tables.old bound.now) text.now)) }
{
    let Some(read) = read_below(tables, alloc, signature, bound, text)? else {
        return Ok(None);
    };
    let Some(rest) = behind(b")", read.rest) else {
        return Ok(None);
    };
    Ok(Some(TermRead {
        term: read.term,
        rest,
    }))
}

/// What follows an operand that was read: arguments, which are taken up in it.
#[cycle(terms)]
fn read_arguments<'a>(
    tables: &mut Tables,
    alloc: Global,
    signature: &FlatSignature,
    bound: &[TypeId],
    term: TermId,
    text: &'a [u8],
) -> Result<Option<TermRead<'a>>, AllocError>
    requires binders { AreBinders tables.old signature.now bound.now }
    requires term { HasTerm tables.old term }
    ensures grows { TablesGrow tables.old tables.new }
    ensures ok { IfOk result (λ r. IsTermRead tables.new r (reads_arguments (plain_signature tables.old signature.now) (types_of tables.old bound.now) (term_of tables.old term) text.now)) }
{
    let Some(space) = behind(b" ", text) else {
        return Ok(Some(TermRead { term, rest: text }));
    };
    if !begins_argument(space) {
        return Ok(Some(TermRead { term, rest: text }));
    }
    let Some(argument) = read_argument(tables, alloc, signature, bound, space)? else {
        return Ok(None);
    };
    if is_sugar(tables, term, argument.term) {
        return Ok(None);
    }
    let Some(applied) = apply(tables, term, argument.term)? else {
        return Ok(None);
    };
    read_arguments(tables, alloc, signature, bound, applied, argument.rest)
}

/// What follows the first operand of a term: a sign and another operand, or nothing.
#[cycle(terms)]
fn read_behind<'a>(
    tables: &mut Tables,
    alloc: Global,
    signature: &FlatSignature,
    bound: &[TypeId],
    term: TermId,
    text: &'a [u8],
) -> Result<Option<TermRead<'a>>, AllocError>
    requires binders { AreBinders tables.old signature.now bound.now }
    requires term { HasTerm tables.old term }
    ensures grows { TablesGrow tables.old tables.new }
    ensures ok { IfOk result (λ r. IsTermRead tables.new r (sign_step (plain_signature tables.old signature.now) (term_readings (plain_signature tables.old signature.now)) (types_of tables.old bound.now) (term_of tables.old term) text.now)) }
{
    let Some((sign, behind_sign)) = connective_sign(text) else {
        if is_plain(tables, term) {
            return Ok(Some(TermRead { term, rest: text }));
        }
        return Ok(None);
    };
    let Some(second) = read_operand(tables, alloc, signature, bound, behind_sign)? else {
        return Ok(None);
    };
    let Some(made) = connect(tables, alloc, signature, sign, term, second.term)? else {
        return Ok(None);
    };
    Ok(Some(TermRead {
        term: made,
        rest: second.rest,
    }))
}
