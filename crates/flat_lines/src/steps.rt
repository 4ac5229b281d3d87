//! Steps of a log.

ghost use Rattle.std.specs.Prelude.{◌≡◌, IfOk};
ghost use Rattle.strict_lines.specs.Lines.{reads_step, abs_step, inst_type_step, inst_step};
ghost use Rattle.flat_instances.specs.TablesGrow.{TablesGrow};
ghost use Rattle.flat_signatures.specs.FlatNames.{plain_signature, HasSignature};
ghost use Rattle.flat_lines.specs.Reads.{Reads};
ghost use Rattle.flat_lines.specs.Lines.{IsFlatStep};

use crate::ends::{read_last_number, read_last_numbers, read_last_term};
use crate::numbers::{Number, read_number};
use crate::pairs::{read_pairs, read_type_pairs};
use flat_reading::atoms::read_free;
use flat_signatures::signature::FlatSignature;
use flat_signatures::words::behind;
use flat_terms::nodes::{NameId, TermId, TypeId};
use flat_terms::tables::Tables;
use std::alloc::{AllocError, Global};

/// A step: the numbers of earlier steps, and terms, variables and types by their numbers in the tables.
#[derive(Drop)]
pub enum FlatStep {
    Refl(TermId),
    Trans(Number, Number),
    Comb(Number, Number),
    Abs(TermId, Number),
    Beta(TermId),
    Assume(TermId),
    Mp(Number, Number),
    Deduct(Number, Number),
    InstType(Number, Vec<(NameId, TypeId)>),
    Inst(Number, Vec<(TermId, TermId)>),
    Axiom(Number),
}

/// The step whose text it is, or None where it is that of none. After want of memory the tables may have more names, types and terms.
pub fn read_step(
    tables: &mut Tables,
    alloc: Global,
    signature: &FlatSignature,
    text: &[u8],
) -> Result<Option<FlatStep>, AllocError>
    requires { HasSignature tables.old signature.now }
    ensures grows { TablesGrow tables.old tables.new }
    ensures ok { IfOk result (λ r. Reads (IsFlatStep tables.new) r (reads_step (plain_signature tables.old signature.now) text.now)) }
{
    if let Some(rest) = behind(b"refl ", text) {
        let Some(term) = read_last_term(tables, alloc, signature, rest)? else {
            return Ok(None);
        };
        return Ok(Some(FlatStep::Refl(term)));
    }
    if let Some(rest) = behind(b"trans ", text) {
        let Some((first, second)) = read_last_numbers(rest) else {
            return Ok(None);
        };
        return Ok(Some(FlatStep::Trans(first, second)));
    }
    if let Some(rest) = behind(b"comb ", text) {
        let Some((first, second)) = read_last_numbers(rest) else {
            return Ok(None);
        };
        return Ok(Some(FlatStep::Comb(first, second)));
    }
    if let Some(rest) = behind(b"abs ", text) {
        return read_abs(tables, alloc, signature, rest);
    }
    if let Some(rest) = behind(b"beta ", text) {
        let Some(term) = read_last_term(tables, alloc, signature, rest)? else {
            return Ok(None);
        };
        return Ok(Some(FlatStep::Beta(term)));
    }
    if let Some(rest) = behind(b"assume ", text) {
        let Some(term) = read_last_term(tables, alloc, signature, rest)? else {
            return Ok(None);
        };
        return Ok(Some(FlatStep::Assume(term)));
    }
    if let Some(rest) = behind(b"mp ", text) {
        let Some((first, second)) = read_last_numbers(rest) else {
            return Ok(None);
        };
        return Ok(Some(FlatStep::Mp(first, second)));
    }
    if let Some(rest) = behind(b"deduct ", text) {
        let Some((first, second)) = read_last_numbers(rest) else {
            return Ok(None);
        };
        return Ok(Some(FlatStep::Deduct(first, second)));
    }
    if let Some(rest) = behind(b"insttype ", text) {
        return read_inst_type(tables, alloc, signature, rest);
    }
    if let Some(rest) = behind(b"inst ", text) {
        return read_inst(tables, alloc, signature, rest);
    }
    if let Some(rest) = behind(b"axiom ", text) {
        let Some(number) = read_last_number(rest) else {
            return Ok(None);
        };
        return Ok(Some(FlatStep::Axiom(number)));
    }
    Ok(None)
}

/// The operands of an abstraction: a variable, and the number of a step.
fn read_abs(
    tables: &mut Tables,
    alloc: Global,
    signature: &FlatSignature,
    text: &[u8],
) -> Result<Option<FlatStep>, AllocError>
    requires { HasSignature tables.old signature.now }
    ensures grows { TablesGrow tables.old tables.new }
    ensures ok { IfOk result (λ r. Reads (IsFlatStep tables.new) r (abs_step (plain_signature tables.old signature.now) text.now)) }
{
    let Some(variable) = read_free(tables, alloc, signature, text)? else {
        return Ok(None);
    };
    let Some(rest) = behind(b" ", variable.rest) else {
        return Ok(None);
    };
    let Some(step) = read_last_number(rest) else {
        return Ok(None);
    };
    Ok(Some(FlatStep::Abs(variable.term, step)))
}

/// The operands of a type instance: the number of a step, and types for type variables.
fn read_inst_type(
    tables: &mut Tables,
    alloc: Global,
    signature: &FlatSignature,
    text: &[u8],
) -> Result<Option<FlatStep>, AllocError>
    requires { HasSignature tables.old signature.now }
    ensures grows { TablesGrow tables.old tables.new }
    ensures ok { IfOk result (λ r. Reads (IsFlatStep tables.new) r (inst_type_step (plain_signature tables.old signature.now) text.now)) }
{
    let Some(step) = read_number(text) else {
        return Ok(None);
    };
    let Some(rest) = behind(b" ", step.rest) else {
        return Ok(None);
    };
    let Some(pairs) = read_type_pairs(tables, alloc, signature, rest)? else {
        return Ok(None);
    };
    Ok(Some(FlatStep::InstType(step.number, pairs)))
}

/// The operands of an instance: the number of a step, and terms for free variables.
fn read_inst(
    tables: &mut Tables,
    alloc: Global,
    signature: &FlatSignature,
    text: &[u8],
) -> Result<Option<FlatStep>, AllocError>
    requires { HasSignature tables.old signature.now }
    ensures grows { TablesGrow tables.old tables.new }
    ensures ok { IfOk result (λ r. Reads (IsFlatStep tables.new) r (inst_step (plain_signature tables.old signature.now) text.now)) }
{
    let Some(step) = read_number(text) else {
        return Ok(None);
    };
    let Some(rest) = behind(b" ", step.rest) else {
        return Ok(None);
    };
    let Some(pairs) = read_pairs(tables, alloc, signature, rest)? else {
        return Ok(None);
    };
    Ok(Some(FlatStep::Inst(step.number, pairs)))
}
