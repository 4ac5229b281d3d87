//! Lines of a log.

ghost use Rattle.std.specs.Prelude.{◌≡◌, IfOk, is_some};
ghost use Rattle.hol_logs.specs.Line.{line_base, line_end};
ghost use Rattle.strict_lines.specs.Lines.{reads_line, number_line, first_line, section_line, const_line, type_line, name_line, stop_line};
ghost use Rattle.flat_terms.specs.Plain.{PlainTables};
ghost use Rattle.flat_instances.specs.TablesGrow.{TablesGrow};
ghost use Rattle.flat_signatures.specs.FlatNames.{plain_signature, HasSignature};
ghost use Rattle.flat_lines.specs.Reads.{Reads};
ghost use Rattle.flat_lines.specs.Lines.{IsFlatLine, refusal_of};

use crate::ends::{read_last_number, read_last_term};
use crate::numbers::{Number, read_number};
use crate::steps::{FlatStep, read_step};
use crate::words::{behind_word, is_section, read_name};
use flat_signatures::signature::FlatSignature;
use flat_signatures::words::behind;
use flat_terms::nodes::{NameId, TermId};
use flat_terms::tables::Tables;
use std::alloc::{AllocError, Global};

/// A line: numbers, and names and terms by their numbers in the tables.
#[derive(Drop)]
pub enum FlatLine<'a> {
    First,
    Step(FlatStep),
    Constant(NameId, TermId),
    NewType(NameId, Number),
    Base(Number),
    Section(&'a [u8]),
    Name(NameId, Number, TermId),
    End(Number),
    /// The number of lines, and the text of the refusal: a test, a name and a place.
    Stop(Number, &'a [u8]),
}

/// The line over the signature whose text it is, or None where it is that of none. After want of memory the tables may have more names,
/// types and terms.
pub fn read_line<'a>(
    tables: &mut Tables,
    alloc: Global,
    signature: &FlatSignature,
    text: &'a [u8],
) -> Result<Option<FlatLine<'a>>, AllocError>
    requires { HasSignature tables.old signature.now }
    ensures grows { TablesGrow tables.old tables.new }
    ensures ok { IfOk result (λ r. Reads (IsFlatLine tables.new) r (reads_line (plain_signature tables.old signature.now) text.now)) }
{
    if let Some(rest) = behind(b"hbnf-log 1", text) {
        return Ok(read_first(rest));
    }
    if let Some(rest) = behind(b"const ", text) {
        return read_const(tables, alloc, signature, rest);
    }
    if let Some(rest) = behind(b"type ", text) {
        return read_type_line(tables, alloc, rest);
    }
    if let Some(rest) = behind(b"base ", text) {
        return Ok(read_base(rest));
    }
    if let Some(rest) = behind(b"section ", text) {
        return Ok(read_section(rest));
    }
    if let Some(rest) = behind(b"name ", text) {
        return read_name_line(tables, alloc, signature, rest);
    }
    if let Some(rest) = behind(b"end ", text) {
        return Ok(read_end(rest));
    }
    if let Some(rest) = behind(b"stop ", text) {
        return Ok(read_stop(rest));
    }
    let Some(step) = read_step(tables, alloc, signature, text)? else {
        return Ok(None);
    };
    Ok(Some(FlatLine::Step(step)))
}

/// What follows the beginning of the first line: nothing.
fn read_first(text: &[u8]) -> Option<FlatLine<'_>>
    ensures { (t : PlainTables) → Reads (IsFlatLine t) result (first_line text.now) }
{
    if text.is_empty() {
        Some(FlatLine::First)
    } else {
        None
    }
}

/// The operand of the base line: a number.
fn read_base(text: &[u8]) -> Option<FlatLine<'_>>
    ensures { (t : PlainTables) → Reads (IsFlatLine t) result (number_line line_base text.now) }
{
    let Some(number) = read_last_number(text) else {
        return None;
    };
    Some(FlatLine::Base(number))
}

/// The operand of a last line: the number of lines.
fn read_end(text: &[u8]) -> Option<FlatLine<'_>>
    ensures { (t : PlainTables) → Reads (IsFlatLine t) result (number_line line_end text.now) }
{
    let Some(lines) = read_last_number(text) else {
        return None;
    };
    Some(FlatLine::End(lines))
}

/// The text that opens a section.
fn read_section(text: &[u8]) -> Option<FlatLine<'_>>
    ensures { (t : PlainTables) → Reads (IsFlatLine t) result (section_line text.now) }
{
    if is_section(text) {
        Some(FlatLine::Section(text))
    } else {
        None
    }
}

/// The operands of a constant's definition: a name and a term.
fn read_const<'a>(
    tables: &mut Tables,
    alloc: Global,
    signature: &FlatSignature,
    text: &'a [u8],
) -> Result<Option<FlatLine<'a>>, AllocError>
    requires { HasSignature tables.old signature.now }
    ensures grows { TablesGrow tables.old tables.new }
    ensures ok { IfOk result (λ r. Reads (IsFlatLine tables.new) r (const_line (plain_signature tables.old signature.now) text.now)) }
{
    let Some(constant) = read_name(tables, alloc, text)? else {
        return Ok(None);
    };
    let Some(rest) = behind(b" := ", constant.rest) else {
        return Ok(None);
    };
    let Some(term) = read_last_term(tables, alloc, signature, rest)? else {
        return Ok(None);
    };
    Ok(Some(FlatLine::Constant(constant.name, term)))
}

/// The operands of a type's definition: a name, and the number of a step.
fn read_type_line<'a>(
    tables: &mut Tables,
    alloc: Global,
    text: &'a [u8],
) -> Result<Option<FlatLine<'a>>, AllocError>
    ensures grows { TablesGrow tables.old tables.new }
    ensures ok { IfOk result (λ r. Reads (IsFlatLine tables.new) r (type_line text.now)) }
{
    let Some(read) = read_name(tables, alloc, text)? else {
        return Ok(None);
    };
    let Some(rest) = behind(b" ", read.rest) else {
        return Ok(None);
    };
    let Some(step) = read_last_number(rest) else {
        return Ok(None);
    };
    Ok(Some(FlatLine::NewType(read.name, step)))
}

/// The operands of a theorem's name: the name, the number of a step, and a term.
fn read_name_line<'a>(
    tables: &mut Tables,
    alloc: Global,
    signature: &FlatSignature,
    text: &'a [u8],
) -> Result<Option<FlatLine<'a>>, AllocError>
    requires { HasSignature tables.old signature.now }
    ensures grows { TablesGrow tables.old tables.new }
    ensures ok { IfOk result (λ r. Reads (IsFlatLine tables.new) r (name_line (plain_signature tables.old signature.now) text.now)) }
{
    let Some(read) = read_name(tables, alloc, text)? else {
        return Ok(None);
    };
    let Some(rest) = behind(b" ", read.rest) else {
        return Ok(None);
    };
    let Some(step) = read_number(rest) else {
        return Ok(None);
    };
    let Some(rest) = behind(b" ", step.rest) else {
        return Ok(None);
    };
    let Some(term) = read_last_term(tables, alloc, signature, rest)? else {
        return Ok(None);
    };
    Ok(Some(FlatLine::Name(read.name, step.number, term)))
}

/// The operands of a refusal: the number of lines, two words and a number.
fn read_stop(text: &[u8]) -> Option<FlatLine<'_>>
    ensures { (t : PlainTables) → Reads (IsFlatLine t) result (stop_line text.now) }
{
    let Some(lines) = read_number(text) else {
        return None;
    };
    let Some(refusal) = behind(b" ", lines.rest) else {
        return None;
    };
    if is_refusal(refusal) {
        Some(FlatLine::Stop(lines.number, refusal))
    } else {
        None
    }
}

/// Whether the text is two words and a number.
fn is_refusal(text: &[u8]) -> bool
    ensures { result ≡ is_some (refusal_of text.now) }
{
    let Some(rest) = behind_word(text) else {
        return false;
    };
    let Some(name) = behind(b" ", rest) else {
        return false;
    };
    let Some(rest) = behind_word(name) else {
        return false;
    };
    let Some(place) = behind(b" ", rest) else {
        return false;
    };
    read_last_number(place).is_some()
}
