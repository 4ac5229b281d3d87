//! Operands at the end of a line.

ghost use Rattle.std.specs.Prelude.{◌≡◌, IfOk};
ghost use Rattle.strict_lines.specs.Lines.{number_line, numbers_line, term_line};
ghost use Rattle.flat_instances.specs.TablesGrow.{TablesGrow};
ghost use Rattle.flat_signatures.specs.FlatNames.{plain_signature, HasSignature};
ghost use Rattle.flat_lines.specs.Reads.{Reads};
ghost use Rattle.flat_lines.specs.Numbers.{IsNumber, AreNumbers};
ghost use Rattle.flat_lines.specs.Operands.{IsTerm};

use crate::numbers::{Number, read_number};
use flat_reading::terms::read_term;
use flat_signatures::signature::FlatSignature;
use flat_signatures::words::behind;
use flat_terms::nodes::TermId;
use flat_terms::tables::Tables;
use std::alloc::{AllocError, Global};

/// The number that the whole text is, or None where it is none.
pub fn read_last_number(text: &[u8]) -> Option<Number>
    ensures { Reads IsNumber result (number_line (λ n. n) text.now) }
{
    let Some(read) = read_number(text) else {
        return None;
    };
    if read.rest.is_empty() {
        Some(read.number)
    } else {
        None
    }
}

/// The two numbers that the whole text is, with a space between them, or None where it isn't so.
pub fn read_last_numbers(text: &[u8]) -> Option<(Number, Number)>
    ensures { Reads AreNumbers result (numbers_line (λ m n. (m, n)) text.now) }
{
    let Some(read) = read_number(text) else {
        return None;
    };
    let Some(rest) = behind(b" ", read.rest) else {
        return None;
    };
    let Some(last) = read_last_number(rest) else {
        return None;
    };
    Some((read.number, last))
}

/// The number of the closed term whose canonical text the whole text is, or None where it is none. After want of memory the tables may
/// have more names, types and terms.
pub fn read_last_term(
    tables: &mut Tables,
    alloc: Global,
    signature: &FlatSignature,
    text: &[u8],
) -> Result<Option<TermId>, AllocError>
    requires { HasSignature tables.old signature.now }
    ensures grows { TablesGrow tables.old tables.new }
    ensures ok { IfOk result (λ r. Reads (IsTerm tables.new) r (term_line (plain_signature tables.old signature.now) (λ t. t) text.now)) }
{
    let Some(read) = read_term(tables, alloc, signature, text)? else {
        return Ok(None);
    };
    if !read.rest.is_empty() {
        return Ok(None);
    }
    Ok(Some(read.term))
}
