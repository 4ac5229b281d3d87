//! Names, and the words of a refusal.

ghost use Rattle.std.specs.Prelude.{◌≡◌, ◌==◌, ◌&&◌, ◌||◌, not, codes, IfOk};
ghost use Rattle.std.specs.List.{list_all, prefix_len};
ghost use Rattle.std.specs.Str.{is_utf8};
ghost use Rattle.hol_terms.specs.Sound.{begins_with};
ghost use Rattle.hol_logs.specs.Line.{is_section, is_word};
ghost use Rattle.strict_lines.specs.Operands.{reads_name, reads_segment, reads_word, is_no_space};
ghost use Rattle.flat_instances.specs.TablesGrow.{TablesGrow};
ghost use Rattle.flat_lines.specs.Reads.{Reads};
ghost use Rattle.flat_lines.specs.Operands.{IsNameRead, IsLeft};

use flat_signatures::entries::put_name;
use flat_signatures::names::{is_name, is_segment};
use flat_signatures::words::split_word;
use flat_terms::nodes::NameId;
use flat_terms::tables::Tables;
use std::alloc::{AllocError, Global};

/// A name that was read, and what is left of the text.
#[derive(Clone, Copy)]
pub struct NameRead<'a> {
    pub name: NameId,
    pub rest: &'a [u8],
}

/// The name that a text begins with, as long as can be, and what is left, or None where that is no name. After want of memory the
/// tables may have one more name.
pub fn read_name<'a>(
    tables: &mut Tables,
    alloc: Global,
    text: &'a [u8],
) -> Result<Option<NameRead<'a>>, AllocError>
    ensures grows { TablesGrow tables.old tables.new }
    ensures ok { IfOk result (λ r. Reads (IsNameRead tables.new) r (reads_name text.now)) }
{
    let (word, rest) = split_word(text);
    let Ok(word) = str::from_utf8(word) else {
        return Ok(None);
    };
    if !is_name(word) {
        return Ok(None);
    }
    let name = put_name(tables, alloc, word)?;
    Ok(Some(NameRead { name, rest }))
}

/// The same of what a type variable may be called.
pub fn read_segment<'a>(
    tables: &mut Tables,
    alloc: Global,
    text: &'a [u8],
) -> Result<Option<NameRead<'a>>, AllocError>
    ensures grows { TablesGrow tables.old tables.new }
    ensures ok { IfOk result (λ r. Reads (IsNameRead tables.new) r (reads_segment text.now)) }
{
    let (word, rest) = split_word(text);
    let Ok(word) = str::from_utf8(word) else {
        return Ok(None);
    };
    if !is_segment(word) {
        return Ok(None);
    }
    let name = put_name(tables, alloc, word)?;
    Ok(Some(NameRead { name, rest }))
}

/// What is left of a text behind the word of a refusal that it begins with, or None where it begins with none.
pub fn behind_word(text: &[u8]) -> Option<&[u8]>
    ensures { Reads (λ rest. IsLeft rest.now) result (reads_word text.now) }
{
    let (word, rest) = text.split_at(word_len(text));
    if is_word(word) { Some(rest) } else { None }
}

/// How many bytes stand before the first space.
fn word_len(text: &[u8]) -> usize
    ensures { result ≡ prefix_len is_no_space text.now }
{
    let mut len = 0;
    while len < text.len() && text[len] != b' ' {
        len += 1;
    }
    len
}

/// Whether the text may stand as a word of a refusal: UTF-8, not empty, without space and newline.
fn is_word(text: &[u8]) -> bool
    ensures { result ≡ is_word text.now }
{
    is_utf8(text) && !text.is_empty() && has_no_space(text)
}

/// Whether the text may open a section: UTF-8 without a newline, which begins with one of two words.
pub fn is_section(text: &[u8]) -> bool
    ensures { result ≡ is_section text.now }
{
    is_utf8(text) && has_no_newline(text) && begins_section(text)
}

fn is_utf8(text: &[u8]) -> bool
    ensures { result ≡ is_utf8 text.now }
{
    str::from_utf8(text).is_ok()
}

fn has_no_newline(text: &[u8]) -> bool
    ensures { result ≡ list_all (λ b. not (b == 10)) text.now }
{
    text.iter().all(|b| *b != b'\n')
}

fn has_no_space(text: &[u8]) -> bool
    ensures { result ≡ list_all (λ b. not (b == 32) && not (b == 10)) text.now }
{
    text.iter().all(|b| *b != b' ' && *b != b'\n')
}

fn begins_section(text: &[u8]) -> bool
    ensures { result ≡ (begins_with (codes "command ") text.now || begins_with (codes "plugin ") text.now) }
{
    text.starts_with(b"command ") || text.starts_with(b"plugin ")
}
