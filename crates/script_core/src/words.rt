//! The words of lines.

ghost use Rattle.std.specs.Prelude.{◌≡◌, IfOk};
ghost use Rattle.std.specs.Str.Lines.{lines};
ghost use Rattle.kernel_lines.specs.Ready.{behind};
ghost use Rattle.script_core.specs.Words.{first_word, after_word, words, number};

use std::alloc::{AllocError, Global};

/// The first word of a line, and what stands behind the blank after it.
pub(crate) fn head(line: &str) -> (&str, &str)
    ensures first { result.0.now ≡ first_word line.now }
    ensures rest { result.1.now ≡ after_word line.now }
{
    match line.split_once(' ') {
        Some(parts) => parts,
        None => (line, ""),
    }
}

pub(crate) fn words(alloc: Global, line: &str) -> Result<Vec<&str>, AllocError>
    ensures { IfOk result (λ v. behind v.items ≡ words line.now) }
{
    line.split(' ').collect(alloc)
}

pub(crate) fn lines(alloc: Global, table: &str) -> Result<Vec<&str>, AllocError>
    ensures { IfOk result (λ v. behind v.items ≡ lines table.now) }
{
    table.lines().collect(alloc)
}

/// The number that a word of decimal digits is.
#[tactic(auto, using(crate::proofs::Numbers::number_lemmas))]
pub(crate) fn number(word: &str) -> Option<usize>
    ensures { result ≡ number word.now }
{
    let bytes = word.as_bytes();
    if bytes.is_empty() {
        return None;
    }
    if bytes[0] == b'+' {
        return None;
    }
    match word.parse::<usize>() {
        Ok(n) => Some(n),
        Err(_) => None,
    }
}
