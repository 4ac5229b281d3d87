//! Reads a command by the grammar.

ghost use Rattle.std.specs.Prelude.{◌≡◌, ◌≤◌, ◌^◌, Result, Ok, Err};
ghost use Rattle.hol_terms.specs.Tokens as Lex;
ghost use Rattle.hol_text.specs.MeaningViews.{meaning_of};
ghost use Rattle.hol_text.specs.Reads.{Gives};
ghost use Rattle.hol_text.specs.TokenViews.{kind_of, tokens_of};
ghost use Rattle.theory_text.specs.Command.{is_keyword_token, is_equals, is_semicolon, is_end, begins, ends, named_at, stated_at, body_at, written_at};
ghost use Rattle.theory_text.specs.Views.{written_of};

use hol_terms::sig::Sig;
use hol_terms::terms::Term;
use hol_terms::types::HolType;
use hol_text::meaning::Meaning;
use hol_text::scope::Scope;
use hol_text::terms::term_at;
use hol_text::tokens::{Token, TokenKind, head_kind, head_place, head_text, tail};
use hol_text::types::{Stop, is_name, stop_at, typed_at};
use std::alloc::Global;

/// The most tokens of a term.
const TERM_LIMIT: usize = 1024;

/// A command by the grammar: the new name, what its type and its term mean, and the tokens from the term on.
#[derive(Drop)]
pub(crate) struct Written<'a> {
    pub(crate) name: &'a str,
    pub(crate) ty: Meaning<HolType>,
    pub(crate) term: Meaning<Term>,
    pub(crate) from_term: &'a [Token],
}

fn is_keyword(kind: TokenKind) -> bool
    ensures { result ≡ is_keyword_token (kind_of kind) }
{
    matches!(kind, TokenKind::Keyword)
}

fn is_equals(kind: TokenKind) -> bool
    ensures { result ≡ is_equals (kind_of kind) }
{
    matches!(kind, TokenKind::Equals)
}

fn is_semicolon(kind: TokenKind) -> bool
    ensures { result ≡ is_semicolon (kind_of kind) }
{
    matches!(kind, TokenKind::Semicolon)
}

fn is_end(kind: TokenKind) -> bool
    ensures { result ≡ is_end (kind_of kind) }
{
    matches!(kind, TokenKind::End)
}

/// Whether the word `define` is the first of the text.
fn begins(tokens: &[Token]) -> bool
    ensures { result ≡ begins (tokens_of tokens.now) }
{
    is_keyword(head_kind(tokens)) && head_text(tokens) == "define" && head_place(tokens) == 0
}

/// Whether the `;` is the last of the text.
fn ends(tokens: &[Token]) -> bool
    ensures { result ≡ ends (tokens_of tokens.now) }
{
    let end = tail(tokens);
    is_semicolon(head_kind(tokens))
        && is_end(head_kind(end))
        && head_place(end).saturating_sub(head_place(tokens)) == 1
}

/// `define NAME`.
#[tactic(auto, unfolding(crate::specs::Command::named_at))]
fn named_at(tokens: &[Token]) -> Result<(&str, &[Token]), Stop>
    ensures { Gives (λ n. n.now) result (named_at (tokens_of tokens.now)) }
{
    if !begins(tokens) {
        return Err(stop_at(tokens));
    }
    let rest = tail(tokens);
    if !is_name(head_kind(rest)) {
        return Err(stop_at(rest));
    }
    Ok((head_text(rest), tail(rest)))
}

/// `: TYPE =`.
#[tactic(auto, unfolding(crate::specs::Command::stated_at))]
fn stated_at<'a>(
    alloc: Global,
    sig: &Sig,
    fuel: usize,
    tokens: &'a [Token],
) -> Result<(Meaning<HolType>, &'a [Token]), Stop>
    requires { fuel ≤ 2 ^ 63 }
    ensures { Gives meaning_of result (stated_at sig.now fuel (tokens_of tokens.now)) }
{
    let (ty, rest) = typed_at(alloc, sig, fuel, tokens)?;
    if !is_equals(head_kind(rest)) {
        return Err(stop_at(rest));
    }
    Ok((ty, tail(rest)))
}

/// `TERM;`, of at most 1,024 tokens before the `;`, so that the recursion on terms isn't deep.
#[tactic(auto, unfolding(crate::specs::Command::body_at))]
fn body_at<'a>(
    alloc: Global,
    sig: &Sig,
    fuel: usize,
    tokens: &'a [Token],
) -> Result<(Meaning<Term>, &'a [Token]), Stop>
    requires { fuel ≤ 2 ^ 63 }
    ensures { Gives meaning_of result (body_at sig.now fuel (tokens_of tokens.now)) }
{
    if tokens.len() > TERM_LIMIT + 2 {
        return Err(stop_at(tokens));
    }
    let (term, rest) = term_at(alloc, sig, fuel, &Scope::Top, tokens)?;
    if !ends(rest) {
        return Err(stop_at(rest));
    }
    Ok((term.meaning, tail(rest)))
}

/// A command by the grammar.
#[tactic(auto, unfolding(crate::specs::Command::written_at))]
pub(crate) fn written_at<'a>(
    alloc: Global,
    sig: &Sig,
    fuel: usize,
    tokens: &'a [Token],
) -> Result<(Written<'a>, &'a [Token]), Stop>
    requires { fuel ≤ 2 ^ 63 }
    ensures { Gives written_of result (written_at sig.now fuel (tokens_of tokens.now)) }
{
    let (name, rest) = named_at(tokens)?;
    let (ty, from_term) = stated_at(alloc, sig, fuel, rest)?;
    let (term, end) = body_at(alloc, sig, fuel, from_term)?;
    let written = Written {
        name,
        ty,
        term,
        from_term,
    };
    Ok((written, end))
}
