//! What a command's tokens have to meet.

ghost use Rattle.std.specs.Prelude.{◌≡◌, ◌+◌, ◌≤◌, [], ◌∷◌};
ghost use Rattle.hol_text.specs.TokenViews.{kind_of, token_of, tokens_of};
ghost use Rattle.theory_text.specs.Command.{type_limit, run_by, types_fit, is_stray, strays, is_numbered_variable, are_unnumbered};

use hol_terms::names::is_numbered;
use hol_terms::types::HolType;
use hol_text::tokens::{Token, TokenKind};

/// The most tokens of a type.
const TYPE_LIMIT: usize = 256;

/// What a token makes of the numbers of open parentheses, with one for the type around it, and of that type's tokens so far. Both
/// are 0 outside of types.
fn run_by(kind: TokenKind, depth: usize, count: usize) -> (usize, usize)
    requires few { count ≤ type_limit }
    requires shallow { depth ≤ count + 1 }
    ensures depth { result.0 ≡ (run_by (kind_of kind) (depth, count)).0 }
    ensures count { result.1 ≡ (run_by (kind_of kind) (depth, count)).1 }
    ensures shallow { result.0 ≤ result.1 + 1 }
{
    match kind {
        TokenKind::Colon | TokenKind::OpenBrace if depth == 0 => (1, 0),
        _ if depth == 0 => (0, 0),
        TokenKind::Name | TokenKind::Variable | TokenKind::Arrow => (depth, count + 1),
        TokenKind::OpenParen => (depth + 1, count + 1),
        TokenKind::CloseParen => (depth - 1, count + 1),
        TokenKind::Comma if depth == 1 => (1, 0),
        TokenKind::Comma => (depth, count + 1),
        _ => (0, 0),
    }
}

/// Whether no type is longer than the limit.
pub(crate) fn types_fit(tokens: &[Token]) -> bool
    ensures { result ≡ types_fit (0, 0) (tokens_of tokens.now) }
{
    let mut depth = 0;
    let mut count = 0;
    let mut rest = tokens;
    while let [head, others @ ..] = rest {
        let run = run_by(head.kind, depth, count);
        if run.1 > TYPE_LIMIT {
            return false;
        }
        depth = run.0;
        count = run.1;
        rest = others;
    }
    true
}

fn is_numbered_variable(token: &Token) -> bool
    ensures { result ≡ is_numbered_variable (token_of token.now) }
{
    match token.kind {
        TokenKind::Variable => is_numbered(token.text.as_str()),
        _ => false,
    }
}

/// Whether no type variable is called `x` and digits.
pub(crate) fn are_unnumbered(tokens: &[Token]) -> bool
    ensures { result ≡ are_unnumbered (tokens_of tokens.now) }
{
    let mut rest = tokens;
    while let [head, others @ ..] = rest {
        if is_numbered_variable(head) {
            return false;
        }
        rest = others;
    }
    true
}

fn is_stray(ty: &HolType, token: &Token) -> bool
    ensures { result ≡ is_stray ty.now (token_of token.now) }
{
    match token.kind {
        TokenKind::Variable => !ty.mentions(token.text.as_str()),
        _ => false,
    }
}

/// The tokens from the first type variable on that the type has not.
pub(crate) fn strays<'a>(ty: &HolType, tokens: &'a [Token]) -> &'a [Token]
    ensures { tokens_of result.now ≡ strays ty.now (tokens_of tokens.now) }
{
    let mut rest = tokens;
    while let [head, others @ ..] = rest {
        if is_stray(ty, head) {
            return rest;
        }
        rest = others;
    }
    rest
}
