//! Tokens, and the front of a list of them.

ghost use Rattle.std.specs.Prelude.{◌≡◌, ◌<◌, ◌++◌, ◌∷◌, [], length, OnOk};
ghost use Rattle.hol_terms.specs.Tokens.{token, head_kind, head_text, head_place, tail};
ghost use Rattle.hol_text.specs.TokenViews.{kind_of, tokens_of};

use std::alloc::{AllocError, Global};

/// What a token is.
#[derive(Clone, Copy)]
pub enum TokenKind {
    Name,
    Variable,
    Keyword,
    OpenParen,
    CloseParen,
    OpenBrace,
    CloseBrace,
    OpenBracket,
    CloseBracket,
    Comma,
    Colon,
    Semicolon,
    Dot,
    Bar,
    Equals,
    Arrow,
    Lambda,
    ForAll,
    Exists,
    Not,
    And,
    Or,
    Implies,
    /// The end of the text.
    End,
    /// A character that belongs to no token.
    Unknown,
}

/// A token: its kind, the text of a name or a type variable, and the byte at which it begins.
#[derive(Drop)]
pub struct Token {
    pub kind: TokenKind,
    pub text: String,
    pub place: usize,
}

/// Adds a token.
#[tactic(auto, using(crate::proofs::Lexing::lexing_lemmas))]
pub(crate) fn push(
    alloc: Global,
    tokens: &mut Vec<Token>,
    kind: TokenKind,
    text: &str,
    place: usize,
) -> Result<(), AllocError>
    ensures { OnOk result (tokens_of tokens.new.items ≡ tokens_of tokens.old.items ++ token (kind_of kind) text.now place ∷ []) }
{
    let text = String::from_str(alloc, text)?;
    tokens.push(Token { kind, text, place })?;
    Ok(())
}

/// The kind of the first token.
pub fn head_kind(tokens: &[Token]) -> TokenKind
    ensures { kind_of result ≡ head_kind (tokens_of tokens.now) }
{
    match tokens {
        [] => TokenKind::End,
        [head, ..] => head.kind,
    }
}

/// The text of the first token.
pub fn head_text(tokens: &[Token]) -> &str
    ensures { result.now ≡ head_text (tokens_of tokens.now) }
{
    match tokens {
        [] => "",
        [head, ..] => head.text.as_str(),
    }
}

/// The place of the first token.
pub fn head_place(tokens: &[Token]) -> usize
    ensures { result ≡ head_place (tokens_of tokens.now) }
{
    match tokens {
        [] => 0,
        [head, ..] => head.place,
    }
}

/// The tokens behind the first.
pub fn tail(tokens: &[Token]) -> &[Token]
    ensures { tokens_of result.now ≡ tail (tokens_of tokens.now) }
{
    match tokens {
        [] => tokens,
        [_, others @ ..] => others,
    }
}
