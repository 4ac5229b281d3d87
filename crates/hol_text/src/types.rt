//! Reads a type.

ghost use Rattle.std.specs.Prelude.{◌≡◌, ◌+◌, ◌<◌, ◌≤◌, ◌^◌};
ghost use Rattle.hol_terms.specs.Meaning.{count};
ghost use Rattle.hol_text.specs.MeaningViews.{meaning_of, arguments_of};
ghost use Rattle.hol_terms.specs.Reading.{is_dot, is_colon, is_name_token, is_close_paren, is_close_brace, is_close_bracket, postfix, types_at, tuple, group_by, dtype_at, type_at, typed_at};
ghost use Rattle.hol_text.specs.Reads.{Gives};
ghost use Rattle.hol_text.specs.TokenViews.{kind_of, tokens_of};
ghost use Rattle.hol_terms.specs.Tokens as Lex;
ghost use Rattle.hol_text.specs.declared.types.Stop.TheVariants.{Memory, Grammar};

use crate::meaning::{Arguments, Meaning, applied, function, no_types, one_type, with_one};
use crate::tokens::{Token, TokenKind, head_kind, head_place, head_text, tail};
use hol_terms::sig::Sig;
use hol_terms::types::HolType;
use std::alloc::{AllocError, Global};

/// Why nothing was read: memory ran out, or the grammar has not the token at a place.
#[derive(Drop)]
pub enum Stop {
    Memory,
    Grammar(usize),
}

impl From<AllocError> for Stop {
    ghost from_gives = { λ _ e. e ≡ Memory };

    fn from(_e: AllocError) -> Stop {
        Stop::Memory
    }
}

/// Applies each of the type names that follow.
pub(crate) fn postfix<'a>(
    alloc: Global,
    sig: &Sig,
    ty: Meaning<HolType>,
    tokens: &'a [Token],
) -> Result<(Meaning<HolType>, &'a [Token]), Stop>
    ensures { Gives meaning_of result (postfix sig.now (meaning_of ty) (tokens_of tokens.now)) }
{
    let mut whole = ty;
    let mut rest = tokens;
    while let [head, others @ ..] = rest {
        if !matches!(head.kind, TokenKind::Name) {
            return Ok((whole, rest));
        }
        let args = one_type(alloc, whole)?;
        whole = applied(alloc, sig, head.text.as_str(), head.place, args)?;
        rest = others;
    }
    Ok((whole, rest))
}

/// No token of the grammar stands there.
pub fn stop_at(tokens: &[Token]) -> Stop
    ensures { result ≡ Grammar (Lex.head_place (tokens_of tokens.now)) }
{
    Stop::Grammar(head_place(tokens))
}

pub fn is_name(kind: TokenKind) -> bool
    ensures { result ≡ is_name_token (kind_of kind) }
{
    matches!(kind, TokenKind::Name)
}

pub(crate) fn is_close_paren(kind: TokenKind) -> bool
    ensures { result ≡ is_close_paren (kind_of kind) }
{
    matches!(kind, TokenKind::CloseParen)
}

/// A type name behind several types, and the type names that follow.
pub(crate) fn tuple<'a>(
    alloc: Global,
    sig: &Sig,
    args: Arguments,
    tokens: &'a [Token],
) -> Result<(Meaning<HolType>, &'a [Token]), Stop>
    ensures { Gives meaning_of result (tuple sig.now (arguments_of args) (tokens_of tokens.now)) }
{
    if !is_name(head_kind(tokens)) {
        return Err(stop_at(tokens));
    }
    let ty = applied(alloc, sig, head_text(tokens), head_place(tokens), args)?;
    postfix(alloc, sig, ty, tail(tokens))
}

/// Types, with commas between them, as further arguments.
#[cycle(types)]
pub(crate) fn types_at<'a>(
    alloc: Global,
    sig: &Sig,
    fuel: usize,
    args: Arguments,
    tokens: &'a [Token],
) -> Result<(Arguments, &'a [Token]), Stop>
    requires few { count (arguments_of args) ≤ 1 }
    requires room { fuel ≤ 2 ^ 63 }
    ensures { Gives arguments_of result (types_at (type_at sig.now fuel) fuel (arguments_of args) (tokens_of tokens.now)) }
{
    let mut args = args;
    let mut rest = tokens;
    for _ in 0..fuel {
        let (ty, after) = type_at(alloc, sig, fuel, rest)?;
        args = with_one(args, ty)?;
        match head_kind(after) {
            TokenKind::Comma => rest = tail(after),
            _ => return Ok((args, after)),
        }
    }
    Err(stop_at(rest))
}

/// What follows the first type in parentheses.
#[cycle(types)]
fn group<'a>(
    alloc: Global,
    sig: &Sig,
    fuel: usize,
    ty: Meaning<HolType>,
    tokens: &'a [Token],
) -> Result<(Meaning<HolType>, &'a [Token]), Stop>
    requires { fuel ≤ 2 ^ 63 }
    ensures { Gives meaning_of result (group_by (Lex.head_kind (tokens_of tokens.now)) sig.now (type_at sig.now fuel) fuel (meaning_of ty) (tokens_of tokens.now)) }
{
    match head_kind(tokens) {
        TokenKind::CloseParen => postfix(alloc, sig, ty, tail(tokens)),
        TokenKind::Comma => {
            let first = one_type(alloc, ty)?;
            let (args, rest) = types_at(alloc, sig, fuel, first, tail(tokens))?;
            if !is_close_paren(head_kind(rest)) {
                return Err(stop_at(rest));
            }
            tuple(alloc, sig, args, tail(rest))
        }
        _ => Err(stop_at(tokens)),
    }
}

/// A type that is no function type by an arrow outside parentheses.
#[cycle(types)]
#[tactic(auto, unfolding(hol_terms::specs::Reading::dtype_at))]
fn dtype_at<'a>(
    alloc: Global,
    sig: &Sig,
    fuel: usize,
    tokens: &'a [Token],
) -> Result<(Meaning<HolType>, &'a [Token]), Stop>
    requires { fuel ≤ 2 ^ 63 }
    ensures { Gives meaning_of result (dtype_at sig.now (type_at sig.now fuel) fuel (tokens_of tokens.now)) }
{
    match head_kind(tokens) {
        TokenKind::Variable => {
            let ty = HolType::var(alloc, head_text(tokens))?;
            postfix(alloc, sig, Meaning::Means(ty), tail(tokens))
        }
        TokenKind::Name => {
            let (name, place) = (head_text(tokens), head_place(tokens));
            let ty = applied(alloc, sig, name, place, no_types(alloc))?;
            postfix(alloc, sig, ty, tail(tokens))
        }
        TokenKind::OpenParen => {
            let (ty, rest) = type_at(alloc, sig, fuel, tail(tokens))?;
            group(alloc, sig, fuel, ty, rest)
        }
        _ => Err(stop_at(tokens)),
    }
}

/// A type. The recursion goes as deep as types are nested by parentheses and arrows, at most `fuel`.
#[cycle(types)]
#[tactic(auto, using(crate::proofs::TypeSteps::type_lemmas))]
pub fn type_at<'a>(
    alloc: Global,
    sig: &Sig,
    fuel: usize,
    tokens: &'a [Token],
) -> Result<(Meaning<HolType>, &'a [Token]), Stop>
    requires { fuel ≤ 2 ^ 63 }
    ensures { Gives meaning_of result (type_at sig.now fuel (tokens_of tokens.now)) }
{
    if fuel == 0 {
        return Err(stop_at(tokens));
    }
    let (domain, rest) = dtype_at(alloc, sig, fuel - 1, tokens)?;
    match head_kind(rest) {
        TokenKind::Arrow => {
            let (range, after) = type_at(alloc, sig, fuel - 1, tail(rest))?;
            let ty = function(alloc, sig, head_place(rest), domain, range)?;
            Ok((ty, after))
        }
        _ => Ok((domain, rest)),
    }
}

pub(crate) fn is_colon(kind: TokenKind) -> bool
    ensures { result ≡ is_colon (kind_of kind) }
{
    matches!(kind, TokenKind::Colon)
}

/// A type behind a colon.
#[tactic(auto, unfolding(hol_terms::specs::Reading::typed_at))]
pub fn typed_at<'a>(
    alloc: Global,
    sig: &Sig,
    fuel: usize,
    tokens: &'a [Token],
) -> Result<(Meaning<HolType>, &'a [Token]), Stop>
    requires { fuel ≤ 2 ^ 63 }
    ensures { Gives meaning_of result (typed_at sig.now fuel (tokens_of tokens.now)) }
{
    if !is_colon(head_kind(tokens)) {
        return Err(stop_at(tokens));
    }
    type_at(alloc, sig, fuel, tail(tokens))
}
