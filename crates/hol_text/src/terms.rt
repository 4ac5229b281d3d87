//! Reads a term.

ghost use Rattle.std.specs.Prelude.{◌≡◌, ◌<◌, ◌≤◌, ◌^◌, IfOk};
ghost use Rattle.hol_terms.specs.Meaning.{abstraction};
ghost use Rattle.hol_text.specs.MeaningViews.{meaning_of, arguments_of, operand_of};
ghost use Rattle.hol_terms.specs.Reading.{is_dot, is_close_brace, is_close_bracket, is_name_token, type_or_none, is_dotted, innermost, plain_by, free_of, begins_atom, braces_at, name_by, free_by, atom_at, atoms_at, application_at, infix_by, bound_at, body_at, binder_at, term_at};
ghost use Rattle.hol_text.specs.Reads.{Gives};
ghost use Rattle.hol_text.specs.ScopeViews.{scope_of};
ghost use Rattle.hol_text.specs.BoundViews.{bound_of};
ghost use Rattle.hol_text.specs.TokenViews.{kind_of, tokens_of};
ghost use Rattle.hol_terms.specs.Tokens as Lex;

use crate::meaning::{
    Arguments, Meaning, Operand, abstraction, apply, connective, constant, equation, negation,
    no_types, quantified,
};
use crate::scope::{Scope, innermost, stand_in};
use crate::tokens::{Token, TokenKind, head_kind, head_place, head_text, tail};
use crate::types::{Stop, is_close_paren, is_name, stop_at, typed_at, types_at};
use hol_terms::sig::Sig;
use hol_terms::terms::{Term, Var};
use hol_terms::types::HolType;
use std::alloc::{AllocError, Global};

/// What a binder is made of: its type, and its body as an abstraction.
#[derive(Drop)]
pub(crate) struct Bound {
    pub(crate) ty: Meaning<HolType>,
    pub(crate) abstraction: Meaning<Term>,
}

fn is_close_brace(kind: TokenKind) -> bool
    ensures { result ≡ is_close_brace (kind_of kind) }
{
    matches!(kind, TokenKind::CloseBrace)
}

fn is_close_bracket(kind: TokenKind) -> bool
    ensures { result ≡ is_close_bracket (kind_of kind) }
{
    matches!(kind, TokenKind::CloseBracket)
}

fn is_dot(kind: TokenKind) -> bool
    ensures { result ≡ is_dot (kind_of kind) }
{
    matches!(kind, TokenKind::Dot)
}

fn begins_atom(kind: TokenKind) -> bool
    ensures { result ≡ begins_atom (kind_of kind) }
{
    matches!(
        kind,
        TokenKind::Name | TokenKind::OpenBracket | TokenKind::OpenParen
    )
}

fn is_dotted(name: &str) -> bool
    ensures { result ≡ is_dotted name.now }
{
    name.as_bytes().iter().any(|c| *c == b'.')
}

/// Type arguments, up to the closing brace.
#[tactic(auto, unfolding(hol_terms::specs::Reading::braces_at))]
fn braces_at<'a>(
    alloc: Global,
    sig: &Sig,
    fuel: usize,
    tokens: &'a [Token],
) -> Result<(Arguments, &'a [Token]), Stop>
    requires { fuel ≤ 2 ^ 63 }
    ensures { Gives arguments_of result (braces_at sig.now fuel (tokens_of tokens.now)) }
{
    let (args, rest) = types_at(alloc, sig, fuel, no_types(alloc), tokens)?;
    if !is_close_brace(head_kind(rest)) {
        return Err(stop_at(rest));
    }
    Ok((args, tail(rest)))
}

/// What a name without braces means.
fn plain(
    alloc: Global,
    sig: &Sig,
    scope: &Scope<'_>,
    name: &str,
    place: usize,
) -> Result<Meaning<Term>, AllocError>
    ensures { IfOk result (λ m. meaning_of m ≡ plain_by (innermost (scope_of scope.now) name.now) sig.now name.now place) }
{
    match innermost(scope, name) {
        Some(var) => Ok(Meaning::Means(Term::mk_var(alloc, var)?)),
        None => constant(alloc, sig, name, place, no_types(alloc)),
    }
}

/// The name at `place`, with what follows it.
fn named<'a>(
    alloc: Global,
    sig: &Sig,
    fuel: usize,
    scope: &Scope<'_>,
    name: &str,
    place: usize,
    tokens: &'a [Token],
) -> Result<(Operand, &'a [Token]), Stop>
    requires { fuel ≤ 2 ^ 63 }
    ensures { Gives operand_of result (name_by (Lex.head_kind (tokens_of tokens.now)) sig.now fuel (scope_of scope.now) name.now place (tokens_of tokens.now)) }
{
    let first = place;
    match head_kind(tokens) {
        TokenKind::OpenBrace => {
            let (args, rest) = braces_at(alloc, sig, fuel, tail(tokens))?;
            let meaning = constant(alloc, sig, name, place, args)?;
            Ok((Operand { meaning, first }, rest))
        }
        _ => {
            let meaning = plain(alloc, sig, scope, name, place)?;
            Ok((Operand { meaning, first }, tokens))
        }
    }
}

/// The free variable of the name at a type.
fn free(alloc: Global, name: &str, ty: Meaning<HolType>) -> Result<Meaning<Term>, AllocError>
    ensures { IfOk result (λ m. meaning_of m ≡ free_of name.now (meaning_of ty)) }
{
    match ty {
        Meaning::Means(ty) => {
            let var = Var::new(alloc, name, &ty)?;
            Ok(Meaning::Means(Term::mk_var(alloc, &var)?))
        }
        Meaning::Faulty(fault) => Ok(Meaning::Faulty(fault)),
    }
}

/// A free variable behind its bracket, which is at `place`.
fn bracketed<'a>(
    alloc: Global,
    sig: &Sig,
    fuel: usize,
    place: usize,
    tokens: &'a [Token],
) -> Result<(Operand, &'a [Token]), Stop>
    requires { fuel ≤ 2 ^ 63 }
    ensures { Gives operand_of result (free_by (is_name_token (Lex.head_kind (tokens_of tokens.now))) sig.now fuel place (tokens_of tokens.now)) }
{
    if !is_name(head_kind(tokens)) {
        return Err(stop_at(tokens));
    }
    let (ty, rest) = typed_at(alloc, sig, fuel, tail(tokens))?;
    if !is_close_bracket(head_kind(rest)) {
        return Err(stop_at(rest));
    }
    let meaning = free(alloc, head_text(tokens), ty)?;
    let first = place;
    Ok((Operand { meaning, first }, tail(rest)))
}

/// A name, a free variable, or a term in parentheses.
#[cycle(terms)]
#[tactic(auto, unfolding(hol_terms::specs::Reading::atom_at))]
fn atom_at<'a>(
    alloc: Global,
    sig: &Sig,
    fuel: usize,
    scope: &Scope<'_>,
    tokens: &'a [Token],
) -> Result<(Operand, &'a [Token]), Stop>
    requires { fuel ≤ 2 ^ 63 }
    ensures { Gives operand_of result (atom_at sig.now (term_at sig.now fuel) fuel (scope_of scope.now) (tokens_of tokens.now)) }
{
    let place = head_place(tokens);
    let others = tail(tokens);
    match head_kind(tokens) {
        TokenKind::Name => named(alloc, sig, fuel, scope, head_text(tokens), place, others),
        TokenKind::OpenBracket => bracketed(alloc, sig, fuel, place, others),
        TokenKind::OpenParen => {
            let (term, rest) = term_at(alloc, sig, fuel, scope, others)?;
            if !is_close_paren(head_kind(rest)) {
                return Err(stop_at(rest));
            }
            Ok((term, tail(rest)))
        }
        _ => Err(stop_at(tokens)),
    }
}

/// The atoms that follow, each an argument of what stands before it.
#[cycle(terms)]
fn atoms_at<'a>(
    alloc: Global,
    sig: &Sig,
    fuel: usize,
    scope: &Scope<'_>,
    head: Operand,
    tokens: &'a [Token],
) -> Result<(Operand, &'a [Token]), Stop>
    requires { fuel ≤ 2 ^ 63 }
    ensures { Gives operand_of result (atoms_at (atom_at sig.now (term_at sig.now fuel) fuel (scope_of scope.now)) fuel (operand_of head) (tokens_of tokens.now)) }
{
    let mut whole = head;
    let mut rest = tokens;
    for _ in 0..fuel {
        if !begins_atom(head_kind(rest)) {
            return Ok((whole, rest));
        }
        let (arg, after) = atom_at(alloc, sig, fuel, scope, rest)?;
        whole = apply(alloc, whole, arg)?;
        rest = after;
    }
    Err(stop_at(rest))
}

/// An atom and its arguments.
#[cycle(terms)]
#[tactic(auto, unfolding(hol_terms::specs::Reading::application_at))]
fn application_at<'a>(
    alloc: Global,
    sig: &Sig,
    fuel: usize,
    scope: &Scope<'_>,
    tokens: &'a [Token],
) -> Result<(Operand, &'a [Token]), Stop>
    requires { fuel ≤ 2 ^ 63 }
    ensures { Gives operand_of result (application_at sig.now (term_at sig.now fuel) fuel (scope_of scope.now) (tokens_of tokens.now)) }
{
    let (head, rest) = atom_at(alloc, sig, fuel, scope, tokens)?;
    atoms_at(alloc, sig, fuel, scope, head, rest)
}

/// The left side of a sign and what follows it.
#[cycle(terms)]
fn infix<'a>(
    alloc: Global,
    sig: &Sig,
    fuel: usize,
    scope: &Scope<'_>,
    left: Operand,
    tokens: &'a [Token],
) -> Result<(Operand, &'a [Token]), Stop>
    requires { fuel ≤ 2 ^ 63 }
    ensures { Gives operand_of result (infix_by (Lex.head_kind (tokens_of tokens.now)) sig.now (application_at sig.now (term_at sig.now fuel) fuel (scope_of scope.now)) (operand_of left) (tokens_of tokens.now)) }
{
    let place = head_place(tokens);
    let others = tail(tokens);
    match head_kind(tokens) {
        TokenKind::Equals => {
            let (right, rest) = application_at(alloc, sig, fuel, scope, others)?;
            Ok((equation(alloc, sig, place, left, right)?, rest))
        }
        TokenKind::And => {
            let (right, rest) = application_at(alloc, sig, fuel, scope, others)?;
            Ok((connective(alloc, sig, "conj", place, left, right)?, rest))
        }
        TokenKind::Or => {
            let (right, rest) = application_at(alloc, sig, fuel, scope, others)?;
            Ok((connective(alloc, sig, "disj", place, left, right)?, rest))
        }
        TokenKind::Implies => {
            let (right, rest) = application_at(alloc, sig, fuel, scope, others)?;
            Ok((connective(alloc, sig, "imp", place, left, right)?, rest))
        }
        _ => Ok((left, tokens)),
    }
}

/// The name of a binder, which has no dot.
#[tactic(auto, unfolding(hol_terms::specs::Reading::bound_at))]
fn bound_at(tokens: &[Token]) -> Result<(&str, &[Token]), Stop>
    ensures { Gives (λ n. n.now) result (bound_at (tokens_of tokens.now)) }
{
    if !is_name(head_kind(tokens)) {
        return Err(stop_at(tokens));
    }
    let name = head_text(tokens);
    if is_dotted(name) {
        return Err(stop_at(tokens));
    }
    Ok((name, tail(tokens)))
}

/// The type that a body is read with; where the binder's type has a fault, the body is read for its grammar alone.
fn type_or_none(alloc: Global, ty: &Meaning<HolType>) -> Result<HolType, AllocError>
    ensures { IfOk result (λ t. t ≡ type_or_none (meaning_of ty.now)) }
{
    match ty {
        Meaning::Means(ty) => ty.copy(),
        Meaning::Faulty(_) => HolType::var(alloc, ""),
    }
}

/// The body of a binder of the name at a type. Binding walks the body.
#[cycle(terms)]
#[tactic(auto, using(crate::proofs::ClosedTerms::closed_lemmas), unfolding(hol_terms::specs::Reading::body_at))]
fn body_at<'a>(
    alloc: Global,
    sig: &Sig,
    fuel: usize,
    scope: &Scope<'_>,
    name: &str,
    ty: Meaning<HolType>,
    tokens: &'a [Token],
) -> Result<(Bound, &'a [Token]), Stop>
    requires { fuel ≤ 2 ^ 63 }
    ensures { Gives bound_of result (body_at (term_at sig.now fuel) (scope_of scope.now) name.now (meaning_of ty) (tokens_of tokens.now)) }
{
    let read_with = type_or_none(alloc, &ty)?;
    let var = stand_in(alloc, scope, name, &read_with)?;
    let inner = Scope::Binder(&*name, &var, &*scope);
    let (body, rest) = term_at(alloc, sig, fuel, &inner, tokens)?;
    let abstraction = abstraction(alloc, &ty, &var, body.meaning)?;
    Ok((Bound { ty, abstraction }, rest))
}

/// What follows the sign of a binder.
#[cycle(terms)]
#[tactic(auto, unfolding(hol_terms::specs::Reading::binder_at))]
fn binder_at<'a>(
    alloc: Global,
    sig: &Sig,
    fuel: usize,
    scope: &Scope<'_>,
    tokens: &'a [Token],
) -> Result<(Bound, &'a [Token]), Stop>
    requires { fuel ≤ 2 ^ 63 }
    ensures { Gives bound_of result (binder_at sig.now (term_at sig.now fuel) fuel (scope_of scope.now) (tokens_of tokens.now)) }
{
    let (name, rest) = bound_at(tokens)?;
    let (ty, rest) = typed_at(alloc, sig, fuel, rest)?;
    if !is_dot(head_kind(rest)) {
        return Err(stop_at(rest));
    }
    body_at(alloc, sig, fuel, scope, name, ty, tail(rest))
}

/// A term. The recursion goes as deep as terms are nested by parentheses and binders, at most `fuel`.
#[cycle(terms)]
#[tactic(auto, using(crate::proofs::TermSteps::term_lemmas))]
pub fn term_at<'a>(
    alloc: Global,
    sig: &Sig,
    fuel: usize,
    scope: &Scope<'_>,
    tokens: &'a [Token],
) -> Result<(Operand, &'a [Token]), Stop>
    requires { fuel ≤ 2 ^ 63 }
    ensures { Gives operand_of result (term_at sig.now fuel (scope_of scope.now) (tokens_of tokens.now)) }
{
    if fuel == 0 {
        return Err(stop_at(tokens));
    }
    let left = fuel - 1;
    let place = head_place(tokens);
    let others = tail(tokens);
    match head_kind(tokens) {
        TokenKind::Lambda => {
            let (bound, rest) = binder_at(alloc, sig, left, scope, others)?;
            let meaning = bound.abstraction;
            let first = place;
            Ok((Operand { meaning, first }, rest))
        }
        TokenKind::ForAll => {
            let (bound, rest) = binder_at(alloc, sig, left, scope, others)?;
            let Bound { ty, abstraction } = bound;
            Ok((quantified(alloc, sig, "all", place, ty, abstraction)?, rest))
        }
        TokenKind::Exists => {
            let (bound, rest) = binder_at(alloc, sig, left, scope, others)?;
            let Bound { ty, abstraction } = bound;
            Ok((quantified(alloc, sig, "ex", place, ty, abstraction)?, rest))
        }
        TokenKind::Not => {
            let (arg, rest) = application_at(alloc, sig, left, scope, others)?;
            Ok((negation(alloc, sig, place, arg)?, rest))
        }
        _ => {
            let (operand, rest) = application_at(alloc, sig, left, scope, tokens)?;
            infix(alloc, sig, left, scope, operand, rest)
        }
    }
}
