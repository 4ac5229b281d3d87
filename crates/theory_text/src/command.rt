//! Reads one `define` command.

ghost use Rattle.std.specs.Prelude.{◌≡◌, ◌^◌, ◌<◌, IfOk};
ghost use Rattle.std.specs.Option.{option_map};
ghost use Rattle.hol_terms.specs.Reading.{is_dotted};
ghost use Rattle.hol_text.specs.MeaningViews.{meaning_of};
ghost use Rattle.hol_text.specs.TokenViews.{tokens_of};
ghost use Rattle.theory_text.specs.Command.{is_free_name, is_body, stated, meant, define_in, define_of};
ghost use Rattle.theory_text.specs.Views.{define_view};

use crate::limits::{are_unnumbered, strays, types_fit};
use crate::written::{Written, written_at};
use hol_terms::sig::Sig;
use hol_terms::terms::Term;
use hol_terms::types::HolType;
use hol_text::lexer::tokens;
use hol_text::meaning::Meaning;
use hol_text::tokens::{Token, head_place, head_text};
use hol_text::types::Stop;
use std::alloc::{AllocError, Global};
use std::cmp::Ordering;

/// A definition that a text states: the new name and its term, and, as it stands in the text, the first type variable of the term
/// that its type has not, without its quote, and the byte at which it stands. Where there is none, these are empty and 0.
#[derive(Drop)]
pub struct DefineCommand {
    pub name: String,
    pub body: Term,
    pub stray: String,
    pub stray_place: usize,
}

fn is_dotted(name: &str) -> bool
    ensures { result ≡ is_dotted name.now }
{
    name.as_bytes().iter().any(|c| *c == b'.')
}

/// Whether the name is new, has no dot and isn't reserved, nor the number `0`.
fn is_free_name(sig: &Sig, name: &str) -> bool
    ensures { result ≡ is_free_name sig.now name.now }
{
    sig.may_introduce(name) && !is_dotted(name) && name != "plugin" && name != "0"
}

/// Whether the term has the type and no free variables.
fn is_body(ty: &HolType, body: &Term) -> bool
    ensures { result ≡ is_body ty.now body.now }
{
    matches!(body.type_of().cmp(ty), Ordering::Equal) && !body.has_frees()
}

/// The definition, where the term is one of the type.
fn stated(
    alloc: Global,
    name: &str,
    ty: &HolType,
    body: Term,
    from_term: &[Token],
) -> Result<Option<DefineCommand>, AllocError>
    ensures { IfOk result (λ r. option_map define_view r ≡ stated name.now ty.now body (tokens_of from_term.now)) }
{
    if !is_body(ty, &body) {
        return Ok(None);
    }
    let strays = strays(ty, from_term);
    let name = String::from_str(alloc, name)?;
    let stray = String::from_str(alloc, head_text(strays))?;
    let stray_place = head_place(strays);
    Ok(Some(DefineCommand {
        name,
        body,
        stray,
        stray_place,
    }))
}

/// The definition that a command states, where its name is free and the term is one of the type.
fn meant(
    alloc: Global,
    sig: &Sig,
    name: &str,
    ty: Meaning<HolType>,
    term: Meaning<Term>,
    from_term: &[Token],
) -> Result<Option<DefineCommand>, AllocError>
    ensures { IfOk result (λ r. option_map define_view r ≡ meant sig.now name.now (meaning_of ty) (meaning_of term) (tokens_of from_term.now)) }
{
    if !is_free_name(sig, name) {
        return Ok(None);
    }
    let Meaning::Means(ty) = ty else {
        return Ok(None);
    };
    let Meaning::Means(body) = term else {
        return Ok(None);
    };
    stated(alloc, name, &ty, body, from_term)
}

/// The definition that the tokens of a text of `length` bytes state.
#[tactic(auto, unfolding(crate::specs::Command::define_in))]
fn define_in(
    alloc: Global,
    sig: &Sig,
    length: usize,
    tokens: &[Token],
) -> Result<Option<DefineCommand>, AllocError>
    requires { length < 2 ^ 63 }
    ensures { IfOk result (λ r. option_map define_view r ≡ define_in sig.now length (tokens_of tokens.now)) }
{
    if !types_fit(tokens) || !are_unnumbered(tokens) {
        return Ok(None);
    }
    match written_at(alloc, sig, length + 1, tokens) {
        Ok((written, _)) => {
            let Written {
                name,
                ty,
                term,
                from_term,
            } = written;
            meant(alloc, sig, name, ty, term, from_term)
        }
        Err(Stop::Grammar(_)) => Ok(None),
        Err(Stop::Memory) => Err(AllocError),
    }
}

/// The definition that the text states, if it is one `define` command, with nothing before or behind it, that passes each test
/// but that its term has no type variable that its type has not; else None. It is then a term over the signature, closed and of
/// the stated type, with a name that may be introduced. The only error is want of memory. Linear in the text, as
/// [`hol_text::read::read_term`] is; the recursion goes as deep as the limits of types and terms let the text nest.
#[tactic(auto, using(crate::proofs::Bytes::text_lemmas))]
pub fn read_define(
    alloc: Global,
    sig: &Sig,
    text: &[u8],
) -> Result<Option<DefineCommand>, AllocError>
    ensures exact { IfOk result (λ r. option_map define_view r ≡ define_of sig.now text.now) }
{
    let Ok(text) = str::from_utf8(text) else {
        return Ok(None);
    };
    let tokens = tokens(alloc, text)?;
    define_in(alloc, sig, text.len(), &tokens)
}
