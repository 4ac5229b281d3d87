//! Reads types and terms over a signature.

ghost use Rattle.std.specs.Prelude.{◌≡◌, [], IfOk};
ghost use Rattle.hol_terms.specs.Signature.{IsTyOver, IsOver};
ghost use Rattle.hol_text.specs.Answers.{Answers};
ghost use Rattle.hol_text.specs.MeaningViews.{meaning_of};
ghost use Rattle.hol_text.specs.Over.{GivesTypes};
ghost use Rattle.hol_terms.specs.Reading.{ended, reading_of_type, reading_of_term};
ghost use Rattle.hol_text.specs.TokenViews.{tokens_of};
ghost use Rattle.hol_terms.specs.Tokens as Lex;
ghost use Rattle.hol_text.specs.declared.read.ReadError.TheVariants.{Memory};

use crate::lexer::tokens;
use crate::meaning::{Fault, Meaning};
use crate::scope::Scope;
use crate::terms::term_at;
use crate::tokens::{Token, TokenKind, head_kind, head_place};
use crate::types::{Stop, type_at};
use hol_terms::sig::Sig;
use hol_terms::terms::Term;
use hol_terms::types::HolType;
use std::alloc::{AllocError, Global};
use thiserror::Error;

/// Why a text was not read. A place is a byte of the text.
#[derive(Debug, Drop, Error)]
pub enum ReadError {
    /// The text is not of the grammar: the place of the first token that is wrong, or of a character that belongs to no token.
    #[error("no text of the grammar, at byte {place}")]
    Syntax { place: usize },
    /// The first name that the signature and the binders don't give, or whose number of type arguments differs.
    #[error("unknown name, at byte {place}")]
    Unknown { name: String, place: usize },
    /// The first application of a term to one that it doesn't take: the place of the first token of its tree, without
    /// parentheses.
    #[error("ill-typed, at byte {place}")]
    IllTyped { place: usize },
    /// Memory ran out.
    #[error("out of memory")]
    Memory,
}

impl From<AllocError> for ReadError {
    ghost from_gives = { λ _ e. e ≡ Memory };

    fn from(_e: AllocError) -> ReadError {
        ReadError::Memory
    }
}

/// The answer, where the text ends behind what was read.
fn ended<T: Drop>(meaning: Meaning<T>, rest: &[Token]) -> Result<T, ReadError>
    ensures { Answers result (ended (Lex.head_kind (tokens_of rest.now)) (meaning_of meaning) (tokens_of rest.now)) }
{
    match head_kind(rest) {
        TokenKind::End => match meaning {
            Meaning::Means(value) => Ok(value),
            Meaning::Faulty(Fault::Unknown { name, place }) => {
                Err(ReadError::Unknown { name, place })
            }
            Meaning::Faulty(Fault::IllTyped { place }) => Err(ReadError::IllTyped { place }),
        },
        _ => {
            let place = head_place(rest);
            Err(ReadError::Syntax { place })
        }
    }
}

/// The type that the text is.
#[tactic(auto, unfolding(hol_terms::specs::Reading::reading_of_type))]
fn whole_type(alloc: Global, sig: &Sig, text: &str) -> Result<HolType, ReadError>
    ensures { Answers result (reading_of_type sig.now text.now) }
{
    let tokens = tokens(alloc, text)?;
    match type_at(alloc, sig, text.len() + 1, &tokens) {
        Ok((meaning, rest)) => ended(meaning, rest),
        Err(Stop::Memory) => Err(ReadError::Memory),
        Err(Stop::Grammar(place)) => Err(ReadError::Syntax { place }),
    }
}

/// The term that the text is.
#[tactic(auto, unfolding(hol_terms::specs::Reading::reading_of_term))]
fn whole_term(alloc: Global, sig: &Sig, text: &str) -> Result<Term, ReadError>
    ensures { Answers result (reading_of_term sig.now text.now) }
{
    let tokens = tokens(alloc, text)?;
    match term_at(alloc, sig, text.len() + 1, &Scope::Top, &tokens) {
        Ok((operand, rest)) => ended(operand.meaning, rest),
        Err(Stop::Memory) => Err(ReadError::Memory),
        Err(Stop::Grammar(place)) => Err(ReadError::Syntax { place }),
    }
}

/// The type that the text is: `'a`, `c`, `t c`, `(t,u) c`, `t -> u`. The errors are those of [`ReadError`], the first of them by
/// kind, in this order: syntax, unknown, ill-typed. Linear in the text. The recursion goes as deep as the text nests types, as
/// dropping a type does.
pub fn read_type(alloc: Global, sig: &Sig, text: &str) -> Result<HolType, ReadError>
    ensures exact { Answers result (reading_of_type sig.now text.now) }
    ensures over { IfOk result (λ t. IsTyOver sig.now t) }
{
    whole_type(alloc, sig, text)
}

/// The term that the text is: `f x`, `\x:t. p`, `c{t}`, `[x:t]`, and the sugar `a = b`, `~ p`, `p /\ q`, `p \/ q`, `p ==> q`,
/// `!x:t. p`, `?x:t. p` for the constants eq, not, conj, disj, imp, all and ex of the signature. The errors are those of
/// [`ReadError`], the first of them by kind, in this order: syntax, unknown, ill-typed. Linear in the text but for names, which are
/// sought among the binders around, and for binders, each of which walks its body. The recursion goes as deep as the text nests
/// types and terms, as dropping a term does.
pub fn read_term(alloc: Global, sig: &Sig, text: &str) -> Result<Term, ReadError>
    ensures exact { Answers result (reading_of_term sig.now text.now) }
    ensures over { GivesTypes sig.now → IfOk result (λ t. IsOver sig.now [] t) }
{
    whole_term(alloc, sig, text)
}
