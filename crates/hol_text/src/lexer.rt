//! Cuts a text into tokens, by longest match.

ghost use Rattle.std.specs.Prelude.{◌≡◌, ◌==◌, ◌++◌, ◌∷◌, [], OnOk, IfOk, string_bytes};
ghost use Rattle.std.specs.Char.{encode_utf8};
ghost use Rattle.hol_terms.specs.Name.{is_keyword};
ghost use Rattle.hol_terms.specs.Tokens.{sign, word, word_kind, starts, continues, class_of, symbol_of, part_of, begin, name_by, dot_by, quote_by, variable_by, pair_by, equal_by, equals_by, step, last, tokens};
ghost use Rattle.hol_text.specs.TokenViews.{kind_of, tokens_of};
ghost use Rattle.hol_text.specs.LexerViews.{class_view, part_view, state_of};

use crate::tokens::{Token, TokenKind, push};
use hol_terms::names::is_keyword;
use std::alloc::{AllocError, Global};
use unicode_ident::{is_xid_continue, is_xid_start};

/// What a character is where no token has begun.
#[derive(Clone, Copy)]
enum CharClass {
    Blank,
    Hash,
    Quote,
    Zero,
    Letter,
    Minus,
    Equal,
    Slash,
    Backslash,
    Other,
}

/// What the characters before have begun, and where.
#[derive(Drop)]
enum State {
    Between,
    Comment,
    InName(usize, String),
    AfterDot(usize, String, usize),
    AfterQuote(usize),
    InVariable(usize, String),
    AfterMinus(usize),
    AfterEqual(usize),
    AfterEquals(usize, usize),
    AfterSlash(usize),
    AfterBackslash(usize),
}

#[tactic(auto, using(crate::proofs::Characters::character_lemmas))]
fn starts(c: char) -> bool
    ensures { result ≡ starts c }
{
    is_xid_start(c) || c == '_'
}

#[tactic(auto, using(crate::proofs::Characters::character_lemmas))]
fn continues(c: char) -> bool
    ensures { result ≡ continues c }
{
    is_xid_continue(c)
}

fn class_of(c: char) -> CharClass
    ensures { class_view result ≡ class_of c }
{
    match c {
        ' ' | '\t' | '\n' | '\r' => CharClass::Blank,
        '#' => CharClass::Hash,
        '\'' => CharClass::Quote,
        '0' => CharClass::Zero,
        '-' => CharClass::Minus,
        '=' => CharClass::Equal,
        '/' => CharClass::Slash,
        '\\' => CharClass::Backslash,
        c if starts(c) => CharClass::Letter,
        _ => CharClass::Other,
    }
}

fn symbol_of(c: char) -> TokenKind
    ensures { kind_of result ≡ symbol_of c }
{
    match c {
        '(' => TokenKind::OpenParen,
        ')' => TokenKind::CloseParen,
        '{' => TokenKind::OpenBrace,
        '}' => TokenKind::CloseBrace,
        '[' => TokenKind::OpenBracket,
        ']' => TokenKind::CloseBracket,
        ',' => TokenKind::Comma,
        ':' => TokenKind::Colon,
        ';' => TokenKind::Semicolon,
        '.' => TokenKind::Dot,
        '|' => TokenKind::Bar,
        '!' => TokenKind::ForAll,
        '?' => TokenKind::Exists,
        '~' => TokenKind::Not,
        _ => TokenKind::Unknown,
    }
}

/// What a character is within a name.
#[derive(Clone, Copy)]
enum Part {
    OfSegment,
    Dot,
    Outside,
}

fn part_of(c: char) -> Part
    ensures { part_view result ≡ part_of c }
{
    match c {
        '.' => Part::Dot,
        c if continues(c) => Part::OfSegment,
        _ => Part::Outside,
    }
}

fn encoded(alloc: Global, c: char) -> Result<String, AllocError>
    ensures { IfOk result (λ s. string_bytes s ≡ encode_utf8 c) }
{
    let mut text = String::new(alloc);
    text.push(c)?;
    Ok(text)
}

fn push_sign(
    alloc: Global,
    tokens: &mut Vec<Token>,
    kind: TokenKind,
    place: usize,
) -> Result<(), AllocError>
    ensures { OnOk result (tokens_of tokens.new.items ≡ tokens_of tokens.old.items ++ sign (kind_of kind) place ∷ []) }
{
    push(alloc, tokens, kind, "", place)
}

fn word_kind(text: &str) -> TokenKind
    ensures { kind_of result ≡ word_kind (is_keyword text.now) }
{
    if is_keyword(text) {
        TokenKind::Keyword
    } else {
        TokenKind::Name
    }
}

fn push_word(
    alloc: Global,
    tokens: &mut Vec<Token>,
    text: &str,
    place: usize,
) -> Result<(), AllocError>
    ensures { OnOk result (tokens_of tokens.new.items ≡ tokens_of tokens.old.items ++ word text.now place ∷ []) }
{
    push(alloc, tokens, word_kind(text), text, place)
}

/// Goes on with a character where no token has begun.
fn begin(alloc: Global, tokens: &mut Vec<Token>, place: usize, c: char) -> Result<State, AllocError>
    ensures tokens { OnOk result (tokens_of tokens.new.items ≡ tokens_of tokens.old.items ++ (begin place c).0) }
    ensures state { IfOk result (λ s. state_of s ≡ (begin place c).1) }
{
    match class_of(c) {
        CharClass::Blank => Ok(State::Between),
        CharClass::Hash => Ok(State::Comment),
        CharClass::Quote => Ok(State::AfterQuote(place)),
        CharClass::Zero => {
            push(alloc, tokens, TokenKind::Name, "0", place)?;
            Ok(State::Between)
        }
        CharClass::Letter => Ok(State::InName(place, encoded(alloc, c)?)),
        CharClass::Minus => Ok(State::AfterMinus(place)),
        CharClass::Equal => Ok(State::AfterEqual(place)),
        CharClass::Slash => Ok(State::AfterSlash(place)),
        CharClass::Backslash => Ok(State::AfterBackslash(place)),
        CharClass::Other => {
            push_sign(alloc, tokens, symbol_of(c), place)?;
            Ok(State::Between)
        }
    }
}

/// Goes on in a name that begins at `start`.
fn step_in_name(
    alloc: Global,
    tokens: &mut Vec<Token>,
    start: usize,
    text: String,
    place: usize,
    c: char,
) -> Result<State, AllocError>
    ensures tokens { OnOk result (tokens_of tokens.new.items ≡ tokens_of tokens.old.items ++ (name_by (part_of c) start (string_bytes text) place c).0) }
    ensures state { IfOk result (λ s. state_of s ≡ (name_by (part_of c) start (string_bytes text) place c).1) }
{
    let mut text = text;
    match part_of(c) {
        Part::OfSegment => {
            text.push(c)?;
            Ok(State::InName(start, text))
        }
        Part::Dot => Ok(State::AfterDot(start, text, place)),
        Part::Outside => {
            push_word(alloc, tokens, text.as_str(), start)?;
            begin(alloc, tokens, place, c)
        }
    }
}

/// Goes on behind a name and a dot at `dot`.
fn step_after_dot(
    alloc: Global,
    tokens: &mut Vec<Token>,
    start: usize,
    text: String,
    dot: usize,
    place: usize,
    c: char,
) -> Result<State, AllocError>
    ensures tokens { OnOk result (tokens_of tokens.new.items ≡ tokens_of tokens.old.items ++ (dot_by (starts c) start (string_bytes text) dot place c).0) }
    ensures state { IfOk result (λ s. state_of s ≡ (dot_by (starts c) start (string_bytes text) dot place c).1) }
{
    let mut text = text;
    if starts(c) {
        text.push_str(".")?;
        text.push(c)?;
        return Ok(State::InName(start, text));
    }
    push_word(alloc, tokens, text.as_str(), start)?;
    push_sign(alloc, tokens, TokenKind::Dot, dot)?;
    begin(alloc, tokens, place, c)
}

fn step_after_quote(
    alloc: Global,
    tokens: &mut Vec<Token>,
    start: usize,
    place: usize,
    c: char,
) -> Result<State, AllocError>
    ensures tokens { OnOk result (tokens_of tokens.new.items ≡ tokens_of tokens.old.items ++ (quote_by (starts c) start place c).0) }
    ensures state { IfOk result (λ s. state_of s ≡ (quote_by (starts c) start place c).1) }
{
    if starts(c) {
        return Ok(State::InVariable(start, encoded(alloc, c)?));
    }
    push_sign(alloc, tokens, TokenKind::Unknown, start)?;
    begin(alloc, tokens, place, c)
}

fn step_in_variable(
    alloc: Global,
    tokens: &mut Vec<Token>,
    start: usize,
    text: String,
    place: usize,
    c: char,
) -> Result<State, AllocError>
    ensures tokens { OnOk result (tokens_of tokens.new.items ≡ tokens_of tokens.old.items ++ (variable_by (continues c) start (string_bytes text) place c).0) }
    ensures state { IfOk result (λ s. state_of s ≡ (variable_by (continues c) start (string_bytes text) place c).1) }
{
    let mut text = text;
    if continues(c) {
        text.push(c)?;
        return Ok(State::InVariable(start, text));
    }
    push(alloc, tokens, TokenKind::Variable, text.as_str(), start)?;
    begin(alloc, tokens, place, c)
}

/// Goes on behind the first character of a symbol of two: `whole` where `ends`, and else `first` before the character.
fn step_in_pair(
    alloc: Global,
    tokens: &mut Vec<Token>,
    ends: bool,
    whole: TokenKind,
    first: TokenKind,
    start: usize,
    place: usize,
    c: char,
) -> Result<State, AllocError>
    ensures tokens { OnOk result (tokens_of tokens.new.items ≡ tokens_of tokens.old.items ++ (pair_by ends (kind_of whole) (kind_of first) start place c).0) }
    ensures state { IfOk result (λ s. state_of s ≡ (pair_by ends (kind_of whole) (kind_of first) start place c).1) }
{
    if ends {
        push_sign(alloc, tokens, whole, start)?;
        return Ok(State::Between);
    }
    push_sign(alloc, tokens, first, start)?;
    begin(alloc, tokens, place, c)
}

fn step_after_equal(
    alloc: Global,
    tokens: &mut Vec<Token>,
    start: usize,
    place: usize,
    c: char,
) -> Result<State, AllocError>
    ensures tokens { OnOk result (tokens_of tokens.new.items ≡ tokens_of tokens.old.items ++ (equal_by (c == 61) start place c).0) }
    ensures state { IfOk result (λ s. state_of s ≡ (equal_by (c == 61) start place c).1) }
{
    if c == '=' {
        return Ok(State::AfterEquals(start, place));
    }
    push_sign(alloc, tokens, TokenKind::Equals, start)?;
    begin(alloc, tokens, place, c)
}

fn step_after_equals(
    alloc: Global,
    tokens: &mut Vec<Token>,
    start: usize,
    second: usize,
    place: usize,
    c: char,
) -> Result<State, AllocError>
    ensures tokens { OnOk result (tokens_of tokens.new.items ≡ tokens_of tokens.old.items ++ (equals_by (c == 62) start second place c).0) }
    ensures state { IfOk result (λ s. state_of s ≡ (equals_by (c == 62) start second place c).1) }
{
    if c == '>' {
        push_sign(alloc, tokens, TokenKind::Implies, start)?;
        return Ok(State::Between);
    }
    push_sign(alloc, tokens, TokenKind::Equals, start)?;
    step_after_equal(alloc, tokens, second, place, c)
}

/// Goes on with the character `c` at the byte `place`.
fn step(
    alloc: Global,
    tokens: &mut Vec<Token>,
    state: State,
    place: usize,
    c: char,
) -> Result<State, AllocError>
    ensures tokens { OnOk result (tokens_of tokens.new.items ≡ tokens_of tokens.old.items ++ (step (state_of state) place c).0) }
    ensures state { IfOk result (λ s. state_of s ≡ (step (state_of state) place c).1) }
{
    match state {
        State::Between => begin(alloc, tokens, place, c),
        State::Comment => {
            if c == '\n' {
                Ok(State::Between)
            } else {
                Ok(State::Comment)
            }
        }
        State::InName(start, text) => step_in_name(alloc, tokens, start, text, place, c),
        State::AfterDot(start, text, dot) => {
            step_after_dot(alloc, tokens, start, text, dot, place, c)
        }
        State::AfterQuote(start) => step_after_quote(alloc, tokens, start, place, c),
        State::InVariable(start, text) => step_in_variable(alloc, tokens, start, text, place, c),
        State::AfterMinus(start) => {
            let (whole, first) = (TokenKind::Arrow, TokenKind::Unknown);
            step_in_pair(alloc, tokens, c == '>', whole, first, start, place, c)
        }
        State::AfterEqual(start) => step_after_equal(alloc, tokens, start, place, c),
        State::AfterEquals(start, second) => {
            step_after_equals(alloc, tokens, start, second, place, c)
        }
        State::AfterSlash(start) => {
            let (whole, first) = (TokenKind::And, TokenKind::Unknown);
            step_in_pair(alloc, tokens, c == '\\', whole, first, start, place, c)
        }
        State::AfterBackslash(start) => {
            let (whole, first) = (TokenKind::Or, TokenKind::Lambda);
            step_in_pair(alloc, tokens, c == '/', whole, first, start, place, c)
        }
    }
}

/// Adds the tokens that the end of the text ends.
fn finish(alloc: Global, tokens: &mut Vec<Token>, state: State) -> Result<(), AllocError>
    ensures { OnOk result (tokens_of tokens.new.items ≡ tokens_of tokens.old.items ++ last (state_of state)) }
{
    match state {
        State::Between => Ok(()),
        State::Comment => Ok(()),
        State::InName(start, text) => push_word(alloc, tokens, text.as_str(), start),
        State::AfterDot(start, text, dot) => {
            push_word(alloc, tokens, text.as_str(), start)?;
            push_sign(alloc, tokens, TokenKind::Dot, dot)
        }
        State::AfterQuote(start) => push_sign(alloc, tokens, TokenKind::Unknown, start),
        State::InVariable(start, text) => {
            push(alloc, tokens, TokenKind::Variable, text.as_str(), start)
        }
        State::AfterMinus(start) => push_sign(alloc, tokens, TokenKind::Unknown, start),
        State::AfterEqual(start) => push_sign(alloc, tokens, TokenKind::Equals, start),
        State::AfterEquals(start, second) => {
            push_sign(alloc, tokens, TokenKind::Equals, start)?;
            push_sign(alloc, tokens, TokenKind::Equals, second)
        }
        State::AfterSlash(start) => push_sign(alloc, tokens, TokenKind::Unknown, start),
        State::AfterBackslash(start) => push_sign(alloc, tokens, TokenKind::Lambda, start),
    }
}

/// The tokens of a text. The last one is the end.
#[tactic(auto, unfolding(hol_terms::specs::Tokens::tokens))]
pub fn tokens(alloc: Global, text: &str) -> Result<Vec<Token>, AllocError>
    ensures { IfOk result (λ v. tokens_of v.items ≡ tokens text.now) }
{
    let mut tokens = Vec::new(alloc);
    let mut state = State::Between;
    for (place, c) in text.char_indices() {
        state = step(alloc, &mut tokens, state, place, c)?;
    }
    finish(alloc, &mut tokens, state)?;
    push_sign(alloc, &mut tokens, TokenKind::End, text.len())?;
    Ok(tokens)
}
