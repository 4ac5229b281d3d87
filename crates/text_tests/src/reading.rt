//! What no clause says: that texts are read where there is memory, and some readings.
ghost use Rattle.std.specs.Prelude.{◌≡◌};

use crate::signatures::signature;
use hol_terms::sig::Sig;
use hol_text::read::{ReadError, read_term, read_type};
use std::alloc::{AllocError, Global};
use std::cmp::Ordering;
use std::test::Fail;

/// Texts that read as the same type.
static EQUAL_TYPES: [(&str, &str); 5] = [
    ("bool", " ( bool )"),
    ("'a -> 'b -> bool", "'a -> ('b -> bool)"),
    ("('a, 'b) fun", "'a->'b# the same\n"),
    ("bool -> ind", "( bool,ind )fun"),
    ("'\u{e9} -> ind", "('\u{e9},ind) fun"),
];

/// Texts that are no types, and where.
static TYPE_SYNTAX: [(&str, usize); 6] = [
    ("", 0),
    ("bool ->", 7),
    ("('a, 'b)", 8),
    ("bool)", 4),
    ("where", 0),
    ("bool \u{2192} ind", 5),
];

/// Texts of types with an unknown name, and where it stands.
static TYPE_UNKNOWN: [(&str, &str, usize); 3] = [
    ("'a list", "list", 3),
    ("bool bool -> foo", "bool", 5),
    ("('a, bar) foo", "bar", 5),
];

/// Texts that read as the same term.
static EQUAL_TERMS: [(&str, &str); 19] = [
    ("T", "(T)"),
    ("\\x:bool. x", "\\0:bool. 0"),
    ("!x0:'a. x0 = x0", "all{'a} (\\y:'a. eq{'a} y y)"),
    ("?x:'a.T", "ex{'a} (\\x:'a. T)"),
    ("[v:bool] /\\ T", "conj [v:bool] T"),
    ("T \\/ T", "disj T T"),
    ("T ==> T", "imp T T"),
    ("~T", "not T"),
    ("T=T", "T # a comment\n = T"),
    ("\\T:bool. T", "\\x:bool. x"),
    ("\\x:bool. \\x:ind. x", "\\x:bool. \\y:ind. y"),
    ("\\x:bool. \\y:ind. x", "\\x:bool. \\z:ind. x"),
    (
        "\\x:bool. \\x:ind. \\y:ind. x",
        "\\z:bool. \\x:ind. \\y:ind. x",
    ),
    ("\\x:bool. [x:bool]", "\\y:bool. [x:bool]"),
    ("\\eq:bool. eq{bool} eq", "\\x:bool. eq{bool} x"),
    ("conj T T", "(conj (T)) T"),
    ("[0:bool] = [a.b:bool]", "eq{bool} [0:bool] [a.b:bool]"),
    ("[\u{e9}:bool]", "([\u{e9}:bool])"),
    ("!y:bool. T", "all{bool} (\\y:bool. T)"),
];

/// Texts that are no terms, and where.
static TERM_SYNTAX: [(&str, usize); 16] = [
    ("", 0),
    ("T T T )", 6),
    ("(T", 2),
    ("T = T = T", 6),
    ("!a.b:bool. T", 1),
    ("!y:bool.T", 9),
    ("!where:bool. T", 1),
    ("T \u{2192} T", 2),
    ("T == T", 3),
    ("T - T", 2),
    ("T / T", 2),
    ("'a", 0),
    ("\u{e9} 1", 3),
    ("[v bool]", 3),
    ("eq{}", 3),
    ("eq{bool, }", 9),
];

/// Texts of terms with an unknown name, and where it stands.
static TERM_UNKNOWN: [(&str, &str, usize); 7] = [
    ("f T", "f", 0),
    ("\u{e9} f", "\u{e9}", 0),
    ("T T = f T", "f", 6),
    ("eq T T", "eq", 0),
    ("eq{bool,ind} T T", "eq", 0),
    ("T{bool}", "T", 0),
    ("\\x:foo. x x = g", "foo", 3),
];

/// Texts of ill typed terms, and where.
static ILL_TYPED: [(&str, usize); 4] = [
    ("T T", 0),
    ("T /\\ ((conj T) [v:ind])", 7),
    ("conj (T T) (T [v:ind])", 6),
    ("!x:ind. x", 0),
];

/// The constants that have sugar.
static CONSTANTS: [(&str, &str); 7] = [
    ("T", "bool"),
    ("not", "bool -> bool"),
    ("conj", "bool -> bool -> bool"),
    ("disj", "bool -> bool -> bool"),
    ("imp", "bool -> bool -> bool"),
    ("all", "('a -> bool) -> bool"),
    ("ex", "('a -> bool) -> bool"),
];

fn are_equal_types(alloc: Global, sig: &Sig, text: &str, other: &str) -> bool {
    match (read_type(alloc, sig, text), read_type(alloc, sig, other)) {
        (Ok(ty), Ok(same)) => matches!(ty.cmp(&same), Ordering::Equal),
        _ => false,
    }
}

fn are_equal_terms(alloc: Global, sig: &Sig, text: &str, other: &str) -> bool {
    match (read_term(alloc, sig, text), read_term(alloc, sig, other)) {
        (Ok(term), Ok(same)) => matches!(term.cmp(&same), Ordering::Equal),
        _ => false,
    }
}

fn type_fault(alloc: Global, sig: &Sig, text: &str) -> Option<ReadError> {
    read_type(alloc, sig, text).err()
}

fn term_fault(alloc: Global, sig: &Sig, text: &str) -> Option<ReadError> {
    read_term(alloc, sig, text).err()
}

fn is_syntax(fault: &Option<ReadError>, at: usize) -> bool {
    match fault {
        Some(ReadError::Syntax { place }) => *place == at,
        _ => false,
    }
}

fn is_unknown(fault: &Option<ReadError>, other: &str, at: usize) -> bool {
    match fault {
        Some(ReadError::Unknown { name, place }) => name.as_str() == other && *place == at,
        _ => false,
    }
}

fn is_ill_typed(fault: &Option<ReadError>, at: usize) -> bool {
    match fault {
        Some(ReadError::IllTyped { place }) => *place == at,
        _ => false,
    }
}

fn some_signature(alloc: Global) -> Result<Sig, Fail> {
    match signature(alloc, &[], &CONSTANTS)? {
        Some(sig) => Ok(sig),
        None => Err(Fail::from(AllocError)),
    }
}

#[test]
fn texts_of_types_are_read(rt: HostRuntime) -> Result<(), Fail> {
    let alloc = rt.alloc();
    let sig = some_signature(alloc)?;
    for (text, other) in &EQUAL_TYPES {
        assert!(rt; are_equal_types(alloc, &sig, text, other));
    }
    Ok(())
}

#[test]
fn texts_of_terms_are_read(rt: HostRuntime) -> Result<(), Fail> {
    let alloc = rt.alloc();
    let sig = some_signature(alloc)?;
    for (text, other) in &EQUAL_TERMS {
        assert!(rt; are_equal_terms(alloc, &sig, text, other));
    }
    Ok(())
}

#[test]
fn faults_of_syntax_are_told(rt: HostRuntime) -> Result<(), Fail> {
    let alloc = rt.alloc();
    let sig = some_signature(alloc)?;
    for (text, at) in &TYPE_SYNTAX {
        assert!(rt; is_syntax(&type_fault(alloc, &sig, text), *at));
    }
    for (text, at) in &TERM_SYNTAX {
        assert!(rt; is_syntax(&term_fault(alloc, &sig, text), *at));
    }
    Ok(())
}

#[test]
fn unknown_names_are_told(rt: HostRuntime) -> Result<(), Fail> {
    let alloc = rt.alloc();
    let sig = some_signature(alloc)?;
    for (text, name, at) in &TYPE_UNKNOWN {
        assert!(rt; is_unknown(&type_fault(alloc, &sig, text), name, *at));
    }
    for (text, name, at) in &TERM_UNKNOWN {
        assert!(rt; is_unknown(&term_fault(alloc, &sig, text), name, *at));
    }
    Ok(())
}

#[test]
fn ill_typed_terms_are_told(rt: HostRuntime) -> Result<(), Fail> {
    let alloc = rt.alloc();
    let sig = some_signature(alloc)?;
    for (text, at) in &ILL_TYPED {
        assert!(rt; is_ill_typed(&term_fault(alloc, &sig, text), *at));
    }
    Ok(())
}
