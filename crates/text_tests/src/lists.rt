//! Statements on lists, as a declaration of lists is to give them: each is read over a signature that has the constants of lists, and
//! printed back.

use crate::signatures::signature;
use hol_terms::sig::Sig;
use hol_text::print::print_term;
use hol_text::read::read_term;
use std::alloc::{AllocError, Global};
use std::test::Fail;

/// Types, with their numbers of arguments.
static TYPES: [(&str, u32); 2] = [("list", 1), ("prod", 2)];

/// Constants, with their generic types.
static CONSTANTS: [(&str, &str); 22] = [
    ("T", "bool"),
    ("F", "bool"),
    ("conj", "bool -> bool -> bool"),
    ("disj", "bool -> bool -> bool"),
    ("imp", "bool -> bool -> bool"),
    ("not", "bool -> bool"),
    ("all", "('a -> bool) -> bool"),
    ("ex", "('a -> bool) -> bool"),
    ("Nil", "'a list"),
    ("Cons", "'a -> 'a list -> 'a list"),
    ("hd", "'a list -> 'a"),
    ("tl", "'a list -> 'a list"),
    ("list.is_Cons", "'a list -> bool"),
    (
        "list.case",
        "'x1 -> ('a -> 'a list -> 'x1) -> 'a list -> 'x1",
    ),
    (
        "list.rec",
        "'x1 -> ('a -> ('a list,'x1) prod -> 'x1) -> 'a list -> 'x1",
    ),
    ("list.set1", "'a list -> 'a -> bool"),
    ("list.map", "('a -> 'x1) -> 'a list -> 'x1 list"),
    (
        "list.rel",
        "('a -> 'x1 -> bool) -> 'a list -> 'x1 list -> bool",
    ),
    ("pair", "'a -> 'b -> ('a,'b) prod"),
    ("fst", "('a,'b) prod -> 'a"),
    ("snd", "('a,'b) prod -> 'b"),
    ("fun.map", "('a -> 'b) -> ('c -> 'a) -> 'c -> 'b"),
];

static STATEMENTS: [&str; 11] = [
    "!x0:'a. !x1:'a list. !x2:'a. !x3:'a list. (Cons{'a} x0 x1 = Cons{'a} x2 x3) = ((x0 = x2) /\\ (x1 = x3))",
    "!x0:'a list. !x1:bool. ((x0 = Nil{'a}) ==> x1) ==> ((!x2:'a. !x3:'a list. (x0 = Cons{'a} x2 x3) ==> x1) ==> x1)",
    "!x0:'x1. !x1:'a -> 'a list -> 'x1. !x2:'a. !x3:'a list. list.case{'x1,'a} x0 x1 (Cons{'a} x2 x3) = x1 x2 x3",
    "!x0:'a list. list.is_Cons{'a} x0 ==> (Cons{'a} (hd{'a} x0) (tl{'a} x0) = x0)",
    "!x0:'a. list.set1{'a} Nil{'a} x0 = F",
    "!x0:'a. !x1:'a list. !x2:'a. list.set1{'a} (Cons{'a} x0 x1) x2 = ((x2 = x0) \\/ list.set1{'a} x1 x2)",
    "!x0:'a -> 'x1 -> bool. !x1:'a. !x2:'a list. !x3:'x1. !x4:'x1 list. list.rel{'a,'x1} x0 (Cons{'a} x1 x2) (Cons{'x1} x3 x4) = (x0 x1 x3 /\\ list.rel{'a,'x1} x0 x2 x4)",
    "!x0:'a -> 'x1. !x1:'x1 -> 'x5. !x2:'a list. list.map{'x1,'x5} x1 (list.map{'a,'x1} x0 x2) = list.map{'a,'x5} (fun.map{'x1,'x5,'a} x1 x0) x2",
    "!x0:'a -> 'x1 -> bool. !x1:'a list. !x2:'x1 list. list.rel{'a,'x1} x0 x1 x2 = (?x3:('a,'x1) prod list. (!x4:('a,'x1) prod. list.set1{('a,'x1) prod} x3 x4 ==> x0 (fst{'a,'x1} x4) (snd{'a,'x1} x4)) /\\ ((list.map{('a,'x1) prod,'a} fst{'a,'x1} x3 = x1) /\\ (list.map{('a,'x1) prod,'x1} snd{'a,'x1} x3 = x2)))",
    "!x0:'a list -> bool. x0 Nil{'a} ==> ((!x1:'a. !x2:'a list. x0 x2 ==> x0 (Cons{'a} x1 x2)) ==> (!x1:'a list. x0 x1))",
    "!x0:'x1. !x1:'a -> ('a list,'x1) prod -> 'x1. !x2:'a. !x3:'a list. list.rec{'x1,'a} x0 x1 (Cons{'a} x2 x3) = x1 x2 (pair{'a list,'x1} x3 (list.rec{'x1,'a} x0 x1 x3))",
];

// The statement, read and printed, or nothing where it is not read.
fn printed_back(alloc: Global, sig: &Sig, statement: &str) -> Result<Option<String>, AllocError> {
    let Ok(t) = read_term(alloc, sig, statement) else {
        return Ok(None);
    };
    let text = print_term(alloc, &t)?;
    Ok(Some(text))
}

#[test]
fn statements_on_lists_are_read_and_printed_back(rt: HostRuntime) -> Result<(), Fail> {
    let alloc = rt.alloc();
    let Some(sig) = signature(alloc, &TYPES, &CONSTANTS)? else {
        return Err(Fail::from(AllocError));
    };
    for statement in &STATEMENTS {
        let Some(text) = printed_back(alloc, &sig, statement)? else {
            return Err(Fail::from(AllocError));
        };
        assert_eq!(rt; text.as_str(), *statement);
    }
    Ok(())
}
