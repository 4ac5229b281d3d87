//! The text of base definitions, and of terms and types that the program prints.

use hol_terms::defs::Def;
use hol_terms::terms::{Term, Var};
use hol_terms::types::HolType;
use hol_text::print::{definition_line, print_type, theorem_line};
use std::alloc::{AllocError, Global};
use std::test::Fail;
use stmt_core::base_def;

// Numbers of base definitions, and their lines.
static BASE_LINES: [(u32, &str); 6] = [
    (
        2,
        "def conj : bool -> bool -> bool = \\x0:bool. \\x1:bool. (\\x2:bool -> bool -> bool. x2 x0 x1) = (\\x2:bool -> bool -> bool. x2 T T)",
    ),
    (
        3,
        "def imp : bool -> bool -> bool = \\x0:bool. \\x1:bool. (x0 /\\ x1) = x0",
    ),
    (
        5,
        "def ex : ('a -> bool) -> bool = \\x0:'a -> bool. !x1:bool. (!x2:'a. x0 x2 ==> x1) ==> x1",
    ),
    (8, "def not : bool -> bool = \\x0:bool. x0 ==> F"),
    (
        9,
        "def one_one : ('a -> 'b) -> bool = \\x0:'a -> 'b. !x1:'a. !x2:'a. (x0 x1 = x0 x2) ==> (x1 = x2)",
    ),
    (
        10,
        "def onto : ('a -> 'b) -> bool = \\x0:'a -> 'b. !x1:'b. ?x2:'a. x1 = x0 x2",
    ),
];

// The line of a constant's definition.
fn line_of(alloc: Global, def: &Def) -> Result<String, AllocError> {
    match def {
        Def::Const { name, body } => definition_line(alloc, name, body),
        Def::NewType { name, .. } => name.clone(),
    }
}

#[test]
fn prints_base_definitions(rt: HostRuntime) -> Result<(), Fail> {
    let alloc = rt.alloc();
    for (n, want) in &BASE_LINES {
        assert!(rt; 0 < *n && *n <= 52);
        let def = base_def(alloc, *n)?;
        assert_eq!(rt; line_of(alloc, &def)?.as_str(), *want);
    }
    Ok(())
}

#[test]
fn prints_free_variables_and_type_arguments(rt: HostRuntime) -> Result<(), Fail> {
    let alloc = rt.alloc();
    let truth = HolType::app(alloc, "bool", &[])?;
    let function = HolType::fun(
        alloc,
        &HolType::var(alloc, "a")?,
        &HolType::var(alloc, "b")?,
    )?;
    let predicate = HolType::fun(alloc, &function, &truth)?;
    let v = Term::mk_var(alloc, &Var::new(alloc, "a", &truth)?)?;
    let one_one = Term::mk_own_const(alloc, "one_one", &predicate)?;
    let table = [
        (
            Term::mk_eq(alloc, &v, &v)?,
            "thm same : [a:bool] = [a:bool]",
        ),
        (
            Term::mk_eq(alloc, &one_one, &one_one)?,
            "thm same : one_one{'a,'b} = one_one{'a,'b}",
        ),
    ];
    for (concl, want) in &table {
        let line = theorem_line(alloc, "same", concl)?;
        assert_eq!(rt; line.as_str(), *want);
    }
    Ok(())
}

#[test]
fn prints_types(rt: HostRuntime) -> Result<(), Fail> {
    let alloc = rt.alloc();
    let a = HolType::var(alloc, "a")?;
    let b = HolType::var(alloc, "b")?;
    let truth = HolType::app(alloc, "bool", &[])?;
    let test = HolType::fun(alloc, &a, &truth)?;
    let tests = HolType::app(alloc, "list", &[test.copy()?])?;
    let pair = HolType::app(alloc, "prod", &[a.copy()?, b])?;
    let list = HolType::app(alloc, "list", &[a])?;
    let table = [
        (HolType::fun(alloc, &test, &truth)?, "('a -> bool) -> bool"),
        (
            HolType::fun(alloc, &pair, &list)?,
            "('a,'b) prod -> 'a list",
        ),
        (tests, "('a -> bool) list"),
    ];
    for (t, want) in &table {
        assert_eq!(rt; print_type(alloc, t)?.as_str(), *want);
    }
    Ok(())
}
