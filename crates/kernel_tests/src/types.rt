//! Types as they are made, by their canonical texts.

use crate::samples::truth_values;
use hol_terms::sig::Sig;
use hol_terms::types::HolType;
use hol_text::print::print_type;
use std::alloc::{AllocError, Global};
use std::test::Fail;

#[derive(Clone, Copy, Drop)]
enum Sample {
    Variable,
    Application,
    Function,
    Copy,
    Variables,
    Instance,
    Exchange,
}

static TEXTS: [(Sample, &str); 7] = [
    (Sample::Variable, "'a"),
    (Sample::Application, "('a,'b) prod"),
    (Sample::Function, "'b -> 'a"),
    (Sample::Copy, "('a,'b) prod"),
    (Sample::Variables, "('b,'a) prod"),
    (Sample::Instance, "bool -> ind"),
    (Sample::Exchange, "'a -> 'b"),
];

fn application(alloc: Global) -> Result<HolType, AllocError> {
    let args = [HolType::var(alloc, "a")?, HolType::var(alloc, "b")?];
    HolType::app(alloc, "prod", &args)
}

fn function(alloc: Global) -> Result<HolType, AllocError> {
    let a = HolType::var(alloc, "a")?;
    let b = HolType::var(alloc, "b")?;
    HolType::fun(alloc, &b, &a)
}

fn copy(alloc: Global) -> Result<HolType, AllocError> {
    let ty = application(alloc)?;
    ty.copy()
}

// The type variables of the function type, as arguments.
fn variables(alloc: Global) -> Result<HolType, AllocError> {
    let ty = function(alloc)?;
    let vars = ty.vars(alloc)?;
    HolType::app(alloc, "prod", &vars)
}

// The function type with `bool` for its first type variable and `ind` for its second.
fn instance(alloc: Global) -> Result<HolType, AllocError> {
    let args = [truth_values(alloc)?, HolType::app(alloc, "ind", &[])?];
    let ty = function(alloc)?;
    ty.instance(alloc, &args)
}

// The function type with 'b for 'a and 'a for 'b.
fn exchange(alloc: Global) -> Result<HolType, AllocError> {
    let pairs = [
        (String::from_str(alloc, "a")?, HolType::var(alloc, "b")?),
        (String::from_str(alloc, "b")?, HolType::var(alloc, "a")?),
    ];
    let ty = function(alloc)?;
    ty.subst(alloc, &pairs)
}

fn made(alloc: Global, what: Sample) -> Result<HolType, AllocError> {
    match what {
        Sample::Variable => HolType::var(alloc, "a"),
        Sample::Application => application(alloc),
        Sample::Function => function(alloc),
        Sample::Copy => copy(alloc),
        Sample::Variables => variables(alloc),
        Sample::Instance => instance(alloc),
        Sample::Exchange => exchange(alloc),
    }
}

fn text(alloc: Global, what: Sample) -> Result<String, AllocError> {
    let ty = made(alloc, what)?;
    print_type(alloc, &ty)
}

#[test]
fn types_are_made(rt: HostRuntime) -> Result<(), Fail> {
    for (what, want) in &TEXTS {
        let text = text(rt.alloc(), *what)?;
        assert_eq!(rt; text.as_str(), *want);
    }
    Ok(())
}

// The number of arguments of a type that a signature was given.
fn arity_of_added(alloc: Global) -> Result<Option<u32>, AllocError> {
    let mut sig = Sig::start(alloc)?;
    sig.add_type(alloc, "list", 1)?;
    Ok(sig.arity("list"))
}

// Whether a signature that was given a constant has the name no more to give.
fn is_constant_added(alloc: Global) -> Result<bool, AllocError> {
    let ty = truth_values(alloc)?;
    let mut sig = Sig::start(alloc)?;
    sig.add_const(alloc, "c", &ty)?;
    Ok(sig.generic("c").is_some() && !sig.is_new("c"))
}

#[test]
fn signatures_grow(rt: HostRuntime) -> Result<(), Fail> {
    let arity = arity_of_added(rt.alloc())?;
    assert_eq!(rt; arity, Some(1));
    let is_added = is_constant_added(rt.alloc())?;
    assert!(rt; is_added);
    Ok(())
}
