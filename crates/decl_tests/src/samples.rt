//! The names of the facts of some declarations: there is memory, so each list is made.

use decl_core::declarations::{Argument, Constructor, Declaration};
use decl_facts::free_constructors::push_free_constructor_facts;
use hol_terms::types::HolType;
use std::alloc::{AllocError, Global};
use std::test::Fail;

/// An argument of the type of a parameter.
fn argument(alloc: Global, selector: &str, param: &str) -> Result<Argument, AllocError> {
    let ty = HolType::var(alloc, param)?;
    if selector.is_empty() {
        return Ok(Argument::new(None, ty));
    }
    let selector = String::from_str(alloc, selector)?;
    Ok(Argument::new(Some(selector), ty))
}

/// A constructor with arguments of the types of parameters.
fn constructor(
    alloc: Global,
    name: &str,
    args: &[(&str, &str)],
) -> Result<Constructor, AllocError> {
    let mut made = Vec::new(alloc);
    for (selector, param) in args {
        made.push(argument(alloc, selector, param)?)?;
    }
    let name = String::from_str(alloc, name)?;
    Ok(Constructor::new(name, made))
}

/// A type of one parameter.
fn declaration(
    alloc: Global,
    name: &str,
    ctors: Vec<Constructor>,
) -> Result<Declaration, AllocError> {
    let mut params = Vec::new(alloc);
    params.push(String::from_str(alloc, "a")?)?;
    let name = String::from_str(alloc, name)?;
    Declaration::new(alloc, params, name, ctors)
}

/// The names of the facts, each with a space behind it.
fn names_of(alloc: Global, decl: &Declaration) -> Result<String, AllocError> {
    let mut facts = Vec::new(alloc);
    push_free_constructor_facts(alloc, decl, &mut facts)?;
    let mut names = String::new(alloc);
    for fact in &facts {
        names.push_str(fact.name())?;
        names.push_str(" ")?;
    }
    Ok(names)
}

fn option_names(alloc: Global) -> Result<String, AllocError> {
    let mut ctors = Vec::new(alloc);
    ctors.push(constructor(alloc, "None", &[])?)?;
    ctors.push(constructor(alloc, "Some", &[("the", "a")])?)?;
    let decl = declaration(alloc, "option", ctors)?;
    names_of(alloc, &decl)
}

fn pair_names(alloc: Global) -> Result<String, AllocError> {
    let mut ctors = Vec::new(alloc);
    ctors.push(constructor(alloc, "Two", &[("one", "a"), ("", "a")])?)?;
    let decl = declaration(alloc, "two", ctors)?;
    names_of(alloc, &decl)
}

#[test]
fn facts_of_options(rt: HostRuntime) -> Result<(), Fail> {
    let names = option_names(rt.alloc())?;
    assert_eq!(rt;
        names.as_str(),
        "option.inject.Some option.distinct.None.Some option.exhaust option.case.None option.case.Some option.split option.disc.None.None option.disc.None.Some option.disc.Some.None option.disc.Some.Some option.sel.the option.collapse.Some "
    );
    Ok(())
}

#[test]
fn facts_of_one_constructor(rt: HostRuntime) -> Result<(), Fail> {
    let names = pair_names(rt.alloc())?;
    assert_eq!(rt;
        names.as_str(),
        "two.inject.Two two.exhaust two.case.Two two.split two.disc.Two.Two two.sel.one "
    );
    Ok(())
}
