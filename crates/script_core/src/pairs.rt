//! The pairs that instances take, and the paths of rewriting.

ghost use Rattle.std.specs.Prelude.{◌≡◌, [], IfOk, OnOk, IsSome, Some};
ghost use Rattle.hol_terms.specs.Definition.{signature_of};
ghost use Rattle.hol_terms.specs.Proves.{AreOver, AreTypesOver};
ghost use Rattle.hol_terms.specs.Subst.{ty_pairs};
ghost use Rattle.kernel_lines.specs.Ready.{behind};
ghost use Rattle.script_core.specs.Steps.{side, types_put, terms_put, path_on};
ghost use Rattle.script_core.specs.Ready.{IsReady, TypeFits, TypeSteps, TermFits, TermSteps};

use crate::entries::{Entries, term_at, type_at, variable_of};
use crate::words::number;
use hol_kernel::Kernel;
use hol_terms::terms::{Term, Var};
use hol_terms::types::HolType;
use std::alloc::{AllocError, Global};

/// Adds a name and the type for it.
fn add_type(
    alloc: Global,
    k: &Kernel,
    r: &Entries,
    found: &mut Vec<(String, HolType)>,
    name: &str,
    word: &str,
) -> Result<(), AllocError>
    requires ready { IsReady k.now r.now }
    requires put { AreTypesOver (signature_of k.now.defs) (ty_pairs found.old.items) }
    requires fits { TypeFits r.now.types.items (ty_pairs found.old.items) name.now word.now }
    ensures put { OnOk result (AreTypesOver (signature_of k.now.defs) (ty_pairs found.new.items)) }
    ensures exact { OnOk result (TypeSteps r.now.types.items (ty_pairs found.old.items) name.now word.now (ty_pairs found.new.items)) }
{
    let ty = type_at(k, r, word).copy()?;
    let name = String::from_str(alloc, name)?;
    found.push((name, ty))?;
    Ok(())
}

/// Names and the types for them, by pairs of words.
pub(crate) fn put_types(
    alloc: Global,
    k: &Kernel,
    r: &Entries,
    words: &[&str],
) -> Result<Vec<(String, HolType)>, AllocError>
    requires ready { IsReady k.now r.now }
    requires fits { IsSome (types_put r.now.types.items [] (behind words.now)) }
    ensures exact { IfOk result (λ v. types_put r.now.types.items [] (behind words.now) ≡ Some (ty_pairs v.items)) }
    ensures over { IfOk result (λ v. AreTypesOver (signature_of k.now.defs) (ty_pairs v.items)) }
{
    let mut found = Vec::new(alloc);
    let mut rest = words;
    while let [name, word, others @ ..] = rest {
        add_type(alloc, k, r, &mut found, name, word)?;
        rest = others;
    }
    Ok(found)
}

/// Adds a variable and the term for it.
fn add_term(
    alloc: Global,
    k: &Kernel,
    r: &Entries,
    found: &mut Vec<(Var, Term)>,
    variable: &str,
    word: &str,
) -> Result<(), AllocError>
    requires ready { IsReady k.now r.now }
    requires put { AreOver (signature_of k.now.defs) found.old.items }
    requires fits { TermFits r.now.terms.items found.old.items variable.now word.now }
    ensures put { OnOk result (AreOver (signature_of k.now.defs) found.new.items) }
    ensures exact { OnOk result (TermSteps r.now.terms.items found.old.items variable.now word.now found.new.items) }
{
    let x = term_at(k, r, variable);
    let v = variable_of(k, x).copy(alloc)?;
    let t = term_at(k, r, word).copy()?;
    found.push((v, t))?;
    Ok(())
}

/// Variables and the terms for them, by pairs of words.
pub(crate) fn put_terms(
    alloc: Global,
    k: &Kernel,
    r: &Entries,
    words: &[&str],
) -> Result<Vec<(Var, Term)>, AllocError>
    requires ready { IsReady k.now r.now }
    requires fits { IsSome (terms_put r.now.terms.items [] (behind words.now)) }
    ensures exact { IfOk result (λ v. terms_put r.now.terms.items [] (behind words.now) ≡ Some v.items) }
    ensures over { IfOk result (λ v. AreOver (signature_of k.now.defs) v.items) }
{
    let mut found = Vec::new(alloc);
    let mut rest = words;
    while let [variable, word, others @ ..] = rest {
        add_term(alloc, k, r, &mut found, variable, word)?;
        rest = others;
    }
    Ok(found)
}

fn side_at(word: &str) -> u32
    requires { IsSome (side word.now) }
    ensures { side word.now ≡ Some result }
{
    match number(word) {
        Some(0) => 0,
        Some(1) => 1,
        _ => unreachable!(),
    }
}

/// The path that words are, a step a word.
pub(crate) fn path_of(alloc: Global, words: &[&str]) -> Result<Vec<u32>, AllocError>
    requires { IsSome (path_on [] (behind words.now)) }
    ensures { IfOk result (λ v. path_on [] (behind words.now) ≡ Some v.items) }
{
    let mut path = Vec::new(alloc);
    for word in words {
        path.push(side_at(word))?;
    }
    Ok(path)
}
