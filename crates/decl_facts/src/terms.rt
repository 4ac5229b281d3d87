//! Applications of constants and variables to several arguments.

ghost use Rattle.std.specs.Prelude.{◌≡◌, map, decimal, ◌++◌, IfOk};
ghost use Rattle.hol_terms.specs.Typing.{tm_type};
ghost use Rattle.hol_terms.specs.Loose.{IsClosedAt};
ghost use Rattle.stmt_core.specs.Formulas.{HaveNoLoose, AreBoolean};
ghost use Rattle.decl_core.specs.Statements.{numbered, variables, frees, function_ty, applied, call, equations};
ghost use Rattle.decl_facts.specs.Typed.{TakesAll};

use hol_terms::terms::{Term, Var};
use hol_terms::types::HolType;
use std::alloc::{AllocError, Global};
use stmt_core::connectives::eq;

/// The type of functions of arguments of these types.
pub(crate) fn function_type(
    alloc: Global,
    args: &[HolType],
    result_type: &HolType,
) -> Result<HolType, AllocError>
    ensures { IfOk result (λ t. t ≡ function_ty args.now result_type.now) }
{
    match args {
        [] => result_type.copy(),
        [a, rest @ ..] => HolType::fun(alloc, a, &function_type(alloc, rest, result_type)?),
    }
}

/// The types of the terms.
fn types_of(alloc: Global, terms: &[Term]) -> Result<Vec<HolType>, AllocError>
    ensures { IfOk result (λ v. v.items ≡ map tm_type terms.now) }
{
    let mut types = Vec::new(alloc);
    for term in terms {
        types.push(term.type_of().copy()?)?;
    }
    Ok(types)
}

/// The function applied to the arguments.
#[tactic(auto, using(crate::proofs::Applied::apply_lemmas))]
pub(crate) fn apply(alloc: Global, f: &Term, args: &[Term]) -> Result<Term, AllocError>
    requires { TakesAll f.now args.now }
    ensures { IfOk result (λ t. t ≡ applied f.now args.now) }
{
    match args {
        [] => f.copy(),
        [x, rest @ ..] => apply(alloc, &Term::mk_comb(alloc, f, x)?, rest),
    }
}

/// The constant `name` applied to the arguments, with a result of this type.
#[tactic(auto, using(crate::proofs::Applied::call_lemmas))]
pub(crate) fn call(
    alloc: Global,
    name: &str,
    args: &[Term],
    result_type: &HolType,
) -> Result<Term, AllocError>
    ensures exact { IfOk result (λ t. t ≡ call name.now args.now result_type.now) }
    ensures typed { IfOk result (λ t. tm_type t ≡ result_type.now) }
    ensures closed { HaveNoLoose args.now → IfOk result (λ t. IsClosedAt 0 t) }
{
    let types = types_of(alloc, args)?;
    let generic = function_type(alloc, &types, result_type)?;
    let constant = Term::mk_own_const(alloc, name, &generic)?;
    apply(alloc, &constant, args)
}

/// The variable of a letter and a number.
pub(crate) fn numbered(
    alloc: Global,
    letter: &str,
    number: usize,
    ty: &HolType,
) -> Result<Var, AllocError>
    ensures { IfOk result (λ v. v ≡ numbered letter.now number ty.now) }
{
    let name = format!(in alloc; "{letter}{number}")?;
    Var::new(alloc, name.as_str(), ty)
}

/// Variables of the types, numbered from 1.
pub(crate) fn variables(
    alloc: Global,
    letter: &str,
    types: &[HolType],
) -> Result<Vec<Var>, AllocError>
    ensures { IfOk result (λ v. v.items ≡ variables letter.now types.now) }
{
    let mut vars = Vec::new(alloc);
    for (i, ty) in types.iter().enumerate() {
        vars.push(numbered(alloc, letter, i + 1, ty)?)?;
    }
    Ok(vars)
}

/// The variables as terms.
#[tactic(auto, using(crate::proofs::Applied::frees_lemmas))]
pub(crate) fn frees(alloc: Global, vars: &[Var]) -> Result<Vec<Term>, AllocError>
    ensures exact { IfOk result (λ v. v.items ≡ frees vars.now) }
    ensures closed { IfOk result (λ v. HaveNoLoose v.items) }
{
    let mut terms = Vec::new(alloc);
    for var in vars {
        terms.push(Term::mk_var(alloc, var)?)?;
    }
    Ok(terms)
}

/// The equations between the terms of two lists.
#[tactic(auto, using(crate::proofs::Applied::equations_lemmas))]
pub(crate) fn equations(
    alloc: Global,
    left: &[Term],
    right: &[Term],
) -> Result<Vec<Term>, AllocError>
    requires { map tm_type left.now ≡ map tm_type right.now }
    ensures exact { IfOk result (λ v. v.items ≡ equations left.now right.now) }
    ensures boolean { IfOk result (λ v. AreBoolean v.items) }
    ensures closed { HaveNoLoose left.now → HaveNoLoose right.now → IfOk result (λ v. HaveNoLoose v.items) }
{
    let mut same = Vec::new(alloc);
    for (i, term) in left.iter().enumerate() {
        same.push(eq(alloc, term, &right[i])?)?;
    }
    Ok(same)
}
