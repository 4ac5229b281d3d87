//! What the statements of a constructor share: its variables, and its value at them.

ghost use Rattle.std.specs.Prelude.{◌≡◌, [], ◌∷◌, ◌++◌, codes, string_bytes, IfOk};
ghost use Rattle.hol_terms.specs.Typing.{tm_type};
ghost use Rattle.hol_terms.specs.Definition.{bool_ty};
ghost use Rattle.hol_terms.specs.Loose.{IsClosedAt};
ghost use Rattle.stmt_core.specs.Formulas.{HaveNoLoose, IsBoolean};
ghost use Rattle.decl_core.specs.Declaration.{type_of};
ghost use Rattle.decl_core.specs.Statements.{result_ty, frees, call};
ghost use Rattle.decl_core.specs.FreeConstructors.{value, is_of, branch, branch_xs, xs, fs, t, p, P, case_of};
ghost use Rattle.decl_facts.specs.Parts.{IsApplied};

use crate::terms::{apply, call, frees, function_type, numbered, variables};
use decl_core::declarations::{Constructor, Declaration};
use hol_terms::terms::{Term, Var};
use hol_terms::types::HolType;
use std::alloc::{AllocError, Global};

/// A constructor applied to variables, one for each argument.
#[derive(Drop)]
pub(crate) struct Applied {
    pub(crate) vars: Vec<Var>,
    pub(crate) args: Vec<Term>,
    pub(crate) value: Term,
}

impl Applied {
    /// The constructor at variables of the letter.
    pub(crate) fn new(
        alloc: Global,
        decl: &Declaration,
        ctor: &Constructor,
        letter: &str,
    ) -> Result<Applied, AllocError>
        ensures parts { IfOk result (λ a. IsApplied decl.now ctor.now letter.now a) }
        ensures typed { IfOk result (λ a. tm_type a.value ≡ type_of decl.now) }
        ensures closed { IfOk result (λ a. IsClosedAt 0 a.value) }
        ensures args_closed { IfOk result (λ a. HaveNoLoose a.args.items) }
    {
        let types = ctor.arg_types(alloc)?;
        let vars = variables(alloc, letter, &types)?;
        Applied::at(alloc, decl, ctor, vars)
    }

    fn at(
        alloc: Global,
        decl: &Declaration,
        ctor: &Constructor,
        vars: Vec<Var>,
    ) -> Result<Applied, AllocError>
        ensures vars { IfOk result (λ a. a.vars.items ≡ vars.items) }
        ensures args { IfOk result (λ a. a.args.items ≡ frees vars.items) }
        ensures value { IfOk result (λ a. a.value ≡ value decl.now ctor.now (frees vars.items)) }
        ensures typed { IfOk result (λ a. tm_type a.value ≡ type_of decl.now) }
        ensures closed { IfOk result (λ a. IsClosedAt 0 a.value) }
        ensures args_closed { IfOk result (λ a. HaveNoLoose a.args.items) }
    {
        let args = frees(alloc, &vars)?;
        let value = call(alloc, ctor.name(), &args, decl.ty())?;
        Ok(Applied { vars, args, value })
    }
}

/// The type of truth values.
pub(crate) fn truth_values(alloc: Global) -> Result<HolType, AllocError>
    ensures { IfOk result (λ t. t ≡ bool_ty) }
{
    HolType::app(alloc, "bool", &[])
}

/// The type variable of results.
pub(crate) fn results(alloc: Global) -> Result<HolType, AllocError>
    ensures { IfOk result (λ t. t ≡ result_ty) }
{
    HolType::var(alloc, "x1")
}

/// Any value of the declared type.
pub(crate) fn any_value(alloc: Global, decl: &Declaration) -> Result<Var, AllocError>
    ensures { IfOk result (λ v. v ≡ t decl.now) }
{
    Var::new(alloc, "t", decl.ty())
}

/// A proposition.
pub(crate) fn proposition(alloc: Global) -> Result<Var, AllocError>
    ensures { IfOk result (λ v. v ≡ p) }
{
    let truth = truth_values(alloc)?;
    Var::new(alloc, "p", &truth)
}

/// A property of results.
pub(crate) fn property(alloc: Global) -> Result<Var, AllocError>
    ensures { IfOk result (λ v. v ≡ P) }
{
    let truth = truth_values(alloc)?;
    let ty = HolType::fun(alloc, &results(alloc)?, &truth)?;
    Var::new(alloc, "P", &ty)
}

/// A name with a word behind it.
pub(crate) fn suffixed(alloc: Global, first: &str, word: &str) -> Result<String, AllocError>
    ensures { IfOk result (λ s. string_bytes s ≡ first.now ++ word.now) }
{
    let mut name = String::from_str(alloc, first)?;
    name.push_str(word)?;
    Ok(name)
}

/// The names of two parts of a declaration joined by a word.
pub(crate) fn joined(
    alloc: Global,
    first: &str,
    word: &str,
    second: &str,
) -> Result<String, AllocError>
    ensures { IfOk result (λ s. string_bytes s ≡ first.now ++ word.now ++ second.now) }
{
    let mut name = String::from_str(alloc, first)?;
    name.push_str(word)?;
    name.push_str(second)?;
    Ok(name)
}

/// The discriminator of a constructor, of a value.
pub(crate) fn discriminator(
    alloc: Global,
    decl: &Declaration,
    ctor: &Constructor,
    value: &Term,
) -> Result<Term, AllocError>
    requires { IsClosedAt 0 value.now }
    ensures exact { IfOk result (λ f. f ≡ is_of decl.now ctor.now value.now) }
    ensures boolean { IfOk result (λ f. IsBoolean f) }
    ensures closed { IfOk result (λ f. IsClosedAt 0 f) }
{
    let name = joined(alloc, decl.name(), ".is_", ctor.name())?;
    let truth = truth_values(alloc)?;
    let arg = [value.copy()?];
    call(alloc, name.as_str(), &arg, &truth)
}

/// The case function's function of a constructor, which is the one of this number from 1 on.
pub(crate) fn branch(alloc: Global, number: usize, ctor: &Constructor) -> Result<Var, AllocError>
    ensures { IfOk result (λ v. v ≡ branch number ctor.now) }
{
    let types = ctor.arg_types(alloc)?;
    let ty = function_type(alloc, &types, &results(alloc)?)?;
    numbered(alloc, "f", number, &ty)
}

/// The case function's functions of all constructors.
pub(crate) fn branches(alloc: Global, decl: &Declaration) -> Result<Vec<Var>, AllocError>
    ensures { IfOk result (λ v. v.items ≡ fs decl.now) }
{
    let mut vars = Vec::new(alloc);
    for (i, ctor) in decl.ctors().iter().enumerate() {
        vars.push(branch(alloc, i + 1, ctor)?)?;
    }
    Ok(vars)
}

/// The constructor's function at the variables.
#[tactic(auto, using(crate::proofs::Branches::branch_lemmas))]
pub(crate) fn branch_result(
    alloc: Global,
    number: usize,
    ctor: &Constructor,
    args: &[Term],
) -> Result<Term, AllocError>
    requires { args.now ≡ frees (xs ctor.now) }
    ensures exact { IfOk result (λ b. b ≡ branch_xs number ctor.now) }
    ensures typed { IfOk result (λ b. tm_type b ≡ result_ty) }
    ensures closed { IfOk result (λ b. IsClosedAt 0 b) }
{
    let f = branch(alloc, number, ctor)?;
    apply(alloc, &Term::mk_var(alloc, &f)?, args)
}

/// The case function with these functions, of a value.
#[tactic(auto, using(crate::proofs::FormulaLists::formulas_lemmas))]
pub(crate) fn case_function(
    alloc: Global,
    decl: &Declaration,
    branches: &[Var],
    value: &Term,
) -> Result<Term, AllocError>
    requires functions { branches.now ≡ fs decl.now }
    requires value { IsClosedAt 0 value.now }
    ensures exact { IfOk result (λ b. b ≡ case_of decl.now value.now) }
    ensures typed { IfOk result (λ b. tm_type b ≡ result_ty) }
    ensures closed { IfOk result (λ b. IsClosedAt 0 b) }
{
    let mut args = frees(alloc, branches)?;
    args.push(value.copy()?)?;
    case_of_args(alloc, decl, &args)
}

fn case_of_args(alloc: Global, decl: &Declaration, args: &[Term]) -> Result<Term, AllocError>
    ensures exact { IfOk result (λ b. b ≡ call (decl.now.name ++ codes ".case") args.now result_ty) }
    ensures typed { IfOk result (λ b. tm_type b ≡ result_ty) }
    ensures closed { HaveNoLoose args.now → IfOk result (λ b. IsClosedAt 0 b) }
{
    let name = suffixed(alloc, decl.name(), ".case")?;
    let ty = results(alloc)?;
    call(alloc, name.as_str(), args, &ty)
}
