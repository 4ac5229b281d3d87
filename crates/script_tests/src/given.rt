//! A table over a type, a term and a theorem that it is given.

ghost use Rattle.std.specs.Prelude.{◌≡◌, [], ◌∷◌, IfOk, OnOk};
ghost use Rattle.hol_terms.specs.Definition.{bool_ty};
ghost use Rattle.hol_terms.specs.Sequent.{seq};
ghost use Rattle.hol_terms.specs.Tm.{tm_free};
ghost use Rattle.hol_terms.specs.Base.{base};
ghost use Rattle.hol_kernel.specs.State.{Has};
ghost use Rattle.script_tests.specs.Closed.{named, variable};

use crate::closed::says;
use hol_kernel::{Kernel, Thm};
use hol_terms::terms::{Term, Var};
use hol_terms::types::HolType;
use kernel_lines::start;
use nd_rules::Rules;
use script_core::{Given, Shelf, run_table};
use std::alloc::{AllocError, Global};
use std::test::Fail;

const TABLE: &str = "\
    refl 0\n\
    conj_i 0 1\n\
    term [x:'a]\n\
    refl 1\n\
    inst_type 3 a 0\n\
    conj_i 2 4\n\
";

const SEQUENT: &str = "[p:bool] |- ([p:bool] /\\ ([p:bool] = [p:bool])) /\\ ([x:bool] = [x:bool])";

// A variable for truth values.
pub(crate) fn formula(alloc: Global, name: &str) -> Result<Term, AllocError>
    ensures { IfOk result (λ t. t ≡ tm_free (named name.now)) }
{
    let truth = HolType::app(alloc, "bool", &[])?;
    let v = Var::new(alloc, name, &truth)?;
    let t = Term::mk_var(alloc, &v)?;
    Ok(t)
}

// `{p} |- p`.
fn assumed(alloc: Global, k: &mut Kernel, p: &Term) -> Result<Thm, AllocError>
    requires defs { k.old.defs ≡ base 10 }
    requires p { p.now ≡ tm_free variable }
    ensures exact { IfOk result (λ th. th.sequent ≡ seq (tm_free variable ∷ []) (tm_free variable)) }
    ensures has { IfOk result (λ th. Has k.new th) }
    ensures defs { OnOk result (k.new.defs ≡ base 10) }
{
    let th = k.assume(alloc, p)?;
    Ok(th)
}

// What the table gives.
fn run_given(
    alloc: Global,
    k: &mut Kernel,
    types: &[HolType],
    terms: &[Term],
    a: &Thm,
) -> Result<Thm, AllocError>
    requires defs { k.old.defs ≡ base 10 }
    requires types { types.now ≡ bool_ty ∷ [] }
    requires terms { terms.now ≡ tm_free variable ∷ [] }
    requires a { a.now.sequent ≡ seq (tm_free variable ∷ []) (tm_free variable) }
    requires has { Has k.old a.now }
{
    let rules = Rules::new(alloc, k)?;
    let shelf = Shelf::new(alloc)?;
    let given = Given {
        types,
        terms,
        thms: &[a],
    };
    let th = run_table(alloc, k, &rules, &shelf, &[], &given, TABLE);
    let Given {
        types: _,
        terms: _,
        thms: _,
    } = given;
    th
}

fn from_given(alloc: Global) -> Result<Thm, AllocError> {
    let mut k = start(alloc)?;
    let types = [HolType::app(alloc, "bool", &[])?];
    let terms = [formula(alloc, "p")?];
    let a = assumed(alloc, &mut k, &terms[0])?;
    run_given(alloc, &mut k, &types, &terms, &a)
}

fn is_given_taken(alloc: Global) -> Result<bool, AllocError> {
    let th = from_given(alloc)?;
    says(alloc, &th, SEQUENT)
}

#[test]
fn given_values_are_taken(rt: HostRuntime) -> Result<(), Fail> {
    let is_taken = is_given_taken(rt.alloc())?;
    assert!(rt; is_taken);
    Ok(())
}
