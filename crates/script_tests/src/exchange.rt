//! A table over any two formulas and any theorem of their conjunction.

ghost use Rattle.std.specs.Prelude.{◌≡◌, [], IfOk, codes};
ghost use Rattle.hol_terms.specs.Base.{base};
ghost use Rattle.hol_terms.specs.Definition.{signature_of};
ghost use Rattle.hol_terms.specs.Sequent.{seq};
ghost use Rattle.hol_terms.specs.Signature.{IsOver};
ghost use Rattle.hol_terms.specs.Tm.{tm_free};
ghost use Rattle.hol_kernel.specs.State.{Has, Grows};
ghost use Rattle.kernel_lines.specs.Ready.{AllOver};
ghost use Rattle.nd_rules.specs.Connectives.{conj_tm};
ghost use Rattle.nd_rules.specs.Kept.{HasRules};
ghost use Rattle.script_core.specs.Ready.{Fits, Gives};
ghost use Rattle.script_tests.specs.Closed.{named, over_terms};

use crate::closed::{derived, says};
use crate::given::formula;
use hol_kernel::{Kernel, Thm};
use hol_terms::terms::Term;
use kernel_lines::start;
use nd_rules::Rules;
use script_core::{Given, Shelf, run_table};
use std::alloc::{AllocError, Global};
use std::test::Fail;

// From q, given behind p, and the theorem `A |- p /\ q`.
const EXCHANGE: &str = "\
    refl 1\n\
    conj_r 0\n\
    eq_mp 1 2\n\
    conj_l 0\n\
    conj_i 3 4\n\
";

// The last theorem of a table over terms and a theorem.
fn run_over(
    alloc: Global,
    k: &mut Kernel,
    rules: &Rules,
    terms: &[Term],
    a: &Thm,
    table: &str,
) -> Result<Thm, AllocError>
    requires rules { HasRules k.old rules.now }
    requires over { AllOver k.old.defs terms.now }
    requires has { Has k.old a.now }
    requires fits { Fits k.old.defs [] (over_terms terms.now a.now.sequent) table.now }
    ensures exact { IfOk result (λ th. Gives k.old.defs [] (over_terms terms.now a.now.sequent) table.now th.sequent) }
    ensures has { IfOk result (λ th. Has k.new th) }
    ensures grows { Grows k.old k.new }
{
    let shelf = Shelf::new(alloc)?;
    let given = Given {
        types: &[],
        terms,
        thms: &[a],
    };
    let th = run_table(alloc, k, rules, &shelf, &[], &given, table);
    let Given {
        types: _,
        terms: _,
        thms: _,
    } = given;
    th
}

// `A |- p /\ q` gives `A |- q /\ p`.
fn exchanged(
    alloc: Global,
    k: &mut Kernel,
    rules: &Rules,
    p: &Term,
    q: &Term,
    a: &Thm,
) -> Result<Thm, AllocError>
    requires rules { HasRules k.old rules.now }
    requires over_p { IsOver (signature_of k.old.defs) [] p.now }
    requires over_q { IsOver (signature_of k.old.defs) [] q.now }
    requires has { Has k.old a.now }
    requires conjunction { a.now.sequent.concl ≡ conj_tm p.now q.now }
    ensures exact { IfOk result (λ th. th.sequent ≡ seq a.now.sequent.hyps (conj_tm q.now p.now)) }
    ensures has { IfOk result (λ th. Has k.new th) }
    ensures grows { Grows k.old k.new }
{
    let _ = a.concl();
    let terms = [p.copy()?, q.copy()?];
    let th = run_over(alloc, k, rules, &terms, a, EXCHANGE)?;
    Ok(th)
}

// `{p /\ q} |- p /\ q`.
fn conjunction(alloc: Global, k: &mut Kernel) -> Result<Thm, AllocError>
    requires { k.old.defs ≡ base 10 }
    ensures exact { IfOk result (λ th. th.sequent.concl ≡ conj_tm (tm_free (named (codes "p"))) (tm_free (named (codes "q")))) }
    ensures has { IfOk result (λ th. Has k.new th) }
    ensures grows { Grows k.old k.new }
{
    let th = derived(alloc, k, "term [p:bool] /\\ [q:bool]\nassume 0\n")?;
    Ok(th)
}

fn is_exchanged(alloc: Global) -> Result<bool, AllocError> {
    let mut k = start(alloc)?;
    let rules = Rules::new(alloc, &mut k)?;
    let p = formula(alloc, "p")?;
    let q = formula(alloc, "q")?;
    let a = conjunction(alloc, &mut k)?;
    let th = exchanged(alloc, &mut k, &rules, &p, &q, &a)?;
    says(alloc, &th, "[p:bool] /\\ [q:bool] |- [q:bool] /\\ [p:bool]")
}

#[test]
fn sides_are_exchanged(rt: HostRuntime) -> Result<(), Fail> {
    let is_exchanged = is_exchanged(rt.alloc())?;
    assert!(rt; is_exchanged);
    Ok(())
}
