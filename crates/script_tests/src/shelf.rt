//! The shelf: what is put is got, and tables take facts from it.

ghost use Rattle.std.specs.Prelude.{◌≡◌, IfOk, OnOk};
ghost use Rattle.hol_terms.specs.Base.{base};
ghost use Rattle.hol_kernel.specs.State.{Has};
ghost use Rattle.script_core.specs.Shelves.{IsFact, IsOn, ShelfHad};
ghost use Rattle.script_tests.specs.Closed.{truth_text};

use crate::closed::{derived, run_closed, says};
use hol_kernel::{Kernel, Thm};
use kernel_lines::start;
use library_facts::Fact;
use nd_rules::Rules;
use script_core::Shelf;
use std::alloc::{AllocError, Global};
use std::test::Fail;

const TRUTH: Fact = Fact { statement: "T" };

const FALSITY: Fact = Fact { statement: "F" };

const TRUTH_TABLE: &str = "\
    term T\n\
    refl 0\n\
    eqt_e 0\n\
";

// `|- T`, which is a fact.
fn truth(alloc: Global, k: &mut Kernel) -> Result<Thm, AllocError>
    requires { k.old.defs ≡ base 10 }
    ensures fact { IfOk result (λ th. IsFact truth_text th.sequent) }
    ensures has { IfOk result (λ th. Has k.new th) }
    ensures defs { OnOk result (k.new.defs ≡ base 10) }
{
    let th = derived(alloc, k, TRUTH_TABLE)?;
    Ok(th)
}

// A shelf with that fact alone.
fn shelved(alloc: Global, k: &mut Kernel) -> Result<Shelf, AllocError>
    requires { k.old.defs ≡ base 10 }
    ensures shelf { IfOk result (λ s. ShelfHad k.new s) }
    ensures on { IfOk result (λ s. IsOn s truth_text) }
    ensures defs { OnOk result (k.new.defs ≡ base 10) }
{
    let th = truth(alloc, k)?;
    let mut shelf = Shelf::new(alloc)?;
    shelf.put(TRUTH, th)?;
    Ok(shelf)
}

// Whether what was put is got, and nothing for another fact.
fn is_got(alloc: Global, shelf: &Shelf) -> Result<bool, AllocError> {
    if shelf.get(FALSITY).is_some() {
        return Ok(false);
    }
    match shelf.get(TRUTH) {
        Some(th) => says(alloc, th, "|- T"),
        None => Ok(false),
    }
}

fn is_fact_got(alloc: Global) -> Result<bool, AllocError> {
    let mut k = start(alloc)?;
    let shelf = shelved(alloc, &mut k)?;
    is_got(alloc, &shelf)
}

#[test]
fn facts_are_got(rt: HostRuntime) -> Result<(), Fail> {
    let is_got = is_fact_got(rt.alloc())?;
    assert!(rt; is_got);
    Ok(())
}

// What a table gives from the fact.
fn from_fact(alloc: Global) -> Result<Thm, AllocError> {
    let mut k = start(alloc)?;
    let shelf = shelved(alloc, &mut k)?;
    let rules = Rules::new(alloc, &mut k)?;
    let facts = [TRUTH];
    let th = run_closed(alloc, &mut k, &rules, &shelf, &facts, "eqt_i 0\n")?;
    Ok(th)
}

fn is_fact_taken(alloc: Global) -> Result<bool, AllocError> {
    let th = from_fact(alloc)?;
    says(alloc, &th, "|- T = T")
}

#[test]
fn facts_are_taken(rt: HostRuntime) -> Result<(), Fail> {
    let is_taken = is_fact_taken(rt.alloc())?;
    assert!(rt; is_taken);
    Ok(())
}
