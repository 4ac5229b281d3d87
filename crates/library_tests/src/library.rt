//! The library as it is built where there is memory.

ghost use Rattle.std.specs.Prelude.{◌≡◌, IfOk};
ghost use Rattle.hol_terms.specs.Base.{base};
ghost use Rattle.nd_rules.specs.Kept.{HasRules};
ghost use Rattle.script_core.specs.Shelves.{AreOn, ShelfHad};
ghost use Rattle.th_base.specs.Facts.{base_facts};
ghost use Rattle.th_num.specs.Facts.{num_facts};

use hol_kernel::{Kernel, Thm};
use hol_text::print::print_term;
use hol_text::read::ReadError;
use kernel_lines::start;
use library_facts::{Fact, fact_stmt};
use nd_rules::Rules;
use script_core::Shelf;
use std::alloc::{AllocError, Global};
use std::test::Fail;

// The theorem has no hypotheses, and the fact's text.
fn says(alloc: Global, th: &Thm, fact: Fact) -> Result<bool, AllocError> {
    let text = print_term(alloc, th.concl())?;
    Ok(th.hyps().is_empty() && text.as_str() == fact.statement)
}

fn is_proved(alloc: Global, shelf: &Shelf, fact: Fact) -> Result<bool, AllocError> {
    match shelf.get(fact) {
        Some(th) => says(alloc, th, fact),
        None => Ok(false),
    }
}

fn are_proved(alloc: Global, shelf: &Shelf, facts: &[Fact]) -> Result<bool, AllocError> {
    for fact in facts {
        if !is_proved(alloc, shelf, *fact)? {
            return Ok(false);
        }
    }
    Ok(true)
}

// A kernel, the rules that serve it, and a shelf.
#[derive(Drop)]
struct Built {
    kernel: Kernel,
    rules: Rules,
    shelf: Shelf,
}

// With the first library.
#[tactic(auto, using(crate::proofs::Built::first_lemmas))]
fn first(alloc: Global) -> Result<Built, AllocError>
    ensures rules { IfOk result (λ b. HasRules b.kernel b.rules) }
    ensures defs { IfOk result (λ b. b.kernel.defs ≡ base 33) }
    ensures base_facts { IfOk result (λ b. AreOn b.shelf base_facts) }
    ensures shelf { IfOk result (λ b. ShelfHad b.kernel b.shelf) }
{
    let mut kernel = start(alloc)?;
    let rules = Rules::new(alloc, &mut kernel)?;
    let mut shelf = Shelf::new(alloc)?;
    th_base::build(alloc, &mut kernel, &rules, &mut shelf)?;
    Ok(Built {
        kernel,
        rules,
        shelf,
    })
}

// With numbers and path codes behind it.
#[tactic(auto, using(crate::proofs::Built::more_lemmas))]
fn with_numbers(alloc: Global) -> Result<Built, AllocError>
    ensures rules { IfOk result (λ b. HasRules b.kernel b.rules) }
    ensures defs { IfOk result (λ b. b.kernel.defs ≡ base 43) }
    ensures base_facts { IfOk result (λ b. AreOn b.shelf base_facts) }
    ensures num_facts { IfOk result (λ b. AreOn b.shelf num_facts) }
    ensures shelf { IfOk result (λ b. ShelfHad b.kernel b.shelf) }
{
    let Built {
        mut kernel,
        rules,
        mut shelf,
    } = first(alloc)?;
    th_num::build(alloc, &mut kernel, &rules, &mut shelf)?;
    Ok(Built {
        kernel,
        rules,
        shelf,
    })
}

// And with countable sets.
fn with_countable_sets(alloc: Global) -> Result<Built, AllocError> {
    let Built {
        mut kernel,
        rules,
        mut shelf,
    } = with_numbers(alloc)?;
    th_count::build(alloc, &mut kernel, &rules, &mut shelf)?;
    Ok(Built {
        kernel,
        rules,
        shelf,
    })
}

#[test]
fn each_fact_is_proved(rt: HostRuntime) -> Result<(), Fail> {
    let alloc = rt.alloc();
    let Built { kernel, shelf, .. } = first(alloc)?;
    assert_eq!(rt; kernel.defs().len(), 33);
    // The steps of the kernel that the start of `hbnf` takes are few.
    assert!(rt; kernel.steps().len() < 5_000);
    assert!(rt; are_proved(alloc, &shelf, th_base::facts::FACTS)?);
    Ok(())
}

#[test]
fn numbers_are_built(rt: HostRuntime) -> Result<(), Fail> {
    let alloc = rt.alloc();
    let Built { kernel, shelf, .. } = with_numbers(alloc)?;
    assert_eq!(rt; kernel.defs().len(), 43);
    assert!(rt; kernel.steps().len() < 13_000);
    assert!(rt; are_proved(alloc, &shelf, th_num::facts::FACTS)?);
    Ok(())
}

#[test]
fn countable_sets_are_built(rt: HostRuntime) -> Result<(), Fail> {
    let alloc = rt.alloc();
    let Built { kernel, shelf, .. } = with_countable_sets(alloc)?;
    assert_eq!(rt; kernel.defs().len(), 49);
    assert!(rt; kernel.steps().len() < 20_000);
    assert!(rt; are_proved(alloc, &shelf, th_count::facts::FACTS)?);
    Ok(())
}

// Whether the text of a fact reads as a term whose text it is.
fn is_canonical(alloc: Global, fact: Fact) -> Result<bool, AllocError> {
    match fact_stmt(alloc, fact) {
        Ok(statement) => {
            let text = print_term(alloc, &statement)?;
            Ok(text.as_str() == fact.statement)
        }
        Err(ReadError::Memory) => Err(AllocError),
        Err(_) => Ok(false),
    }
}

fn are_canonical(alloc: Global, facts: &[Fact]) -> Result<bool, AllocError> {
    for fact in facts {
        if !is_canonical(alloc, *fact)? {
            return Ok(false);
        }
    }
    Ok(true)
}

#[test]
fn facts_are_stated(rt: HostRuntime) -> Result<(), Fail> {
    let alloc = rt.alloc();
    assert!(rt; are_canonical(alloc, th_base::facts::FACTS)?);
    assert!(rt; are_canonical(alloc, th_num::facts::FACTS)?);
    assert!(rt; are_canonical(alloc, th_count::facts::FACTS)?);
    let middle = th_base::facts::EXCLUDED_MIDDLE;
    assert_eq!(rt; middle.statement, "!x0:bool. x0 \\/ (~ x0)");
    Ok(())
}
