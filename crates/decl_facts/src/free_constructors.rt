//! The facts that a declared type shares with every type that has free constructors.

ghost use Rattle.std.specs.Prelude.{◌≡◌, ◌++◌, IfOk, OnOk};
ghost use Rattle.decl_core.specs.FreeConstructors.{inject_facts, distinct_facts, exhaust_facts, case_facts, split_facts, disc_facts, sel_facts, collapse_facts, free_constructor_facts};

use crate::case_functions::{push_case_facts, push_split_fact};
use crate::constructors::{push_distinct_facts, push_exhaust_fact, push_inject_facts};
use crate::selectors::{push_collapse_facts, push_disc_facts, push_sel_facts};
use decl_core::declarations::Declaration;
use decl_core::facts::NamedFact;
use std::alloc::{AllocError, Global};

#[tactic(auto, using(crate::proofs::Numbered::append_lemmas))]
fn push_on_constructors(
    alloc: Global,
    decl: &Declaration,
    facts: &mut Vec<NamedFact>,
) -> Result<(), AllocError>
    ensures { OnOk result (facts.new.items ≡ facts.old.items ++ (inject_facts decl.now ++ distinct_facts decl.now ++ exhaust_facts decl.now)) }
{
    push_inject_facts(alloc, decl, facts)?;
    push_distinct_facts(alloc, decl, facts)?;
    push_exhaust_fact(alloc, decl, facts)
}

#[tactic(auto, using(crate::proofs::Numbered::append_lemmas))]
fn push_on_case_function(
    alloc: Global,
    decl: &Declaration,
    facts: &mut Vec<NamedFact>,
) -> Result<(), AllocError>
    ensures { OnOk result (facts.new.items ≡ facts.old.items ++ (case_facts decl.now ++ split_facts decl.now)) }
{
    push_case_facts(alloc, decl, facts)?;
    push_split_fact(alloc, decl, facts)
}

#[tactic(auto, using(crate::proofs::Numbered::append_lemmas))]
fn push_on_selectors(
    alloc: Global,
    decl: &Declaration,
    facts: &mut Vec<NamedFact>,
) -> Result<(), AllocError>
    ensures { OnOk result (facts.new.items ≡ facts.old.items ++ (disc_facts decl.now ++ sel_facts decl.now ++ collapse_facts decl.now)) }
{
    push_disc_facts(alloc, decl, facts)?;
    push_sel_facts(alloc, decl, facts)?;
    push_collapse_facts(alloc, decl, facts)
}

/// Adds the facts on the constructors, the case function, the discriminators and the selectors of the type, in this order. An error
/// says that memory was refused; some of the facts may then be there.
#[tactic(auto, using(crate::proofs::Numbered::append_lemmas))]
pub fn push_free_constructor_facts(
    alloc: Global,
    decl: &Declaration,
    facts: &mut Vec<NamedFact>,
) -> Result<(), AllocError>
    ensures { OnOk result (facts.new.items ≡ facts.old.items ++ free_constructor_facts decl.now) }
{
    push_on_constructors(alloc, decl, facts)?;
    push_on_case_function(alloc, decl, facts)?;
    push_on_selectors(alloc, decl, facts)
}
