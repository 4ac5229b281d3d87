//! Tables that take facts alone.

ghost use Rattle.std.specs.Prelude.{◌≡◌, ◌++◌, ◌∷◌, [], IfOk, OnOk};
ghost use Rattle.hol_kernel.specs.State.{Has, Grows};
ghost use Rattle.library_facts.specs.Facts.{statement_of, statements_of};
ghost use Rattle.nd_rules.specs.Kept.{HasRules};
ghost use Rattle.script_core.specs.Shelves.{IsFact, AreOn, ShelfHad};
ghost use Rattle.script_core.specs.Ready.{Fits, Gives};
ghost use Rattle.library_steps.specs.Closed.{nothing, Proves};
ghost use Rattle.library_steps.specs.Building.{Extends, facts_on};

use hol_kernel::{Kernel, Thm};
use library_facts::Fact;
use nd_rules::Rules;
use script_core::{Given, Shelf, run_table};
use std::alloc::{AllocError, Global};

/// The last theorem of a table that takes facts alone, which are on the shelf.
pub(crate) fn run_closed(
    alloc: Global,
    k: &mut Kernel,
    rules: &Rules,
    s: &Shelf,
    facts: &[Fact],
    table: &str,
) -> Result<Thm, AllocError>
    requires rules { HasRules k.old rules.now }
    requires shelf { ShelfHad k.old s.now }
    requires listed { AreOn s.now (statements_of facts.now) }
    requires fits { Fits k.old.defs (statements_of facts.now) nothing table.now }
    ensures exact { IfOk result (λ th. Gives k.old.defs (statements_of facts.now) nothing table.now th.sequent) }
    ensures has { IfOk result (λ th. Has k.new th) }
    ensures grows { Grows k.old k.new }
{
    let given = Given {
        types: &[],
        terms: &[],
        thms: &[],
    };
    let th = run_table(alloc, k, rules, s, facts, &given, table);
    let Given {
        types: _,
        terms: _,
        thms: _,
    } = given;
    th
}

/// The theorem of a fact, by a table from facts that are on the shelf.
#[tactic(auto, using(crate::proofs::Shown::shown_lemmas))]
fn fact_shown(
    alloc: Global,
    k: &mut Kernel,
    rules: &Rules,
    s: &Shelf,
    fact: Fact,
    from: &[Fact],
    table: &str,
) -> Result<Thm, AllocError>
    requires rules { HasRules k.old rules.now }
    requires shelf { ShelfHad k.old s.now }
    requires listed { AreOn s.now (statements_of from.now) }
    requires proves { Proves k.old.defs (statements_of from.now) table.now (statement_of fact) }
    ensures exact { IfOk result (λ th. IsFact (statement_of fact) th.sequent) }
    ensures has { IfOk result (λ th. Has k.new th) }
    ensures grows { Grows k.old k.new }
{
    let th = run_closed(alloc, k, rules, s, from, table)?;
    Ok(th)
}

/// Puts a fact on the shelf, by a table from facts that are there.
#[tactic(auto, using(crate::proofs::Shown::put_lemmas))]
pub(crate) fn prove(
    alloc: Global,
    k: &mut Kernel,
    rules: &Rules,
    s: &mut Shelf,
    fact: Fact,
    from: &[Fact],
    table: &str,
) -> Result<(), AllocError>
    requires rules { HasRules k.old rules.now }
    requires shelf { ShelfHad k.old s.old }
    requires listed { AreOn s.old (statements_of from.now) }
    requires proves { Proves k.old.defs (statements_of from.now) table.now (statement_of fact) }
    ensures facts { OnOk result (facts_on s.new ≡ facts_on s.old ++ statement_of fact ∷ []) }
    ensures shelf { ShelfHad k.new s.new }
    ensures more { Extends s.old s.new }
    ensures grows { Grows k.old k.new }
{
    let th = fact_shown(alloc, k, rules, s, fact, from, table)?;
    s.put(fact, th)?;
    Ok(())
}
