//! Tables that take nothing, and sequents as text.

ghost use Rattle.std.specs.Prelude.{◌≡◌, [], IfOk, OnOk};
ghost use Rattle.hol_terms.specs.Base.{base};
ghost use Rattle.hol_kernel.specs.State.{Has, Grows};
ghost use Rattle.kernel_lines.specs.Bases.{HasBase};
ghost use Rattle.library_facts.specs.Facts.{statements_of};
ghost use Rattle.nd_rules.specs.Kept.{HasRules};
ghost use Rattle.script_core.specs.Shelves.{AreOn, ShelfHad};
ghost use Rattle.script_core.specs.Ready.{Fits, Gives};
ghost use Rattle.script_tests.specs.Closed.{nothing, AllFit};

use hol_kernel::{Kernel, Thm};
use hol_text::print::push_term;
use kernel_lines::start;
use library_facts::Fact;
use nd_rules::Rules;
use script_core::{Given, Shelf, run_table};
use std::alloc::{AllocError, Global};

// The last theorem of a table that takes facts alone, which are on the shelf.
pub(crate) fn run_closed(
    alloc: Global,
    k: &mut Kernel,
    rules: &Rules,
    s: &Shelf,
    facts: &[Fact],
    table: &str,
) -> Result<Thm, AllocError>
    requires rules { HasRules k.old rules.now }
    requires shelf { ShelfHad k.old s.now }
    requires listed { AreOn s.now (statements_of facts.now) }
    requires fits { Fits k.old.defs (statements_of facts.now) nothing table.now }
    ensures exact { IfOk result (λ th. Gives k.old.defs (statements_of facts.now) nothing table.now th.sequent) }
    ensures has { IfOk result (λ th. Has k.new th) }
    ensures grows { Grows k.old k.new }
{
    let given = Given {
        types: &[],
        terms: &[],
        thms: &[],
    };
    let th = run_table(alloc, k, rules, s, facts, &given, table);
    let Given {
        types: _,
        terms: _,
        thms: _,
    } = given;
    th
}

// The last theorem of a table that takes nothing.
#[tactic(auto, using(kernel_lines::proofs::Given::grows_lemmas))]
pub(crate) fn derived(alloc: Global, k: &mut Kernel, table: &str) -> Result<Thm, AllocError>
    requires base { HasBase k.old.defs }
    requires fits { Fits k.old.defs [] nothing table.now }
    ensures exact { IfOk result (λ th. Gives k.old.defs [] nothing table.now th.sequent) }
    ensures has { IfOk result (λ th. Has k.new th) }
    ensures grows { Grows k.old k.new }
{
    let rules = Rules::new(alloc, k)?;
    let shelf = Shelf::new(alloc)?;
    let th = run_closed(alloc, k, &rules, &shelf, &[], table)?;
    Ok(th)
}

// The hypotheses, with commas between them, and the conclusion.
pub(crate) fn sequent_text(alloc: Global, th: &Thm) -> Result<String, AllocError> {
    let mut text = String::new(alloc);
    for h in th.hyps() {
        if !text.is_empty() {
            text.push_str(", ")?;
        }
        push_term(&mut text, h, 0)?;
    }
    text.push_str(if text.is_empty() { "|- " } else { " |- " })?;
    push_term(&mut text, th.concl(), 0)?;
    Ok(text)
}

pub(crate) fn says(alloc: Global, th: &Thm, want: &str) -> Result<bool, AllocError> {
    let text = sequent_text(alloc, th)?;
    Ok(text.as_str() == want)
}

// Whether the last theorem of the table has the sequent that the text is.
fn gives(alloc: Global, k: &mut Kernel, table: &str, want: &str) -> Result<bool, AllocError>
    requires base { HasBase k.old.defs }
    requires fits { Fits k.old.defs [] nothing table.now }
    ensures { OnOk result (k.new.defs ≡ k.old.defs) }
{
    let th = derived(alloc, k, table)?;
    says(alloc, &th, want)
}

// The first table whose last theorem has another sequent.
#[tactic(auto, using(crate::proofs::Cases::case_lemmas))]
pub(crate) fn first_wrong(
    alloc: Global,
    k: &mut Kernel,
    cases: &'static [(&'static str, &'static str)],
) -> Result<Option<&'static str>, AllocError>
    requires base { HasBase k.old.defs }
    requires fit { AllFit k.old.defs cases.now }
{
    for (table, want) in cases {
        if !gives(alloc, k, table, want)? {
            return Ok(Some(*table));
        }
    }
    Ok(None)
}

// The same over the first ten base definitions alone.
#[tactic(auto, using(crate::proofs::Cases::case_lemmas))]
pub(crate) fn first_wrong_of_base(
    alloc: Global,
    cases: &'static [(&'static str, &'static str)],
) -> Result<Option<&'static str>, AllocError>
    requires { AllFit (base 10) cases.now }
{
    let mut k = start(alloc)?;
    first_wrong(alloc, &mut k, cases)
}
