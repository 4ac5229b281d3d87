//! The building of a library.

ghost use Rattle.std.specs.Prelude.{◌≡◌, OnOk};
ghost use Rattle.nd_rules.specs.Kept.{HasRules};
ghost use Rattle.script_core.specs.Shelves.{ShelfHad};
ghost use Rattle.library_steps.specs.Building.{Keeps, Extends, FitsAt, CanTake, Makes, Puts, defs_after, facts_after, facts_on};

use crate::closed::prove;
use crate::define::{define_constant, define_type};
use crate::step::Step;
use hol_kernel::Kernel;
use nd_rules::Rules;
use script_core::Shelf;
use std::alloc::{AllocError, Global};

/// Takes a step.
fn take_step(
    alloc: Global,
    k: &mut Kernel,
    rules: &Rules,
    s: &mut Shelf,
    step: &Step,
) -> Result<(), AllocError>
    requires rules { HasRules k.old rules.now }
    requires shelf { ShelfHad k.old s.old }
    requires fits { FitsAt k.old.defs (facts_on s.old) step.now }
    ensures defs { OnOk result (k.new.defs ≡ defs_after k.old.defs step.now) }
    ensures facts { OnOk result (facts_on s.new ≡ facts_after (facts_on s.old) step.now) }
    ensures shelf { ShelfHad k.new s.new }
    ensures more { Extends s.old s.new }
    ensures keeps { Keeps k.old k.new }
{
    match step {
        Step::Constant(place) => define_constant(alloc, k, *place),
        Step::NewType(place, table) => define_type(alloc, k, rules, s, *place, table),
        Step::Prove(fact, from, table) => prove(alloc, k, rules, s, *fact, from, table),
    }
}

/// Takes steps that fit, one after another, in a kernel that has what the rules keep: its definitions are then those that
/// the steps make, and the shelf has gained the facts that they prove. What was on the shelf still is, and the kernel has the theorem
/// of each fact there. The one error is want of memory; the kernel and the shelf then still have what they had.
pub fn take_steps(
    alloc: Global,
    k: &mut Kernel,
    rules: &Rules,
    s: &mut Shelf,
    steps: &[Step],
) -> Result<(), AllocError>
    requires rules { HasRules k.old rules.now }
    requires shelf { ShelfHad k.old s.old }
    requires fit { CanTake k.old.defs (facts_on s.old) steps.now }
    ensures defs { OnOk result (Makes k.old.defs k.new.defs steps.now) }
    ensures facts { OnOk result (Puts s.old s.new steps.now) }
    ensures shelf { ShelfHad k.new s.new }
    ensures more { Extends s.old s.new }
    ensures keeps { Keeps k.old k.new }
{
    for i in 0..steps.len() {
        take_step(alloc, k, rules, s, &steps[i])?;
    }
    Ok(())
}
