//! The building of the first library.

ghost use Rattle.std.specs.Prelude.{◌≡◌, OnOk};
ghost use Rattle.hol_terms.specs.Base.{base};
ghost use Rattle.nd_rules.specs.Kept.{HasRules};
ghost use Rattle.script_core.specs.Shelves.{AreOn, ShelfHad};
ghost use Rattle.library_steps.specs.Building.{Keeps, Extends};
ghost use Rattle.th_base.specs.Facts.{base_facts, logic_facts, product_facts, sum_facts};

use crate::tables::{logic, products, sums};
use hol_kernel::Kernel;
use library_steps::take_steps;
use nd_rules::Rules;
use script_core::Shelf;
use std::alloc::{AllocError, Global};

/// Builds the part on logic, choice, the identity and the conditional.
fn build_logic(
    alloc: Global,
    k: &mut Kernel,
    rules: &Rules,
    s: &mut Shelf,
) -> Result<(), AllocError>
    requires rules { HasRules k.old rules.now }
    requires defs { k.old.defs ≡ base 10 }
    requires shelf { ShelfHad k.old s.old }
    ensures defs { OnOk result (k.new.defs ≡ base 12) }
    ensures logic_facts { OnOk result (AreOn s.new logic_facts) }
    ensures shelf { ShelfHad k.new s.new }
    ensures more { Extends s.old s.new }
    ensures keeps { Keeps k.old k.new }
{
    take_steps(alloc, k, rules, s, &logic::STEPS)?;
    Ok(())
}

/// Builds the part on unit and products.
fn build_products(
    alloc: Global,
    k: &mut Kernel,
    rules: &Rules,
    s: &mut Shelf,
) -> Result<(), AllocError>
    requires rules { HasRules k.old rules.now }
    requires defs { k.old.defs ≡ base 12 }
    requires logic_facts { AreOn s.old logic_facts }
    requires shelf { ShelfHad k.old s.old }
    ensures defs { OnOk result (k.new.defs ≡ base 23) }
    ensures product_facts { OnOk result (AreOn s.new product_facts) }
    ensures shelf { ShelfHad k.new s.new }
    ensures more { Extends s.old s.new }
    ensures keeps { Keeps k.old k.new }
{
    take_steps(alloc, k, rules, s, &products::STEPS)?;
    Ok(())
}

/// Builds the part on sums.
fn build_sums(alloc: Global, k: &mut Kernel, rules: &Rules, s: &mut Shelf) -> Result<(), AllocError>
    requires rules { HasRules k.old rules.now }
    requires defs { k.old.defs ≡ base 23 }
    requires logic_facts { AreOn s.old logic_facts }
    requires product_facts { AreOn s.old product_facts }
    requires shelf { ShelfHad k.old s.old }
    ensures defs { OnOk result (k.new.defs ≡ base 33) }
    ensures sum_facts { OnOk result (AreOn s.new sum_facts) }
    ensures shelf { ShelfHad k.new s.new }
    ensures more { Extends s.old s.new }
    ensures keeps { Keeps k.old k.new }
{
    take_steps(alloc, k, rules, s, &sums::STEPS)?;
    Ok(())
}

/// Builds the first library: makes the base definitions from the eleventh to the thirty-third in a kernel that has the ten before
/// them, and puts the facts on logic, products and sums on the shelf. What was on the shelf still is, and the kernel has the
/// theorem of each fact there. The one error is want of memory; the kernel and the shelf then still have what they had.
pub fn build(alloc: Global, k: &mut Kernel, rules: &Rules, s: &mut Shelf) -> Result<(), AllocError>
    requires rules { HasRules k.old rules.now }
    requires defs { k.old.defs ≡ base 10 }
    requires shelf { ShelfHad k.old s.old }
    ensures defs { OnOk result (k.new.defs ≡ base 33) }
    ensures base_facts { OnOk result (AreOn s.new base_facts) }
    ensures shelf { ShelfHad k.new s.new }
    ensures more { Extends s.old s.new }
    ensures keeps { Keeps k.old k.new }
{
    build_logic(alloc, k, rules, s)?;
    build_products(alloc, k, rules, s)?;
    build_sums(alloc, k, rules, s)?;
    Ok(())
}
