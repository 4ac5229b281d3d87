//! The building of numbers and path codes.

ghost use Rattle.std.specs.Prelude.{◌≡◌, OnOk};
ghost use Rattle.hol_terms.specs.Base.{base};
ghost use Rattle.nd_rules.specs.Kept.{HasRules};
ghost use Rattle.script_core.specs.Shelves.{AreOn, ShelfHad};
ghost use Rattle.library_steps.specs.Building.{Keeps, Extends};
ghost use Rattle.th_base.specs.Facts.{base_facts};
ghost use Rattle.th_num.specs.Facts.{num_facts, number_facts, graph_facts, recursion_facts, order_facts, doubling_facts, path_facts};

use crate::tables::{doubling, graphs, numbers, order, paths, recursion};
use hol_kernel::Kernel;
use library_steps::take_steps;
use nd_rules::Rules;
use script_core::Shelf;
use std::alloc::{AllocError, Global};

/// Builds the part on numbers.
fn build_numbers(
    alloc: Global,
    k: &mut Kernel,
    rules: &Rules,
    s: &mut Shelf,
) -> Result<(), AllocError>
    requires rules { HasRules k.old rules.now }
    requires defs { k.old.defs ≡ base 33 }
    requires base_facts { AreOn s.old base_facts }
    requires shelf { ShelfHad k.old s.old }
    ensures defs { OnOk result (k.new.defs ≡ base 39) }
    ensures number_facts { OnOk result (AreOn s.new number_facts) }
    ensures shelf { ShelfHad k.new s.new }
    ensures more { Extends s.old s.new }
    ensures keeps { Keeps k.old k.new }
{
    take_steps(alloc, k, rules, s, &numbers::STEPS)?;
    Ok(())
}

/// Builds the part on the graph of a recursion.
fn build_graphs(
    alloc: Global,
    k: &mut Kernel,
    rules: &Rules,
    s: &mut Shelf,
) -> Result<(), AllocError>
    requires rules { HasRules k.old rules.now }
    requires defs { k.old.defs ≡ base 39 }
    requires base_facts { AreOn s.old base_facts }
    requires number_facts { AreOn s.old number_facts }
    requires shelf { ShelfHad k.old s.old }
    ensures defs { OnOk result (k.new.defs ≡ base 39) }
    ensures graph_facts { OnOk result (AreOn s.new graph_facts) }
    ensures shelf { ShelfHad k.new s.new }
    ensures more { Extends s.old s.new }
    ensures keeps { Keeps k.old k.new }
{
    take_steps(alloc, k, rules, s, &graphs::STEPS)?;
    Ok(())
}

/// Builds the part on recursion over numbers.
fn build_recursion(
    alloc: Global,
    k: &mut Kernel,
    rules: &Rules,
    s: &mut Shelf,
) -> Result<(), AllocError>
    requires rules { HasRules k.old rules.now }
    requires defs { k.old.defs ≡ base 39 }
    requires base_facts { AreOn s.old base_facts }
    requires number_facts { AreOn s.old number_facts }
    requires graph_facts { AreOn s.old graph_facts }
    requires shelf { ShelfHad k.old s.old }
    ensures defs { OnOk result (k.new.defs ≡ base 40) }
    ensures recursion_facts { OnOk result (AreOn s.new recursion_facts) }
    ensures shelf { ShelfHad k.new s.new }
    ensures more { Extends s.old s.new }
    ensures keeps { Keeps k.old k.new }
{
    take_steps(alloc, k, rules, s, &recursion::STEPS)?;
    Ok(())
}

/// Builds the part on the order of numbers.
fn build_order(
    alloc: Global,
    k: &mut Kernel,
    rules: &Rules,
    s: &mut Shelf,
) -> Result<(), AllocError>
    requires rules { HasRules k.old rules.now }
    requires defs { k.old.defs ≡ base 40 }
    requires base_facts { AreOn s.old base_facts }
    requires number_facts { AreOn s.old number_facts }
    requires graph_facts { AreOn s.old graph_facts }
    requires recursion_facts { AreOn s.old recursion_facts }
    requires shelf { ShelfHad k.old s.old }
    ensures defs { OnOk result (k.new.defs ≡ base 41) }
    ensures order_facts { OnOk result (AreOn s.new order_facts) }
    ensures shelf { ShelfHad k.new s.new }
    ensures more { Extends s.old s.new }
    ensures keeps { Keeps k.old k.new }
{
    take_steps(alloc, k, rules, s, &order::STEPS)?;
    Ok(())
}

/// Builds the part on doubling.
fn build_doubling(
    alloc: Global,
    k: &mut Kernel,
    rules: &Rules,
    s: &mut Shelf,
) -> Result<(), AllocError>
    requires rules { HasRules k.old rules.now }
    requires defs { k.old.defs ≡ base 41 }
    requires base_facts { AreOn s.old base_facts }
    requires number_facts { AreOn s.old number_facts }
    requires graph_facts { AreOn s.old graph_facts }
    requires recursion_facts { AreOn s.old recursion_facts }
    requires order_facts { AreOn s.old order_facts }
    requires shelf { ShelfHad k.old s.old }
    ensures defs { OnOk result (k.new.defs ≡ base 42) }
    ensures doubling_facts { OnOk result (AreOn s.new doubling_facts) }
    ensures shelf { ShelfHad k.new s.new }
    ensures more { Extends s.old s.new }
    ensures keeps { Keeps k.old k.new }
{
    take_steps(alloc, k, rules, s, &doubling::STEPS)?;
    Ok(())
}

/// Builds the part on path codes.
fn build_paths(
    alloc: Global,
    k: &mut Kernel,
    rules: &Rules,
    s: &mut Shelf,
) -> Result<(), AllocError>
    requires rules { HasRules k.old rules.now }
    requires defs { k.old.defs ≡ base 42 }
    requires base_facts { AreOn s.old base_facts }
    requires number_facts { AreOn s.old number_facts }
    requires graph_facts { AreOn s.old graph_facts }
    requires recursion_facts { AreOn s.old recursion_facts }
    requires order_facts { AreOn s.old order_facts }
    requires doubling_facts { AreOn s.old doubling_facts }
    requires shelf { ShelfHad k.old s.old }
    ensures defs { OnOk result (k.new.defs ≡ base 43) }
    ensures path_facts { OnOk result (AreOn s.new path_facts) }
    ensures shelf { ShelfHad k.new s.new }
    ensures more { Extends s.old s.new }
    ensures keeps { Keeps k.old k.new }
{
    take_steps(alloc, k, rules, s, &paths::STEPS)?;
    Ok(())
}

/// Builds numbers and path codes: makes the base definitions from the thirty-fourth to the forty-third in a kernel that has exactly
/// those before them, and puts the facts on numbers, their order and path codes on the shelf, which has those of the first library.
/// What was on the shelf still is, and the kernel has the theorem of each fact there. The one error is want of memory; the kernel
/// and the shelf then still have what they had.
pub fn build(alloc: Global, k: &mut Kernel, rules: &Rules, s: &mut Shelf) -> Result<(), AllocError>
    requires rules { HasRules k.old rules.now }
    requires defs { k.old.defs ≡ base 33 }
    requires base_facts { AreOn s.old base_facts }
    requires shelf { ShelfHad k.old s.old }
    ensures defs { OnOk result (k.new.defs ≡ base 43) }
    ensures num_facts { OnOk result (AreOn s.new num_facts) }
    ensures shelf { ShelfHad k.new s.new }
    ensures more { Extends s.old s.new }
    ensures keeps { Keeps k.old k.new }
{
    build_numbers(alloc, k, rules, s)?;
    build_graphs(alloc, k, rules, s)?;
    build_recursion(alloc, k, rules, s)?;
    build_order(alloc, k, rules, s)?;
    build_doubling(alloc, k, rules, s)?;
    build_paths(alloc, k, rules, s)?;
    Ok(())
}
