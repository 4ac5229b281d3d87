//! The building of countable sets and their type.

ghost use Rattle.std.specs.Prelude.{◌≡◌, OnOk};
ghost use Rattle.hol_terms.specs.Base.{base};
ghost use Rattle.nd_rules.specs.Kept.{HasRules};
ghost use Rattle.script_core.specs.Shelves.{AreOn, ShelfHad};
ghost use Rattle.library_steps.specs.Building.{Keeps, Extends};
ghost use Rattle.th_base.specs.Facts.{base_facts};
ghost use Rattle.th_num.specs.Facts.{num_facts};
ghost use Rattle.th_count.specs.Facts.{count_facts, countable_facts, union_facts, cset_facts, relator_facts, pair_facts, composition_facts};

use crate::tables::{compositions, countable, csets, pairs, relators, unions};
use hol_kernel::Kernel;
use library_steps::take_steps;
use nd_rules::Rules;
use script_core::Shelf;
use std::alloc::{AllocError, Global};

/// Builds the part on countable sets.
fn build_countable(
    alloc: Global,
    k: &mut Kernel,
    rules: &Rules,
    s: &mut Shelf,
) -> Result<(), AllocError>
    requires rules { HasRules k.old rules.now }
    requires defs { k.old.defs ≡ base 43 }
    requires base_facts { AreOn s.old base_facts }
    requires num_facts { AreOn s.old num_facts }
    requires shelf { ShelfHad k.old s.old }
    ensures defs { OnOk result (k.new.defs ≡ base 44) }
    ensures countable_facts { OnOk result (AreOn s.new countable_facts) }
    ensures shelf { ShelfHad k.new s.new }
    ensures more { Extends s.old s.new }
    ensures keeps { Keeps k.old k.new }
{
    take_steps(alloc, k, rules, s, &countable::STEPS)?;
    Ok(())
}

/// Builds the part on unions, images, products and sums of countable sets.
fn build_unions(
    alloc: Global,
    k: &mut Kernel,
    rules: &Rules,
    s: &mut Shelf,
) -> Result<(), AllocError>
    requires rules { HasRules k.old rules.now }
    requires defs { k.old.defs ≡ base 44 }
    requires base_facts { AreOn s.old base_facts }
    requires num_facts { AreOn s.old num_facts }
    requires countable_facts { AreOn s.old countable_facts }
    requires shelf { ShelfHad k.old s.old }
    ensures defs { OnOk result (k.new.defs ≡ base 44) }
    ensures union_facts { OnOk result (AreOn s.new union_facts) }
    ensures shelf { ShelfHad k.new s.new }
    ensures more { Extends s.old s.new }
    ensures keeps { Keeps k.old k.new }
{
    take_steps(alloc, k, rules, s, &unions::STEPS)?;
    Ok(())
}

/// Builds the part on the type of countable sets.
fn build_csets(
    alloc: Global,
    k: &mut Kernel,
    rules: &Rules,
    s: &mut Shelf,
) -> Result<(), AllocError>
    requires rules { HasRules k.old rules.now }
    requires defs { k.old.defs ≡ base 44 }
    requires base_facts { AreOn s.old base_facts }
    requires num_facts { AreOn s.old num_facts }
    requires countable_facts { AreOn s.old countable_facts }
    requires union_facts { AreOn s.old union_facts }
    requires shelf { ShelfHad k.old s.old }
    ensures defs { OnOk result (k.new.defs ≡ base 48) }
    ensures cset_facts { OnOk result (AreOn s.new cset_facts) }
    ensures shelf { ShelfHad k.new s.new }
    ensures more { Extends s.old s.new }
    ensures keeps { Keeps k.old k.new }
{
    take_steps(alloc, k, rules, s, &csets::STEPS)?;
    Ok(())
}

/// Builds the part on the relator of countable sets.
fn build_relators(
    alloc: Global,
    k: &mut Kernel,
    rules: &Rules,
    s: &mut Shelf,
) -> Result<(), AllocError>
    requires rules { HasRules k.old rules.now }
    requires defs { k.old.defs ≡ base 48 }
    requires base_facts { AreOn s.old base_facts }
    requires num_facts { AreOn s.old num_facts }
    requires countable_facts { AreOn s.old countable_facts }
    requires union_facts { AreOn s.old union_facts }
    requires cset_facts { AreOn s.old cset_facts }
    requires shelf { ShelfHad k.old s.old }
    ensures defs { OnOk result (k.new.defs ≡ base 49) }
    ensures relator_facts { OnOk result (AreOn s.new relator_facts) }
    ensures shelf { ShelfHad k.new s.new }
    ensures more { Extends s.old s.new }
    ensures keeps { Keeps k.old k.new }
{
    take_steps(alloc, k, rules, s, &relators::STEPS)?;
    Ok(())
}

/// Builds the part on the related pairs of countable sets.
fn build_pairs(
    alloc: Global,
    k: &mut Kernel,
    rules: &Rules,
    s: &mut Shelf,
) -> Result<(), AllocError>
    requires rules { HasRules k.old rules.now }
    requires defs { k.old.defs ≡ base 49 }
    requires base_facts { AreOn s.old base_facts }
    requires num_facts { AreOn s.old num_facts }
    requires countable_facts { AreOn s.old countable_facts }
    requires union_facts { AreOn s.old union_facts }
    requires cset_facts { AreOn s.old cset_facts }
    requires relator_facts { AreOn s.old relator_facts }
    requires shelf { ShelfHad k.old s.old }
    ensures defs { OnOk result (k.new.defs ≡ base 49) }
    ensures pair_facts { OnOk result (AreOn s.new pair_facts) }
    ensures shelf { ShelfHad k.new s.new }
    ensures more { Extends s.old s.new }
    ensures keeps { Keeps k.old k.new }
{
    take_steps(alloc, k, rules, s, &pairs::STEPS)?;
    Ok(())
}

/// Builds the part on compositions of relations of countable sets.
fn build_compositions(
    alloc: Global,
    k: &mut Kernel,
    rules: &Rules,
    s: &mut Shelf,
) -> Result<(), AllocError>
    requires rules { HasRules k.old rules.now }
    requires defs { k.old.defs ≡ base 49 }
    requires base_facts { AreOn s.old base_facts }
    requires num_facts { AreOn s.old num_facts }
    requires countable_facts { AreOn s.old countable_facts }
    requires union_facts { AreOn s.old union_facts }
    requires cset_facts { AreOn s.old cset_facts }
    requires relator_facts { AreOn s.old relator_facts }
    requires pair_facts { AreOn s.old pair_facts }
    requires shelf { ShelfHad k.old s.old }
    ensures defs { OnOk result (k.new.defs ≡ base 49) }
    ensures composition_facts { OnOk result (AreOn s.new composition_facts) }
    ensures shelf { ShelfHad k.new s.new }
    ensures more { Extends s.old s.new }
    ensures keeps { Keeps k.old k.new }
{
    take_steps(alloc, k, rules, s, &compositions::STEPS)?;
    Ok(())
}

/// Builds countable sets and their type: makes the base definitions from the forty-fourth to the forty-ninth in a kernel that has
/// exactly those before them, and puts the facts on countable sets and their type on the shelf, which has those of the libraries
/// before. What was on the shelf still is, and the kernel has the theorem of each fact there. The one error is want of memory; the
/// kernel and the shelf then still have what they had.
pub fn build(alloc: Global, k: &mut Kernel, rules: &Rules, s: &mut Shelf) -> Result<(), AllocError>
    requires rules { HasRules k.old rules.now }
    requires defs { k.old.defs ≡ base 43 }
    requires base_facts { AreOn s.old base_facts }
    requires num_facts { AreOn s.old num_facts }
    requires shelf { ShelfHad k.old s.old }
    ensures defs { OnOk result (k.new.defs ≡ base 49) }
    ensures count_facts { OnOk result (AreOn s.new count_facts) }
    ensures shelf { ShelfHad k.new s.new }
    ensures more { Extends s.old s.new }
    ensures keeps { Keeps k.old k.new }
{
    build_countable(alloc, k, rules, s)?;
    build_unions(alloc, k, rules, s)?;
    build_csets(alloc, k, rules, s)?;
    build_relators(alloc, k, rules, s)?;
    build_pairs(alloc, k, rules, s)?;
    build_compositions(alloc, k, rules, s)?;
    Ok(())
}
