//! The base definitions behind the first ten.

ghost use Rattle.std.specs.Prelude.{◌≡◌, ◌+◌, ◌<◌, [], Some, None, slice_get, OnOk};
ghost use Rattle.hol_terms.specs.Definition.{const_def, type_def};
ghost use Rattle.hol_terms.specs.Base.{base, base_definitions};
ghost use Rattle.hol_kernel.specs.State.{Has};
ghost use Rattle.nd_rules.specs.Kept.{HasRules};
ghost use Rattle.script_core.specs.Shelves.{ShelfHad};
ghost use Rattle.library_steps.specs.Closed.{ShowsElement};
ghost use Rattle.library_steps.specs.Building.{IsConstantAt, IsTypeAt, Keeps};

use crate::closed::run_closed;
use hol_kernel::Kernel;
use hol_terms::defs::Def;
use hol_terms::terms::Term;
use nd_rules::Rules;
use script_core::Shelf;
use std::alloc::{AllocError, Global};
use stmt_core::base_def;

/// Makes the base definition at a place, a constant's.
#[tactic(auto, using(crate::proofs::Defined::place_lemmas, crate::proofs::Defined::keeps_lemmas))]
pub(crate) fn define_constant(alloc: Global, k: &mut Kernel, place: u32) -> Result<(), AllocError>
    requires so_far { k.old.defs ≡ base place }
    requires constant { IsConstantAt place }
    ensures made { OnOk result (k.new.defs ≡ base (place + 1)) }
    ensures keeps { Keeps k.old k.new }
{
    match base_def(alloc, place + 1)? {
        Def::Const { name, body } => make_constant(alloc, k, place, &name, &body),
        Def::NewType { .. } => unreachable!(),
    }
}

fn make_constant(
    alloc: Global,
    k: &mut Kernel,
    place: u32,
    name: &str,
    body: &Term,
) -> Result<(), AllocError>
    requires so_far { k.old.defs ≡ base place }
    requires next { slice_get base_definitions place ≡ Some (const_def name.now body.now) }
    ensures made { OnOk result (k.new.defs ≡ base (place + 1)) }
    ensures keeps { Keeps k.old k.new }
{
    let _th = k.define(alloc, name, body)?;
    Ok(())
}

/// Makes the base definition at a place, a type's, by the table of a theorem that its predicate holds of something.
#[tactic(auto, using(crate::proofs::Defined::place_lemmas, crate::proofs::Defined::keeps_lemmas))]
pub(crate) fn define_type(
    alloc: Global,
    k: &mut Kernel,
    rules: &Rules,
    s: &Shelf,
    place: u32,
    table: &str,
) -> Result<(), AllocError>
    requires rules { HasRules k.old rules.now }
    requires shelf { ShelfHad k.old s.now }
    requires so_far { k.old.defs ≡ base place }
    requires new_type { IsTypeAt place table.now }
    ensures made { OnOk result (k.new.defs ≡ base (place + 1)) }
    ensures keeps { Keeps k.old k.new }
{
    match base_def(alloc, place + 1)? {
        Def::NewType { name, .. } => make_type(alloc, k, rules, s, place, table, &name),
        Def::Const { .. } => unreachable!(),
    }
}

fn make_type(
    alloc: Global,
    k: &mut Kernel,
    rules: &Rules,
    s: &Shelf,
    place: u32,
    table: &str,
    name: &str,
) -> Result<(), AllocError>
    requires rules { HasRules k.old rules.now }
    requires shelf { ShelfHad k.old s.now }
    requires so_far { k.old.defs ≡ base place }
    requires shows { ShowsElement place table.now name.now }
    ensures made { OnOk result (k.new.defs ≡ base (place + 1)) }
    ensures keeps { Keeps k.old k.new }
{
    let th = run_closed(alloc, k, rules, s, &[], table)?;
    let _both = k.define_type(alloc, name, &th)?;
    Ok(())
}
