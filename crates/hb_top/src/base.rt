//! The kernel that a text is read and checked over.

ghost use Rattle.std.specs.Prelude.{◌≡◌, IfOk};
ghost use Rattle.hol_terms.specs.Base.{base};
ghost use Rattle.base_count.specs.InForce.{in_force};

use hol_kernel::Kernel;
use kernel_lines::start;
use nd_rules::Rules;
use script_core::Shelf;
use std::alloc::{AllocError, Global};
use th_base::build;

/// A kernel with the base definitions that are in force, as the library leaves it.
#[tactic(auto, using(crate::proofs::Shelves::had_none))]
pub(crate) fn base_kernel(alloc: Global) -> Result<Kernel, AllocError>
    ensures { IfOk result (λ k. k.defs ≡ base in_force) }
{
    let mut kernel = start(alloc)?;
    let rules = Rules::new(alloc, &mut kernel)?;
    let mut shelf = Shelf::new(alloc)?;
    build(alloc, &mut kernel, &rules, &mut shelf)?;
    Ok(kernel)
}
