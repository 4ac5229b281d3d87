//! The kernel that tables start from.

ghost use Rattle.std.specs.Prelude.{◌≡◌, ◌+◌, ◌<◌, Some, slice_get, IfOk, OnOk};
ghost use Rattle.hol_terms.specs.Definition.{const_def};
ghost use Rattle.hol_terms.specs.Base.{base, base_definitions};

use hol_kernel::Kernel;
use hol_terms::defs::Def;
use hol_terms::terms::Term;
use std::alloc::{AllocError, Global};
use stmt_core::base_def;

/// A kernel whose definitions are the first ten base definitions, those of the connectives and quantifiers, each made by `define`.
pub fn start(alloc: Global) -> Result<Kernel, AllocError>
    ensures { IfOk result (λ k. k.defs ≡ base 10) }
{
    let mut kernel = Kernel::new(alloc)?;
    for place in 0..10 {
        define_at(alloc, &mut kernel, place)?;
    }
    Ok(kernel)
}

/// Defines the base definition at a place, in a kernel that has those before it.
#[tactic(auto, using(crate::proofs::StartLemmas::no_type_lemmas))]
fn define_at(alloc: Global, kernel: &mut Kernel, place: u32) -> Result<(), AllocError>
    requires constant { place < 10 }
    requires so_far { kernel.old.defs ≡ base place }
    ensures { OnOk result (kernel.new.defs ≡ base (place + 1)) }
{
    match base_def(alloc, place + 1)? {
        Def::Const { name, body } => define_next(alloc, kernel, place, &name, &body),
        Def::NewType { .. } => unreachable!(),
    }
}

/// Defines the base definition at a place, a constant, in a kernel that has those before it.
fn define_next(
    alloc: Global,
    kernel: &mut Kernel,
    place: u32,
    name: &str,
    body: &Term,
) -> Result<(), AllocError>
    requires so_far { kernel.old.defs ≡ base place }
    requires next { slice_get base_definitions place ≡ Some (const_def name.now body.now) }
    ensures { OnOk result (kernel.new.defs ≡ base (place + 1)) }
{
    let _th = kernel.define(alloc, name, body)?;
    Ok(())
}
