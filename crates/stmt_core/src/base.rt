//! The base definitions.

ghost use Rattle.std.specs.Prelude.{◌≡◌, ◌≤◌, ◌-◌, Some, slice_get, IfSome, IfOk};
ghost use Rattle.hol_terms.specs.Base.{base_definitions};
ghost use Rattle.hol_terms.specs.DefShape.{definition_of, from_of};

use crate::tables::{logic, numbers, products, sets, sums};
use hol_terms::defs::Def;
use std::alloc::{AllocError, Global};

/// The base definition of a number from 1 to 52.
pub fn base_def(alloc: Global, n: u32) -> Result<Def, AllocError>
    requires first { 1 ≤ n }
    requires last { n ≤ 52 }
    ensures value { IfOk result (λ d. slice_get base_definitions (n - 1) ≡ Some (definition_of d)) }
    ensures step { IfOk result (λ d. IfSome (from_of d) (λ k. k ≡ 0)) }
{
    match n {
        1..=10 => logic::definition(alloc, n),
        11..=23 => products::definition(alloc, n),
        24..=33 => sums::definition(alloc, n),
        34..=43 => numbers::definition(alloc, n),
        _ => sets::definition(alloc, n),
    }
}
