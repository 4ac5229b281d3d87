//! Definitions by what tables make.

ghost use Rattle.std.specs.Prelude.{◌≡◌, Some, IfSome, IfOk};
ghost use Rattle.hol_terms.specs.DefShape.{definition_of, from_of};
ghost use Rattle.hol_tables.specs.Building.{Makes};
ghost use Rattle.stmt_core.specs.Bases.{const_made, type_made};

use hol_tables::build::{TermLine, TypeLine, build};
use hol_terms::defs::Def;
use std::alloc::{AllocError, Global};

/// The definition of a constant by the term that the tables make.
pub(crate) fn constant(
    alloc: Global,
    name: &str,
    type_lines: &[TypeLine],
    term_lines: &[TermLine],
) -> Result<Def, AllocError>
    requires { Makes type_lines.now term_lines.now }
    ensures value { IfOk result (λ d. const_made name.now type_lines.now term_lines.now ≡ Some (definition_of d)) }
    ensures step { IfOk result (λ d. IfSome (from_of d) (λ k. k ≡ 0)) }
{
    let name = String::from_str(alloc, name)?;
    let body = build(alloc, type_lines, term_lines)?;
    Ok(Def::Const { name, body })
}

/// The definition of a type by the predicate that the tables make, with the step 0.
pub(crate) fn new_type(
    alloc: Global,
    name: &str,
    type_lines: &[TypeLine],
    term_lines: &[TermLine],
) -> Result<Def, AllocError>
    requires { Makes type_lines.now term_lines.now }
    ensures value { IfOk result (λ d. type_made name.now type_lines.now term_lines.now ≡ Some (definition_of d)) }
    ensures step { IfOk result (λ d. IfSome (from_of d) (λ k. k ≡ 0)) }
{
    let name = String::from_str(alloc, name)?;
    let pred = build(alloc, type_lines, term_lines)?;
    Ok(Def::NewType {
        name,
        pred,
        from: 0,
    })
}
