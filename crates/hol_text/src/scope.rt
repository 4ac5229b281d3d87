//! The binders around a term that is being read.

ghost use Rattle.std.specs.Prelude.{◌≡◌, IfOk};
ghost use Rattle.std.specs.Option.{option_copied};
ghost use Rattle.hol_terms.specs.Reading.{innermost, stand_in};
ghost use Rattle.hol_text.specs.ScopeViews.{scope_of};

use hol_terms::terms::Var;
use hol_terms::types::HolType;
use std::alloc::{AllocError, Global};

/// The binders around, each with the free variable that is read in place of the bound one.
#[derive(Clone, Copy)]
pub enum Scope<'a> {
    Top,
    Binder(&'a str, &'a Var, &'a Scope<'a>),
}

/// The variable of the innermost binder of the name.
pub(crate) fn innermost<'a>(scope: &Scope<'a>, name: &str) -> Option<&'a Var>
    ensures { option_copied result ≡ innermost (scope_of scope.now) name.now }
{
    match scope {
        Scope::Top => None,
        Scope::Binder(own, var, outer) => {
            if *own == name {
                Some(*var)
            } else {
                innermost(*outer, name)
            }
        }
    }
}

/// The variable that is read in place of one that a binder of the name binds: a name that no text has.
pub(crate) fn stand_in(
    alloc: Global,
    scope: &Scope<'_>,
    name: &str,
    ty: &HolType,
) -> Result<Var, AllocError>
    ensures { IfOk result (λ v. v ≡ stand_in (scope_of scope.now) name.now ty.now) }
{
    let mut own = String::from_str(alloc, ".")?;
    match innermost(scope, name) {
        Some(hidden) => own.push_str(hidden.name())?,
        None => own.push_str(name)?,
    }
    Var::new(alloc, own.as_str(), ty)
}
