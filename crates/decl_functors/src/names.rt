//! Names in a type expression. A name is a type variable, or a declared type at its parameters.

ghost use Rattle.std.specs.Prelude.{◌≡◌};
ghost use Rattle.std.specs.Option.{option_copied};
ghost use Rattle.decl_core.specs.Functors.{same_type, has_name, has_names, term_for};

use hol_terms::terms::Term;
use hol_terms::types::{HolType, TypeNode};
use std::cmp::Ordering;

/// Whether the types are the same.
pub fn same_type(left: &HolType, right: &HolType) -> bool
    ensures { result ≡ same_type left.now right.now }
{
    matches!(left.cmp(right), Ordering::Equal)
}

/// Whether the name occurs in the type.
#[tactic(auto, using(crate::proofs::TypeLists::name_lemmas))]
pub fn has_name(name: &HolType, ty: &HolType) -> bool
    ensures { result ≡ has_name name.now ty.now }
{
    if same_type(name, ty) {
        return true;
    }
    match ty.view() {
        TypeNode::Var(_) => false,
        TypeNode::App(_, args) => {
            for arg in args {
                if has_name(name, arg) {
                    return true;
                }
            }
            false
        }
    }
}

/// Whether any of the names occurs in the type.
#[tactic(auto, using(crate::proofs::TypeLists::names_lemmas))]
pub fn has_names(names: &[(HolType, Term)], ty: &HolType) -> bool
    ensures { result ≡ has_names names.now ty.now }
{
    for (name, _) in names {
        if has_name(name, ty) {
            return true;
        }
    }
    false
}

/// The term that stands for the type where it is one of the names.
#[tactic(auto, using(crate::proofs::TypeLists::names_lemmas))]
pub fn term_for<'a>(names: &'a [(HolType, Term)], ty: &HolType) -> Option<&'a Term>
    ensures { option_copied result ≡ term_for names.now ty.now }
{
    for (name, term) in names {
        if same_type(name, ty) {
            return Some(term);
        }
    }
    None
}
