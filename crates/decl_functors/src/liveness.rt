//! Which parameters of a group of declared types are live.

ghost use Rattle.std.specs.Prelude.{◌≡◌, map, if◌then◌else◌};
ghost use Rattle.std.specs.List.{list_any};
ghost use Rattle.hol_terms.specs.Ty.{tys};
ghost use Rattle.hol_terms.specs.TyVars.{occurs};
ghost use Rattle.decl_core.specs.Declaration.{type_of};
ghost use Rattle.decl_core.specs.Functors.{same_type};
ghost use Rattle.decl_core.specs.Liveness.{dead_in, dead_in_any, dead_in_ctor, dead_in_decl, is_live};

use crate::lives::{LiveArguments, is_countable, lives_of};
use crate::names::same_type;
use decl_core::declarations::{Constructor, Declaration};
use hol_terms::types::{HolType, TypeNode};

/// Whether the type is one of the group.
#[tactic(auto, using(crate::proofs::Dead::among_lemmas))]
fn is_of_group(group: &[Declaration], ty: &HolType) -> bool
    ensures { result ≡ list_any (same_type ty.now) (map type_of group.now) }
{
    for decl in group {
        if same_type(ty, decl.ty()) {
            return true;
        }
    }
    false
}

/// Whether the parameter occurs in the type inside a dead argument. The types of the group are left out.
#[cycle(dead)]
#[tactic(auto, using(crate::proofs::Dead::dead_lemmas))]
fn is_dead_in(lives: &[LiveArguments], group: &[Declaration], param: &str, ty: &HolType) -> bool
    ensures { result ≡ dead_in lives.now (map type_of group.now) param.now ty.now }
{
    match ty.view() {
        TypeNode::Var(_) => false,
        TypeNode::App(name, args) => {
            if is_of_group(group, ty) {
                return false;
            }
            if name == "fun" && !args.is_empty() {
                let here = [false, is_countable(&args[0])];
                return is_dead_in_any(lives, group, param, &here, args);
            }
            is_dead_in_any(lives, group, param, lives_of(lives, name), args)
        }
    }
}

/// The same of arguments, of which `here` says whether they are live.
#[cycle(dead)]
#[tactic(auto, using(crate::proofs::Dead::dead_lemmas))]
fn is_dead_in_any(
    lives: &[LiveArguments],
    group: &[Declaration],
    param: &str,
    here: &[bool],
    args: &[HolType],
) -> bool
    ensures { result ≡ dead_in_any lives.now (map type_of group.now) param.now here.now (tys args.now) }
{
    for (i, arg) in args.iter().enumerate() {
        if i >= here.len() {
            return false;
        }
        if is_dead_at(lives, group, param, here[i], arg) {
            return true;
        }
    }
    false
}

/// The same of one argument.
#[cycle(dead)]
fn is_dead_at(
    lives: &[LiveArguments],
    group: &[Declaration],
    param: &str,
    live: bool,
    arg: &HolType,
) -> bool
    ensures { result ≡ (if live then dead_in lives.now (map type_of group.now) param.now arg.now else occurs param.now arg.now) }
{
    if live {
        is_dead_in(lives, group, param, arg)
    } else {
        arg.mentions(param)
    }
}

fn is_dead_in_ctor(
    lives: &[LiveArguments],
    group: &[Declaration],
    param: &str,
    ctor: &Constructor,
) -> bool
    ensures { result ≡ dead_in_ctor lives.now (map type_of group.now) param.now ctor.now }
{
    ctor.args()
        .iter()
        .any(|arg| is_dead_in(lives, group, param, arg.ty()))
}

#[tactic(auto, using(crate::proofs::Dead::group_lemmas))]
fn is_dead_in_decl(
    lives: &[LiveArguments],
    group: &[Declaration],
    param: &str,
    decl: &Declaration,
) -> bool
    ensures { result ≡ dead_in_decl lives.now (map type_of group.now) param.now decl.now }
{
    for ctor in decl.ctors() {
        if is_dead_in_ctor(lives, group, param, ctor) {
            return true;
        }
    }
    false
}

/// Whether the parameter of the group is live: it occurs in no argument of a constructor inside a dead argument of a type
/// constructor. The types of the group stand at the parameters and are left out. `lives` tells the live arguments of the type
/// constructors that were there before.
#[tactic(auto, using(crate::proofs::Dead::group_lemmas))]
pub fn is_live(lives: &[LiveArguments], group: &[Declaration], param: &str) -> bool
    ensures { result ≡ is_live lives.now group.now param.now }
{
    for decl in group {
        if is_dead_in_decl(lives, group, param, decl) {
            return false;
        }
    }
    true
}
