//! Which arguments of type constructors are live, and which parameters of declared types.

ghost use Rattle.std.specs.Prelude.{◌≡◌, string_bytes};
ghost use Rattle.hol_terms.specs.Ty.{tys};
ghost use Rattle.decl_core.specs.Functors.{lives_of};
ghost use Rattle.decl_core.specs.Liveness.{is_one_of, basic, of_two, is_countable, are_countable};

use hol_terms::types::{HolType, TypeNode};
use std::marker::Model;

/// A type constructor, and for each of its arguments whether it is live.
#[derive(Drop)]
pub struct LiveArguments {
    name: String,
    live: Vec<bool>,
}

impl Model for LiveArguments {
    ghost use Rattle.std.specs.Prelude.{List, Bool, string_bytes};
    ghost use Rattle.std.specs.Coded.{coded×, coded_list, coded_bool};
    ghost use Rattle.hol_terms.specs.Name.{Name};
    ghost use Rattle.decl_core.specs.Declaration.{name_code};

    ghost Value = { Name × List Bool };

    ghost coded = { coded× name_code (coded_list coded_bool) };

    ghost view = { λ a. (string_bytes a.name, a.live.items) };
}

impl LiveArguments {
    pub fn new(name: String, live: Vec<bool>) -> LiveArguments
        ensures { result ≡ (string_bytes name, live.items) }
    {
        LiveArguments { name, live }
    }

    pub fn name(&self) -> &str
        ensures { result.now ≡ self.now.0 }
    {
        self.name.as_str()
    }

    pub fn live(&self) -> &[bool]
        ensures { result.now ≡ self.now.1 }
    {
        &self.live
    }
}

/// Which arguments of the type constructor are live: none where it isn't among these.
#[tactic(auto, using(crate::proofs::TypeLists::lives_lemmas))]
pub fn lives_of<'a>(lives: &'a [LiveArguments], name: &str) -> &'a [bool]
    ensures { result.now ≡ lives_of lives.now name.now }
{
    for entry in lives {
        if entry.name() == name {
            return entry.live();
        }
    }
    &[]
}

/// Whether the type is countable whatever else is declared: `unit`, `bool`, `num`, and products and sums of such types.
#[cycle(countable)]
#[tactic(auto, using(crate::proofs::TypeLists::countable_lemmas))]
pub fn is_countable(ty: &HolType) -> bool
    ensures { result ≡ is_countable ty.now }
{
    match ty.view() {
        TypeNode::Var(_) => false,
        TypeNode::App(name, args) => {
            if args.is_empty() {
                is_basic(name)
            } else {
                is_of_two(name) && are_countable(args)
            }
        }
    }
}

fn is_basic(name: &str) -> bool
    ensures { result ≡ is_one_of name.now basic }
{
    name == "unit" || name == "bool" || name == "num"
}

fn is_of_two(name: &str) -> bool
    ensures { result ≡ is_one_of name.now of_two }
{
    name == "prod" || name == "sum"
}

#[cycle(countable)]
#[tactic(auto, using(crate::proofs::TypeLists::countable_lemmas))]
fn are_countable(types: &[HolType]) -> bool
    ensures { result ≡ are_countable (tys types.now) }
{
    for ty in types {
        if !is_countable(ty) {
            return false;
        }
    }
    true
}
