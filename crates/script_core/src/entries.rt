//! The registers of a table, and the entries that words name.

ghost use Rattle.std.specs.Prelude.{◌≡◌, [], IsSome, Some};
ghost use Rattle.hol_terms.specs.Tm.{tm_free};
ghost use Rattle.hol_terms.specs.Signature.{IsTyOver, IsOver};
ghost use Rattle.hol_terms.specs.Definition.{signature_of};
ghost use Rattle.hol_terms.specs.Rules.{if_so, is_variable, variable};
ghost use Rattle.hol_kernel.specs.State.{Has};
ghost use Rattle.kernel_lines.specs.Ready.{sequents};
ghost use Rattle.script_core.specs.Steps.{entry};
ghost use Rattle.script_core.specs.Ready.{IsReady};

use crate::words::number;
use hol_kernel::{Kernel, Thm};
use hol_terms::terms::{Term, TermNode, Var};
use hol_terms::types::HolType;

/// The registers: what is given stands first, and each line adds one entry.
#[derive(Drop)]
pub(crate) struct Entries {
    pub(crate) types: Vec<HolType>,
    pub(crate) terms: Vec<Term>,
    pub(crate) thms: Vec<Thm>,
}

/// The type that a word names by its number.
#[tactic(auto, using(crate::proofs::EntryLemmas::entry_lemmas))]
pub(crate) fn type_at<'a>(k: &Kernel, r: &'a Entries, word: &str) -> &'a HolType
    requires ready { IsReady k.now r.now }
    requires fits { IsSome (entry r.now.types.items word.now) }
    ensures exact { entry r.now.types.items word.now ≡ Some result.now }
    ensures over { IsTyOver (signature_of k.now.defs) result.now }
{
    match number(word) {
        Some(n) => match r.types.get(n) {
            Some(ty) => ty,
            None => unreachable!(),
        },
        None => unreachable!(),
    }
}

/// The term that a word names by its number.
#[tactic(auto, using(crate::proofs::EntryLemmas::entry_lemmas))]
pub(crate) fn term_at<'a>(k: &Kernel, r: &'a Entries, word: &str) -> &'a Term
    requires ready { IsReady k.now r.now }
    requires fits { IsSome (entry r.now.terms.items word.now) }
    ensures exact { entry r.now.terms.items word.now ≡ Some result.now }
    ensures over { IsOver (signature_of k.now.defs) [] result.now }
{
    match number(word) {
        Some(n) => match r.terms.get(n) {
            Some(t) => t,
            None => unreachable!(),
        },
        None => unreachable!(),
    }
}

/// The theorem that a word names by its number.
#[tactic(auto, using(crate::proofs::EntryLemmas::entry_lemmas))]
pub(crate) fn thm_at<'a>(k: &Kernel, r: &'a Entries, word: &str) -> &'a Thm
    requires ready { IsReady k.now r.now }
    requires fits { IsSome (entry (sequents r.now.thms.items) word.now) }
    ensures exact { entry (sequents r.now.thms.items) word.now ≡ Some result.now.sequent }
    ensures has { Has k.now result.now }
{
    match number(word) {
        Some(n) => match r.thms.get(n) {
            Some(th) => th,
            None => unreachable!(),
        },
        None => unreachable!(),
    }
}

/// The variable that a term is.
pub(crate) fn variable_of<'a>(k: &Kernel, t: &'a Term) -> &'a Var
    requires over { IsOver (signature_of k.now.defs) [] t.now }
    requires fits { IsSome (if_so (is_variable t.now) (variable t.now)) }
    ensures exact { if_so (is_variable t.now) (variable t.now) ≡ Some result.now }
    ensures over { IsOver (signature_of k.now.defs) [] (tm_free result.now) }
{
    match t.view() {
        TermNode::Free(v) => v,
        _ => unreachable!(),
    }
}
