//! The rules of a term, and of a term and a theorem.

ghost use Rattle.std.specs.Prelude.{◌≡◌, [], IfOk, IsSome, Some};
ghost use Rattle.hol_terms.specs.Signature.{IsOver};
ghost use Rattle.hol_terms.specs.Definition.{signature_of};
ghost use Rattle.hol_kernel.specs.State.{Has, Grows};
ghost use Rattle.nd_rules.specs.Kept.{HasRules};
ghost use Rattle.script_core.specs.Steps.{term_rule, term_thm_rule};

use crate::conversions::{beta_converted, beta_normed, eta_converted, rewritten};
use crate::entries::variable_of;
use crate::rule::{TermRule, TermThmRule};
use hol_kernel::{Kernel, Thm};
use hol_terms::terms::Term;
use nd_rules::Rules;
use std::alloc::{AllocError, Global};

pub(crate) fn by_term(
    alloc: Global,
    k: &mut Kernel,
    rules: &Rules,
    rule: TermRule,
    t: &Term,
) -> Result<Thm, AllocError>
    requires rules { HasRules k.old rules.now }
    requires over { IsOver (signature_of k.old.defs) [] t.now }
    requires fits { IsSome (term_rule rule t.now) }
    ensures exact { IfOk result (λ th. term_rule rule t.now ≡ Some th.sequent) }
    ensures has { IfOk result (λ th. Has k.new th) }
    ensures grows { Grows k.old k.new }
{
    match rule {
        TermRule::Refl => k.refl(alloc, t),
        TermRule::Assume => k.assume(alloc, t),
        TermRule::Beta => k.beta(alloc, t),
        TermRule::BetaConv => beta_converted(alloc, k, t),
        TermRule::EtaConv => eta_converted(alloc, k, t),
        TermRule::BetaNorm => beta_normed(alloc, k, t),
    }
}

pub(crate) fn by_term_and_thm(
    alloc: Global,
    k: &mut Kernel,
    rules: &Rules,
    rule: TermThmRule,
    t: &Term,
    a: &Thm,
) -> Result<Thm, AllocError>
    requires rules { HasRules k.old rules.now }
    requires over { IsOver (signature_of k.old.defs) [] t.now }
    requires has_a { Has k.old a.now }
    requires fits { IsSome (term_thm_rule rule t.now a.now.sequent) }
    ensures exact { IfOk result (λ th. term_thm_rule rule t.now a.now.sequent ≡ Some th.sequent) }
    ensures has { IfOk result (λ th. Has k.new th) }
    ensures grows { Grows k.old k.new }
{
    match rule {
        TermThmRule::Abs => {
            let v = variable_of(k, t);
            k.abs(alloc, v, a)
        }
        TermThmRule::Gen => {
            let v = variable_of(k, t);
            rules.gen_(alloc, k, v, a)
        }
        TermThmRule::DisjR => rules.disj_r(alloc, k, t, a),
        TermThmRule::Disch => rules.disch(alloc, k, t, a),
        TermThmRule::Spec => rules.spec(alloc, k, t, a),
        TermThmRule::RewriteAll => rewritten(alloc, k, t, a),
    }
}
