//! The rules of one and of two theorems.

ghost use Rattle.std.specs.Prelude.{◌≡◌, IfOk, IsSome, Some};
ghost use Rattle.hol_kernel.specs.State.{Has, Grows};
ghost use Rattle.nd_rules.specs.Kept.{HasRules};
ghost use Rattle.script_core.specs.Steps.{thm_rule, two_thm_rule};

use crate::conversions::normed;
use crate::rule::{ThmRule, TwoThmRule};
use hol_kernel::{Kernel, Thm};
use nd_rules::Rules;
use std::alloc::{AllocError, Global};

pub(crate) fn by_thm(
    alloc: Global,
    k: &mut Kernel,
    rules: &Rules,
    rule: ThmRule,
    a: &Thm,
) -> Result<Thm, AllocError>
    requires rules { HasRules k.old rules.now }
    requires has_a { Has k.old a.now }
    requires fits { IsSome (thm_rule rule a.now.sequent) }
    ensures exact { IfOk result (λ th. thm_rule rule a.now.sequent ≡ Some th.sequent) }
    ensures has { IfOk result (λ th. Has k.new th) }
    ensures grows { Grows k.old k.new }
{
    match rule {
        ThmRule::ConjL => rules.conj_l(alloc, k, a),
        ThmRule::ConjR => rules.conj_r(alloc, k, a),
        ThmRule::NotI => rules.not_i(alloc, k, a),
        ThmRule::NotE => rules.not_e(alloc, k, a),
        ThmRule::Sym => rules.sym(alloc, k, a),
        ThmRule::EqtI => rules.eqt_i(alloc, k, a),
        ThmRule::EqtE => rules.eqt_e(alloc, k, a),
        ThmRule::Norm => normed(alloc, k, a),
    }
}

pub(crate) fn by_two_thms(
    alloc: Global,
    k: &mut Kernel,
    rules: &Rules,
    rule: TwoThmRule,
    a: &Thm,
    b: &Thm,
) -> Result<Thm, AllocError>
    requires rules { HasRules k.old rules.now }
    requires has_a { Has k.old a.now }
    requires has_b { Has k.old b.now }
    requires fits { IsSome (two_thm_rule rule a.now.sequent b.now.sequent) }
    ensures exact { IfOk result (λ th. two_thm_rule rule a.now.sequent b.now.sequent ≡ Some th.sequent) }
    ensures has { IfOk result (λ th. Has k.new th) }
    ensures grows { Grows k.old k.new }
{
    match rule {
        TwoThmRule::Trans => k.trans(alloc, a, b),
        TwoThmRule::Comb => k.mk_comb(alloc, a, b),
        TwoThmRule::EqMp => k.eq_mp(alloc, a, b),
        TwoThmRule::Deduct => k.deduct(alloc, a, b),
        TwoThmRule::ConjI => rules.conj_i(alloc, k, a, b),
        TwoThmRule::Mp => rules.mp(alloc, k, a, b),
    }
}
