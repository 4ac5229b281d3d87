//! Theorem lines: the entries that their words name, and the rule.

ghost use Rattle.std.specs.Prelude.{◌≡◌, IfOk, IsSome, Some, slice_get};
ghost use Rattle.hol_kernel.specs.State.{Has, Grows};
ghost use Rattle.hol_kernel.specs.Run.{axiom_at};
ghost use Rattle.nd_rules.specs.Connectives.{disj_l_rule, disj_e_rule};
ghost use Rattle.nd_rules.specs.Binders.{ex_i_rule, choose_rule, subst_rule};
ghost use Rattle.kernel_lines.specs.Bases.{HasBase};
ghost use Rattle.nd_rules.specs.Kept.{HasRules};
ghost use Rattle.kernel_lines.specs.Lines.{on};
ghost use Rattle.kernel_lines.specs.Ready.{behind, sequents};
ghost use Rattle.script_core.specs.Steps.{of_one, of_two, of_three, of_four, of_variable, term_rule, thm_rule, two_thm_rule, term_thm_rule, said_rule, type_instance, term_instance, rewritten_at, axiom_numbered, inferred};
ghost use Rattle.script_core.specs.Ready.{values, IsReady};

use crate::by_term::{by_term, by_term_and_thm};
use crate::by_thm::{by_thm, by_two_thms};
use crate::conversions::rewritten_at;
use crate::entries::{Entries, term_at, thm_at, variable_of};
use crate::pairs::{path_of, put_terms, put_types};
use crate::rule::{DefRule, Rule, TermRule, TermThmRule, ThmRule, TwoThmRule};
use crate::words::number;
use hol_kernel::{Kernel, Thm};
use nd_rules::Rules;
use std::alloc::{AllocError, Global};

fn of_term(
    alloc: Global,
    k: &mut Kernel,
    rules: &Rules,
    r: &Entries,
    rule: TermRule,
    words: &[&str],
) -> Result<Thm, AllocError>
    requires rules { HasRules k.old rules.now }
    requires ready { IsReady k.old r.now }
    requires fits { IsSome (of_one r.now.terms.items (term_rule rule) (behind words.now)) }
    ensures exact { IfOk result (λ th. of_one r.now.terms.items (term_rule rule) (behind words.now) ≡ Some th.sequent) }
    ensures has { IfOk result (λ th. Has k.new th) }
    ensures grows { Grows k.old k.new }
{
    match words {
        [t] => {
            let t = term_at(k, r, t);
            by_term(alloc, k, rules, rule, t)
        }
        _ => unreachable!(),
    }
}

fn of_thm(
    alloc: Global,
    k: &mut Kernel,
    rules: &Rules,
    r: &Entries,
    rule: ThmRule,
    words: &[&str],
) -> Result<Thm, AllocError>
    requires rules { HasRules k.old rules.now }
    requires ready { IsReady k.old r.now }
    requires fits { IsSome (of_one (sequents r.now.thms.items) (thm_rule rule) (behind words.now)) }
    ensures exact { IfOk result (λ th. of_one (sequents r.now.thms.items) (thm_rule rule) (behind words.now) ≡ Some th.sequent) }
    ensures has { IfOk result (λ th. Has k.new th) }
    ensures grows { Grows k.old k.new }
{
    match words {
        [a] => {
            let a = thm_at(k, r, a);
            by_thm(alloc, k, rules, rule, a)
        }
        _ => unreachable!(),
    }
}

fn of_two_thms(
    alloc: Global,
    k: &mut Kernel,
    rules: &Rules,
    r: &Entries,
    rule: TwoThmRule,
    words: &[&str],
) -> Result<Thm, AllocError>
    requires rules { HasRules k.old rules.now }
    requires ready { IsReady k.old r.now }
    requires fits { IsSome (of_two (sequents r.now.thms.items) (sequents r.now.thms.items) (two_thm_rule rule) (behind words.now)) }
    ensures exact { IfOk result (λ th. of_two (sequents r.now.thms.items) (sequents r.now.thms.items) (two_thm_rule rule) (behind words.now) ≡ Some th.sequent) }
    ensures has { IfOk result (λ th. Has k.new th) }
    ensures grows { Grows k.old k.new }
{
    match words {
        [a, b] => {
            let a = thm_at(k, r, a);
            let b = thm_at(k, r, b);
            by_two_thms(alloc, k, rules, rule, a, b)
        }
        _ => unreachable!(),
    }
}

fn of_term_and_thm(
    alloc: Global,
    k: &mut Kernel,
    rules: &Rules,
    r: &Entries,
    rule: TermThmRule,
    words: &[&str],
) -> Result<Thm, AllocError>
    requires rules { HasRules k.old rules.now }
    requires ready { IsReady k.old r.now }
    requires fits { IsSome (of_two r.now.terms.items (sequents r.now.thms.items) (term_thm_rule rule) (behind words.now)) }
    ensures exact { IfOk result (λ th. of_two r.now.terms.items (sequents r.now.thms.items) (term_thm_rule rule) (behind words.now) ≡ Some th.sequent) }
    ensures has { IfOk result (λ th. Has k.new th) }
    ensures grows { Grows k.old k.new }
{
    match words {
        [t, a] => {
            let t = term_at(k, r, t);
            let a = thm_at(k, r, a);
            by_term_and_thm(alloc, k, rules, rule, t, a)
        }
        _ => unreachable!(),
    }
}

/// What a definition says, by its place.
#[tactic(auto, using(crate::proofs::SaidLemmas::said_lemmas))]
fn said_at(alloc: Global, k: &Kernel, rule: DefRule, place: usize) -> Result<Thm, AllocError>
    requires fits { IsSome (on (slice_get k.now.defs place) (said_rule rule)) }
    ensures exact { IfOk result (λ th. on (slice_get k.now.defs place) (said_rule rule) ≡ Some th.sequent) }
    ensures has { IfOk result (λ th. Has k.now th) }
{
    match rule {
        DefRule::Constant => {
            let th = k.def_at(alloc, place)?;
            Ok(th)
        }
        DefRule::TypeAbs => {
            let (abs, _) = k.type_at(alloc, place)?;
            Ok(abs)
        }
        DefRule::TypeRep => {
            let (_, rep) = k.type_at(alloc, place)?;
            Ok(rep)
        }
    }
}

fn of_definition(
    alloc: Global,
    k: &Kernel,
    rule: DefRule,
    words: &[&str],
) -> Result<Thm, AllocError>
    requires fits { IsSome (of_one k.now.defs (said_rule rule) (behind words.now)) }
    ensures exact { IfOk result (λ th. of_one k.now.defs (said_rule rule) (behind words.now) ≡ Some th.sequent) }
    ensures has { IfOk result (λ th. Has k.now th) }
{
    match words {
        [word] => match number(word) {
            Some(place) => said_at(alloc, k, rule, place),
            None => unreachable!(),
        },
        _ => unreachable!(),
    }
}

#[tactic(auto, using(crate::proofs::SaidLemmas::axiom_lemmas))]
fn axiom(alloc: Global, k: &mut Kernel, words: &[&str]) -> Result<Thm, AllocError>
    requires base { HasBase k.old.defs }
    requires fits { IsSome (axiom_numbered (behind words.now)) }
    ensures exact { IfOk result (λ th. axiom_numbered (behind words.now) ≡ Some th.sequent) }
    ensures has { IfOk result (λ th. Has k.new th) }
    ensures grows { Grows k.old k.new }
{
    match words {
        [word] => match number(word) {
            Some(n) => k.axiom(alloc, n as u32),
            None => unreachable!(),
        },
        _ => unreachable!(),
    }
}

fn or_left(
    alloc: Global,
    k: &mut Kernel,
    rules: &Rules,
    r: &Entries,
    words: &[&str],
) -> Result<Thm, AllocError>
    requires rules { HasRules k.old rules.now }
    requires ready { IsReady k.old r.now }
    requires fits { IsSome (of_two (sequents r.now.thms.items) r.now.terms.items (λ a q. disj_l_rule a q) (behind words.now)) }
    ensures exact { IfOk result (λ th. of_two (sequents r.now.thms.items) r.now.terms.items (λ a q. disj_l_rule a q) (behind words.now) ≡ Some th.sequent) }
    ensures has { IfOk result (λ th. Has k.new th) }
    ensures grows { Grows k.old k.new }
{
    match words {
        [a, q] => {
            let a = thm_at(k, r, a);
            let q = term_at(k, r, q);
            rules.disj_l(alloc, k, a, q)
        }
        _ => unreachable!(),
    }
}

fn by_cases(
    alloc: Global,
    k: &mut Kernel,
    rules: &Rules,
    r: &Entries,
    words: &[&str],
) -> Result<Thm, AllocError>
    requires rules { HasRules k.old rules.now }
    requires ready { IsReady k.old r.now }
    requires fits { IsSome (of_three (sequents r.now.thms.items) (sequents r.now.thms.items) (sequents r.now.thms.items) (λ a b c. disj_e_rule a b c) (behind words.now)) }
    ensures exact { IfOk result (λ th. of_three (sequents r.now.thms.items) (sequents r.now.thms.items) (sequents r.now.thms.items) (λ a b c. disj_e_rule a b c) (behind words.now) ≡ Some th.sequent) }
    ensures has { IfOk result (λ th. Has k.new th) }
    ensures grows { Grows k.old k.new }
{
    match words {
        [a, b, c] => {
            let a = thm_at(k, r, a);
            let b = thm_at(k, r, b);
            let c = thm_at(k, r, c);
            rules.disj_e(alloc, k, a, b, c)
        }
        _ => unreachable!(),
    }
}

fn witnessed(
    alloc: Global,
    k: &mut Kernel,
    rules: &Rules,
    r: &Entries,
    words: &[&str],
) -> Result<Thm, AllocError>
    requires rules { HasRules k.old rules.now }
    requires ready { IsReady k.old r.now }
    requires fits { IsSome (of_three r.now.terms.items r.now.terms.items (sequents r.now.thms.items) (λ e t a. ex_i_rule e t a) (behind words.now)) }
    ensures exact { IfOk result (λ th. of_three r.now.terms.items r.now.terms.items (sequents r.now.thms.items) (λ e t a. ex_i_rule e t a) (behind words.now) ≡ Some th.sequent) }
    ensures has { IfOk result (λ th. Has k.new th) }
    ensures grows { Grows k.old k.new }
{
    match words {
        [e, t, a] => {
            let e = term_at(k, r, e);
            let t = term_at(k, r, t);
            let a = thm_at(k, r, a);
            rules.ex_i(alloc, k, e, t, a)
        }
        _ => unreachable!(),
    }
}

fn chosen(
    alloc: Global,
    k: &mut Kernel,
    rules: &Rules,
    r: &Entries,
    words: &[&str],
) -> Result<Thm, AllocError>
    requires rules { HasRules k.old rules.now }
    requires ready { IsReady k.old r.now }
    requires fits { IsSome (of_three r.now.terms.items (sequents r.now.thms.items) (sequents r.now.thms.items) (λ t a b. of_variable t (λ v. choose_rule v a b)) (behind words.now)) }
    ensures exact { IfOk result (λ th. of_three r.now.terms.items (sequents r.now.thms.items) (sequents r.now.thms.items) (λ t a b. of_variable t (λ v. choose_rule v a b)) (behind words.now) ≡ Some th.sequent) }
    ensures has { IfOk result (λ th. Has k.new th) }
    ensures grows { Grows k.old k.new }
{
    match words {
        [t, a, b] => {
            let t = term_at(k, r, t);
            let v = variable_of(k, t);
            let a = thm_at(k, r, a);
            let b = thm_at(k, r, b);
            rules.choose(alloc, k, v, a, b)
        }
        _ => unreachable!(),
    }
}

fn substituted(
    alloc: Global,
    k: &mut Kernel,
    rules: &Rules,
    r: &Entries,
    words: &[&str],
) -> Result<Thm, AllocError>
    requires rules { HasRules k.old rules.now }
    requires ready { IsReady k.old r.now }
    requires fits { IsSome (of_four r.now.terms.items r.now.terms.items (sequents r.now.thms.items) (sequents r.now.thms.items) (λ x t a b. of_variable x (λ v. subst_rule v t a b)) (behind words.now)) }
    ensures exact { IfOk result (λ th. of_four r.now.terms.items r.now.terms.items (sequents r.now.thms.items) (sequents r.now.thms.items) (λ x t a b. of_variable x (λ v. subst_rule v t a b)) (behind words.now) ≡ Some th.sequent) }
    ensures has { IfOk result (λ th. Has k.new th) }
    ensures grows { Grows k.old k.new }
{
    match words {
        [x, t, a, b] => {
            let x = term_at(k, r, x);
            let v = variable_of(k, x);
            let t = term_at(k, r, t);
            let a = thm_at(k, r, a);
            let b = thm_at(k, r, b);
            rules.subst(alloc, k, v, t, a, b)
        }
        _ => unreachable!(),
    }
}

#[tactic(auto, using(crate::proofs::PairLemmas::tail_lemmas))]
fn type_instance(
    alloc: Global,
    k: &mut Kernel,
    r: &Entries,
    words: &[&str],
) -> Result<Thm, AllocError>
    requires ready { IsReady k.old r.now }
    requires fits { IsSome (type_instance (values r.now) (behind words.now)) }
    ensures exact { IfOk result (λ th. type_instance (values r.now) (behind words.now) ≡ Some th.sequent) }
    ensures has { IfOk result (λ th. Has k.new th) }
    ensures grows { Grows k.old k.new }
{
    match words {
        [a, others @ ..] => {
            let a = thm_at(k, r, a);
            let pairs = put_types(alloc, k, r, others)?;
            k.inst_type(alloc, a, &pairs)
        }
        _ => unreachable!(),
    }
}

#[tactic(auto, using(crate::proofs::PairLemmas::tail_lemmas))]
fn term_instance(
    alloc: Global,
    k: &mut Kernel,
    r: &Entries,
    words: &[&str],
) -> Result<Thm, AllocError>
    requires ready { IsReady k.old r.now }
    requires fits { IsSome (term_instance (values r.now) (behind words.now)) }
    ensures exact { IfOk result (λ th. term_instance (values r.now) (behind words.now) ≡ Some th.sequent) }
    ensures has { IfOk result (λ th. Has k.new th) }
    ensures grows { Grows k.old k.new }
{
    match words {
        [a, others @ ..] => {
            let a = thm_at(k, r, a);
            let pairs = put_terms(alloc, k, r, others)?;
            k.inst(alloc, a, &pairs)
        }
        _ => unreachable!(),
    }
}

#[tactic(auto, using(crate::proofs::PairLemmas::tail_lemmas))]
fn rewritten_by_path(
    alloc: Global,
    k: &mut Kernel,
    r: &Entries,
    words: &[&str],
) -> Result<Thm, AllocError>
    requires ready { IsReady k.old r.now }
    requires fits { IsSome (rewritten_at (values r.now) (behind words.now)) }
    ensures exact { IfOk result (λ th. rewritten_at (values r.now) (behind words.now) ≡ Some th.sequent) }
    ensures has { IfOk result (λ th. Has k.new th) }
    ensures grows { Grows k.old k.new }
{
    match words {
        [t, a, others @ ..] => {
            let t = term_at(k, r, t);
            let a = thm_at(k, r, a);
            let path = path_of(alloc, others)?;
            rewritten_at(alloc, k, &path, t, a)
        }
        _ => unreachable!(),
    }
}

/// The theorem that a rule gives, from the entries that the words behind it name.
pub(crate) fn infer(
    alloc: Global,
    k: &mut Kernel,
    rules: &Rules,
    r: &Entries,
    rule: Rule,
    words: &[&str],
) -> Result<Thm, AllocError>
    requires rules { HasRules k.old rules.now }
    requires ready { IsReady k.old r.now }
    requires fits { IsSome (inferred k.old.defs (values r.now) rule (behind words.now)) }
    ensures exact { IfOk result (λ th. inferred k.old.defs (values r.now) rule (behind words.now) ≡ Some th.sequent) }
    ensures has { IfOk result (λ th. Has k.new th) }
    ensures grows { Grows k.old k.new }
{
    match rule {
        Rule::OfTerm(rule) => of_term(alloc, k, rules, r, rule, words),
        Rule::OfThm(rule) => of_thm(alloc, k, rules, r, rule, words),
        Rule::OfTwoThms(rule) => of_two_thms(alloc, k, rules, r, rule, words),
        Rule::OfTermAndThm(rule) => of_term_and_thm(alloc, k, rules, r, rule, words),
        Rule::OfDefinition(rule) => of_definition(alloc, k, rule, words),
        Rule::Axiom => axiom(alloc, k, words),
        Rule::DisjL => or_left(alloc, k, rules, r, words),
        Rule::DisjE => by_cases(alloc, k, rules, r, words),
        Rule::ExI => witnessed(alloc, k, rules, r, words),
        Rule::Choose => chosen(alloc, k, rules, r, words),
        Rule::Subst => substituted(alloc, k, rules, r, words),
        Rule::InstType => type_instance(alloc, k, r, words),
        Rule::Inst => term_instance(alloc, k, r, words),
        Rule::RewriteAt => rewritten_by_path(alloc, k, r, words),
    }
}
