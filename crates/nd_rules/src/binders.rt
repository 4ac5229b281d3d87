//! The rules of the quantifiers, and of substitution (HOL Light).

ghost use Rattle.std.specs.Prelude.{◌≡◌, [], true, false, IfOk, IsSome, Some};
ghost use Rattle.hol_terms.specs.Tm.{tm_free, tm_comb, tm_abs};
ghost use Rattle.hol_terms.specs.Typing.{tm_type};
ghost use Rattle.hol_terms.specs.Binding.{has_free};
ghost use Rattle.hol_terms.specs.Signature.{IsOver};
ghost use Rattle.hol_terms.specs.Definition.{bool_ty, signature_of};
ghost use Rattle.hol_terms.specs.Notation.{◌⇒◌};
ghost use Rattle.hol_terms.specs.Sequent.{seq, eq_tm, union};
ghost use Rattle.hol_terms.specs.Rules.{without, free_in_none, lambda};
ghost use Rattle.hol_terms.specs.Logic.{const_T, const_all, const_ex};
ghost use Rattle.hol_kernel.specs.Ascending.{Ascends};
ghost use Rattle.hol_kernel.specs.State.{Has, Grows};
ghost use Rattle.hol_conv.specs.Reduction.{reduct};
ghost use Rattle.nd_rules.specs.Kept.{HasRules};
ghost use Rattle.nd_rules.specs.Shapes.{IsFormula, IsPredicate};
ghost use Rattle.nd_rules.specs.Connectives.{imp_tm};
ghost use Rattle.nd_rules.specs.Quantifiers.{each_case};
ghost use Rattle.nd_rules.specs.Binders.{gen_rule, spec_rule, ex_i_rule, choose_rule, subst_rule};

use crate::operands::{conclusion, predicate, sides};
use crate::places::{
    ALL_APPLIED, ALL_FOLD, CONJ_FIRST, CONJ_WITH, EX_APPLIED, EX_SHOWN, IS_TRUE, MEANS_IMP,
    SYMMETRY,
};
use crate::rule_tables::{CHOOSE, EX_I, FOLD, IMPLIED, LAMBDAS, SPEC, SUBST};
use crate::rules::Rules;
use hol_conv::beta::beta_conv;
use hol_kernel::{Kernel, Thm};
use hol_terms::terms::{Term, Var};
use kernel_lines::run_lines;
use std::alloc::{AllocError, Global};

/// `|- p t = b` with t for x, where p is `\x. b`.
#[tactic(auto, using(kernel_lines::proofs::Given::grows_lemmas))]
fn case(alloc: Global, k: &mut Kernel, p: &Term, t: &Term) -> Result<Thm, AllocError>
    requires predicate { IsPredicate (signature_of k.old.defs) (tm_type t.now) p.now }
    requires over { IsOver (signature_of k.old.defs) [] t.now }
    ensures exact { IfOk result (λ th. th.sequent ≡ seq [] (eq_tm (tm_comb p.now t.now) (reduct p.now t.now))) }
    ensures boolean { IfOk result (λ th. tm_type (reduct p.now t.now) ≡ bool_ty) }
    ensures has { IfOk result (λ th. Has k.new th) }
    ensures grows { Grows k.old k.new }
{
    let redex = Term::mk_comb(alloc, p, t)?;
    let th = beta_conv(alloc, k, &redex)?;
    let _sides = sides(k, &th);
    Ok(th)
}

impl Rules {
    /// GEN: `A |- p`, where v is free in no hypothesis, gives `A |- !v. p`.
    #[tactic(auto, using(crate::proofs::Shapes::rule_lemmas))]
    pub fn gen_(&self, alloc: Global, k: &mut Kernel, v: &Var, a: &Thm) -> Result<Thm, AllocError>
        requires rules { HasRules k.old self.now }
        requires had_a { Has k.old a.now }
        requires over { IsOver (signature_of k.old.defs) [] (tm_free v.now) }
        requires fits { IsSome (gen_rule v.now a.now.sequent) }
        ensures exact { IfOk result (λ th. gen_rule v.now a.now.sequent ≡ Some th.sequent) }
        ensures has { IfOk result (λ th. Has k.new th) }
        ensures grows { Grows k.old k.new }
    {
        let x = Term::mk_var(alloc, v)?;
        let p = conclusion(k, a);
        let th = self.generalised(alloc, k, v, &x, p, a)?;
        Ok(th)
    }

    /// `A |- p` gives `A |- !x. p`, where x is a variable that is free in no hypothesis.
    #[tactic(auto, using(crate::proofs::Shapes::rule_lemmas))]
    fn generalised<'x>(
        &self,
        alloc: Global,
        k: &mut Kernel,
        v: &'x Var,
        x: &'x Term,
        p: &'x Term,
        a: &'x Thm,
    ) -> Result<Thm, AllocError>
        requires rules { HasRules k.old self.now }
        requires had_a { Has k.old a.now }
        requires concl { p.now ≡ a.now.sequent.concl }
        requires formula { IsFormula (signature_of k.old.defs) p.now }
        requires variable { x.now ≡ tm_free v.now }
        requires over { IsOver (signature_of k.old.defs) [] x.now }
        requires free { free_in_none v.now a.now.sequent.hyps ≡ true }
        ensures exact { IfOk result (λ th. th.sequent ≡ seq a.now.sequent.hyps (tm_comb (const_all v.now.ty) (lambda v.now a.now.sequent.concl))) }
        ensures has { IfOk result (λ th. Has k.new th) }
        ensures grows { Grows k.old k.new }
    {
        let lambdas = self.lambdas(alloc, k, v, x, p, a)?;
        let (l, _) = sides(k, &lambdas);
        let th = self.folded(alloc, k, x, l, &lambdas)?;
        Ok(th)
    }

    /// `A |- p` gives `A |- (\x. p) = (\x. T)`, where x is a variable that is free in no hypothesis.
    #[tactic(auto, using(crate::proofs::Shapes::rule_lemmas))]
    fn lambdas<'x>(
        &self,
        alloc: Global,
        k: &mut Kernel,
        v: &'x Var,
        x: &'x Term,
        p: &'x Term,
        a: &'x Thm,
    ) -> Result<Thm, AllocError>
        requires rules { HasRules k.old self.now }
        requires had_a { Has k.old a.now }
        requires concl { p.now ≡ a.now.sequent.concl }
        requires formula { IsFormula (signature_of k.old.defs) p.now }
        requires variable { x.now ≡ tm_free v.now }
        requires over { IsOver (signature_of k.old.defs) [] x.now }
        requires free { free_in_none v.now a.now.sequent.hyps ≡ true }
        ensures exact { IfOk result (λ th. th.sequent ≡ seq a.now.sequent.hyps (eq_tm (lambda v.now p.now) (tm_abs v.now.ty const_T))) }
        ensures has { IfOk result (λ th. Has k.new th) }
        ensures grows { Grows k.old k.new }
    {
        let is_true = self.kept(k, IS_TRUE);
        let th = run_lines(alloc, k, &[x, p], &[a, is_true], &LAMBDAS)?;
        Ok(th)
    }

    /// `A |- p = (\x. T)` gives `A |- (!) p`, where p takes terms of the type of x.
    #[tactic(auto, using(crate::proofs::Shapes::rule_lemmas))]
    fn folded<'x>(
        &self,
        alloc: Global,
        k: &mut Kernel,
        x: &'x Term,
        p: &'x Term,
        a: &'x Thm,
    ) -> Result<Thm, AllocError>
        requires rules { HasRules k.old self.now }
        requires over_x { IsOver (signature_of k.old.defs) [] x.now }
        requires over_p { IsOver (signature_of k.old.defs) [] p.now }
        requires typed { tm_type p.now ≡ tm_type x.now ⇒ bool_ty }
        requires had_a { Has k.old a.now }
        requires is { a.now.sequent.concl ≡ eq_tm p.now (tm_abs (tm_type x.now) const_T) }
        ensures exact { IfOk result (λ th. th.sequent ≡ seq a.now.sequent.hyps (tm_comb (const_all (tm_type x.now)) p.now)) }
        ensures has { IfOk result (λ th. Has k.new th) }
        ensures grows { Grows k.old k.new }
    {
        let fold = self.kept(k, ALL_FOLD);
        let th = run_lines(alloc, k, &[x, p], &[a, fold], &FOLD)?;
        Ok(th)
    }

    /// SPEC: `A |- !x. p`, where t has the type of x, gives `A |- p` with t for x.
    #[tactic(auto, using(crate::proofs::Shapes::rule_lemmas))]
    pub fn spec(&self, alloc: Global, k: &mut Kernel, t: &Term, a: &Thm) -> Result<Thm, AllocError>
        requires rules { HasRules k.old self.now }
        requires had_a { Has k.old a.now }
        requires over { IsOver (signature_of k.old.defs) [] t.now }
        requires fits { IsSome (spec_rule t.now a.now.sequent) }
        ensures exact { IfOk result (λ th. spec_rule t.now a.now.sequent ≡ Some th.sequent) }
        ensures has { IfOk result (λ th. Has k.new th) }
        ensures grows { Grows k.old k.new }
    {
        let concl = conclusion(k, a);
        let p = predicate(k, t, concl);
        let case = case(alloc, k, p, t)?;
        let th = self.instance(alloc, k, p, t, a, &case)?;
        Ok(th)
    }

    /// `A |- !x. p x` and `|- p t = r` give `A |- r`.
    #[tactic(auto, using(crate::proofs::Shapes::rule_lemmas))]
    fn instance<'x>(
        &self,
        alloc: Global,
        k: &mut Kernel,
        p: &'x Term,
        t: &'x Term,
        a: &'x Thm,
        case: &'x Thm,
    ) -> Result<Thm, AllocError>
        requires rules { HasRules k.old self.now }
        requires over { IsOver (signature_of k.old.defs) [] t.now }
        requires predicate { IsPredicate (signature_of k.old.defs) (tm_type t.now) p.now }
        requires had_a { Has k.old a.now }
        requires had_case { Has k.old case.now }
        requires is_a { a.now.sequent.concl ≡ tm_comb (const_all (tm_type t.now)) p.now }
        requires is_case { case.now.sequent ≡ seq [] (eq_tm (tm_comb p.now t.now) (reduct p.now t.now)) }
        requires ascends { Ascends a.now.sequent.hyps }
        ensures exact { IfOk result (λ th. th.sequent ≡ seq a.now.sequent.hyps (reduct p.now t.now)) }
        ensures has { IfOk result (λ th. Has k.new th) }
        ensures grows { Grows k.old k.new }
    {
        let applied = self.kept(k, ALL_APPLIED);
        let th = run_lines(alloc, k, &[p, t], &[a, case, applied], &SPEC)?;
        Ok(th)
    }

    /// EXISTS: `A |- p` with t for x, where t has the type of x, gives `A |- ?x. p`, which is e.
    #[tactic(auto, using(crate::proofs::Shapes::rule_lemmas))]
    pub fn ex_i(
        &self,
        alloc: Global,
        k: &mut Kernel,
        e: &Term,
        t: &Term,
        a: &Thm,
    ) -> Result<Thm, AllocError>
        requires rules { HasRules k.old self.now }
        requires had_a { Has k.old a.now }
        requires over_e { IsOver (signature_of k.old.defs) [] e.now }
        requires over_t { IsOver (signature_of k.old.defs) [] t.now }
        requires fits { IsSome (ex_i_rule e.now t.now a.now.sequent) }
        ensures exact { IfOk result (λ th. ex_i_rule e.now t.now a.now.sequent ≡ Some th.sequent) }
        ensures has { IfOk result (λ th. Has k.new th) }
        ensures grows { Grows k.old k.new }
    {
        let p = predicate(k, t, e);
        let _before = conclusion(k, a);
        let case = case(alloc, k, p, t)?;
        let th = self.witnessed(alloc, k, p, t, a, &case)?;
        Ok(th)
    }

    /// `A |- r` and `|- p t = r` give `A |- ?x. p x`.
    #[tactic(auto, using(crate::proofs::Shapes::rule_lemmas))]
    fn witnessed<'x>(
        &self,
        alloc: Global,
        k: &mut Kernel,
        p: &'x Term,
        t: &'x Term,
        a: &'x Thm,
        case: &'x Thm,
    ) -> Result<Thm, AllocError>
        requires rules { HasRules k.old self.now }
        requires over { IsOver (signature_of k.old.defs) [] t.now }
        requires predicate { IsPredicate (signature_of k.old.defs) (tm_type t.now) p.now }
        requires had_a { Has k.old a.now }
        requires had_case { Has k.old case.now }
        requires is_a { a.now.sequent.concl ≡ reduct p.now t.now }
        requires is_case { case.now.sequent ≡ seq [] (eq_tm (tm_comb p.now t.now) (reduct p.now t.now)) }
        requires boolean { tm_type (reduct p.now t.now) ≡ bool_ty }
        requires ascends { Ascends a.now.sequent.hyps }
        ensures exact { IfOk result (λ th. th.sequent ≡ seq a.now.sequent.hyps (tm_comb (const_ex (tm_type t.now)) p.now)) }
        ensures has { IfOk result (λ th. Has k.new th) }
        ensures grows { Grows k.old k.new }
    {
        let symmetry = self.kept(k, SYMMETRY);
        let shown = self.kept(k, EX_SHOWN);
        let th = run_lines(alloc, k, &[p, t], &[a, case, symmetry, shown], &EX_I)?;
        Ok(th)
    }

    /// `B |- q` and `|- p x = r` give `(B without r) |- p x ==> q`.
    #[tactic(auto, using(crate::proofs::Shapes::rule_lemmas))]
    fn implied<'x>(
        &self,
        alloc: Global,
        k: &mut Kernel,
        x: &'x Term,
        p: &'x Term,
        q: &'x Term,
        b: &'x Thm,
        case: &'x Thm,
    ) -> Result<Thm, AllocError>
        requires rules { HasRules k.old self.now }
        requires over { IsOver (signature_of k.old.defs) [] x.now }
        requires predicate { IsPredicate (signature_of k.old.defs) (tm_type x.now) p.now }
        requires formula { IsFormula (signature_of k.old.defs) q.now }
        requires had_b { Has k.old b.now }
        requires had_case { Has k.old case.now }
        requires is_b { b.now.sequent.concl ≡ q.now }
        requires is_case { case.now.sequent ≡ seq [] (eq_tm (tm_comb p.now x.now) (reduct p.now x.now)) }
        requires boolean { tm_type (reduct p.now x.now) ≡ bool_ty }
        ensures exact { IfOk result (λ th. th.sequent ≡ seq (without (reduct p.now x.now) b.now.sequent.hyps) (imp_tm (tm_comb p.now x.now) q.now)) }
        ensures has { IfOk result (λ th. Has k.new th) }
        ensures grows { Grows k.old k.new }
    {
        let symmetry = self.kept(k, SYMMETRY);
        let with = self.kept(k, CONJ_WITH);
        let first = self.kept(k, CONJ_FIRST);
        let imp = self.kept(k, MEANS_IMP);
        let th = run_lines(
            alloc,
            k,
            &[x, p, q],
            &[b, case, symmetry, with, first, imp],
            &IMPLIED,
        )?;
        Ok(th)
    }

    /// `B |- q` gives `(B without p x) |- !x. p x ==> q`, where p x stands reduced in B, and x, the variable v, is free neither in p,
    /// nor in q, nor in another hypothesis.
    #[tactic(auto, using(crate::proofs::Shapes::rule_lemmas))]
    fn each<'x>(
        &self,
        alloc: Global,
        k: &mut Kernel,
        v: &'x Var,
        x: &'x Term,
        p: &'x Term,
        b: &'x Thm,
    ) -> Result<Thm, AllocError>
        requires rules { HasRules k.old self.now }
        requires over { IsOver (signature_of k.old.defs) [] x.now }
        requires predicate { IsPredicate (signature_of k.old.defs) (tm_type x.now) p.now }
        requires had_b { Has k.old b.now }
        requires variable { x.now ≡ tm_free v.now }
        requires not_in_p { has_free v.now p.now ≡ false }
        requires not_in_q { has_free v.now b.now.sequent.concl ≡ false }
        requires in_no_other { free_in_none v.now (without (reduct p.now x.now) b.now.sequent.hyps) ≡ true }
        ensures exact { IfOk result (λ th. th.sequent ≡ seq (without (reduct p.now x.now) b.now.sequent.hyps) (each_case (tm_type x.now) p.now b.now.sequent.concl)) }
        ensures has { IfOk result (λ th. Has k.new th) }
        ensures grows { Grows k.old k.new }
    {
        let q = conclusion(k, b);
        let case = case(alloc, k, p, x)?;
        let implied = self.implied(alloc, k, x, p, q, b, &case)?;
        let concl = conclusion(k, &implied);
        let th = self.generalised(alloc, k, v, x, concl, &implied)?;
        Ok(th)
    }

    /// CHOOSE: `A |- ?x. p` and `B |- q`, where v has the type of x and is free neither in `?x. p`, nor in q, nor in a hypothesis of
    /// B other than p with v for x, give `A, (B without p with v for x) |- q`.
    #[tactic(auto, using(crate::proofs::Shapes::rule_lemmas))]
    pub fn choose(
        &self,
        alloc: Global,
        k: &mut Kernel,
        v: &Var,
        a: &Thm,
        b: &Thm,
    ) -> Result<Thm, AllocError>
        requires rules { HasRules k.old self.now }
        requires had_a { Has k.old a.now }
        requires had_b { Has k.old b.now }
        requires over { IsOver (signature_of k.old.defs) [] (tm_free v.now) }
        requires fits { IsSome (choose_rule v.now a.now.sequent b.now.sequent) }
        ensures exact { IfOk result (λ th. choose_rule v.now a.now.sequent b.now.sequent ≡ Some th.sequent) }
        ensures has { IfOk result (λ th. Has k.new th) }
        ensures grows { Grows k.old k.new }
    {
        let x = Term::mk_var(alloc, v)?;
        let concl = conclusion(k, a);
        let p = predicate(k, &x, concl);
        let q = conclusion(k, b);
        let each = self.each(alloc, k, v, &x, p, b)?;
        let th = self.shown_by_each(alloc, k, &x, p, q, a, &each)?;
        Ok(th)
    }

    /// `A |- ?x. p x` and `B |- !x. p x ==> q` give `A, B |- q`, where x is a variable.
    #[tactic(auto, using(crate::proofs::Shapes::rule_lemmas))]
    fn shown_by_each<'x>(
        &self,
        alloc: Global,
        k: &mut Kernel,
        x: &'x Term,
        p: &'x Term,
        q: &'x Term,
        a: &'x Thm,
        each: &'x Thm,
    ) -> Result<Thm, AllocError>
        requires rules { HasRules k.old self.now }
        requires over { IsOver (signature_of k.old.defs) [] x.now }
        requires predicate { IsPredicate (signature_of k.old.defs) (tm_type x.now) p.now }
        requires formula { IsFormula (signature_of k.old.defs) q.now }
        requires had_a { Has k.old a.now }
        requires had_each { Has k.old each.now }
        requires is_a { a.now.sequent.concl ≡ tm_comb (const_ex (tm_type x.now)) p.now }
        requires is_each { each.now.sequent.concl ≡ each_case (tm_type x.now) p.now q.now }
        requires ascends { Ascends a.now.sequent.hyps }
        ensures exact { IfOk result (λ th. th.sequent ≡ seq (union a.now.sequent.hyps each.now.sequent.hyps) q.now) }
        ensures has { IfOk result (λ th. Has k.new th) }
        ensures grows { Grows k.old k.new }
    {
        let applied = self.kept(k, EX_APPLIED);
        let th = run_lines(alloc, k, &[x, p, q], &[a, each, applied], &CHOOSE)?;
        Ok(th)
    }

    /// SUBST: `A |- s = u` and `B |- t` with s for v, where v has the type of s, give `A, B |- t` with u for v.
    #[tactic(auto, using(crate::proofs::Shapes::rule_lemmas))]
    pub fn subst(
        &self,
        alloc: Global,
        k: &mut Kernel,
        v: &Var,
        t: &Term,
        a: &Thm,
        b: &Thm,
    ) -> Result<Thm, AllocError>
        requires rules { HasRules k.old self.now }
        requires had_a { Has k.old a.now }
        requires had_b { Has k.old b.now }
        requires over_v { IsOver (signature_of k.old.defs) [] (tm_free v.now) }
        requires over_t { IsOver (signature_of k.old.defs) [] t.now }
        requires fits { IsSome (subst_rule v.now t.now a.now.sequent b.now.sequent) }
        ensures exact { IfOk result (λ th. subst_rule v.now t.now a.now.sequent b.now.sequent ≡ Some th.sequent) }
        ensures has { IfOk result (λ th. Has k.new th) }
        ensures grows { Grows k.old k.new }
    {
        let context = Term::mk_abs(alloc, v, t)?;
        let (s, u) = sides(k, a);
        let _before = conclusion(k, b);
        let _equation = conclusion(k, a);
        let from = case(alloc, k, &context, s)?;
        let to = case(alloc, k, &context, u)?;
        let th = self.in_context(alloc, k, &context, s, u, a, b, &from, &to)?;
        Ok(th)
    }

    /// `A |- s = u`, `B |- q`, `|- p s = q` and `|- p u = r` give `A, B |- r`.
    #[tactic(auto, using(crate::proofs::Shapes::rule_lemmas))]
    fn in_context<'x>(
        &self,
        alloc: Global,
        k: &mut Kernel,
        p: &'x Term,
        s: &'x Term,
        u: &'x Term,
        a: &'x Thm,
        b: &'x Thm,
        from: &'x Thm,
        to: &'x Thm,
    ) -> Result<Thm, AllocError>
        requires rules { HasRules k.old self.now }
        requires predicate { IsPredicate (signature_of k.old.defs) (tm_type s.now) p.now }
        requires typed { tm_type u.now ≡ tm_type s.now }
        requires had_a { Has k.old a.now }
        requires had_b { Has k.old b.now }
        requires had_from { Has k.old from.now }
        requires had_to { Has k.old to.now }
        requires is_a { a.now.sequent.concl ≡ eq_tm s.now u.now }
        requires is_b { b.now.sequent.concl ≡ reduct p.now s.now }
        requires is_from { from.now.sequent ≡ seq [] (eq_tm (tm_comb p.now s.now) (reduct p.now s.now)) }
        requires is_to { to.now.sequent ≡ seq [] (eq_tm (tm_comb p.now u.now) (reduct p.now u.now)) }
        requires boolean_from { tm_type (reduct p.now s.now) ≡ bool_ty }
        requires boolean_to { tm_type (reduct p.now u.now) ≡ bool_ty }
        requires ascends { Ascends a.now.sequent.hyps }
        ensures exact { IfOk result (λ th. th.sequent ≡ seq (union a.now.sequent.hyps b.now.sequent.hyps) (reduct p.now u.now)) }
        ensures has { IfOk result (λ th. Has k.new th) }
        ensures grows { Grows k.old k.new }
    {
        let symmetry = self.kept(k, SYMMETRY);
        let th = run_lines(alloc, k, &[p], &[a, b, from, to, symmetry], &SUBST)?;
        Ok(th)
    }
}
