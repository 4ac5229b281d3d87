//! The rules of the connectives and of equations. A premise is a theorem of the kernel, and a term that a rule takes is well formed
//! over its definitions. Only steps are added. The one error is want of memory.

ghost use Rattle.std.specs.Prelude.{◌≡◌, true, [], IfOk, IsSome, Some};
ghost use Rattle.hol_terms.specs.Typing.{tm_type};
ghost use Rattle.hol_terms.specs.Signature.{IsOver};
ghost use Rattle.hol_terms.specs.Definition.{bool_ty, signature_of};
ghost use Rattle.hol_terms.specs.Sequent.{seq, eq_tm, left_of, argument, union};
ghost use Rattle.hol_terms.specs.Rules.{without};
ghost use Rattle.hol_kernel.specs.State.{Has, Grows};
ghost use Rattle.nd_rules.specs.Kept.{HasRules};
ghost use Rattle.nd_rules.specs.Connectives.{conj_tm, is_disj, conj_i_rule, conj_l_rule, conj_r_rule, disj_l_rule, disj_r_rule, disj_e_rule, not_i_rule, not_e_rule, disch_rule, mp_rule, sym_rule, eqt_i_rule, eqt_e_rule};

use crate::operands::{conclusion, operand, operands, sides};
use crate::places::{
    CASES, CONJ_FIRST, CONJ_SECOND, CONJ_WITH, DISJ_FIRST, DISJ_SECOND, IMP_APPLIED, IS_TRUE,
    MEANS_IMP, MEANS_NOT, NOT_MEANS, SYMMETRY, TRUE_IS,
};
use crate::rule_tables::{
    CONJ_I, CONJ_L, CONJ_R, DISCH, DISJ_L, DISJ_R, EQT_E, EQT_I, MERGE, MP, NOT_E, NOT_I, SYM,
    UNDER,
};
use crate::rules::Rules;
use hol_kernel::{Kernel, Thm};
use hol_terms::terms::Term;
use kernel_lines::run_lines;
use std::alloc::{AllocError, Global};

impl Rules {
    /// `A |- p` and `B |- q` give `A, B |- p /\ q` (HOL Light's CONJ).
    #[tactic(auto, using(crate::proofs::Shapes::rule_lemmas))]
    pub fn conj_i(&self, alloc: Global, k: &mut Kernel, a: &Thm, b: &Thm) -> Result<Thm, AllocError>
        requires rules { HasRules k.old self.now }
        requires had_a { Has k.old a.now }
        requires had_b { Has k.old b.now }
        ensures exact { IfOk result (λ th. conj_i_rule a.now.sequent b.now.sequent ≡ Some th.sequent) }
        ensures has { IfOk result (λ th. Has k.new th) }
        ensures grows { Grows k.old k.new }
    {
        let p = conclusion(k, a);
        let q = conclusion(k, b);
        let with = self.kept(k, CONJ_WITH);
        let th = run_lines(alloc, k, &[p, q], &[a, b, with], &CONJ_I)?;
        Ok(th)
    }

    /// `A |- p /\ q` gives `A |- p` (HOL Light's CONJUNCT1).
    #[tactic(auto, using(crate::proofs::Shapes::rule_lemmas))]
    pub fn conj_l(&self, alloc: Global, k: &mut Kernel, a: &Thm) -> Result<Thm, AllocError>
        requires rules { HasRules k.old self.now }
        requires had_a { Has k.old a.now }
        requires fits { IsSome (conj_l_rule a.now.sequent) }
        ensures exact { IfOk result (λ th. conj_l_rule a.now.sequent ≡ Some th.sequent) }
        ensures has { IfOk result (λ th. Has k.new th) }
        ensures grows { Grows k.old k.new }
    {
        let (p, q) = operands(k, a);
        let taken = self.kept(k, CONJ_FIRST);
        let th = run_lines(alloc, k, &[p, q], &[a, taken], &CONJ_L)?;
        Ok(th)
    }

    /// `A |- p /\ q` gives `A |- q` (HOL Light's CONJUNCT2).
    #[tactic(auto, using(crate::proofs::Shapes::rule_lemmas))]
    pub fn conj_r(&self, alloc: Global, k: &mut Kernel, a: &Thm) -> Result<Thm, AllocError>
        requires rules { HasRules k.old self.now }
        requires had_a { Has k.old a.now }
        requires fits { IsSome (conj_r_rule a.now.sequent) }
        ensures exact { IfOk result (λ th. conj_r_rule a.now.sequent ≡ Some th.sequent) }
        ensures has { IfOk result (λ th. Has k.new th) }
        ensures grows { Grows k.old k.new }
    {
        let (p, q) = operands(k, a);
        let taken = self.kept(k, CONJ_SECOND);
        let th = run_lines(alloc, k, &[p, q], &[a, taken], &CONJ_R)?;
        Ok(th)
    }

    /// `A |- p` gives `A |- p \/ q`, where q is boolean (HOL Light's DISJ1).
    #[tactic(auto, using(crate::proofs::Shapes::rule_lemmas))]
    pub fn disj_l(
        &self,
        alloc: Global,
        k: &mut Kernel,
        a: &Thm,
        q: &Term,
    ) -> Result<Thm, AllocError>
        requires rules { HasRules k.old self.now }
        requires had_a { Has k.old a.now }
        requires over { IsOver (signature_of k.old.defs) [] q.now }
        requires fits { IsSome (disj_l_rule a.now.sequent q.now) }
        ensures exact { IfOk result (λ th. disj_l_rule a.now.sequent q.now ≡ Some th.sequent) }
        ensures has { IfOk result (λ th. Has k.new th) }
        ensures grows { Grows k.old k.new }
    {
        let p = conclusion(k, a);
        let shown = self.kept(k, DISJ_FIRST);
        let th = run_lines(alloc, k, &[p, q], &[a, shown], &DISJ_L)?;
        Ok(th)
    }

    /// `A |- q` gives `A |- p \/ q`, where p is boolean (HOL Light's DISJ2).
    #[tactic(auto, using(crate::proofs::Shapes::rule_lemmas))]
    pub fn disj_r(
        &self,
        alloc: Global,
        k: &mut Kernel,
        p: &Term,
        a: &Thm,
    ) -> Result<Thm, AllocError>
        requires rules { HasRules k.old self.now }
        requires over { IsOver (signature_of k.old.defs) [] p.now }
        requires had_a { Has k.old a.now }
        requires fits { IsSome (disj_r_rule p.now a.now.sequent) }
        ensures exact { IfOk result (λ th. disj_r_rule p.now a.now.sequent ≡ Some th.sequent) }
        ensures has { IfOk result (λ th. Has k.new th) }
        ensures grows { Grows k.old k.new }
    {
        let q = conclusion(k, a);
        let shown = self.kept(k, DISJ_SECOND);
        let th = run_lines(alloc, k, &[p, q], &[a, shown], &DISJ_R)?;
        Ok(th)
    }

    /// `A |- r` gives `(A without p) |- p = (p /\ r)`.
    #[tactic(auto, using(crate::proofs::Shapes::rule_lemmas))]
    fn under(&self, alloc: Global, k: &mut Kernel, p: &Term, a: &Thm) -> Result<Thm, AllocError>
        requires rules { HasRules k.old self.now }
        requires over { IsOver (signature_of k.old.defs) [] p.now }
        requires boolean { tm_type p.now ≡ bool_ty }
        requires had_a { Has k.old a.now }
        ensures exact { IfOk result (λ th. th.sequent ≡ seq (without p.now a.now.sequent.hyps) (eq_tm p.now (conj_tm p.now a.now.sequent.concl))) }
        ensures has { IfOk result (λ th. Has k.new th) }
        ensures grows { Grows k.old k.new }
    {
        let r = conclusion(k, a);
        let with = self.kept(k, CONJ_WITH);
        let first = self.kept(k, CONJ_FIRST);
        let th = run_lines(alloc, k, &[p, r], &[a, with, first], &UNDER)?;
        Ok(th)
    }

    /// `A |- p \/ q`, `B |- p = (p /\ r)` and `C |- q = (q /\ r)` give `A, B, C |- r`.
    #[tactic(auto, using(crate::proofs::Shapes::rule_lemmas))]
    fn merge<'x>(
        &self,
        alloc: Global,
        k: &mut Kernel,
        r: &'x Term,
        a: &'x Thm,
        b: &'x Thm,
        c: &'x Thm,
    ) -> Result<Thm, AllocError>
        requires rules { HasRules k.old self.now }
        requires had_a { Has k.old a.now }
        requires had_b { Has k.old b.now }
        requires had_c { Has k.old c.now }
        requires over { IsOver (signature_of k.old.defs) [] r.now }
        requires boolean { tm_type r.now ≡ bool_ty }
        requires is_a { is_disj a.now.sequent.concl ≡ true }
        requires is_b { b.now.sequent.concl ≡ eq_tm (left_of a.now.sequent.concl) (conj_tm (left_of a.now.sequent.concl) r.now) }
        requires is_c { c.now.sequent.concl ≡ eq_tm (argument a.now.sequent.concl) (conj_tm (argument a.now.sequent.concl) r.now) }
        ensures exact { IfOk result (λ th. th.sequent ≡ seq (union (union b.now.sequent.hyps c.now.sequent.hyps) a.now.sequent.hyps) r.now) }
        ensures has { IfOk result (λ th. Has k.new th) }
        ensures grows { Grows k.old k.new }
    {
        let (p, q) = operands(k, a);
        let cases = self.kept(k, CASES);
        let th = run_lines(alloc, k, &[p, q, r], &[a, b, c, cases], &MERGE)?;
        Ok(th)
    }

    /// `A |- p \/ q`, `B |- r` and `C |- r` give `A, (B without p), (C without q) |- r` (HOL Light's DISJ_CASES).
    #[tactic(auto, using(crate::proofs::Shapes::rule_lemmas))]
    pub fn disj_e(
        &self,
        alloc: Global,
        k: &mut Kernel,
        a: &Thm,
        b: &Thm,
        c: &Thm,
    ) -> Result<Thm, AllocError>
        requires rules { HasRules k.old self.now }
        requires had_a { Has k.old a.now }
        requires had_b { Has k.old b.now }
        requires had_c { Has k.old c.now }
        requires fits { IsSome (disj_e_rule a.now.sequent b.now.sequent c.now.sequent) }
        ensures exact { IfOk result (λ th. disj_e_rule a.now.sequent b.now.sequent c.now.sequent ≡ Some th.sequent) }
        ensures has { IfOk result (λ th. Has k.new th) }
        ensures grows { Grows k.old k.new }
    {
        let (p, q) = operands(k, a);
        let one = self.under(alloc, k, p, b)?;
        let other = self.under(alloc, k, q, c)?;
        let r = conclusion(k, c);
        let th = self.merge(alloc, k, r, a, &one, &other)?;
        Ok(th)
    }

    /// `A |- p ==> F` gives `A |- ~ p` (HOL Light's NOT_INTRO).
    #[tactic(auto, using(crate::proofs::Shapes::rule_lemmas))]
    pub fn not_i(&self, alloc: Global, k: &mut Kernel, a: &Thm) -> Result<Thm, AllocError>
        requires rules { HasRules k.old self.now }
        requires had_a { Has k.old a.now }
        requires fits { IsSome (not_i_rule a.now.sequent) }
        ensures exact { IfOk result (λ th. not_i_rule a.now.sequent ≡ Some th.sequent) }
        ensures has { IfOk result (λ th. Has k.new th) }
        ensures grows { Grows k.old k.new }
    {
        let (p, _) = operands(k, a);
        let fold = self.kept(k, MEANS_NOT);
        let th = run_lines(alloc, k, &[p], &[a, fold], &NOT_I)?;
        Ok(th)
    }

    /// `A |- ~ p` gives `A |- p ==> F` (HOL Light's NOT_ELIM).
    #[tactic(auto, using(crate::proofs::Shapes::rule_lemmas))]
    pub fn not_e(&self, alloc: Global, k: &mut Kernel, a: &Thm) -> Result<Thm, AllocError>
        requires rules { HasRules k.old self.now }
        requires had_a { Has k.old a.now }
        requires fits { IsSome (not_e_rule a.now.sequent) }
        ensures exact { IfOk result (λ th. not_e_rule a.now.sequent ≡ Some th.sequent) }
        ensures has { IfOk result (λ th. Has k.new th) }
        ensures grows { Grows k.old k.new }
    {
        let p = operand(k, a);
        let means = self.kept(k, NOT_MEANS);
        let th = run_lines(alloc, k, &[p], &[a, means], &NOT_E)?;
        Ok(th)
    }

    /// `A |- q` gives `(A without p) |- p ==> q`, where p is boolean (HOL Light's DISCH).
    #[tactic(auto, using(crate::proofs::Shapes::rule_lemmas))]
    pub fn disch(&self, alloc: Global, k: &mut Kernel, p: &Term, a: &Thm) -> Result<Thm, AllocError>
        requires rules { HasRules k.old self.now }
        requires over { IsOver (signature_of k.old.defs) [] p.now }
        requires had_a { Has k.old a.now }
        requires fits { IsSome (disch_rule p.now a.now.sequent) }
        ensures exact { IfOk result (λ th. disch_rule p.now a.now.sequent ≡ Some th.sequent) }
        ensures has { IfOk result (λ th. Has k.new th) }
        ensures grows { Grows k.old k.new }
    {
        let q = conclusion(k, a);
        let with = self.kept(k, CONJ_WITH);
        let first = self.kept(k, CONJ_FIRST);
        let fold = self.kept(k, MEANS_IMP);
        let th = run_lines(alloc, k, &[p, q], &[a, with, first, fold], &DISCH)?;
        Ok(th)
    }

    /// `A |- p ==> q` and `B |- p` give `A, B |- q` (HOL Light's MP).
    #[tactic(auto, using(crate::proofs::Shapes::rule_lemmas))]
    pub fn mp(&self, alloc: Global, k: &mut Kernel, a: &Thm, b: &Thm) -> Result<Thm, AllocError>
        requires rules { HasRules k.old self.now }
        requires had_a { Has k.old a.now }
        requires had_b { Has k.old b.now }
        requires fits { IsSome (mp_rule a.now.sequent b.now.sequent) }
        ensures exact { IfOk result (λ th. mp_rule a.now.sequent b.now.sequent ≡ Some th.sequent) }
        ensures has { IfOk result (λ th. Has k.new th) }
        ensures grows { Grows k.old k.new }
    {
        let p = conclusion(k, b);
        let (_, q) = operands(k, a);
        let applied = self.kept(k, IMP_APPLIED);
        let th = run_lines(alloc, k, &[p, q], &[a, b, applied], &MP)?;
        Ok(th)
    }

    /// `A |- s = t` gives `A |- t = s` (HOL Light's SYM).
    #[tactic(auto, using(crate::proofs::Shapes::rule_lemmas))]
    pub fn sym(&self, alloc: Global, k: &mut Kernel, a: &Thm) -> Result<Thm, AllocError>
        requires rules { HasRules k.old self.now }
        requires had_a { Has k.old a.now }
        requires fits { IsSome (sym_rule a.now.sequent) }
        ensures exact { IfOk result (λ th. sym_rule a.now.sequent ≡ Some th.sequent) }
        ensures has { IfOk result (λ th. Has k.new th) }
        ensures grows { Grows k.old k.new }
    {
        let (s, t) = sides(k, a);
        let symmetry = self.kept(k, SYMMETRY);
        let th = run_lines(alloc, k, &[s, t], &[a, symmetry], &SYM)?;
        Ok(th)
    }

    /// `A |- p` gives `A |- p = T` (HOL Light's EQT_INTRO).
    #[tactic(auto, using(crate::proofs::Shapes::rule_lemmas))]
    pub fn eqt_i(&self, alloc: Global, k: &mut Kernel, a: &Thm) -> Result<Thm, AllocError>
        requires rules { HasRules k.old self.now }
        requires had_a { Has k.old a.now }
        ensures exact { IfOk result (λ th. eqt_i_rule a.now.sequent ≡ Some th.sequent) }
        ensures has { IfOk result (λ th. Has k.new th) }
        ensures grows { Grows k.old k.new }
    {
        let p = conclusion(k, a);
        let is_true = self.kept(k, IS_TRUE);
        let th = run_lines(alloc, k, &[p], &[a, is_true], &EQT_I)?;
        Ok(th)
    }

    /// `A |- p = T` gives `A |- p` (HOL Light's EQT_ELIM).
    #[tactic(auto, using(crate::proofs::Shapes::rule_lemmas))]
    pub fn eqt_e(&self, alloc: Global, k: &mut Kernel, a: &Thm) -> Result<Thm, AllocError>
        requires rules { HasRules k.old self.now }
        requires had_a { Has k.old a.now }
        requires fits { IsSome (eqt_e_rule a.now.sequent) }
        ensures exact { IfOk result (λ th. eqt_e_rule a.now.sequent ≡ Some th.sequent) }
        ensures has { IfOk result (λ th. Has k.new th) }
        ensures grows { Grows k.old k.new }
    {
        let (p, _) = sides(k, a);
        let true_is = self.kept(k, TRUE_IS);
        let th = run_lines(alloc, k, &[p], &[a, true_is], &EQT_E)?;
        Ok(th)
    }
}
