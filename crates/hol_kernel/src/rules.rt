//! The ten rules (HOL Light), each of which adds one step. A premise is a theorem of this kernel, and what a rule takes from
//! outside is well formed over the kernel's signature. After want of memory the kernel is as before.

ghost use Rattle.std.specs.Prelude.{◌≡◌, [], ◌∷◌, ◌++◌, IfOk, OnErr, IsSome, Some};
ghost use Rattle.hol_terms.specs.Tm.{tm_free};
ghost use Rattle.hol_terms.specs.Subst.{ty_pairs};
ghost use Rattle.hol_terms.specs.Signature.{IsOver};
ghost use Rattle.hol_terms.specs.Definition.{signature_of};
ghost use Rattle.hol_terms.specs.Binding.{tm_open};
ghost use Rattle.hol_terms.specs.Opening.{body_of};
ghost use Rattle.hol_terms.specs.Sequent.{argument};
ghost use Rattle.hol_terms.specs.Rules.{function, variable, refl_rule, trans_rule, comb_rule, abs_rule, beta_rule, assume_rule, eq_mp_rule, deduct_rule, inst_type_rule, inst_rule};
ghost use Rattle.hol_terms.specs.Proves.{AreTypesOver, AreOver};
ghost use Rattle.hol_kernel.specs.State.{Has, IsNewStep, Grows};

use crate::hypotheses::{copy_terms, copy_types, hyps_without, inst_all, inst_type_all, union_of};
use crate::kernel::{Kernel, Thm};
use crate::step::Step;
use crate::theorem::copy_all;
use hol_terms::terms::{Term, TermNode, Var};
use hol_terms::types::HolType;
use std::alloc::{AllocError, Global};

impl Kernel {
    /// REFL: `|- t = t`.
    pub fn refl(&mut self, alloc: Global, t: &Term) -> Result<Thm, AllocError>
        requires over { IsOver (signature_of self.old.defs) [] t.now }
        ensures exact { IfOk result (λ th. refl_rule t.now ≡ Some th.sequent) }
        ensures ok { IfOk result (λ th. IsNewStep self.old self.old.defs self.new th th.sequent) }
        ensures err { OnErr result (self.new ≡ self.old) }
        ensures has { IfOk result (λ th. Has self.new th) }
        ensures grows { Grows self.old self.new }
    {
        let concl = Term::mk_eq(alloc, t, t)?;
        let th = self.add(alloc, Step::Refl(t.copy()?), Vec::new(alloc), concl)?;
        Ok(th)
    }

    /// TRANS: `A |- s = t` and `B |- t = u` give `A, B |- s = u`.
    #[tactic(auto, using(crate::proofs::Fits::trans_lemmas))]
    pub fn trans(&mut self, alloc: Global, a: &Thm, b: &Thm) -> Result<Thm, AllocError>
        requires has_a { Has self.old a.now }
        requires has_b { Has self.old b.now }
        requires fits { IsSome (trans_rule a.now.sequent b.now.sequent) }
        ensures exact { IfOk result (λ th. trans_rule a.now.sequent b.now.sequent ≡ Some th.sequent) }
        ensures ok { IfOk result (λ th. IsNewStep self.old self.old.defs self.new th th.sequent) }
        ensures err { OnErr result (self.new ≡ self.old) }
        ensures has { IfOk result (λ th. Has self.new th) }
        ensures grows { Grows self.old self.new }
    {
        let hyps = union_of(alloc, a.hyps(), b.hyps())?;
        let concl = Term::mk_eq(alloc, a.concl().left(), b.concl().right())?;
        let th = self.add(alloc, Step::Trans(a.step(), b.step()), hyps, concl)?;
        Ok(th)
    }

    /// MK_COMB: `A |- f = g` and `B |- x = y` give `A, B |- f x = g y`, where f takes x.
    #[tactic(auto, using(crate::proofs::Fits::comb_lemmas))]
    pub fn mk_comb(&mut self, alloc: Global, a: &Thm, b: &Thm) -> Result<Thm, AllocError>
        requires has_a { Has self.old a.now }
        requires has_b { Has self.old b.now }
        requires fits { IsSome (comb_rule a.now.sequent b.now.sequent) }
        ensures exact { IfOk result (λ th. comb_rule a.now.sequent b.now.sequent ≡ Some th.sequent) }
        ensures ok { IfOk result (λ th. IsNewStep self.old self.old.defs self.new th th.sequent) }
        ensures err { OnErr result (self.new ≡ self.old) }
        ensures has { IfOk result (λ th. Has self.new th) }
        ensures grows { Grows self.old self.new }
    {
        let hyps = union_of(alloc, a.hyps(), b.hyps())?;
        let left = Term::mk_comb(alloc, a.concl().left(), b.concl().left())?;
        let right = Term::mk_comb(alloc, a.concl().right(), b.concl().right())?;
        let concl = Term::mk_eq(alloc, &left, &right)?;
        let th = self.add(alloc, Step::Comb(a.step(), b.step()), hyps, concl)?;
        Ok(th)
    }

    /// ABS: `A |- s = t` gives `A |- (\v. s) = (\v. t)`, where v is free in no hypothesis.
    #[tactic(auto, using(crate::proofs::Fits::abs_lemmas))]
    pub fn abs(&mut self, alloc: Global, v: &Var, a: &Thm) -> Result<Thm, AllocError>
        requires has_a { Has self.old a.now }
        requires over { IsOver (signature_of self.old.defs) [] (tm_free v.now) }
        requires fits { IsSome (abs_rule v.now a.now.sequent) }
        ensures exact { IfOk result (λ th. abs_rule v.now a.now.sequent ≡ Some th.sequent) }
        ensures ok { IfOk result (λ th. IsNewStep self.old self.old.defs self.new th th.sequent) }
        ensures err { OnErr result (self.new ≡ self.old) }
        ensures has { IfOk result (λ th. Has self.new th) }
        ensures grows { Grows self.old self.new }
    {
        let hyps = copy_all(alloc, a.hyps())?;
        let left = Term::mk_abs(alloc, v, a.concl().left())?;
        let right = Term::mk_abs(alloc, v, a.concl().right())?;
        let concl = Term::mk_eq(alloc, &left, &right)?;
        let th = self.add(alloc, Step::Abs(v.copy(alloc)?, a.step()), hyps, concl)?;
        Ok(th)
    }

    /// BETA: `|- (\x. b) v = b` with v for x, where v is a variable that is not free in `\x. b`.
    #[tactic(auto, using(crate::proofs::Fits::beta_lemmas))]
    pub fn beta(&mut self, alloc: Global, t: &Term) -> Result<Thm, AllocError>
        requires over { IsOver (signature_of self.old.defs) [] t.now }
        requires fits { IsSome (beta_rule t.now) }
        ensures exact { IfOk result (λ th. beta_rule t.now ≡ Some th.sequent) }
        ensures ok { IfOk result (λ th. IsNewStep self.old self.old.defs self.new th th.sequent) }
        ensures err { OnErr result (self.new ≡ self.old) }
        ensures has { IfOk result (λ th. Has self.new th) }
        ensures grows { Grows self.old self.new }
    {
        let right = reduced(alloc, t)?;
        let concl = Term::mk_eq(alloc, t, &right)?;
        let th = self.add(alloc, Step::Beta(t.copy()?), Vec::new(alloc), concl)?;
        Ok(th)
    }

    /// ASSUME: `p |- p`, where p is boolean.
    pub fn assume(&mut self, alloc: Global, p: &Term) -> Result<Thm, AllocError>
        requires over { IsOver (signature_of self.old.defs) [] p.now }
        requires fits { IsSome (assume_rule p.now) }
        ensures exact { IfOk result (λ th. assume_rule p.now ≡ Some th.sequent) }
        ensures ok { IfOk result (λ th. IsNewStep self.old self.old.defs self.new th th.sequent) }
        ensures err { OnErr result (self.new ≡ self.old) }
        ensures has { IfOk result (λ th. Has self.new th) }
        ensures grows { Grows self.old self.new }
    {
        let mut hyps = Vec::new(alloc);
        hyps.push(p.copy()?)?;
        let concl = p.copy()?;
        let th = self.add(alloc, Step::Assume(p.copy()?), hyps, concl)?;
        Ok(th)
    }

    /// EQ_MP: `A |- p = q` and `B |- p` give `A, B |- q`.
    #[tactic(auto, using(crate::proofs::Fits::eq_mp_lemmas))]
    pub fn eq_mp(&mut self, alloc: Global, a: &Thm, b: &Thm) -> Result<Thm, AllocError>
        requires has_a { Has self.old a.now }
        requires has_b { Has self.old b.now }
        requires fits { IsSome (eq_mp_rule a.now.sequent b.now.sequent) }
        ensures exact { IfOk result (λ th. eq_mp_rule a.now.sequent b.now.sequent ≡ Some th.sequent) }
        ensures ok { IfOk result (λ th. IsNewStep self.old self.old.defs self.new th th.sequent) }
        ensures err { OnErr result (self.new ≡ self.old) }
        ensures has { IfOk result (λ th. Has self.new th) }
        ensures grows { Grows self.old self.new }
    {
        let hyps = union_of(alloc, a.hyps(), b.hyps())?;
        let concl = a.concl().right().copy()?;
        let th = self.add(alloc, Step::Mp(a.step(), b.step()), hyps, concl)?;
        Ok(th)
    }

    /// DEDUCT_ANTISYM_RULE: `A |- p` and `B |- q` give `(A without q), (B without p) |- p = q`.
    #[tactic(auto, using(crate::proofs::Fits::deduct_lemmas))]
    pub fn deduct(&mut self, alloc: Global, a: &Thm, b: &Thm) -> Result<Thm, AllocError>
        requires has_a { Has self.old a.now }
        requires has_b { Has self.old b.now }
        ensures exact { IfOk result (λ th. deduct_rule a.now.sequent b.now.sequent ≡ Some th.sequent) }
        ensures ok { IfOk result (λ th. IsNewStep self.old self.old.defs self.new th th.sequent) }
        ensures err { OnErr result (self.new ≡ self.old) }
        ensures has { IfOk result (λ th. Has self.new th) }
        ensures grows { Grows self.old self.new }
    {
        let left = hyps_without(alloc, b.concl(), a.hyps())?;
        let right = hyps_without(alloc, a.concl(), b.hyps())?;
        let hyps = union_of(alloc, &left, &right)?;
        let concl = Term::mk_eq(alloc, a.concl(), b.concl())?;
        let th = self.add(alloc, Step::Deduct(a.step(), b.step()), hyps, concl)?;
        Ok(th)
    }

    /// INST_TYPE: the sequent with types for type variables, all at once. There is at least one pair, and the left sides are distinct.
    pub fn inst_type(
        &mut self,
        alloc: Global,
        a: &Thm,
        s: &[(String, HolType)],
    ) -> Result<Thm, AllocError>
        requires has_a { Has self.old a.now }
        requires over { AreTypesOver (signature_of self.old.defs) (ty_pairs s.now) }
        requires fits { IsSome (inst_type_rule (ty_pairs s.now) a.now.sequent) }
        ensures exact { IfOk result (λ th. inst_type_rule (ty_pairs s.now) a.now.sequent ≡ Some th.sequent) }
        ensures ok { IfOk result (λ th. IsNewStep self.old self.old.defs self.new th th.sequent) }
        ensures err { OnErr result (self.new ≡ self.old) }
        ensures has { IfOk result (λ th. Has self.new th) }
        ensures grows { Grows self.old self.new }
    {
        let hyps = inst_type_all(alloc, a.hyps(), s)?;
        let concl = a.concl().inst_type(alloc, s)?;
        let pairs = copy_types(alloc, s)?;
        let th = self.add(alloc, Step::InstType(a.step(), pairs), hyps, concl)?;
        Ok(th)
    }

    /// INST: the sequent with terms for free variables, all at once. There is at least one pair, the left sides are distinct, and each variable has the type of its term.
    #[tactic(auto, using(crate::proofs::Fits::inst_lemmas))]
    pub fn inst(&mut self, alloc: Global, a: &Thm, s: &[(Var, Term)]) -> Result<Thm, AllocError>
        requires has_a { Has self.old a.now }
        requires over { AreOver (signature_of self.old.defs) s.now }
        requires fits { IsSome (inst_rule s.now a.now.sequent) }
        ensures exact { IfOk result (λ th. inst_rule s.now a.now.sequent ≡ Some th.sequent) }
        ensures ok { IfOk result (λ th. IsNewStep self.old self.old.defs self.new th th.sequent) }
        ensures err { OnErr result (self.new ≡ self.old) }
        ensures has { IfOk result (λ th. Has self.new th) }
        ensures grows { Grows self.old self.new }
    {
        let hyps = inst_all(alloc, a.hyps(), s)?;
        let concl = a.concl().inst(alloc, s)?;
        let pairs = copy_terms(alloc, s)?;
        let th = self.add(alloc, Step::Inst(a.step(), pairs), hyps, concl)?;
        Ok(th)
    }
}

/// The body of the abstraction, with the variable that it is applied to in place of the bound one.
#[tactic(auto, using(crate::proofs::Fits::opening_lemmas))]
fn reduced(alloc: Global, t: &Term) -> Result<Term, AllocError>
    requires { IsSome (beta_rule t.now) }
    ensures { IfOk result (λ r. r ≡ tm_open 0 (variable (argument t.now)) (body_of (function t.now))) }
{
    match t.view() {
        TermNode::Comb(f, x) => match x.view() {
            TermNode::Free(v) => f.open(alloc, v),
            _ => unreachable!(),
        },
        _ => unreachable!(),
    }
}
