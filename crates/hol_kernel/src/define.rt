//! The two principles of definition, and the theorems of earlier definitions.

ghost use Rattle.std.specs.Prelude.{◌≡◌, true, [], ◌∷◌, ◌++◌, None, Some, string_bytes, slice_get, IfOk, OnErr, IsSome, IsSomeAnd};
ghost use Rattle.hol_terms.specs.Signature.{IsOver};
ghost use Rattle.hol_terms.specs.Definition.{const_def, signature_of};
ghost use Rattle.hol_terms.specs.Typing.{tm_type};
ghost use Rattle.hol_terms.specs.TyVars.{own_const};
ghost use Rattle.hol_terms.specs.Sequent.{seq, eq_tm};
ghost use Rattle.hol_terms.specs.Proves.{IsConstDef, IsTypeDef, abs_rep, rep_abs, sequents_of};
ghost use Rattle.hol_terms.specs.WellFormed.{IsTypeForm};
ghost use Rattle.hol_kernel.specs.State.{Has, IsNewStep, KeepsAll};
ghost use Rattle.hol_kernel.specs.Fault.{const_fault, type_fault, predicate_of};
ghost use Rattle.hol_kernel.specs.NewType.{IsNewType, IsShownAt};
ghost use Rattle.hol_kernel.specs.Said.{is_const_def, is_type_def};

use crate::kernel::{Kernel, Record, Unfit};
use crate::new_type::{abs_of_rep, rep_of_abs};
use crate::room::{make_room, push_two_within, push_within};
use crate::step::Step;
use crate::theorem::{Thm, said};
use hol_terms::defs::Def;
use hol_terms::terms::Term;
use std::alloc::{AllocError, Global};

impl Kernel {
    /// Why the name may not be defined as the term, in this order: the name is none, is `x` and digits or is there already; the
    /// term has a free variable; it has a type variable that its type lacks. None where it may be, and then a term that is well
    /// typed over the kernel's signature makes a conservative definition (HOL Light's `new_basic_definition`).
    pub fn may_define(&self, name: &str, t: &Term) -> Option<Unfit>
        ensures first { result ≡ const_fault self.now.defs name.now t.now }
        ensures conservative { result ≡ None → IsOver (signature_of self.now.defs) [] t.now → IsConstDef self.now.defs name.now t.now }
    {
        if !self.sig.may_introduce(name) {
            Some(Unfit::Name)
        } else if t.has_frees() {
            Some(Unfit::Free)
        } else if !t.is_within(t.type_of()) {
            Some(Unfit::TypeVar)
        } else {
            None
        }
    }

    /// Defines a constant: the definition is added, and `|- c = t` is the next step, with c at the type variables of its type
    /// (HOL Light's `new_basic_definition`). After want of memory the kernel is as before.
    pub fn define(&mut self, alloc: Global, name: &str, t: &Term) -> Result<Thm, AllocError>
        requires fit { const_fault self.old.defs name.now t.now ≡ None }
        requires typed { IsOver (signature_of self.old.defs) [] t.now }
        ensures ok { IfOk result (λ th. IsNewStep self.old (self.old.defs ++ const_def name.now t.now ∷ []) self.new th (seq [] (eq_tm (own_const name.now (tm_type t.now)) t.now))) }
        ensures err { OnErr result (self.new ≡ self.old) }
        ensures has { IfOk result (λ th. Has self.new th) }
        ensures keeps { KeepsAll self.old self.new }
    {
        let c = Term::mk_own_const(alloc, name, t.type_of())?;
        let concl = Term::mk_eq(alloc, &c, t)?;
        let name = String::from_str(alloc, name)?;
        let body = t.copy()?;
        let th = self.add_const(alloc, name, body, concl)?;
        Ok(th)
    }

    /// Why the name may not be defined as a type that the theorem `|- P t` shows inhabited, in this order: it, or it with `.abs`
    /// or `.rep`, is none, is `x` and digits or is there already; the theorem is no such theorem; P has a free variable. None
    /// where it may be, and then a theorem of this kernel makes a conservative definition (HOL Light's
    /// `new_basic_type_definition`). It reads the whole table of names.
    pub fn may_define_type(&self, name: &str, a: &Thm) -> Option<Unfit>
        ensures first { result ≡ type_fault self.now.defs name.now a.now.sequent }
        ensures conservative { result ≡ None → Has self.now a.now → IsTypeDef self.now.defs name.now (predicate_of a.now.sequent) }
    {
        if !self.sig.may_introduce_type(name) {
            Some(Unfit::Name)
        } else if !a.shows_inhabited() {
            Some(Unfit::Shape)
        } else if a.predicate().has_frees() {
            Some(Unfit::Free)
        } else {
            None
        }
    }

    /// Defines a type by a theorem `|- P t`: the definition is added, and `|- abs (rep a) = a` and `|- P r = (rep (abs r) = r)`
    /// are the next steps (HOL Light's `new_basic_type_definition`). After want of memory the kernel is as before.
    pub fn define_type(
        &mut self,
        alloc: Global,
        name: &str,
        a: &Thm,
    ) -> Result<(Thm, Thm), AllocError>
        requires has_a { Has self.old a.now }
        requires fit { type_fault self.old.defs name.now a.now.sequent ≡ None }
        ensures ok { IfOk result (λ both. IsNewType self.old name.now (predicate_of a.now.sequent) self.new both.0 both.1) }
        ensures err { OnErr result (self.new ≡ self.old) }
        ensures has { IfOk result (λ both. Has self.new both.0 × Has self.new both.1) }
        ensures keeps { KeepsAll self.old self.new }
    {
        let pred = a.predicate();
        let abs = abs_of_rep(alloc, name, pred)?;
        let rep = rep_of_abs(alloc, name, pred)?;
        let name = String::from_str(alloc, name)?;
        let pred = pred.copy()?;
        let both = self.add_type(alloc, name, pred, a.step, abs, rep)?;
        Ok(both)
    }

    /// The theorem `|- c = t` of a constant's definition, by its place among the definitions. It adds no step.
    pub fn def_at(&self, alloc: Global, i: usize) -> Result<Thm, AllocError>
        requires { IsSomeAnd (slice_get self.now.defs i) (λ d. is_const_def d ≡ true) }
        ensures said { IfOk result (λ th. IsSomeAnd (slice_get self.now.defs i) (λ d. sequents_of d ≡ th.sequent ∷ [])) }
        ensures defs { IfOk result (λ th. th.defs ≡ self.now.defs) }
        ensures has { IfOk result (λ th. Has self.now th) }
    {
        let th = self.says(alloc, i, 0)?;
        Ok(th)
    }

    /// The two theorems of a type's definition, by its place among the definitions: `|- abs (rep a) = a` and
    /// `|- P r = (rep (abs r) = r)`. It adds no step.
    pub fn type_at(&self, alloc: Global, i: usize) -> Result<(Thm, Thm), AllocError>
        requires { IsSomeAnd (slice_get self.now.defs i) (λ d. is_type_def d ≡ true) }
        ensures said { IfOk result (λ both. IsSomeAnd (slice_get self.now.defs i) (λ d. sequents_of d ≡ both.0.sequent ∷ both.1.sequent ∷ [])) }
        ensures defs { IfOk result (λ both. (both.0.defs ≡ self.now.defs) × (both.1.defs ≡ self.now.defs)) }
        ensures has { IfOk result (λ both. Has self.now both.0 × Has self.now both.1) }
    {
        let abs = self.says(alloc, i, 0)?;
        let rep = self.says(alloc, i, 1)?;
        Ok((abs, rep))
    }

    /// The theorem of the sequent of number `j` that a definition says.
    fn says(&self, alloc: Global, i: usize, j: usize) -> Result<Thm, AllocError>
        requires { IsSomeAnd (slice_get self.now.defs i) (λ d. IsSome (slice_get (sequents_of d) j)) }
        ensures said { IfOk result (λ th. IsSomeAnd (slice_get self.now.defs i) (λ d. slice_get (sequents_of d) j ≡ Some th.sequent)) }
        ensures defs { IfOk result (λ th. th.defs ≡ self.now.defs) }
        ensures has { IfOk result (λ th. Has self.now th) }
    {
        let step = self.made[i] + j;
        let th = said(alloc, &self.history, &self.steps[step].concl, step)?;
        Ok(th)
    }

    fn add_const(
        &mut self,
        alloc: Global,
        name: String,
        body: Term,
        concl: Term,
    ) -> Result<Thm, AllocError>
        requires fit { IsConstDef self.old.defs (string_bytes name) body }
        requires said { concl ≡ eq_tm (own_const (string_bytes name) (tm_type body)) body }
        ensures ok { IfOk result (λ th. IsNewStep self.old (self.old.defs ++ const_def (string_bytes name) body ∷ []) self.new th (seq [] concl)) }
        ensures err { OnErr result (self.new ≡ self.old) }
        ensures has { IfOk result (λ th. Has self.new th) }
        ensures keeps { KeepsAll self.old self.new }
    {
        let th = self.add_const_step(alloc, name, body, concl)?;
        Ok(th)
    }

    fn add_const_step(
        &mut self,
        alloc: Global,
        name: String,
        body: Term,
        concl: Term,
    ) -> Result<Thm, AllocError>
        requires fit { IsConstDef self.old.defs (string_bytes name) body }
        requires said { concl ≡ eq_tm (own_const (string_bytes name) (tm_type body)) body }
        ensures ok { IfOk result (λ th. IsNewStep self.old (self.old.defs ++ const_def (string_bytes name) body ∷ []) self.new th (seq [] concl)) }
        ensures err { OnErr result (self.new ≡ self.old) }
    {
        let new = Def::Const { name, body };
        let history = self.history.with(alloc, &new)?;
        let place = self.defs.len();
        let number = self.steps.len();
        let th = said(alloc, &history, &concl, number)?;
        make_room(
            &mut self.defs,
            &mut self.steps,
            &mut self.log,
            &mut self.made,
            1,
        )?;
        self.sig.add_def(alloc, &new)?;
        push_within(&mut self.steps, Record::of_none(alloc, concl));
        push_within(&mut self.log, Step::Const(place));
        push_within(&mut self.made, number);
        push_within(&mut self.defs, new);
        self.history = history;
        Ok(th)
    }

    fn add_type(
        &mut self,
        alloc: Global,
        name: String,
        pred: Term,
        from: usize,
        abs: Term,
        rep: Term,
    ) -> Result<(Thm, Thm), AllocError>
        requires fit { IsTypeForm self.old.defs (string_bytes name) pred }
        requires shown { IsShownAt self.old.steps from pred }
        requires abs { abs ≡ abs_rep (string_bytes name) pred }
        requires rep { rep ≡ rep_abs (string_bytes name) pred }
        ensures ok { IfOk result (λ both. IsNewType self.old (string_bytes name) pred self.new both.0 both.1) }
        ensures err { OnErr result (self.new ≡ self.old) }
        ensures has { IfOk result (λ both. Has self.new both.0 × Has self.new both.1) }
        ensures keeps { KeepsAll self.old self.new }
    {
        let both = self.add_type_steps(alloc, name, pred, from, abs, rep)?;
        Ok(both)
    }

    fn add_type_steps(
        &mut self,
        alloc: Global,
        name: String,
        pred: Term,
        from: usize,
        abs: Term,
        rep: Term,
    ) -> Result<(Thm, Thm), AllocError>
        requires fit { IsTypeForm self.old.defs (string_bytes name) pred }
        requires shown { IsShownAt self.old.steps from pred }
        requires abs { abs ≡ abs_rep (string_bytes name) pred }
        requires rep { rep ≡ rep_abs (string_bytes name) pred }
        ensures ok { IfOk result (λ both. IsNewType self.old (string_bytes name) pred self.new both.0 both.1) }
        ensures err { OnErr result (self.new ≡ self.old) }
    {
        let d = Def::NewType { name, pred, from };
        let history = self.history.with(alloc, &d)?;
        let place = self.defs.len();
        let first = self.steps.len();
        let says_abs = said(alloc, &history, &abs, first)?;
        let says_rep = said(alloc, &history, &rep, first + 1)?;
        make_room(
            &mut self.defs,
            &mut self.steps,
            &mut self.log,
            &mut self.made,
            2,
        )?;
        self.sig.add_def(alloc, &d)?;
        let abs = Record::of_none(alloc, abs);
        let rep = Record::of_none(alloc, rep);
        push_two_within(&mut self.steps, abs, rep);
        push_two_within(&mut self.log, Step::TypeAbs(place), Step::TypeRep(place));
        push_within(&mut self.made, first);
        push_within(&mut self.defs, d);
        self.history = history;
        Ok((says_abs, says_rep))
    }
}
