ghost use Rattle.std.specs.Prelude.{◌≡◌, IfOk, OnOk, IsSomeAnd, string_bytes, length, [], ◌∷◌, codes};
ghost use Rattle.hol_terms.specs.Tm.{tm_index, tm_free, tm_const, tm_comb, tm_abs};
ghost use Rattle.hol_terms.specs.Typing.{tm_type, range_ty, fun_ty};
ghost use Rattle.hol_terms.specs.Takes.{Takes};
ghost use Rattle.hol_terms.specs.Subst.{ty_subst, ty_pairs};
ghost use Rattle.hol_terms.specs.TmBody.{tm_of_body, HoldsType};
ghost use Rattle.hol_terms.specs.TmNode.{IsTmNode};
ghost use Rattle.hol_terms.specs.Binding.{var_cmp, tm_bind, tm_open, has_free, tm_cmp, tm_inst, tm_ty_subst, var_lookup};
ghost use Rattle.hol_terms.specs.Definition.{eq_ty, has_frees};
ghost use Rattle.hol_terms.specs.Signature.{generic_of};
ghost use Rattle.hol_terms.specs.TyVars.{ty_vars, tm_ty_vars, tm_within, const_at, own_const};
ghost use Rattle.hol_terms.specs.Sequent.{eq_tm, IsEq, left_of, argument};
ghost use Rattle.hol_terms.specs.Loose.{HasAt, IsClosedAt, AreClosed};
ghost use Rattle.hol_terms.specs.Opening.{IsAbsOf, body_of};
ghost use Rattle.hol_terms.specs.Keeps.{KeepsTypes};
ghost use Rattle.std.specs.Option.{option_copied, unwrap_or};

use crate::sig::Sig;
use crate::types::{HolType, add_vars_of, are_within, cmp_all, copy_all, subst_all};
use std::alloc::{AllocError, Global};
use std::cmp::Ordering;
use std::marker::Model;
use std::rc::Rc;

/// A free variable.
#[derive(Drop)]
pub struct Var {
    name: String,
    ty: HolType,
}

impl Model for Var {
    ghost use Rattle.std.specs.Prelude.{string_bytes};
    ghost use Rattle.hol_terms.specs.Tm.{FreeVar, var_code};

    ghost Value = { FreeVar };

    ghost coded = { var_code };

    ghost view = { λ a. record { name = string_bytes a.name; ty = a.ty } };
}

impl Var {
    pub fn new(alloc: Global, name: &str, ty: &HolType) -> Result<Var, AllocError>
        ensures { IfOk result (λ v. v ≡ record { name = name.now; ty = ty.now }) }
    {
        let name = String::from_str(alloc, name)?;
        let ty = ty.copy()?;
        Ok(Var { name, ty })
    }

    pub fn name(&self) -> &str
        ensures { result.now ≡ self.now.name }
    {
        self.name.as_str()
    }

    pub fn ty(&self) -> &HolType
        ensures { result.now ≡ self.now.ty }
    {
        &self.ty
    }

    pub fn copy(&self, alloc: Global) -> Result<Var, AllocError>
        ensures { IfOk result (λ v. v ≡ self.now) }
    {
        Var::new(alloc, self.name.as_str(), &self.ty)
    }

    pub fn cmp(&self, o: &Var) -> Ordering
        ensures { result ≡ var_cmp self.now o.now }
    {
        match self.name().cmp(&o.name()) {
            Ordering::Equal => self.ty().cmp(o.ty()),
            decided => decided,
        }
    }
}

/// A term, shared.
#[cycle(term)]
#[derive(Drop)]
pub struct Term {
    node: Rc<TermBody>,
}

#[cycle(term)]
#[derive(Drop)]
enum TermBody {
    Index(usize, HolType),
    Free(Var),
    Const(String, Vec<HolType>, HolType),
    Comb(Term, Term, HolType),
    Abs(HolType, Term, HolType),
}

impl Model for Term {
    ghost use Rattle.hol_terms.specs.Tm.{Tm, tm_code, tm_size};

    ghost Value = { Tm };

    ghost coded = { tm_code };

    ghost use Rattle.hol_terms.specs.TmBody.{tm_of_body, HoldsType};

    ghost view = { λ a. tm_of_body a.node.value };

    ghost invariant = { λ a. HoldsType a.node.value };

    ghost size = { tm_size };

    ghost use Rattle.std.proofs.Common.{arith};
    ghost use Rattle.hol_terms.specs.TmFalls.{term_falls};

    ghost size_decreases = { λ a h. omega (arith, term_falls a.node.value) };
}

/// The topmost node of a term.
#[derive(Clone, Copy)]
pub enum TermNode<'a> {
    Index(usize),
    Free(&'a Var),
    Const(&'a str, &'a [HolType]),
    Comb(&'a Term, &'a Term),
    Abs(&'a HolType, &'a Term),
}

impl Term {
    fn close(alloc: Global, body: TermBody) -> Result<Term, AllocError>
        requires { HoldsType body }
        ensures { IfOk result (λ t. t ≡ tm_of_body body) }
    {
        match Rc::new(alloc, body) {
            Ok(node) => Ok(Term { node }),
            Err(_) => Err(AllocError),
        }
    }

    pub fn view(&self) -> TermNode<'_>
        ensures { IsTmNode self.now result }
    {
        match &*self.node {
            TermBody::Index(i, _) => TermNode::Index(*i),
            TermBody::Free(v) => TermNode::Free(v),
            TermBody::Const(name, args, _) => TermNode::Const(name.as_str(), args.as_slice()),
            TermBody::Comb(f, x, _) => TermNode::Comb(f, x),
            TermBody::Abs(a, b, _) => TermNode::Abs(a, b),
        }
    }

    pub fn type_of(&self) -> &HolType
        ensures { result.now ≡ tm_type self.now }
    {
        match &*self.node {
            TermBody::Index(_, ty) => ty,
            TermBody::Free(v) => v.ty(),
            TermBody::Const(_, _, ty) => ty,
            TermBody::Comb(_, _, ty) => ty,
            TermBody::Abs(_, _, ty) => ty,
        }
    }

    pub fn copy(&self) -> Result<Term, AllocError>
        ensures { IfOk result (λ t. t ≡ self.now) }
    {
        let node = self.node.clone()?;
        Ok(Term { node })
    }

    pub fn mk_var(alloc: Global, v: &Var) -> Result<Term, AllocError>
        ensures { IfOk result (λ t. t ≡ tm_free v.now) }
    {
        let v = v.copy(alloc)?;
        Term::close(alloc, TermBody::Free(v))
    }

    pub fn mk_comb(alloc: Global, f: &Term, x: &Term) -> Result<Term, AllocError>
        requires { Takes f.now x.now }
        ensures { IfOk result (λ t. t ≡ tm_comb f.now x.now) }
    {
        Term::apply(alloc, f.copy()?, x.copy()?)
    }

    pub(crate) fn apply(alloc: Global, f: Term, x: Term) -> Result<Term, AllocError>
        requires { Takes f x }
        ensures { IfOk result (λ t. t ≡ tm_comb f x) }
    {
        let ty = f.type_of().range().copy()?;
        Term::close(alloc, TermBody::Comb(f, x, ty))
    }

    pub(crate) fn mk_lambda(alloc: Global, a: &HolType, b: Term) -> Result<Term, AllocError>
        requires { HasAt 0 a.now b }
        ensures { IfOk result (λ t. t ≡ tm_abs a.now b) }
    {
        let ty = HolType::fun(alloc, a, b.type_of())?;
        let a = a.copy()?;
        Term::close(alloc, TermBody::Abs(a, b, ty))
    }

    /// The equation of two terms of one type.
    pub fn mk_eq(alloc: Global, s: &Term, t: &Term) -> Result<Term, AllocError>
        requires { tm_type s.now ≡ tm_type t.now }
        ensures { IfOk result (λ e. e ≡ eq_tm s.now t.now) }
    {
        let equals = Term::mk_equals(alloc, s.type_of())?;
        let half = Term::mk_comb(alloc, &equals, s)?;
        Term::mk_comb(alloc, &half, t)
    }

    /// Equality at a type.
    pub fn mk_equals(alloc: Global, a: &HolType) -> Result<Term, AllocError>
        ensures { IfOk result (λ e. e ≡ tm_const (codes "eq") (a.now ∷ []) (eq_ty a.now)) }
    {
        let truth = HolType::app(alloc, "bool", &[])?;
        let to_truth = HolType::fun(alloc, a, &truth)?;
        let ty = HolType::fun(alloc, a, &to_truth)?;
        let name = String::from_str(alloc, "eq")?;
        let mut args = Vec::new(alloc);
        args.push(a.copy()?)?;
        Term::close(alloc, TermBody::Const(name, args, ty))
    }

    /// The constant whose generic type is `generic`, with `args` in place of its type variables, by first occurrence.
    pub fn mk_const_at(
        alloc: Global,
        name: &str,
        generic: &HolType,
        args: &[HolType],
    ) -> Result<Term, AllocError>
        requires { length args.now ≡ length (ty_vars generic.now []) }
        ensures { IfOk result (λ t. t ≡ const_at name.now generic.now args.now) }
    {
        let ty = generic.instance(alloc, args)?;
        let name = String::from_str(alloc, name)?;
        let args = copy_all(alloc, args)?;
        Term::close(alloc, TermBody::Const(name, args, ty))
    }

    /// The constant of the signature at `args`, which replace the type variables of its generic type by first occurrence.
    pub fn mk_const(
        alloc: Global,
        sig: &Sig,
        name: &str,
        args: &[HolType],
    ) -> Result<Term, AllocError>
        requires { IsSomeAnd (generic_of sig.now name.now) (λ g. length args.now ≡ length (ty_vars g [])) }
        ensures { IfOk result (λ t. IsSomeAnd (generic_of sig.now name.now) (λ g. t ≡ const_at name.now g args.now)) }
    {
        match sig.generic(name) {
            Some(generic) => Term::mk_const_at(alloc, name, generic, args),
            None => unreachable!(),
        }
    }

    /// The constant whose generic type is `ty`, at the type variables of `ty`.
    pub fn mk_own_const(alloc: Global, name: &str, ty: &HolType) -> Result<Term, AllocError>
        ensures { IfOk result (λ c. c ≡ own_const name.now ty.now) }
    {
        let name = String::from_str(alloc, name)?;
        let args = ty.vars(alloc)?;
        let ty = ty.copy()?;
        Term::close(alloc, TermBody::Const(name, args, ty))
    }

    /// The left side of an equation.
    pub fn left(&self) -> &Term
        requires { IsEq self.now }
        ensures { result.now ≡ left_of self.now }
    {
        match self.view() {
            TermNode::Comb(f, _) => match f.view() {
                TermNode::Comb(_, s) => s,
                _ => unreachable!(),
            },
            _ => unreachable!(),
        }
    }

    /// The right side of an equation.
    pub fn right(&self) -> &Term
        requires { IsEq self.now }
        ensures { result.now ≡ argument self.now }
    {
        match self.view() {
            TermNode::Comb(_, t) => t,
            _ => unreachable!(),
        }
    }

    /// Whether the variable occurs free in the term.
    pub fn free_in(&self, v: &Var) -> bool
        ensures { result ≡ has_free v.now self.now }
    {
        match self.view() {
            TermNode::Index(_) => false,
            TermNode::Free(w) => matches!(v.cmp(w), Ordering::Equal),
            TermNode::Const(_, _) => false,
            TermNode::Comb(f, x) => f.free_in(v) || x.free_in(v),
            TermNode::Abs(_, b) => b.free_in(v),
        }
    }

    /// Whether a free variable occurs in the term.
    pub fn has_frees(&self) -> bool
        ensures { result ≡ has_frees self.now }
    {
        match self.view() {
            TermNode::Index(_) => false,
            TermNode::Free(_) => true,
            TermNode::Const(_, _) => false,
            TermNode::Comb(f, x) => f.has_frees() || x.has_frees(),
            TermNode::Abs(_, b) => b.has_frees(),
        }
    }

    /// Whether each type variable of the term occurs in `ty`.
    pub fn is_within(&self, ty: &HolType) -> bool
        ensures { result ≡ tm_within self.now ty.now }
    {
        match self.view() {
            TermNode::Index(_) => true,
            TermNode::Free(v) => v.ty().is_within(ty),
            TermNode::Const(_, args) => are_within(args, ty),
            TermNode::Comb(f, x) => f.is_within(ty) && x.is_within(ty),
            TermNode::Abs(a, b) => a.is_within(ty) && b.is_within(ty),
        }
    }

    /// The type variables of the term, each once, by first occurrence.
    pub fn ty_vars(&self, alloc: Global) -> Result<Vec<HolType>, AllocError>
        ensures { IfOk result (λ v. v.items ≡ tm_ty_vars self.now []) }
    {
        let mut seen = Vec::new(alloc);
        self.add_ty_vars(&mut seen)?;
        Ok(seen)
    }

    fn add_ty_vars(&self, seen: &mut Vec<HolType>) -> Result<(), AllocError>
        ensures { OnOk result (seen.new.items ≡ tm_ty_vars self.now seen.old.items) }
    {
        match self.view() {
            TermNode::Index(_) => Ok(()),
            TermNode::Free(v) => v.ty().add_vars(seen),
            TermNode::Const(_, args) => add_vars_of(args, seen),
            TermNode::Comb(f, x) => {
                f.add_ty_vars(seen)?;
                x.add_ty_vars(seen)
            }
            TermNode::Abs(a, b) => {
                a.add_vars(seen)?;
                b.add_ty_vars(seen)
            }
        }
    }

    /// The term with the variable `v` bound by the binder that `depth` binders lie before.
    #[tactic(auto, using(crate::proofs::LooseLemmas::bind_lemmas))]
    fn bind(&self, alloc: Global, v: &Var, depth: usize) -> Result<Term, AllocError>
        ensures { IfOk result (λ t. t ≡ tm_bind depth v.now self.now) }
    {
        match self.view() {
            TermNode::Index(_) => self.copy(),
            TermNode::Free(w) => {
                if matches!(v.cmp(w), Ordering::Equal) {
                    let ty = w.ty().copy()?;
                    Term::close(alloc, TermBody::Index(depth, ty))
                } else {
                    self.copy()
                }
            }
            TermNode::Const(_, _) => self.copy(),
            TermNode::Comb(f, x) => {
                let f = f.bind(alloc, v, depth)?;
                let x = x.bind(alloc, v, depth)?;
                Term::apply(alloc, f, x)
            }
            TermNode::Abs(a, b) => {
                let Some(deeper) = depth.checked_add(1) else {
                    return Err(AllocError);
                };
                Term::mk_lambda(alloc, a, b.bind(alloc, v, deeper)?)
            }
        }
    }

    /// The abstraction that binds the free variable `v` in `body`.
    #[tactic(auto, using(crate::proofs::LooseLemmas::bind_lemmas))]
    pub fn mk_abs(alloc: Global, v: &Var, body: &Term) -> Result<Term, AllocError>
        requires { IsClosedAt 0 body.now }
        ensures { IfOk result (λ t. t ≡ tm_abs v.now.ty (tm_bind 0 v.now body.now)) }
    {
        let b = body.bind(alloc, v, 0)?;
        Term::mk_lambda(alloc, v.ty(), b)
    }

    /// The body of an abstraction, with `v` in place of the bound variable.
    pub fn open(&self, alloc: Global, v: &Var) -> Result<Term, AllocError>
        requires { IsAbsOf v.now.ty self.now }
        ensures { IfOk result (λ t. t ≡ tm_open 0 v.now (body_of self.now)) }
    {
        match self.view() {
            TermNode::Abs(_, b) => b.open_at(alloc, v, 0),
            _ => unreachable!(),
        }
    }

    #[tactic(auto, using(crate::proofs::LooseLemmas::open_lemmas))]
    fn open_at(&self, alloc: Global, v: &Var, depth: usize) -> Result<Term, AllocError>
        requires { HasAt depth v.now.ty self.now }
        ensures { IfOk result (λ t. t ≡ tm_open depth v.now self.now) }
    {
        match self.view() {
            TermNode::Index(i) => {
                if i == depth {
                    Term::mk_var(alloc, v)
                } else {
                    self.copy()
                }
            }
            TermNode::Free(_) => self.copy(),
            TermNode::Const(_, _) => self.copy(),
            TermNode::Comb(f, x) => {
                let f = f.open_at(alloc, v, depth)?;
                let x = x.open_at(alloc, v, depth)?;
                Term::apply(alloc, f, x)
            }
            TermNode::Abs(a, b) => {
                let Some(deeper) = depth.checked_add(1) else {
                    return Err(AllocError);
                };
                Term::mk_lambda(alloc, a, b.open_at(alloc, v, deeper)?)
            }
        }
    }

    /// The term with the variables of `s` replaced at once.
    #[tactic(auto, using(crate::proofs::LooseLemmas::inst_lemmas))]
    pub fn inst(&self, alloc: Global, s: &[(Var, Term)]) -> Result<Term, AllocError>
        requires types { KeepsTypes s.now }
        requires closed { AreClosed s.now }
        ensures { IfOk result (λ t. t ≡ tm_inst s.now self.now) }
    {
        match self.view() {
            TermNode::Index(_) => self.copy(),
            TermNode::Free(w) => match lookup(s, w) {
                Some(t) => t.copy(),
                None => self.copy(),
            },
            TermNode::Const(_, _) => self.copy(),
            TermNode::Comb(f, x) => {
                let f = f.inst(alloc, s)?;
                let x = x.inst(alloc, s)?;
                Term::apply(alloc, f, x)
            }
            TermNode::Abs(a, b) => Term::mk_lambda(alloc, a, b.inst(alloc, s)?),
        }
    }

    /// The term with the type variables of `s` replaced at once.
    #[tactic(auto, using(crate::proofs::LooseLemmas::inst_type_lemmas))]
    pub fn inst_type(&self, alloc: Global, s: &[(String, HolType)]) -> Result<Term, AllocError>
        ensures exact { IfOk result (λ t. t ≡ tm_ty_subst (ty_pairs s.now) self.now) }
        ensures ty { IfOk result (λ t. tm_type t ≡ ty_subst (ty_pairs s.now) (tm_type self.now)) }
    {
        match self.view() {
            TermNode::Index(i) => {
                let ty = self.type_of().subst(alloc, s)?;
                Term::close(alloc, TermBody::Index(i, ty))
            }
            TermNode::Free(v) => {
                let ty = v.ty().subst(alloc, s)?;
                let v = Var::new(alloc, v.name(), &ty)?;
                Term::close(alloc, TermBody::Free(v))
            }
            TermNode::Const(name, args) => {
                let ty = self.type_of().subst(alloc, s)?;
                let args = subst_all(alloc, args, s)?;
                let name = String::from_str(alloc, name)?;
                Term::close(alloc, TermBody::Const(name, args, ty))
            }
            TermNode::Comb(f, x) => {
                let f = f.inst_type(alloc, s)?;
                let x = x.inst_type(alloc, s)?;
                Term::apply(alloc, f, x)
            }
            TermNode::Abs(a, b) => {
                let a = a.subst(alloc, s)?;
                let b = b.inst_type(alloc, s)?;
                Term::mk_lambda(alloc, &a, b)
            }
        }
    }

    /// The order of terms: by kind, an index, a variable, a constant, an application and an abstraction, then by parts.
    pub fn cmp(&self, o: &Term) -> Ordering
        ensures { result ≡ tm_cmp self.now o.now }
    {
        match (self.view(), o.view()) {
            (TermNode::Index(i), TermNode::Index(j)) => match i.cmp(&j) {
                Ordering::Equal => self.type_of().cmp(o.type_of()),
                decided => decided,
            },
            (TermNode::Index(_), _) => Ordering::Less,
            (_, TermNode::Index(_)) => Ordering::Greater,
            (TermNode::Free(v), TermNode::Free(w)) => v.cmp(w),
            (TermNode::Free(_), _) => Ordering::Less,
            (_, TermNode::Free(_)) => Ordering::Greater,
            (TermNode::Const(c, ts), TermNode::Const(d, us)) => match c.cmp(&d) {
                Ordering::Equal => match cmp_all(ts, us) {
                    Ordering::Equal => self.type_of().cmp(o.type_of()),
                    decided => decided,
                },
                decided => decided,
            },
            (TermNode::Const(_, _), _) => Ordering::Less,
            (_, TermNode::Const(_, _)) => Ordering::Greater,
            (TermNode::Comb(f, x), TermNode::Comb(g, y)) => match f.cmp(g) {
                Ordering::Equal => x.cmp(y),
                decided => decided,
            },
            (TermNode::Comb(_, _), _) => Ordering::Less,
            (_, TermNode::Comb(_, _)) => Ordering::Greater,
            (TermNode::Abs(a, b), TermNode::Abs(c, d)) => match a.cmp(c) {
                Ordering::Equal => b.cmp(d),
                decided => decided,
            },
        }
    }
}

/// What the first pair of the variable puts for it.
#[tactic(auto, using(crate::proofs::Lists::var_lookup_lemmas))]
fn lookup<'a>(s: &'a [(Var, Term)], w: &Var) -> Option<&'a Term>
    ensures { var_lookup s.now w.now ≡ unwrap_or (option_copied result) (tm_free w.now) }
{
    for (v, t) in s {
        if matches!(v.cmp(w), Ordering::Equal) {
            return Some(t);
        }
    }
    None
}
