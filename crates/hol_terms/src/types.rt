ghost use Rattle.std.specs.Prelude.{◌≡◌, IfOk, string_bytes};
ghost use Rattle.std.specs.Prelude.{[], OnOk, map};
ghost use Rattle.std.specs.List.{list_any};
ghost use Rattle.std.specs.Ordering.{is_eq};
ghost use Rattle.hol_terms.specs.TyVars.{ty_vars, tys_vars, occurs, ty_within, tys_within, with_var, pairs_of, instance_at, var_name};
ghost use Rattle.hol_terms.specs.Ty.{ty_var, ty_app, tys};
ghost use Rattle.hol_terms.specs.Shape.{ty_of_body};
ghost use Rattle.std.specs.Cmp.Lexicographic.{slice_cmp};
ghost use Rattle.std.specs.Option.{option_copied, unwrap_or};
ghost use Rattle.hol_terms.specs.Typing.{fun_ty, domain_ty, range_ty};
ghost use Rattle.hol_terms.specs.Subst.{ty_subst, ty_pairs, ty_cmp, ty_lookup};
ghost use Rattle.hol_terms.specs.Node.{IsTyNode};

use std::alloc::{AllocError, Global};
use std::cmp::Ordering;
use std::marker::Model;
use std::rc::Rc;

/// A type, shared.
#[cycle(hol_type)]
#[derive(Drop)]
pub struct HolType {
    node: Rc<TypeBody>,
}

#[cycle(hol_type)]
#[derive(Drop)]
enum TypeBody {
    Var(String),
    App(String, Vec<HolType>),
}

impl Model for HolType {
    ghost use Rattle.hol_terms.specs.Ty.{Ty, ty_code, ty_size};

    ghost Value = { Ty };

    ghost coded = { ty_code };

    ghost use Rattle.hol_terms.specs.Shape.{ty_of_body};

    ghost view = { λ a. ty_of_body a.node.value };

    ghost size = { ty_size };

    ghost use Rattle.std.proofs.Common.{arith};
    ghost use Rattle.hol_terms.specs.TyFalls.{body_falls};

    ghost size_decreases = { λ a h. omega (arith, body_falls a.node.value) };
}

/// The topmost node of a type.
#[derive(Clone, Copy)]
pub enum TypeNode<'a> {
    Var(&'a str),
    App(&'a str, &'a [HolType]),
}

impl HolType {
    pub fn copy(&self) -> Result<HolType, AllocError>
        ensures { IfOk result (λ t. t ≡ self.now) }
    {
        let node = self.node.clone()?;
        Ok(HolType { node })
    }

    pub fn var(alloc: Global, name: &str) -> Result<HolType, AllocError>
        ensures { IfOk result (λ t. t ≡ ty_var name.now) }
    {
        let name = String::from_str(alloc, name)?;
        HolType::close(alloc, TypeBody::Var(name))
    }

    fn close(alloc: Global, body: TypeBody) -> Result<HolType, AllocError>
        ensures { IfOk result (λ t. t ≡ ty_of_body body) }
    {
        match Rc::new(alloc, body) {
            Ok(node) => Ok(HolType { node }),
            Err(_) => Err(AllocError),
        }
    }

    pub fn view(&self) -> TypeNode<'_>
        ensures { IsTyNode self.now result }
    {
        match &*self.node {
            TypeBody::Var(name) => TypeNode::Var(name.as_str()),
            TypeBody::App(name, args) => TypeNode::App(name.as_str(), args.as_slice()),
        }
    }

    pub fn app(alloc: Global, name: &str, args: &[HolType]) -> Result<HolType, AllocError>
        ensures { IfOk result (λ t. t ≡ ty_app name.now (tys args.now)) }
    {
        let name = String::from_str(alloc, name)?;
        let args = copy_all(alloc, args)?;
        HolType::close(alloc, TypeBody::App(name, args))
    }

    pub fn fun(alloc: Global, a: &HolType, b: &HolType) -> Result<HolType, AllocError>
        ensures { IfOk result (λ t. t ≡ fun_ty a.now b.now) }
    {
        let mut args = Vec::new(alloc);
        args.push(a.copy()?)?;
        args.push(b.copy()?)?;
        let name = String::from_str(alloc, "fun")?;
        HolType::close(alloc, TypeBody::App(name, args))
    }

    /// The name of the topmost node, of a variable or an applied name.
    pub fn name(&self) -> &str
        ensures { result.now ≡ var_name self.now }
    {
        match self.view() {
            TypeNode::Var(name) => name,
            TypeNode::App(name, _) => name,
        }
    }

    /// The type variables, each once, by first occurrence.
    pub fn vars(&self, alloc: Global) -> Result<Vec<HolType>, AllocError>
        ensures { IfOk result (λ v. v.items ≡ ty_vars self.now []) }
    {
        let mut seen = Vec::new(alloc);
        self.add_vars(&mut seen)?;
        Ok(seen)
    }

    #[tactic(auto, using(crate::proofs::Lists::vars_lemmas))]
    pub(crate) fn add_vars(&self, seen: &mut Vec<HolType>) -> Result<(), AllocError>
        ensures { OnOk result (seen.new.items ≡ ty_vars self.now seen.old.items) }
    {
        match self.view() {
            TypeNode::Var(_) => add_var(seen, self),
            TypeNode::App(_, args) => {
                for arg in args {
                    arg.add_vars(seen)?;
                }
                Ok(())
            }
        }
    }

    /// The domain of a function type.
    pub fn domain(&self) -> &HolType
        requires { self.now ≡ fun_ty (domain_ty self.now) (range_ty self.now) }
        ensures { result.now ≡ domain_ty self.now }
    {
        match self.view() {
            TypeNode::App(_, args) => &args[0],
            TypeNode::Var(_) => unreachable!(),
        }
    }

    /// The range of a function type.
    pub fn range(&self) -> &HolType
        requires { self.now ≡ fun_ty (domain_ty self.now) (range_ty self.now) }
        ensures { result.now ≡ range_ty self.now }
    {
        match self.view() {
            TypeNode::App(_, args) => &args[1],
            TypeNode::Var(_) => unreachable!(),
        }
    }

    /// Whether the type variable of this name occurs in the type.
    #[tactic(auto, using(crate::proofs::Lists::occurs_lemmas))]
    pub fn mentions(&self, name: &str) -> bool
        ensures { result ≡ occurs name.now self.now }
    {
        match self.view() {
            TypeNode::Var(own) => own == name,
            TypeNode::App(_, args) => {
                for arg in args {
                    if arg.mentions(name) {
                        return true;
                    }
                }
                false
            }
        }
    }

    /// Whether each type variable of the type occurs in `other`.
    #[tactic(auto, using(crate::proofs::Lists::occurs_lemmas))]
    pub fn is_within(&self, other: &HolType) -> bool
        ensures { result ≡ ty_within self.now other.now }
    {
        match self.view() {
            TypeNode::Var(name) => other.mentions(name),
            TypeNode::App(_, args) => {
                for arg in args {
                    if !arg.is_within(other) {
                        return false;
                    }
                }
                true
            }
        }
    }

    /// The type as a generic one, with `args` in place of its type variables, by first occurrence.
    pub fn instance(&self, alloc: Global, args: &[HolType]) -> Result<HolType, AllocError>
        ensures { IfOk result (λ t. t ≡ instance_at self.now args.now) }
    {
        let vars = self.vars(alloc)?;
        let pairs = pairs(alloc, &vars, args)?;
        self.subst(alloc, &pairs)
    }

    /// The type with the variables of `s` replaced at once.
    #[tactic(auto, using(crate::proofs::Lists::subst_lemmas))]
    pub fn subst(&self, alloc: Global, s: &[(String, HolType)]) -> Result<HolType, AllocError>
        ensures { IfOk result (λ t. t ≡ ty_subst (ty_pairs s.now) self.now) }
    {
        match self.view() {
            TypeNode::Var(name) => match lookup(s, name) {
                Some(t) => t.copy(),
                None => self.copy(),
            },
            TypeNode::App(name, args) => {
                let mut new = Vec::new(alloc);
                for arg in args {
                    new.push(arg.subst(alloc, s)?)?;
                }
                let name = String::from_str(alloc, name)?;
                HolType::close(alloc, TypeBody::App(name, new))
            }
        }
    }

    #[tactic(auto, using(crate::proofs::Lists::cmp_lemmas))]
    pub fn cmp(&self, o: &HolType) -> Ordering
        ensures { result ≡ ty_cmp self.now o.now }
    {
        match (self.view(), o.view()) {
            (TypeNode::Var(a), TypeNode::Var(b)) => a.cmp(&b),
            (TypeNode::Var(_), TypeNode::App(_, _)) => Ordering::Less,
            (TypeNode::App(_, _), TypeNode::Var(_)) => Ordering::Greater,
            (TypeNode::App(a, xs), TypeNode::App(b, ys)) => {
                match a.cmp(&b) {
                    Ordering::Equal => {}
                    decided => return decided,
                }
                for (i, x) in xs.iter().enumerate() {
                    if i >= ys.len() {
                        return Ordering::Greater;
                    }
                    match x.cmp(&ys[i]) {
                        Ordering::Equal => {}
                        decided => return decided,
                    }
                }
                if xs.len() < ys.len() {
                    Ordering::Less
                } else {
                    Ordering::Equal
                }
            }
        }
    }
}

/// Adds the type variables of each of the types that aren't there yet.
#[tactic(auto, using(crate::proofs::Lists::vars_lemmas))]
pub(crate) fn add_vars_of(types: &[HolType], seen: &mut Vec<HolType>) -> Result<(), AllocError>
    ensures { OnOk result (seen.new.items ≡ tys_vars (tys types.now) seen.old.items) }
{
    for ty in types {
        ty.add_vars(seen)?;
    }
    Ok(())
}

/// Whether each type variable of each of the types occurs in `other`.
#[tactic(auto, using(crate::proofs::Lists::occurs_lemmas))]
pub(crate) fn are_within(types: &[HolType], other: &HolType) -> bool
    ensures { result ≡ tys_within (tys types.now) other.now }
{
    for ty in types {
        if !ty.is_within(other) {
            return false;
        }
    }
    true
}

fn add_var(seen: &mut Vec<HolType>, v: &HolType) -> Result<(), AllocError>
    ensures { OnOk result (seen.new.items ≡ with_var v.now seen.old.items) }
{
    if !has_type(seen, v) {
        seen.push(v.copy()?)?;
    }
    Ok(())
}

fn has_type(seen: &[HolType], t: &HolType) -> bool
    ensures { result ≡ list_any (λ u. is_eq (ty_cmp u t.now)) seen.now }
{
    seen.iter().any(|u| matches!(u.cmp(t), Ordering::Equal))
}

/// The order of two lists of types.
#[tactic(auto, using(crate::proofs::Lists::cmp_lemmas))]
pub(crate) fn cmp_all(xs: &[HolType], ys: &[HolType]) -> Ordering
    ensures { result ≡ slice_cmp ty_cmp xs.now ys.now }
{
    for (i, x) in xs.iter().enumerate() {
        if i >= ys.len() {
            return Ordering::Greater;
        }
        match x.cmp(&ys[i]) {
            Ordering::Equal => {}
            decided => return decided,
        }
    }
    if xs.len() < ys.len() {
        Ordering::Less
    } else {
        Ordering::Equal
    }
}

/// Each of the types with the variables of `s` replaced at once.
pub(crate) fn subst_all(
    alloc: Global,
    types: &[HolType],
    s: &[(String, HolType)],
) -> Result<Vec<HolType>, AllocError>
    ensures { IfOk result (λ v. v.items ≡ map (ty_subst (ty_pairs s.now)) types.now) }
{
    let mut new = Vec::new(alloc);
    for ty in types {
        new.push(ty.subst(alloc, s)?)?;
    }
    Ok(new)
}

pub(crate) fn copy_all(alloc: Global, args: &[HolType]) -> Result<Vec<HolType>, AllocError>
    ensures { IfOk result (λ v. v.items ≡ args.now) }
{
    let mut new = Vec::new(alloc);
    for arg in args {
        new.push(arg.copy()?)?;
    }
    Ok(new)
}

/// Each variable with the argument at its place, as far as both lists go.
#[tactic(auto, using(crate::proofs::Lists::pairs_lemmas))]
fn pairs(
    alloc: Global,
    vars: &[HolType],
    args: &[HolType],
) -> Result<Vec<(String, HolType)>, AllocError>
    ensures { IfOk result (λ v. ty_pairs v.items ≡ pairs_of vars.now args.now) }
{
    let mut pairs = Vec::new(alloc);
    for (i, var) in vars.iter().enumerate() {
        if i >= args.len() {
            return Ok(pairs);
        }
        let name = String::from_str(alloc, var.name())?;
        pairs.push((name, args[i].copy()?))?;
    }
    Ok(pairs)
}

#[tactic(auto, using(crate::proofs::Lists::lookup_lemmas))]
fn lookup<'a>(s: &'a [(String, HolType)], name: &str) -> Option<&'a HolType>
    ensures { ty_lookup (ty_pairs s.now) name.now ≡ unwrap_or (option_copied result) (ty_var name.now) }
{
    for (key, t) in s {
        if key.as_str() == name {
            return Some(t);
        }
    }
    None
}
