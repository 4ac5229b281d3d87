ghost use Rattle.std.specs.Prelude.{◌≡◌, ◌+◌, ◌<◌, ◌≤◌, [], ◌∷◌, ◌++◌, true, false, None, bytes_eq, string_bytes, IfOk, OnOk, OnErr};
ghost use Rattle.indexmap.specs.IndexMap.{spare};
ghost use Rattle.std.specs.Option.{option_copied};
ghost use Rattle.hol_terms.specs.Signature.{arity_of, generic_of, entry_at, is_new, may_introduce};
ghost use Rattle.hol_terms.specs.Definition.{type_def, start, with_def};
ghost use Rattle.hol_terms.specs.Table.{named, with_type, with_const, introduces_new, IsPredicate, IsPredicateOf};
ghost use Rattle.hol_terms.specs.DefShape.{definition_of};

use crate::defs::Def;
use crate::names::{is_name, is_numbered};
use crate::terms::Term;
use crate::types::HolType;
use indexmap::IndexMap;
use std::alloc::{AllocError, Global};
use std::marker::Model;

/// A signature: the number of arguments of each type and the generic type of each constant, as tables by name.
#[derive(Drop)]
pub struct Sig {
    pub(crate) types: IndexMap<String, u32>,
    pub(crate) consts: IndexMap<String, HolType>,
}

impl Model for Sig {
    ghost use Rattle.hol_terms.specs.Signature.{Signature};
    ghost use Rattle.hol_terms.specs.Table.{signature_code, named};

    ghost Value = { Signature };

    ghost coded = { signature_code };

    ghost view = { λ a. record { types = named a.types.entries; consts = named a.consts.entries } };
}

impl Sig {
    /// The signature before any definition: the types `bool`, `fun` and `ind`, equality `eq` and choice `some`.
    pub fn start(alloc: Global) -> Result<Sig, AllocError>
        ensures { IfOk result (λ s. s ≡ start) }
    {
        let truth = HolType::app(alloc, "bool", &[])?;
        let alpha = HolType::var(alloc, "a")?;
        let predicate = HolType::fun(alloc, &alpha, &truth)?;
        let equality = HolType::fun(alloc, &alpha, &predicate)?;
        let choice = HolType::fun(alloc, &predicate, &alpha)?;
        let mut sig = Sig {
            types: IndexMap::new(alloc),
            consts: IndexMap::new(alloc),
        };
        sig.add_type(alloc, "bool", 0)?;
        sig.add_type(alloc, "fun", 2)?;
        sig.add_type(alloc, "ind", 0)?;
        sig.add_const(alloc, "eq", &equality)?;
        sig.add_const(alloc, "some", &choice)?;
        Ok(sig)
    }

    /// How many arguments the type takes, or None where there is no type of that name.
    #[tactic(auto, using(crate::proofs::Tables::table_lemmas))]
    pub fn arity(&self, ty: &str) -> Option<u32>
        ensures { result ≡ arity_of self.now ty.now }
    {
        self.types.get(ty).copied()
    }

    /// The generic type of the constant, or None where there is no constant of that name.
    #[tactic(auto, using(crate::proofs::Tables::table_lemmas))]
    pub fn generic(&self, c: &str) -> Option<&HolType>
        ensures { option_copied result ≡ generic_of self.now c.now }
    {
        self.consts.get(c)
    }

    /// Whether a definition may introduce the name: it is a name, not `x` and digits, and no type or constant has it.
    #[tactic(auto, using(crate::proofs::Tables::new_lemmas))]
    pub fn may_introduce(&self, name: &str) -> bool
        ensures { result ≡ may_introduce self.now name.now }
    {
        is_name(name) && !is_numbered(name) && self.is_new(name)
    }

    /// Whether no type or constant has the name.
    #[tactic(auto, using(crate::proofs::Tables::new_lemmas))]
    pub fn is_new(&self, name: &str) -> bool
        ensures { result ≡ is_new self.now name.now }
    {
        self.arity(name).is_none() && self.generic(name).is_none()
    }

    /// Adds a type with its number of arguments, under a name that no type or constant has. After want of memory the signature
    /// is as before.
    #[tactic(auto, using(crate::proofs::Tables::added_lemmas))]
    pub fn add_type(&mut self, alloc: Global, ty: &str, arity: u32) -> Result<(), AllocError>
        requires { is_new self.old ty.now ≡ true }
        ensures ok { OnOk result (self.new ≡ with_type self.old ty.now arity) }
        ensures err { OnErr result (self.new ≡ self.old) }
    {
        let name = String::from_str(alloc, ty)?;
        self.types.insert(name, arity)?;
        Ok(())
    }

    /// Adds a constant with its generic type, under a name that no type or constant has. After want of memory the signature is
    /// as before.
    #[tactic(auto, using(crate::proofs::Tables::added_lemmas))]
    pub fn add_const(&mut self, alloc: Global, c: &str, generic: &HolType) -> Result<(), AllocError>
        requires { is_new self.old c.now ≡ true }
        ensures ok { OnOk result (self.new ≡ with_const self.old c.now generic.now) }
        ensures err { OnErr result (self.new ≡ self.old) }
    {
        let name = String::from_str(alloc, c)?;
        let generic = generic.copy()?;
        self.consts.insert(name, generic)?;
        Ok(())
    }

    /// Adds the names that a definition introduces, with their types: a constant with its term's type, or a type and the two
    /// functions between it and the old one. After want of memory none of them is added.
    pub fn add_def(&mut self, alloc: Global, d: &Def) -> Result<(), AllocError>
        requires new { introduces_new self.old (definition_of d.now) ≡ true }
        requires predicate { IsPredicateOf (definition_of d.now) }
        ensures ok { OnOk result (self.new ≡ with_def self.old (definition_of d.now)) }
        ensures err { OnErr result (self.new ≡ self.old) }
    {
        match d {
            Def::Const { name, body } => self.add_const(alloc, name.as_str(), body.type_of()),
            Def::NewType { name, pred, .. } => self.add_new_type(alloc, name.as_str(), pred),
        }
    }

    fn add_new_type(&mut self, alloc: Global, name: &str, pred: &Term) -> Result<(), AllocError>
        requires new { introduces_new self.old (type_def name.now pred.now) ≡ true }
        requires predicate { IsPredicate pred.now }
        ensures ok { OnOk result (self.new ≡ with_def self.old (type_def name.now pred.now)) }
        ensures err { OnErr result (self.new ≡ self.old) }
    {
        let parameters = pred.ty_vars(alloc)?;
        let Ok(arity) = u32::try_from(parameters.len()) else {
            return Err(AllocError);
        };
        let new = HolType::app(alloc, name, &parameters)?;
        let old = pred.type_of().domain();
        let abs = HolType::fun(alloc, old, &new)?;
        let rep = HolType::fun(alloc, &new, old)?;
        let name_of_abs = dotted(alloc, name, ".abs")?;
        let name_of_rep = dotted(alloc, name, ".rep")?;
        let name = String::from_str(alloc, name)?;
        self.add_names((name, arity), (name_of_abs, abs), (name_of_rep, rep))
    }

    /// Adds a type and two constants, or after want of memory none of them.
    #[tactic(auto, using(crate::proofs::Tables::push_lemmas))]
    fn add_names(
        &mut self,
        ty: (String, u32),
        abs: (String, HolType),
        rep: (String, HolType),
    ) -> Result<(), AllocError>
        requires type_name { arity_of self.old (string_bytes ty.0) ≡ None }
        requires abs_name { generic_of self.old (string_bytes abs.0) ≡ None }
        requires rep_name { generic_of self.old (string_bytes rep.0) ≡ None }
        requires apart { bytes_eq (string_bytes abs.0) (string_bytes rep.0) ≡ false }
        ensures ok { OnOk result (self.new ≡ with_const (with_const (with_type self.old (string_bytes ty.0) ty.1) (string_bytes abs.0) abs.1) (string_bytes rep.0) rep.1) }
        ensures err { OnErr result (self.new ≡ self.old) }
    {
        self.types.reserve(1)?;
        self.consts.reserve(2)?;
        put(&mut self.types, ty.0, ty.1);
        put(&mut self.consts, abs.0, abs.1);
        put(&mut self.consts, rep.0, rep.1);
        Ok(())
    }
}

fn dotted(alloc: Global, name: &str, end: &str) -> Result<String, AllocError>
    ensures { IfOk result (λ s. string_bytes s ≡ name.now ++ end.now) }
{
    let mut whole = String::from_str(alloc, name)?;
    whole.push_str(end)?;
    Ok(whole)
}

/// Puts a new name into a table that has room for it, which takes no memory.
#[tactic(auto, using(crate::proofs::Tables::table_lemmas))]
fn put<A: Drop>(table: &mut IndexMap<String, A>, name: String, value: A)
    requires room { 0 < spare table.old }
    requires new { entry_at (named table.old.entries) (string_bytes name) ≡ None }
    ensures entries { named table.new.entries ≡ named table.old.entries ++ (string_bytes name, value) ∷ [] }
    ensures spare { spare table.old ≤ spare table.new + 1 }
{
    let Ok(_) = table.insert(name, value) else {
        unreachable!()
    };
}
