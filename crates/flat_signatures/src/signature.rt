//! What definitions have introduced, by the numbers of names.

ghost use Rattle.std.specs.Prelude.{◌≡◌, None, IfOk, OnOk, OnErr, []};
ghost use Rattle.hol_terms.specs.Ty.{Ty};
ghost use Rattle.hol_terms.specs.Signature.{arity_of, generic_of, may_introduce};
ghost use Rattle.hol_terms.specs.TypeNames.{may_introduce_type};
ghost use Rattle.hol_terms.specs.Definition.{signature_of, eq_ty, some_ty, alpha};
ghost use Rattle.hol_terms.specs.Table.{with_type, with_const};
ghost use Rattle.strict_reading.specs.Types.{has_arity};
ghost use Rattle.flat_terms.specs.Plain.{HasName, HasType, name_of, type_of};
ghost use Rattle.flat_instances.specs.Types.{IsTypeNumber};
ghost use Rattle.flat_instances.specs.TablesGrow.{TablesGrow};
ghost use Rattle.flat_signatures.specs.FlatNames.{plain_signature, HasSignature};
ghost use Rattle.flat_signatures.specs.Starting.{IsGenericOf, AreBaseTypes};

use crate::entries::{put_dotted, put_function, put_name, put_type_constant, put_type_variable};
use crate::names::{is_name, is_numbered};
use flat_terms::nodes::{NameId, TypeId};
use flat_terms::tables::Tables;
use indexmap::IndexMap;
use std::alloc::{AllocError, Global};
use std::marker::Model;

/// A signature over tables: each type's number of arguments, and each constant's generic type.
#[derive(Drop)]
pub struct FlatSignature {
    types: IndexMap<NameId, usize>,
    constants: IndexMap<NameId, TypeId>,
}

impl Model for FlatSignature {
    ghost use Rattle.flat_signatures.specs.FlatNames.{FlatNames, flat_names_code};

    ghost Value = { FlatNames };

    ghost coded = { flat_names_code };

    ghost view = { λ a. record { types = a.types.entries; constants = a.constants.entries } };
}

/// The generic types of the two constants that stand before any definition.
#[derive(Clone, Copy)]
struct BaseTypes {
    equality: TypeId,
    choice: TypeId,
}

impl FlatSignature {
    /// The signature of no definitions: the types `bool`, `fun` and `ind`, equality `eq` and choice `some`. After want of memory the
    /// tables may have more names and types.
    pub fn start(tables: &mut Tables, alloc: Global) -> Result<FlatSignature, AllocError>
        ensures grows { TablesGrow tables.old tables.new }
        ensures has { IfOk result (λ s. HasSignature tables.new s) }
        ensures ok { IfOk result (λ s. plain_signature tables.new s ≡ signature_of []) }
    {
        let base = base_types(tables, alloc)?;
        let mut signature = FlatSignature {
            types: IndexMap::new(alloc),
            constants: IndexMap::new(alloc),
        };
        signature.introduce_type(tables, alloc, "bool", 0)?;
        signature.introduce_type(tables, alloc, "fun", 2)?;
        signature.introduce_type(tables, alloc, "ind", 0)?;
        signature.introduce_constant(tables, alloc, "eq", base.equality)?;
        signature.introduce_constant(tables, alloc, "some", base.choice)?;
        Ok(signature)
    }

    /// Adds a type with its number of arguments, under a name that no type has. After want of memory the signature is as before.
    pub fn add_type(
        &mut self,
        tables: &Tables,
        name: NameId,
        arity: usize,
    ) -> Result<(), AllocError>
        requires signature { HasSignature tables.now self.old }
        requires name { HasName tables.now name }
        requires new { arity_of (plain_signature tables.now self.old) (name_of tables.now name) ≡ None }
        ensures has { HasSignature tables.now self.new }
        ensures ok { OnOk result (plain_signature tables.now self.new ≡ with_type (plain_signature tables.now self.old) (name_of tables.now name) arity) }
        ensures err { OnErr result (self.new ≡ self.old) }
    {
        tables.entries_once();
        let _ = tables.name_text(name);
        self.types.insert(name, arity)?;
        Ok(())
    }

    /// Adds a constant with its generic type, under a name that no constant has. After want of memory the signature is as before.
    pub fn add_constant(
        &mut self,
        tables: &Tables,
        name: NameId,
        generic: TypeId,
    ) -> Result<(), AllocError>
        requires signature { HasSignature tables.now self.old }
        requires name { HasName tables.now name }
        requires generic { HasType tables.now generic }
        requires new { generic_of (plain_signature tables.now self.old) (name_of tables.now name) ≡ None }
        ensures has { HasSignature tables.now self.new }
        ensures ok { OnOk result (plain_signature tables.now self.new ≡ with_const (plain_signature tables.now self.old) (name_of tables.now name) (type_of tables.now generic)) }
        ensures err { OnErr result (self.new ≡ self.old) }
    {
        tables.entries_once();
        let _ = tables.name_text(name);
        self.constants.insert(name, generic)?;
        Ok(())
    }

    /// How many arguments the type takes, or None where there is no type of that name.
    pub fn arity(&self, tables: &Tables, name: NameId) -> Option<usize>
        requires signature { HasSignature tables.now self.now }
        requires name { HasName tables.now name }
        ensures { result ≡ arity_of (plain_signature tables.now self.now) (name_of tables.now name) }
    {
        tables.entries_once();
        self.types.get(&name).copied()
    }

    /// The generic type of the constant, or None where there is no constant of that name.
    pub fn generic(&self, tables: &Tables, name: NameId) -> Option<TypeId>
        requires signature { HasSignature tables.now self.now }
        requires name { HasName tables.now name }
        ensures { IsGenericOf tables.now result (generic_of (plain_signature tables.now self.now) (name_of tables.now name)) }
    {
        tables.entries_once();
        self.constants.get(&name).copied()
    }

    /// Whether there is a type of that name and number of arguments.
    pub fn has_arity(&self, tables: &Tables, name: NameId, count: usize) -> bool
        requires signature { HasSignature tables.now self.now }
        requires name { HasName tables.now name }
        ensures { result ≡ has_arity (plain_signature tables.now self.now) (name_of tables.now name) count }
    {
        match self.arity(tables, name) {
            Some(arity) => arity == count,
            None => false,
        }
    }

    /// Whether a definition may introduce the name: it is a name, not `x` and digits, and no type or constant has it.
    pub fn may_introduce(&self, tables: &Tables, name: NameId) -> bool
        requires signature { HasSignature tables.now self.now }
        requires name { HasName tables.now name }
        ensures { result ≡ may_introduce (plain_signature tables.now self.now) (name_of tables.now name) }
    {
        let text = tables.name_text(name);
        is_name(text)
            && !is_numbered(text)
            && self.arity(tables, name).is_none()
            && self.generic(tables, name).is_none()
    }

    /// Whether a definition may introduce a type of the name: the name, and the name followed by `.abs` and by `.rep`, may each be
    /// introduced. After want of memory the tables may have more names.
    pub fn may_introduce_type(
        &self,
        tables: &mut Tables,
        alloc: Global,
        name: NameId,
    ) -> Result<bool, AllocError>
        requires signature { HasSignature tables.old self.now }
        requires name { HasName tables.old name }
        ensures grows { TablesGrow tables.old tables.new }
        ensures ok { IfOk result (λ b. b ≡ may_introduce_type (plain_signature tables.old self.now) (name_of tables.old name)) }
    {
        if !self.may_introduce(tables, name) {
            return Ok(false);
        }
        let abs = put_dotted(tables, alloc, name, ".abs")?;
        if !self.may_introduce(tables, abs) {
            return Ok(false);
        }
        let rep = put_dotted(tables, alloc, name, ".rep")?;
        Ok(self.may_introduce(tables, rep))
    }

    fn introduce_type(
        &mut self,
        tables: &mut Tables,
        alloc: Global,
        text: &str,
        arity: usize,
    ) -> Result<(), AllocError>
        requires signature { HasSignature tables.old self.old }
        requires new { arity_of (plain_signature tables.old self.old) text.now ≡ None }
        ensures grows { TablesGrow tables.old tables.new }
        ensures has { HasSignature tables.new self.new }
        ensures ok { OnOk result (plain_signature tables.new self.new ≡ with_type (plain_signature tables.old self.old) text.now arity) }
    {
        let name = put_name(tables, alloc, text)?;
        self.add_type(tables, name, arity)
    }

    fn introduce_constant(
        &mut self,
        tables: &mut Tables,
        alloc: Global,
        text: &str,
        generic: TypeId,
    ) -> Result<(), AllocError>
        requires signature { HasSignature tables.old self.old }
        requires generic { HasType tables.old generic }
        requires new { generic_of (plain_signature tables.old self.old) text.now ≡ None }
        ensures grows { TablesGrow tables.old tables.new }
        ensures has { HasSignature tables.new self.new }
        ensures ok { OnOk result (plain_signature tables.new self.new ≡ with_const (plain_signature tables.old self.old) text.now (type_of tables.old generic)) }
    {
        let name = put_name(tables, alloc, text)?;
        self.add_constant(tables, name, generic)
    }
}

/// The generic types of equality and choice.
fn base_types(tables: &mut Tables, alloc: Global) -> Result<BaseTypes, AllocError>
    ensures grows { TablesGrow tables.old tables.new }
    ensures ok { IfOk result (λ b. AreBaseTypes tables.new b) }
{
    let alpha = put_type_variable(tables, alloc, "a")?;
    let truth = put_type_constant(tables, alloc, "bool")?;
    let predicate = put_function(tables, alloc, alpha, truth)?;
    let equality = put_function(tables, alloc, alpha, predicate)?;
    let choice = put_function(tables, alloc, predicate, alpha)?;
    Ok(BaseTypes { equality, choice })
}
