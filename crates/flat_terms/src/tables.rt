ghost use Rattle.std.specs.Prelude.{◌≡◌, ◌<◌, ◌↔◌, ℕ, [], length, Some, slice_get, IfOk, OnErr, IsTrue, IfSome, IfNone};
ghost use Rattle.hol_terms.specs.Ty.{Ty, ty_var, ty_app, tys};
ghost use Rattle.hol_terms.specs.Tm.{tm_index, tm_free, tm_const, tm_comb, tm_abs};
ghost use Rattle.hol_terms.specs.Typing.{tm_type, fun_ty};
ghost use Rattle.hol_terms.specs.Takes.{Takes};
ghost use Rattle.flat_terms.specs.Plain.{HasName, HasType, HasTerm, HasTypes, name_of, type_of, types_of, term_of, IsNameAdded, IsTypeAdded, IsTermAdded};
ghost use Rattle.flat_terms.specs.Trees.{names_of, numbers, lists_of, Interned, Distinct, own_type};
ghost use Rattle.flat_terms.specs.Views.{IsTypeView, IsTermView, AreParts, pair_of};

use crate::nodes::{ListId, NameId, TermId, TermNode, TermView, TypeId, TypeNode, TypeView};
use indexmap::IndexSet;
use std::alloc::{AllocError, Global};
use std::marker::Model;

/// Tables of names, types and terms. No two entries of a table are the same.
#[derive(Drop)]
pub struct Tables {
    names: IndexSet<String>,
    lists: IndexSet<Vec<TypeId>>,
    types: IndexSet<TypeNode>,
    terms: IndexSet<TermNode>,
}

impl Model for Tables {
    ghost use Rattle.flat_terms.specs.Plain.{PlainTables, plain_code};

    ghost Value = { PlainTables };

    ghost coded = { plain_code };

    ghost use Rattle.flat_terms.specs.Trees.{plain_tables, IsTables, names_of, lists_of};

    ghost view = { λ a. plain_tables (names_of a.names.keys) (lists_of a.lists.keys) a.types.keys a.terms.keys };

    ghost invariant = { λ a. IsTables (names_of a.names.keys) (lists_of a.lists.keys) a.types.keys a.terms.keys };
}

impl Tables {
    /// Tables without entries.
    pub fn new(alloc: Global) -> Tables
        ensures { result ≡ record { names = []; types = []; terms = [] } }
    {
        Tables {
            names: IndexSet::new(alloc),
            lists: IndexSet::new(alloc),
            types: IndexSet::new(alloc),
            terms: IndexSet::new(alloc),
        }
    }

    /// The number of a name, which is added if it isn't there. After want of memory the tables are as before.
    pub fn name(&mut self, alloc: Global, name: &str) -> Result<NameId, AllocError>
        ensures ok { IfOk result (λ n. IsNameAdded self.old self.new n name.now) }
        ensures err { OnErr result (self.new ≡ self.old) }
    {
        let place = put_name(&mut self.names, alloc, name)?;
        Ok(NameId(place))
    }

    /// The number of a type variable, which is added if it isn't there. After want of memory the tables are as before.
    pub fn type_variable(&mut self, name: NameId) -> Result<TypeId, AllocError>
        requires { HasName self.old name }
        ensures ok { IfOk result (λ t. IsTypeAdded self.old self.new t (ty_var (name_of self.old name))) }
        ensures err { OnErr result (self.new ≡ self.old) }
    {
        let place = put_type(&mut self.types, TypeNode::Var(name))?;
        Ok(TypeId(place))
    }

    /// The number of a name applied to types, which is added if it isn't there. After want of memory the tables are as before.
    pub fn type_application(
        &mut self,
        alloc: Global,
        name: NameId,
        args: &[TypeId],
    ) -> Result<TypeId, AllocError>
        requires name { HasName self.old name }
        requires args { HasTypes self.old args.now }
        ensures ok { IfOk result (λ t. IsTypeAdded self.old self.new t (ty_app (name_of self.old name) (tys (types_of self.old args.now)))) }
        ensures err { OnErr result (self.new ≡ self.old) }
    {
        let list = put_list(&mut self.lists, alloc, args)?;
        let place = put_type(&mut self.types, TypeNode::App(name, list))?;
        Ok(TypeId(place))
    }

    /// The number of an index with its type, which is added if it isn't there. After want of memory the tables are as before.
    pub fn index(&mut self, index: usize, ty: TypeId) -> Result<TermId, AllocError>
        requires { HasType self.old ty }
        ensures ok { IfOk result (λ t. IsTermAdded self.old self.new t (tm_index index (type_of self.old ty))) }
        ensures err { OnErr result (self.new ≡ self.old) }
    {
        let place = put_term(&mut self.terms, TermNode::Index(index, ty))?;
        Ok(TermId(place))
    }

    /// The number of a free variable, which is added if it isn't there. After want of memory the tables are as before.
    pub fn free(&mut self, name: NameId, ty: TypeId) -> Result<TermId, AllocError>
        requires name { HasName self.old name }
        requires ty { HasType self.old ty }
        ensures ok { IfOk result (λ t. IsTermAdded self.old self.new t (tm_free (record { name = name_of self.old name; ty = type_of self.old ty }))) }
        ensures err { OnErr result (self.new ≡ self.old) }
    {
        let place = put_term(&mut self.terms, TermNode::Free(name, ty))?;
        Ok(TermId(place))
    }

    /// The number of a constant at type arguments, with its type, which is added if it isn't there. After want of memory the tables
    /// are as before.
    pub fn constant(
        &mut self,
        alloc: Global,
        name: NameId,
        args: &[TypeId],
        ty: TypeId,
    ) -> Result<TermId, AllocError>
        requires name { HasName self.old name }
        requires args { HasTypes self.old args.now }
        requires ty { HasType self.old ty }
        ensures ok { IfOk result (λ t. IsTermAdded self.old self.new t (tm_const (name_of self.old name) (types_of self.old args.now) (type_of self.old ty))) }
        ensures err { OnErr result (self.new ≡ self.old) }
    {
        let list = put_list(&mut self.lists, alloc, args)?;
        let place = put_term(&mut self.terms, TermNode::Const(name, list, ty))?;
        Ok(TermId(place))
    }

    /// The number of a function applied to an argument, which is added if it isn't there. After want of memory the tables are as before.
    pub fn application(&mut self, f: TermId, x: TermId) -> Result<TermId, AllocError>
        requires function { HasTerm self.old f }
        requires argument { HasTerm self.old x }
        requires takes { Takes (term_of self.old f) (term_of self.old x) }
        ensures ok { IfOk result (λ t. IsTermAdded self.old self.new t (tm_comb (term_of self.old f) (term_of self.old x))) }
        ensures err { OnErr result (self.new ≡ self.old) }
    {
        let Some((_, range)) = self.function_parts(self.type_of(f)) else {
            unreachable!()
        };
        let place = put_term(&mut self.terms, TermNode::Comb(f, x, range))?;
        Ok(TermId(place))
    }

    /// The number of an abstraction over a bound type, which is added if it isn't there; `ty` is the number of its own type. After want
    /// of memory the tables are as before.
    pub fn abstraction(
        &mut self,
        bound: TypeId,
        body: TermId,
        ty: TypeId,
    ) -> Result<TermId, AllocError>
        requires bound { HasType self.old bound }
        requires body { HasTerm self.old body }
        requires ty { HasType self.old ty }
        requires typed { type_of self.old ty ≡ fun_ty (type_of self.old bound) (tm_type (term_of self.old body)) }
        ensures ok { IfOk result (λ t. IsTermAdded self.old self.new t (tm_abs (type_of self.old bound) (term_of self.old body))) }
        ensures err { OnErr result (self.new ≡ self.old) }
    {
        let place = put_term(&mut self.terms, TermNode::Abs(bound, body, ty))?;
        Ok(TermId(place))
    }

    /// The name of a number.
    pub fn name_text(&self, name: NameId) -> &str
        requires { HasName self.now name }
        ensures { result.now ≡ name_of self.now name }
    {
        match self.names.get_index(name.0) {
            Some(name) => name.as_str(),
            None => unreachable!(),
        }
    }

    /// The topmost node of a type.
    pub fn type_view(&self, ty: TypeId) -> TypeView<'_>
        requires { HasType self.now ty }
        ensures { IsTypeView self.now ty result }
    {
        match type_node(&self.types, ty) {
            TypeNode::Var(name) => TypeView::Var(name),
            TypeNode::App(name, list) => TypeView::App(name, list_items(&self.lists, list)),
        }
    }

    /// The topmost node of a term.
    pub fn term_view(&self, term: TermId) -> TermView<'_>
        requires { HasTerm self.now term }
        ensures { IsTermView self.now term result }
    {
        match term_node(&self.terms, term) {
            TermNode::Index(index, ty) => TermView::Index(index, ty),
            TermNode::Free(name, ty) => TermView::Free(name, ty),
            TermNode::Const(name, list, ty) => {
                TermView::Const(name, list_items(&self.lists, list), ty)
            }
            TermNode::Comb(f, x, _) => TermView::Comb(f, x),
            TermNode::Abs(bound, body, _) => TermView::Abs(bound, body),
        }
    }

    /// The number of a term's type.
    pub fn type_of(&self, term: TermId) -> TypeId
        requires { HasTerm self.now term }
        ensures has { HasType self.now result }
        ensures ty { type_of self.now result ≡ tm_type (term_of self.now term) }
    {
        named_type(term_node(&self.terms, term))
    }

    /// The numbers of a function type's domain and range, or None where the type isn't a function type.
    pub fn function_parts(&self, ty: TypeId) -> Option<(TypeId, TypeId)>
        requires { HasType self.now ty }
        ensures parts { IfSome result (λ p. AreParts self.now (type_of self.now ty) p.0 p.1) }
        ensures none { IfNone result ((a b : Ty) → type_of self.now ty ≡ fun_ty a b → ⊥) }
    {
        match self.type_view(ty) {
            TypeView::App(name, args) => {
                if self.name_text(name) == "fun" {
                    pair(args)
                } else {
                    None
                }
            }
            TypeView::Var(_) => None,
        }
    }

    /// Whether two numbers are those of one type.
    pub fn same_type(&self, a: TypeId, b: TypeId) -> bool
        requires a { HasType self.now a }
        requires b { HasType self.now b }
        ensures { IsTrue result ↔ (type_of self.now a ≡ type_of self.now b) }
    {
        let _ = &self.types;
        a == b
    }

    /// Whether two numbers are those of one term.
    pub fn same_term(&self, a: TermId, b: TermId) -> bool
        requires a { HasTerm self.now a }
        requires b { HasTerm self.now b }
        ensures { IsTrue result ↔ (term_of self.now a ≡ term_of self.now b) }
    {
        let _ = &self.terms;
        a == b
    }

    /// How many names there are.
    pub fn count_names(&self) -> usize
        ensures { result ≡ length self.now.names }
    {
        self.names.len()
    }

    /// How many types there are.
    pub fn count_types(&self) -> usize
        ensures { result ≡ length self.now.types }
    {
        self.types.len()
    }

    /// How many terms there are.
    pub fn count_terms(&self) -> usize
        ensures { result ≡ length self.now.terms }
    {
        self.terms.len()
    }

    /// A law: each name, type and term has one number.
    pub fn entries_once(&self)
        ensures names { Distinct [] self.now.names }
        ensures types { Distinct (ty_var []) self.now.types }
        ensures terms { Distinct (tm_index 0 (ty_var [])) self.now.terms }
    {
        let _ = &self.names;
    }
}

/// The number of a list of types, which is added if it isn't there.
fn put_list(
    lists: &mut IndexSet<Vec<TypeId>>,
    alloc: Global,
    args: &[TypeId],
) -> Result<ListId, AllocError>
    ensures ok { IfOk result (λ l. Interned (lists_of lists.old.keys) (lists_of lists.new.keys) l.0 (numbers args.now)) }
    ensures err { OnErr result (lists.new.keys ≡ lists.old.keys) }
{
    if let Some(place) = lists.get_index_of(args) {
        return Ok(ListId(place));
    }
    let mut list = Vec::new(alloc);
    list.extend_from_slice(args)?;
    let (place, _) = lists.insert_full(list)?;
    Ok(ListId(place))
}

/// The place of a name, which is added if it isn't there.
fn put_name(names: &mut IndexSet<String>, alloc: Global, name: &str) -> Result<usize, AllocError>
    ensures ok { IfOk result (λ i. Interned (names_of names.old.keys) (names_of names.new.keys) i name.now) }
    ensures err { OnErr result (names.new.keys ≡ names.old.keys) }
{
    if let Some(place) = names.get_index_of(name) {
        return Ok(place);
    }
    let name = String::from_str(alloc, name)?;
    let (place, _) = names.insert_full(name)?;
    Ok(place)
}

/// The place of a type's node, which is added if it isn't there.
fn put_type(types: &mut IndexSet<TypeNode>, node: TypeNode) -> Result<usize, AllocError>
    ensures ok { IfOk result (λ i. Interned types.old.keys types.new.keys i node) }
    ensures err { OnErr result (types.new.keys ≡ types.old.keys) }
{
    let (place, _) = types.insert_full(node)?;
    Ok(place)
}

/// The place of a term's node, which is added if it isn't there.
fn put_term(terms: &mut IndexSet<TermNode>, node: TermNode) -> Result<usize, AllocError>
    ensures ok { IfOk result (λ i. Interned terms.old.keys terms.new.keys i node) }
    ensures err { OnErr result (terms.new.keys ≡ terms.old.keys) }
{
    let (place, _) = terms.insert_full(node)?;
    Ok(place)
}

/// The node of a type.
fn type_node(types: &IndexSet<TypeNode>, ty: TypeId) -> TypeNode
    requires { ty.0 < length types.now.keys }
    ensures { slice_get types.now.keys ty.0 ≡ Some result }
{
    match types.get_index(ty.0) {
        Some(node) => *node,
        None => unreachable!(),
    }
}

/// The node of a term.
fn term_node(terms: &IndexSet<TermNode>, term: TermId) -> TermNode
    requires { term.0 < length terms.now.keys }
    ensures { slice_get terms.now.keys term.0 ≡ Some result }
{
    match terms.get_index(term.0) {
        Some(node) => *node,
        None => unreachable!(),
    }
}

/// The types of a list.
fn list_items(lists: &IndexSet<Vec<TypeId>>, list: ListId) -> &[TypeId]
    requires { list.0 < length lists.now.keys }
    ensures { slice_get (lists_of lists.now.keys) list.0 ≡ Some (numbers result.now) }
{
    match lists.get_index(list.0) {
        Some(items) => items.as_slice(),
        None => unreachable!(),
    }
}

/// The type that a node names.
fn named_type(node: TermNode) -> TypeId
    ensures { result ≡ own_type node }
{
    match node {
        TermNode::Index(_, ty) => ty,
        TermNode::Free(_, ty) => ty,
        TermNode::Const(_, _, ty) => ty,
        TermNode::Comb(_, _, ty) => ty,
        TermNode::Abs(_, _, ty) => ty,
    }
}

/// The two types of a list of two.
fn pair(args: &[TypeId]) -> Option<(TypeId, TypeId)>
    ensures { result ≡ pair_of args.now }
{
    match args {
        [a, b] => Some((*a, *b)),
        _ => None,
    }
}
