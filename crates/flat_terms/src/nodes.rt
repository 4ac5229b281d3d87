//! Numbers of names, types and terms, and the nodes that stand at them.

/// The number of a name in its tables.
#[derive(Clone, Copy, PartialEq, Eq, Hash)]
pub struct NameId(pub(crate) usize);

/// The number of a type in its tables.
#[derive(Clone, Copy, PartialEq, Eq, Hash)]
pub struct TypeId(pub(crate) usize);

/// The number of a term in its tables.
#[derive(Clone, Copy, PartialEq, Eq, Hash)]
pub struct TermId(pub(crate) usize);

/// The number of a list of types.
#[derive(Clone, Copy, PartialEq, Eq, Hash)]
pub(crate) struct ListId(pub(crate) usize);

/// A stored node of a type.
#[derive(Clone, Copy, PartialEq, Eq, Hash)]
pub(crate) enum TypeNode {
    Var(NameId),
    App(NameId, ListId),
}

/// A stored node of a term; the last part is the number of its type.
#[derive(Clone, Copy, PartialEq, Eq, Hash)]
pub(crate) enum TermNode {
    Index(usize, TypeId),
    Free(NameId, TypeId),
    Const(NameId, ListId, TypeId),
    Comb(TermId, TermId, TypeId),
    Abs(TypeId, TermId, TypeId),
}

/// The topmost node of a type.
#[derive(Clone, Copy)]
pub enum TypeView<'a> {
    Var(NameId),
    App(NameId, &'a [TypeId]),
}

/// The topmost node of a term.
#[derive(Clone, Copy)]
pub enum TermView<'a> {
    Index(usize, TypeId),
    Free(NameId, TypeId),
    Const(NameId, &'a [TypeId], TypeId),
    Comb(TermId, TermId),
    Abs(TypeId, TermId),
}
