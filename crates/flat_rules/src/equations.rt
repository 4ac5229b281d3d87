//! Equations over the tables, and the types that they need.

ghost use Rattle.std.specs.Prelude.{◌≡◌, ◌↔◌, IfOk, IsTrue};
ghost use Rattle.hol_terms.specs.Typing.{tm_type};
ghost use Rattle.hol_terms.specs.Definition.{bool_ty, eq_ty};
ghost use Rattle.hol_terms.specs.Sequent.{eq_tm};
ghost use Rattle.flat_terms.specs.Plain.{HasType, HasTerm, type_of, term_of};
ghost use Rattle.flat_walks.specs.Number.{IsNumber};
ghost use Rattle.flat_instances.specs.Types.{IsTypeNumber};
ghost use Rattle.flat_instances.specs.TablesGrow.{TablesGrow};
ghost use Rattle.flat_rules.specs.Equations.{eq_const, IsSplit, IsRange};

use flat_signatures::entries::{put_function, put_type_constant};
use flat_terms::nodes::{TermId, TermView, TypeId, TypeView};
use flat_terms::tables::Tables;
use std::alloc::{AllocError, Global};

/// Whether a type is `bool`.
pub fn is_bool(tables: &Tables, ty: TypeId) -> bool
    requires { HasType tables.now ty }
    ensures { IsTrue result ↔ (type_of tables.now ty ≡ bool_ty) }
{
    match tables.type_view(ty) {
        TypeView::App(name, args) => tables.name_text(name) == "bool" && args.is_empty(),
        TypeView::Var(_) => false,
    }
}

/// The number of the range of a function type whose domain is the given type, or None of another type.
pub fn range_over(tables: &Tables, ty: TypeId, domain: TypeId) -> Option<TypeId>
    requires ty { HasType tables.now ty }
    requires domain { HasType tables.now domain }
    ensures { IsRange tables.now (type_of tables.now ty) (type_of tables.now domain) result }
{
    match tables.function_parts(ty) {
        Some((from, to)) => {
            if tables.same_type(from, domain) {
                Some(to)
            } else {
                None
            }
        }
        None => None,
    }
}

/// Whether a type is that of equality at a type.
fn is_equality_type(tables: &Tables, ty: TypeId, at: TypeId) -> bool
    requires ty { HasType tables.now ty }
    requires at { HasType tables.now at }
    ensures { IsTrue result ↔ (type_of tables.now ty ≡ eq_ty (type_of tables.now at)) }
{
    match range_over(tables, ty, at) {
        Some(predicates) => match range_over(tables, predicates, at) {
            Some(range) => is_bool(tables, range),
            None => false,
        },
        None => false,
    }
}

/// Whether a term is the constant `eq` at a type.
fn is_equality(tables: &Tables, term: TermId, at: TypeId) -> bool
    requires term { HasTerm tables.now term }
    requires at { HasType tables.now at }
    ensures { IsTrue result ↔ (term_of tables.now term ≡ eq_const (type_of tables.now at)) }
{
    match tables.term_view(term) {
        TermView::Const(name, args, ty) => match args {
            [only] => {
                if tables.name_text(name) != "eq" {
                    return false;
                }
                if !tables.same_type(*only, at) {
                    return false;
                }
                is_equality_type(tables, ty, at)
            }
            _ => false,
        },
        _ => false,
    }
}

/// The numbers of both sides of an equation, which have one type, or None of a term that is no equation.
pub fn equation(tables: &Tables, term: TermId) -> Option<(TermId, TermId)>
    requires { HasTerm tables.now term }
    ensures { IsSplit tables.now (term_of tables.now term) result }
{
    let TermView::Comb(f, right) = tables.term_view(term) else {
        return None;
    };
    let TermView::Comb(equality, left) = tables.term_view(f) else {
        return None;
    };
    if is_equality(tables, equality, tables.type_of(left)) {
        Some((left, right))
    } else {
        None
    }
}

/// The number of the type `bool`. After want of memory the tables may have more entries.
pub fn bool_type(tables: &mut Tables, alloc: Global) -> Result<TypeId, AllocError>
    ensures grows { TablesGrow tables.old tables.new }
    ensures ok { IfOk result (λ t. IsTypeNumber tables.new t bool_ty) }
{
    put_type_constant(tables, alloc, "bool")
}

/// The number of the type of equality at a type. After want of memory the tables may have more entries.
fn equality_type(tables: &mut Tables, alloc: Global, at: TypeId) -> Result<TypeId, AllocError>
    requires { HasType tables.old at }
    ensures grows { TablesGrow tables.old tables.new }
    ensures ok { IfOk result (λ t. IsTypeNumber tables.new t (eq_ty (type_of tables.old at))) }
{
    let range = bool_type(tables, alloc)?;
    let predicates = put_function(tables, alloc, at, range)?;
    put_function(tables, alloc, at, predicates)
}

/// The number of the constant `eq` at a type. After want of memory the tables may have more entries.
fn equality(tables: &mut Tables, alloc: Global, at: TypeId) -> Result<TermId, AllocError>
    requires { HasType tables.old at }
    ensures grows { TablesGrow tables.old tables.new }
    ensures ok { IfOk result (λ t. IsNumber tables.new t (eq_const (type_of tables.old at))) }
{
    let ty = equality_type(tables, alloc, at)?;
    let name = tables.name(alloc, "eq")?;
    tables.constant(alloc, name, &[at], ty)
}

/// The number of the equation of two terms of one type. After want of memory the tables may have more entries.
pub fn make_equation(
    tables: &mut Tables,
    alloc: Global,
    left: TermId,
    right: TermId,
) -> Result<TermId, AllocError>
    requires left { HasTerm tables.old left }
    requires right { HasTerm tables.old right }
    requires typed { tm_type (term_of tables.old right) ≡ tm_type (term_of tables.old left) }
    ensures grows { TablesGrow tables.old tables.new }
    ensures ok { IfOk result (λ t. IsNumber tables.new t (eq_tm (term_of tables.old left) (term_of tables.old right))) }
{
    let equality = equality(tables, alloc, tables.type_of(left))?;
    let f = tables.application(equality, left)?;
    tables.application(f, right)
}
