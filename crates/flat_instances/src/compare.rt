ghost use Rattle.std.specs.Prelude.{◌≡◌};
ghost use Rattle.std.specs.Cmp.Lexicographic.{slice_cmp};
ghost use Rattle.hol_terms.specs.Subst.{name_cmp, ty_cmp};
ghost use Rattle.hol_terms.specs.Binding.{tm_cmp};
ghost use Rattle.flat_terms.specs.Plain.{HasName, HasType, HasTypes, HasTerm, name_of, type_of, term_of};
ghost use Rattle.flat_instances.specs.Orders.{type_order};

use flat_terms::nodes::{NameId, TermId, TermView, TypeId, TypeView};
use flat_terms::tables::Tables;
use std::cmp::Ordering;

/// The order of two terms: by kind, an index, a variable, a constant, an application and an abstraction, then by parts. Parts of one
/// number are equal at once, so that of the parts of two nodes only the first that differ are looked into.
pub fn compare(tables: &Tables, a: TermId, b: TermId) -> Ordering
    requires a { HasTerm tables.now a }
    requires b { HasTerm tables.now b }
    ensures { result ≡ tm_cmp (term_of tables.now a) (term_of tables.now b) }
{
    if tables.same_term(a, b) {
        return Ordering::Equal;
    }
    match (tables.term_view(a), tables.term_view(b)) {
        (TermView::Index(i, t), TermView::Index(j, u)) => match i.cmp(&j) {
            Ordering::Equal => compare_types(tables, t, u),
            decided => decided,
        },
        (TermView::Index(_, _), _) => Ordering::Less,
        (_, TermView::Index(_, _)) => Ordering::Greater,
        (TermView::Free(m, t), TermView::Free(n, u)) => match compare_names(tables, m, n) {
            Ordering::Equal => compare_types(tables, t, u),
            decided => decided,
        },
        (TermView::Free(_, _), _) => Ordering::Less,
        (_, TermView::Free(_, _)) => Ordering::Greater,
        (TermView::Const(m, ts, t), TermView::Const(n, us, u)) => match compare_names(
            tables, m, n,
        ) {
            Ordering::Equal => match compare_lists(tables, ts, us) {
                Ordering::Equal => compare_types(tables, t, u),
                decided => decided,
            },
            decided => decided,
        },
        (TermView::Const(_, _, _), _) => Ordering::Less,
        (_, TermView::Const(_, _, _)) => Ordering::Greater,
        (TermView::Comb(f, x), TermView::Comb(g, y)) => match compare(tables, f, g) {
            Ordering::Equal => compare(tables, x, y),
            decided => decided,
        },
        (TermView::Comb(_, _), _) => Ordering::Less,
        (_, TermView::Comb(_, _)) => Ordering::Greater,
        (TermView::Abs(t, c), TermView::Abs(u, d)) => match compare_types(tables, t, u) {
            Ordering::Equal => compare(tables, c, d),
            decided => decided,
        },
    }
}

/// The order of two types: a variable before an application, then by names and arguments.
#[cycle(compare_types)]
pub fn compare_types(tables: &Tables, a: TypeId, b: TypeId) -> Ordering
    requires a { HasType tables.now a }
    requires b { HasType tables.now b }
    ensures { result ≡ ty_cmp (type_of tables.now a) (type_of tables.now b) }
{
    if tables.same_type(a, b) {
        return Ordering::Equal;
    }
    match (tables.type_view(a), tables.type_view(b)) {
        (TypeView::Var(m), TypeView::Var(n)) => compare_names(tables, m, n),
        (TypeView::Var(_), TypeView::App(_, _)) => Ordering::Less,
        (TypeView::App(_, _), TypeView::Var(_)) => Ordering::Greater,
        (TypeView::App(m, xs), TypeView::App(n, ys)) => match compare_names(tables, m, n) {
            Ordering::Equal => compare_lists(tables, xs, ys),
            decided => decided,
        },
    }
}

/// The order of two lists of types, by their first types that differ; a list comes before a longer one that it begins.
#[cycle(compare_types)]
fn compare_lists(tables: &Tables, xs: &[TypeId], ys: &[TypeId]) -> Ordering
    requires xs { HasTypes tables.now xs.now }
    requires ys { HasTypes tables.now ys.now }
    ensures { result ≡ slice_cmp (type_order tables.now) xs.now ys.now }
{
    for (i, x) in xs.iter().enumerate() {
        if i >= ys.len() {
            return Ordering::Greater;
        }
        match compare_types(tables, *x, ys[i]) {
            Ordering::Equal => {}
            decided => return decided,
        }
    }
    if xs.len() < ys.len() {
        Ordering::Less
    } else {
        Ordering::Equal
    }
}

/// The order of two names.
fn compare_names(tables: &Tables, m: NameId, n: NameId) -> Ordering
    requires m { HasName tables.now m }
    requires n { HasName tables.now n }
    ensures { result ≡ name_cmp (name_of tables.now m) (name_of tables.now n) }
{
    let a = tables.name_text(m);
    let b = tables.name_text(n);
    a.cmp(&b)
}
