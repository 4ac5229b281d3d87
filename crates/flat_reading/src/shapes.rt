//! Shapes of terms that decide how they stand in canonical text.

ghost use Rattle.std.specs.Prelude.{◌≡◌};
ghost use Rattle.hol_terms.specs.Rules.{fits, is_abstraction};
ghost use Rattle.hol_terms.specs.Text.{is_atom, is_plain, is_sugar, sugar, sign_between};
ghost use Rattle.flat_terms.specs.Plain.{HasTerm, term_of};

use flat_terms::nodes::{TermId, TermView};
use flat_terms::tables::Tables;

/// Whether the term is a variable or a constant.
pub fn is_atom(tables: &Tables, term: TermId) -> bool
    requires { HasTerm tables.now term }
    ensures { result ≡ is_atom (term_of tables.now term) }
{
    match tables.term_view(term) {
        TermView::Index(_, _) => true,
        TermView::Free(_, _) => true,
        TermView::Const(_, _, _) => true,
        TermView::Comb(_, _) => false,
        TermView::Abs(_, _) => false,
    }
}

/// Whether the term is a variable, a constant or an application that no sign stands for.
pub fn is_plain(tables: &Tables, term: TermId) -> bool
    requires { HasTerm tables.now term }
    ensures { result ≡ is_plain (term_of tables.now term) }
{
    match tables.term_view(term) {
        TermView::Index(_, _) => true,
        TermView::Free(_, _) => true,
        TermView::Const(_, _, _) => true,
        TermView::Comb(f, x) => !is_sugar(tables, f, x),
        TermView::Abs(_, _) => false,
    }
}

/// Whether a sign stands for the function in its application to the argument.
pub fn is_sugar(tables: &Tables, f: TermId, x: TermId) -> bool
    requires function { HasTerm tables.now f }
    requires argument { HasTerm tables.now x }
    ensures { result ≡ is_sugar (sugar (term_of tables.now f) (term_of tables.now x)) }
{
    match tables.term_view(f) {
        TermView::Comb(g, _) => match tables.term_view(g) {
            TermView::Const(name, _, _) => is_connective(tables.name_text(name)),
            _ => false,
        },
        TermView::Const(name, _, _) => {
            let text = tables.name_text(name);
            text == "not" || (is_abstraction(tables, x) && (text == "all" || text == "ex"))
        }
        _ => false,
    }
}

/// Whether a constant of that name has a sign that stands between two operands.
fn is_connective(text: &str) -> bool
    ensures { result ≡ is_sugar (sign_between text.now) }
{
    text == "eq" || text == "conj" || text == "disj" || text == "imp"
}

fn is_abstraction(tables: &Tables, term: TermId) -> bool
    requires { HasTerm tables.now term }
    ensures { result ≡ is_abstraction (term_of tables.now term) }
{
    match tables.term_view(term) {
        TermView::Abs(_, _) => true,
        _ => false,
    }
}

/// Whether the function takes the argument.
pub fn fits(tables: &Tables, f: TermId, x: TermId) -> bool
    requires function { HasTerm tables.now f }
    requires argument { HasTerm tables.now x }
    ensures { result ≡ fits (term_of tables.now f) (term_of tables.now x) }
{
    match tables.function_parts(tables.type_of(f)) {
        Some((domain, _)) => tables.same_type(domain, tables.type_of(x)),
        None => false,
    }
}
