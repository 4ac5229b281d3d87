//! How applications are written.

ghost use Rattle.std.specs.Prelude.{◌≡◌};
ghost use Rattle.std.specs.Option.{option_copied};
ghost use Rattle.hol_terms.specs.Text.{sign_between, sign_binding, is_plain, is_atom};
ghost use Rattle.flat_terms.specs.Plain.{HasTerm, term_of};
ghost use Rattle.flat_printing.specs.Forms.{infix_sugar, binder_sugar, IsForm};

use flat_terms::nodes::{TermId, TermView, TypeId};
use flat_terms::tables::Tables;

/// How an application is written.
#[derive(Clone, Copy)]
pub(crate) enum Form {
    /// With a sign between the left side and the argument.
    Infix(&'static str, TermId),
    /// With `~` before the argument.
    Negation,
    /// With a sign before the variable, its type and the body.
    Binder(&'static str, TypeId, TermId),
    /// The function before the argument.
    Plain,
}

/// The sign of the constants that stand between their two arguments.
fn infix_sign(name: &str) -> Option<&'static str>
    ensures { sign_between name.now ≡ infix_sugar (option_copied result) }
{
    match name {
        "eq" => Some(" = "),
        "conj" => Some(" /\\ "),
        "disj" => Some(" \\/ "),
        "imp" => Some(" ==> "),
        _ => None,
    }
}

/// The sign of the constants that bind the variable of the abstraction behind them.
fn binder_sign(name: &str) -> Option<&'static str>
    ensures { sign_binding name.now ≡ binder_sugar (option_copied result) }
{
    match name {
        "all" => Some("!"),
        "ex" => Some("?"),
        _ => None,
    }
}

/// The form of the application of `f` to `x`, by the nodes at their top.
pub(crate) fn form_of(tables: &Tables, f: TermId, x: TermId) -> Form
    requires f { HasTerm tables.now f }
    requires x { HasTerm tables.now x }
    ensures { IsForm tables.now f x result }
{
    match tables.term_view(f) {
        TermView::Const(name, _, _) => match tables.name_text(name) {
            "not" => Form::Negation,
            text => match tables.term_view(x) {
                TermView::Abs(a, b) => match binder_sign(text) {
                    Some(sign) => Form::Binder(sign, a, b),
                    None => Form::Plain,
                },
                _ => Form::Plain,
            },
        },
        TermView::Comb(operator, left) => match tables.term_view(operator) {
            TermView::Const(name, _, _) => match infix_sign(tables.name_text(name)) {
                Some(sign) => Form::Infix(sign, left),
                None => Form::Plain,
            },
            _ => Form::Plain,
        },
        _ => Form::Plain,
    }
}

/// Whether a term is a variable, a constant, or an application that is written without a sign.
pub(crate) fn is_plain(tables: &Tables, term: TermId) -> bool
    requires { HasTerm tables.now term }
    ensures { result ≡ is_plain (term_of tables.now term) }
{
    match tables.term_view(term) {
        TermView::Index(_, _) | TermView::Free(_, _) | TermView::Const(_, _, _) => true,
        TermView::Comb(f, x) => matches!(form_of(tables, f, x), Form::Plain),
        TermView::Abs(_, _) => false,
    }
}

/// Whether a term is a variable or a constant.
pub(crate) fn is_atom(tables: &Tables, term: TermId) -> bool
    requires { HasTerm tables.now term }
    ensures { result ≡ is_atom (term_of tables.now term) }
{
    match tables.term_view(term) {
        TermView::Index(_, _) | TermView::Free(_, _) | TermView::Const(_, _, _) => true,
        TermView::Comb(_, _) | TermView::Abs(_, _) => false,
    }
}
