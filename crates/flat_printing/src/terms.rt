//! Terms in canonical text.

ghost use Rattle.std.specs.Prelude.{◌≡◌, ◌++◌, OnOk, string_bytes, not};
ghost use Rattle.hol_terms.specs.Tm.{tm_comb, tm_abs};
ghost use Rattle.hol_terms.specs.Text.{parenthesized, bound_text, is_plain, is_atom, printed, tm_text};
ghost use Rattle.flat_terms.specs.Plain.{HasType, HasTerm, type_of, term_of};

use crate::forms::{Form, form_of, is_atom, is_plain};
use crate::types::{push_constant, push_type};
use flat_terms::nodes::{TermId, TermView, TypeId};
use flat_terms::tables::Tables;
use std::alloc::AllocError;
use std::fmt::Write;

/// Writes a term that no binder encloses at the end of `out`: bound variables are `x` and the number of the binders around their own,
/// free variables `[v:t]`, and the connectives and quantifiers are written with their signs. An `Err`, for want of memory or where
/// binders nest deeper than a machine word counts, leaves a part there.
pub fn push_term(tables: &Tables, out: &mut String, term: TermId) -> Result<(), AllocError>
    requires { HasTerm tables.now term }
    ensures { OnOk result (string_bytes out.new ≡ string_bytes out.old ++ tm_text (term_of tables.now term)) }
{
    push_below(tables, out, term, 0)
}

/// Writes the bound variable of a binder that `depth` binders enclose.
fn push_bound(out: &mut String, depth: usize) -> Result<(), AllocError>
    ensures { OnOk result (string_bytes out.new ≡ string_bytes out.old ++ bound_text depth) }
{
    write!(out, "x{depth}")
}

/// Writes a term that `depth` binders enclose.
#[cycle(terms)]
#[tactic(auto, using(crate::proofs::Applications::application_lemmas))]
fn push_below(
    tables: &Tables,
    out: &mut String,
    term: TermId,
    depth: usize,
) -> Result<(), AllocError>
    requires { HasTerm tables.now term }
    ensures { OnOk result (string_bytes out.new ≡ string_bytes out.old ++ (printed depth (term_of tables.now term)).whole) }
{
    match tables.term_view(term) {
        TermView::Index(i, _) => push_bound(out, depth.saturating_sub(i).saturating_sub(1)),
        TermView::Free(name, ty) => {
            out.push_str("[")?;
            out.push_str(tables.name_text(name))?;
            out.push_str(":")?;
            push_type(tables, out, ty)?;
            out.push_str("]")
        }
        TermView::Const(name, args, _) => push_constant(tables, out, name, args),
        TermView::Comb(f, x) => push_application(tables, out, f, x, depth),
        TermView::Abs(bound, body) => {
            out.push_str("\\")?;
            push_scope(tables, out, bound, body, depth)
        }
    }
}

/// Writes the variable of a binder, its type and the body.
#[cycle(terms)]
#[tactic(auto, using(crate::proofs::Applications::application_lemmas))]
fn push_scope(
    tables: &Tables,
    out: &mut String,
    bound: TypeId,
    body: TermId,
    depth: usize,
) -> Result<(), AllocError>
    requires bound { HasType tables.now bound }
    requires body { HasTerm tables.now body }
    ensures { OnOk result (string_bytes out.new ≡ string_bytes out.old ++ (printed depth (tm_abs (type_of tables.now bound) (term_of tables.now body))).scope) }
{
    let Some(deeper) = depth.checked_add(1) else {
        return Err(AllocError);
    };
    push_bound(out, depth)?;
    out.push_str(":")?;
    push_type(tables, out, bound)?;
    out.push_str(". ")?;
    push_below(tables, out, body, deeper)
}

/// Writes the application of `f` to `x`.
#[cycle(terms)]
#[tactic(auto, using(crate::proofs::Applications::application_lemmas))]
fn push_application(
    tables: &Tables,
    out: &mut String,
    f: TermId,
    x: TermId,
    depth: usize,
) -> Result<(), AllocError>
    requires f { HasTerm tables.now f }
    requires x { HasTerm tables.now x }
    ensures { OnOk result (string_bytes out.new ≡ string_bytes out.old ++ (printed depth (tm_comb (term_of tables.now f) (term_of tables.now x))).whole) }
{
    match form_of(tables, f, x) {
        Form::Infix(sign, left) => {
            push_operand(tables, out, left, depth)?;
            out.push_str(sign)?;
            push_operand(tables, out, x, depth)
        }
        Form::Negation => {
            out.push_str("~ ")?;
            push_operand(tables, out, x, depth)
        }
        Form::Binder(sign, bound, body) => {
            out.push_str(sign)?;
            push_scope(tables, out, bound, body, depth)
        }
        Form::Plain => {
            push_operand(tables, out, f, depth)?;
            out.push_str(" ")?;
            push_argument(tables, out, x, depth)
        }
    }
}

/// Writes a term, in parentheses unless it is plain.
#[cycle(terms)]
#[tactic(auto, using(crate::proofs::Applications::application_lemmas))]
fn push_operand(
    tables: &Tables,
    out: &mut String,
    term: TermId,
    depth: usize,
) -> Result<(), AllocError>
    requires { HasTerm tables.now term }
    ensures { OnOk result (string_bytes out.new ≡ string_bytes out.old ++ parenthesized (not (is_plain (term_of tables.now term))) (printed depth (term_of tables.now term)).whole) }
{
    if is_plain(tables, term) {
        push_below(tables, out, term, depth)
    } else {
        out.push_str("(")?;
        push_below(tables, out, term, depth)?;
        out.push_str(")")
    }
}

/// Writes a term, in parentheses unless it is a variable or a constant.
#[cycle(terms)]
#[tactic(auto, using(crate::proofs::Applications::application_lemmas))]
fn push_argument(
    tables: &Tables,
    out: &mut String,
    term: TermId,
    depth: usize,
) -> Result<(), AllocError>
    requires { HasTerm tables.now term }
    ensures { OnOk result (string_bytes out.new ≡ string_bytes out.old ++ parenthesized (not (is_atom (term_of tables.now term))) (printed depth (term_of tables.now term)).whole) }
{
    if is_atom(tables, term) {
        push_below(tables, out, term, depth)
    } else {
        out.push_str("(")?;
        push_below(tables, out, term, depth)?;
        out.push_str(")")
    }
}
