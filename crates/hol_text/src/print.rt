//! Types, terms, definition lines and theorem lines in canonical text.

ghost use Rattle.std.specs.Prelude.{◌≡◌, ◌++◌, OnOk, IfOk, string_bytes, not};
ghost use Rattle.std.specs.Option.{option_copied};
ghost use Rattle.hol_terms.specs.Ty.{ty_app, tys};
ghost use Rattle.hol_terms.specs.Tm.{tm_comb, tm_abs};
ghost use Rattle.hol_terms.specs.Definition.{const_def};
ghost use Rattle.hol_terms.specs.Text.{is_arrow, is_function, parenthesized, with_commas, with_arguments, ty_text, tys_texts, tm_text};
ghost use Rattle.hol_terms.specs.Text.{bound_text, sign_between, sign_binding, is_plain, is_atom, printed, definition_line, theorem_line};
ghost use Rattle.hol_text.specs.Printing.{infix_sugar, binder_sugar, IsForm};

use hol_terms::terms::{Term, TermNode};
use hol_terms::types::{HolType, TypeNode};
use std::alloc::{AllocError, Global};
use std::fmt::Write;

/// Whether the name, applied to these types, makes a function type.
#[tactic(auto, using(crate::proofs::PrintLemmas::arrow_lemmas))]
fn is_arrow(name: &str, args: &[HolType]) -> bool
    ensures { result ≡ is_arrow name.now (tys args.now) }
{
    name == "fun" && args.len() == 2
}

/// Whether the type is a function type.
fn is_function(t: &HolType) -> bool
    ensures { result ≡ is_function t.now }
{
    match t.view() {
        TypeNode::Var(_) => false,
        TypeNode::App(name, args) => is_arrow(name, args),
    }
}

/// The canonical text of the type: a function type stands in parentheses as a domain and as the only argument of a name, as
/// `('a -> bool) list`. The error is want of memory.
pub fn print_type(alloc: Global, t: &HolType) -> Result<String, AllocError>
    ensures { IfOk result (λ text. string_bytes text ≡ ty_text t.now) }
{
    let mut text = String::new(alloc);
    push_type(&mut text, t)?;
    Ok(text)
}

/// The canonical text of a term that no binder encloses: bound variables are `x` and the number of the binders around their own,
/// free variables `[v:t]`, and the connectives and quantifiers are written with their signs. The error is want of memory, which
/// is also answered where binders nest deeper than a machine word counts.
pub fn print_term(alloc: Global, t: &Term) -> Result<String, AllocError>
    ensures { IfOk result (λ text. string_bytes text ≡ tm_text t.now) }
{
    let mut text = String::new(alloc);
    push_term(&mut text, t, 0)?;
    Ok(text)
}

/// Writes the type at the end of `out`. An `Err`, for want of memory, leaves a part there.
#[cycle(types)]
pub fn push_type(out: &mut String, t: &HolType) -> Result<(), AllocError>
    ensures { OnOk result (string_bytes out.new ≡ string_bytes out.old ++ ty_text t.now) }
{
    match t.view() {
        TypeNode::Var(name) => {
            out.push_str("'")?;
            out.push_str(name)
        }
        TypeNode::App(name, args) => push_named(out, name, args),
    }
}

/// Writes the name applied to the types.
#[cycle(types)]
#[tactic(auto, using(crate::proofs::PrintLemmas::type_lemmas))]
fn push_named(out: &mut String, name: &str, args: &[HolType]) -> Result<(), AllocError>
    ensures { OnOk result (string_bytes out.new ≡ string_bytes out.old ++ ty_text (ty_app name.now (tys args.now))) }
{
    match args {
        [] => out.push_str(name),
        [arg] => {
            push_domain(out, arg)?;
            out.push_str(" ")?;
            out.push_str(name)
        }
        [first, second, ..] => {
            if is_arrow(name, args) {
                push_domain(out, first)?;
                out.push_str(" -> ")?;
                push_type(out, second)
            } else {
                out.push_str("(")?;
                push_types(out, args)?;
                out.push_str(") ")?;
                out.push_str(name)
            }
        }
    }
}

/// Writes the type, in parentheses if it is a function type.
#[cycle(types)]
fn push_domain(out: &mut String, t: &HolType) -> Result<(), AllocError>
    ensures { OnOk result (string_bytes out.new ≡ string_bytes out.old ++ parenthesized (is_function t.now) (ty_text t.now)) }
{
    if is_function(t) {
        out.push_str("(")?;
        push_type(out, t)?;
        out.push_str(")")
    } else {
        push_type(out, t)
    }
}

/// Writes the types with commas between them.
#[cycle(types)]
#[tactic(auto, using(crate::proofs::PrintLemmas::type_lemmas))]
fn push_types(out: &mut String, types: &[HolType]) -> Result<(), AllocError>
    ensures { OnOk result (string_bytes out.new ≡ string_bytes out.old ++ with_commas (tys_texts (tys types.now))) }
{
    let [first, rest @ ..] = types else {
        return Ok(());
    };
    push_type(out, first)?;
    for t in rest {
        out.push_str(",")?;
        push_type(out, t)?;
    }
    Ok(())
}

/// Writes the name with its type arguments in braces, which are absent where there are none.
#[tactic(auto, using(crate::proofs::PrintLemmas::constant_lemmas))]
fn push_constant(out: &mut String, name: &str, args: &[HolType]) -> Result<(), AllocError>
    ensures { OnOk result (string_bytes out.new ≡ string_bytes out.old ++ with_arguments name.now (tys_texts (tys args.now))) }
{
    out.push_str(name)?;
    match args {
        [] => Ok(()),
        [_, ..] => {
            out.push_str("{")?;
            push_types(out, args)?;
            out.push_str("}")
        }
    }
}

/// Writes the bound variable of a binder that `depth` binders enclose.
fn push_bound(out: &mut String, depth: usize) -> Result<(), AllocError>
    ensures { OnOk result (string_bytes out.new ≡ string_bytes out.old ++ bound_text depth) }
{
    write!(out, "x{depth}")
}

/// How an application is written.
#[derive(Clone, Copy)]
enum Form<'a> {
    /// With a sign between the left side and the argument.
    Infix(&'static str, &'a Term),
    /// With `~` before the argument.
    Negation,
    /// With a sign before the variable, its type and the body.
    Binder(&'static str, &'a HolType, &'a Term),
    /// The function before the argument.
    Plain,
}

/// The sign of the constants that stand between their two arguments.
fn infix_sign(name: &str) -> Option<&'static str>
    ensures { sign_between name.now ≡ infix_sugar (option_copied result) }
{
    match name {
        "eq" => Some(" = "),
        "conj" => Some(" /\\ "),
        "disj" => Some(" \\/ "),
        "imp" => Some(" ==> "),
        _ => None,
    }
}

/// The sign of the constants that bind the variable of the abstraction behind them.
fn binder_sign(name: &str) -> Option<&'static str>
    ensures { sign_binding name.now ≡ binder_sugar (option_copied result) }
{
    match name {
        "all" => Some("!"),
        "ex" => Some("?"),
        _ => None,
    }
}

/// The form of the application of `f` to `x`, by the nodes at their top.
fn form_of<'a>(f: &'a Term, x: &'a Term) -> Form<'a>
    ensures { IsForm f.now x.now result }
{
    match f.view() {
        TermNode::Const("not", _) => Form::Negation,
        TermNode::Const(name, _) => match x.view() {
            TermNode::Abs(a, b) => match binder_sign(name) {
                Some(sign) => Form::Binder(sign, a, b),
                None => Form::Plain,
            },
            _ => Form::Plain,
        },
        TermNode::Comb(operator, left) => match operator.view() {
            TermNode::Const(name, _) => match infix_sign(name) {
                Some(sign) => Form::Infix(sign, left),
                None => Form::Plain,
            },
            _ => Form::Plain,
        },
        _ => Form::Plain,
    }
}

/// Whether the term is a variable, a constant, or an application that is written without a sign.
fn is_plain(t: &Term) -> bool
    ensures { result ≡ is_plain t.now }
{
    match t.view() {
        TermNode::Index(_) | TermNode::Free(_) | TermNode::Const(_, _) => true,
        TermNode::Comb(f, x) => matches!(form_of(f, x), Form::Plain),
        TermNode::Abs(_, _) => false,
    }
}

/// Whether the term is a variable or a constant.
fn is_atom(t: &Term) -> bool
    ensures { result ≡ is_atom t.now }
{
    match t.view() {
        TermNode::Index(_) | TermNode::Free(_) | TermNode::Const(_, _) => true,
        TermNode::Comb(_, _) | TermNode::Abs(_, _) => false,
    }
}

/// Writes the term, which `depth` binders enclose, at the end of `out`. An `Err`, for want of memory or where `depth` and the binders
/// of the term don't fit a machine word together, leaves a part there.
#[cycle(terms)]
#[tactic(auto, using(crate::proofs::PrintLemmas::term_lemmas))]
pub fn push_term(out: &mut String, t: &Term, depth: usize) -> Result<(), AllocError>
    ensures { OnOk result (string_bytes out.new ≡ string_bytes out.old ++ (printed depth t.now).whole) }
{
    match t.view() {
        TermNode::Index(i) => push_bound(out, depth.saturating_sub(i).saturating_sub(1)),
        TermNode::Free(v) => {
            out.push_str("[")?;
            out.push_str(v.name())?;
            out.push_str(":")?;
            push_type(out, v.ty())?;
            out.push_str("]")
        }
        TermNode::Const(name, args) => push_constant(out, name, args),
        TermNode::Comb(f, x) => push_application(out, f, x, depth),
        TermNode::Abs(a, b) => {
            out.push_str("\\")?;
            push_scope(out, a, b, depth)
        }
    }
}

/// Writes the variable of a binder, its type and the body.
#[cycle(terms)]
#[tactic(auto, using(crate::proofs::PrintLemmas::term_lemmas))]
fn push_scope(out: &mut String, a: &HolType, b: &Term, depth: usize) -> Result<(), AllocError>
    ensures { OnOk result (string_bytes out.new ≡ string_bytes out.old ++ (printed depth (tm_abs a.now b.now)).scope) }
{
    let Some(deeper) = depth.checked_add(1) else {
        return Err(AllocError);
    };
    push_bound(out, depth)?;
    out.push_str(":")?;
    push_type(out, a)?;
    out.push_str(". ")?;
    push_term(out, b, deeper)
}

/// Writes the application of `f` to `x`.
#[cycle(terms)]
#[tactic(auto, using(crate::proofs::PrintLemmas::term_lemmas))]
fn push_application(out: &mut String, f: &Term, x: &Term, depth: usize) -> Result<(), AllocError>
    ensures { OnOk result (string_bytes out.new ≡ string_bytes out.old ++ (printed depth (tm_comb f.now x.now)).whole) }
{
    match form_of(f, x) {
        Form::Infix(sign, left) => {
            push_operand(out, left, depth)?;
            out.push_str(sign)?;
            push_operand(out, x, depth)
        }
        Form::Negation => {
            out.push_str("~ ")?;
            push_operand(out, x, depth)
        }
        Form::Binder(sign, a, b) => {
            out.push_str(sign)?;
            push_scope(out, a, b, depth)
        }
        Form::Plain => {
            push_operand(out, f, depth)?;
            out.push_str(" ")?;
            push_argument(out, x, depth)
        }
    }
}

/// Writes the term, in parentheses unless it is plain.
#[cycle(terms)]
#[tactic(auto, using(crate::proofs::PrintLemmas::term_lemmas))]
fn push_operand(out: &mut String, t: &Term, depth: usize) -> Result<(), AllocError>
    ensures { OnOk result (string_bytes out.new ≡ string_bytes out.old ++ parenthesized (not (is_plain t.now)) (printed depth t.now).whole) }
{
    if is_plain(t) {
        push_term(out, t, depth)
    } else {
        out.push_str("(")?;
        push_term(out, t, depth)?;
        out.push_str(")")
    }
}

/// Writes the term, in parentheses unless it is a variable or a constant.
#[cycle(terms)]
#[tactic(auto, using(crate::proofs::PrintLemmas::term_lemmas))]
fn push_argument(out: &mut String, t: &Term, depth: usize) -> Result<(), AllocError>
    ensures { OnOk result (string_bytes out.new ≡ string_bytes out.old ++ parenthesized (not (is_atom t.now)) (printed depth t.now).whole) }
{
    if is_atom(t) {
        push_term(out, t, depth)
    } else {
        out.push_str("(")?;
        push_term(out, t, depth)?;
        out.push_str(")")
    }
}

/// The line that defines the constant of this name as `body`.
pub fn definition_line(alloc: Global, name: &str, body: &Term) -> Result<String, AllocError>
    ensures { IfOk result (λ line. string_bytes line ≡ definition_line (const_def name.now body.now)) }
{
    let mut line = String::from_str(alloc, "def ")?;
    line.push_str(name)?;
    line.push_str(" : ")?;
    push_type(&mut line, body.type_of())?;
    line.push_str(" = ")?;
    push_term(&mut line, body, 0)?;
    Ok(line)
}

/// The line of the theorem of this name, whose conclusion is `concl`.
pub fn theorem_line(alloc: Global, name: &str, concl: &Term) -> Result<String, AllocError>
    ensures { IfOk result (λ line. string_bytes line ≡ theorem_line name.now concl.now) }
{
    let mut line = String::from_str(alloc, "thm ")?;
    line.push_str(name)?;
    line.push_str(" : ")?;
    push_term(&mut line, concl, 0)?;
    Ok(line)
}
