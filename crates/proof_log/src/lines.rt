//! The lines of a log, each without its newline.

ghost use Rattle.std.specs.Prelude.{◌≡◌, ◌++◌, codes, map, string_bytes, IfOk, OnOk};
ghost use Rattle.std.specs.Option.{option_copied};
ghost use Rattle.hol_terms.specs.Tm.{tm_free};
ghost use Rattle.hol_terms.specs.Subst.{ty_pairs};
ghost use Rattle.hol_terms.specs.Text.{tm_text};
ghost use Rattle.hol_logs.specs.Step.{numeral, numerals, with_semicolons, type_pair_text, pair_text};
ghost use Rattle.hol_logs.specs.Line.{line_const, line_type, line_name, line_stop, line_text};
ghost use Rattle.proof_log.specs.Lines.{written_pairs, separator, definition_lines, step_lines, mark_line, end_line, IsLineOf, NamesStep};

use crate::marks::{End, MarkKind};
use crate::segments::is_segment;
use hol_kernel::{Kernel, Step};
use hol_terms::defs::Def;
use hol_terms::terms::{Term, Var};
use hol_terms::types::HolType;
use hol_text::print::{push_term, push_type};
use itoa::Buffer;
use std::alloc::{AllocError, Global};

fn push_number(line: &mut String, n: usize) -> Result<(), AllocError>
    ensures { OnOk result (string_bytes line.new ≡ string_bytes line.old ++ numeral n) }
{
    let mut digits = Buffer::new();
    line.push_str(digits.format(n))
}

fn push_variable(line: &mut String, v: &Var) -> Result<(), AllocError>
    ensures { OnOk result (string_bytes line.new ≡ string_bytes line.old ++ tm_text (tm_free v.now)) }
{
    line.push_str("[")?;
    line.push_str(v.name())?;
    line.push_str(":")?;
    push_type(line, v.ty())?;
    line.push_str("]")
}

fn push_type_pair(line: &mut String, pair: &(String, HolType)) -> Result<(), AllocError>
    ensures { OnOk result (string_bytes line.new ≡ string_bytes line.old ++ type_pair_text (string_bytes pair.now.0, pair.now.1)) }
{
    line.push_str("'")?;
    line.push_str(pair.0.as_str())?;
    line.push_str(" := ")?;
    push_type(line, &pair.1)
}

fn push_pair(line: &mut String, pair: &(Var, Term)) -> Result<(), AllocError>
    ensures { OnOk result (string_bytes line.new ≡ string_bytes line.old ++ pair_text pair.now) }
{
    push_variable(line, &pair.0)?;
    line.push_str(" := ")?;
    push_term(line, &pair.1, 0)
}

/// A pair, behind a semicolon where another stands before it.
#[tactic(auto, using(crate::proofs::Texts::joined))]
fn push_next_type_pair(
    line: &mut String,
    some: bool,
    pair: &(String, HolType),
) -> Result<(), AllocError>
    ensures { OnOk result (string_bytes line.new ≡ string_bytes line.old ++ (separator some ++ type_pair_text (string_bytes pair.now.0, pair.now.1))) }
{
    if some {
        line.push_str(" ; ")?;
    }
    push_type_pair(line, pair)
}

/// The pairs whose variables may be called so; a variable for itself where there is none.
#[tactic(auto, using(crate::proofs::Texts::type_pair_lemmas))]
fn push_type_pairs(line: &mut String, pairs: &[(String, HolType)]) -> Result<(), AllocError>
    ensures { OnOk result (string_bytes line.new ≡ string_bytes line.old ++ with_semicolons (map type_pair_text (written_pairs (ty_pairs pairs.now)))) }
{
    let mut some = false;
    for pair in pairs {
        if is_segment(pair.0.as_str()) {
            push_next_type_pair(line, some, pair)?;
            some = true;
        }
    }
    if some {
        return Ok(());
    }
    line.push_str("'a := 'a")
}

#[tactic(auto, using(crate::proofs::Texts::pair_lemmas))]
fn push_pairs(line: &mut String, pairs: &[(Var, Term)]) -> Result<(), AllocError>
    ensures { OnOk result (string_bytes line.new ≡ string_bytes line.old ++ with_semicolons (map pair_text pairs.now)) }
{
    let [first, rest @ ..] = pairs else {
        return Ok(());
    };
    push_pair(line, first)?;
    for pair in rest {
        line.push_str(" ; ")?;
        push_pair(line, pair)?;
    }
    Ok(())
}

/// The word and a term.
fn term_line(alloc: Global, word: &str, t: &Term) -> Result<String, AllocError>
    ensures { IfOk result (λ line. string_bytes line ≡ word.now ++ tm_text t.now) }
{
    let mut line = String::from_str(alloc, word)?;
    push_term(&mut line, t, 0)?;
    Ok(line)
}

/// The word and a number.
fn number_line(alloc: Global, word: &str, n: usize) -> Result<String, AllocError>
    ensures { IfOk result (λ line. string_bytes line ≡ word.now ++ numeral n) }
{
    let mut line = String::from_str(alloc, word)?;
    push_number(&mut line, n)?;
    Ok(line)
}

/// The word and two numbers.
#[tactic(auto, using(crate::proofs::Texts::joined))]
fn numbers_line(alloc: Global, word: &str, i: usize, j: usize) -> Result<String, AllocError>
    ensures { IfOk result (λ line. string_bytes line ≡ word.now ++ numerals i j) }
{
    let mut line = number_line(alloc, word, i)?;
    line.push_str(" ")?;
    push_number(&mut line, j)?;
    Ok(line)
}

fn abstraction_line(alloc: Global, v: &Var, i: usize) -> Result<String, AllocError>
    ensures { IfOk result (λ line. string_bytes line ≡ codes "abs " ++ tm_text (tm_free v.now) ++ codes " " ++ numeral i) }
{
    let mut line = String::from_str(alloc, "abs ")?;
    push_variable(&mut line, v)?;
    line.push_str(" ")?;
    push_number(&mut line, i)?;
    Ok(line)
}

fn types_line(alloc: Global, i: usize, pairs: &[(String, HolType)]) -> Result<String, AllocError>
    ensures { IfOk result (λ line. string_bytes line ≡ codes "insttype " ++ numeral i ++ codes " " ++ with_semicolons (map type_pair_text (written_pairs (ty_pairs pairs.now)))) }
{
    let mut line = number_line(alloc, "insttype ", i)?;
    line.push_str(" ")?;
    push_type_pairs(&mut line, pairs)?;
    Ok(line)
}

fn terms_line(alloc: Global, i: usize, pairs: &[(Var, Term)]) -> Result<String, AllocError>
    ensures { IfOk result (λ line. string_bytes line ≡ codes "inst " ++ numeral i ++ codes " " ++ with_semicolons (map pair_text pairs.now)) }
{
    let mut line = number_line(alloc, "inst ", i)?;
    line.push_str(" ")?;
    push_pairs(&mut line, pairs)?;
    Ok(line)
}

fn constant_line(alloc: Global, name: &str, body: &Term) -> Result<String, AllocError>
    ensures { IfOk result (λ line. string_bytes line ≡ line_text (line_const name.now body.now)) }
{
    let mut line = String::from_str(alloc, "const ")?;
    line.push_str(name)?;
    line.push_str(" := ")?;
    push_term(&mut line, body, 0)?;
    Ok(line)
}

fn type_line(alloc: Global, name: &str, from: usize) -> Result<String, AllocError>
    ensures { IfOk result (λ line. string_bytes line ≡ line_text (line_type name.now from)) }
{
    let mut line = String::from_str(alloc, "type ")?;
    line.push_str(name)?;
    line.push_str(" ")?;
    push_number(&mut line, from)?;
    Ok(line)
}

fn definition_line(alloc: Global, def: Option<&Def>) -> Result<Option<String>, AllocError>
    ensures { IfOk result (λ line. IsLineOf line (definition_lines (option_copied def.entry))) }
{
    match def {
        None => Ok(None),
        Some(Def::Const { name, body }) => Ok(Some(constant_line(alloc, name.as_str(), body)?)),
        Some(Def::NewType { name, from, .. }) => Ok(Some(type_line(alloc, name.as_str(), *from)?)),
    }
}

/// The line of a step; none for the second step of a type's definition, nor of a definition that isn't listed. The error is want of
/// memory.
pub fn step_line(alloc: Global, defs: &[Def], step: &Step) -> Result<Option<String>, AllocError>
    ensures { IfOk result (λ line. IsLineOf line (step_lines defs.now step.now)) }
{
    match step {
        Step::Refl(t) => Ok(Some(term_line(alloc, "refl ", t)?)),
        Step::Trans(i, j) => Ok(Some(numbers_line(alloc, "trans ", *i, *j)?)),
        Step::Comb(i, j) => Ok(Some(numbers_line(alloc, "comb ", *i, *j)?)),
        Step::Abs(v, i) => Ok(Some(abstraction_line(alloc, v, *i)?)),
        Step::Beta(t) => Ok(Some(term_line(alloc, "beta ", t)?)),
        Step::Assume(p) => Ok(Some(term_line(alloc, "assume ", p)?)),
        Step::Mp(i, j) => Ok(Some(numbers_line(alloc, "mp ", *i, *j)?)),
        Step::Deduct(i, j) => Ok(Some(numbers_line(alloc, "deduct ", *i, *j)?)),
        Step::InstType(i, pairs) => Ok(Some(types_line(alloc, *i, pairs)?)),
        Step::Inst(i, pairs) => Ok(Some(terms_line(alloc, *i, pairs)?)),
        Step::Axiom(n) => Ok(Some(number_line(alloc, "axiom ", *n as usize)?)),
        Step::Const(i) => definition_line(alloc, defs.get(*i)),
        Step::TypeAbs(i) => definition_line(alloc, defs.get(*i)),
        Step::TypeRep(_) => Ok(None),
    }
}

fn name_line(alloc: Global, name: &str, step: usize, concl: &Term) -> Result<String, AllocError>
    ensures { IfOk result (λ line. string_bytes line ≡ line_text (line_name name.now step concl.now)) }
{
    let mut line = String::from_str(alloc, "name ")?;
    line.push_str(name)?;
    line.push_str(" ")?;
    push_number(&mut line, step)?;
    line.push_str(" ")?;
    push_term(&mut line, concl, 0)?;
    Ok(line)
}

/// The line of a mark; a name's has the conclusion of the step that it names. The error is want of memory.
pub fn mark_line(alloc: Global, k: &Kernel, kind: &MarkKind) -> Result<String, AllocError>
    requires { NamesStep k.now kind.now }
    ensures { IfOk result (λ line. string_bytes line ≡ line_text (mark_line k.now kind.now)) }
{
    match kind {
        MarkKind::Base(n) => number_line(alloc, "base ", *n as usize),
        MarkKind::Section(text) => {
            let mut line = String::from_str(alloc, "section ")?;
            line.push_str(text.as_str())?;
            Ok(line)
        }
        MarkKind::Name(name, step) => name_line(alloc, name.as_str(), *step, k.concl_at(*step)),
    }
}

fn stop_line(
    alloc: Global,
    count: usize,
    test: &str,
    name: &str,
    place: usize,
) -> Result<String, AllocError>
    ensures { IfOk result (λ line. string_bytes line ≡ line_text (line_stop count test.now name.now place)) }
{
    let mut line = number_line(alloc, "stop ", count)?;
    line.push_str(" ")?;
    line.push_str(test)?;
    line.push_str(" ")?;
    line.push_str(name)?;
    line.push_str(" ")?;
    push_number(&mut line, place)?;
    Ok(line)
}

/// The last line, below so many lines. The error is want of memory.
pub fn last_line(alloc: Global, count: usize, end: &End) -> Result<String, AllocError>
    ensures { IfOk result (λ line. string_bytes line ≡ line_text (end_line count end.now)) }
{
    match end {
        End::Done => number_line(alloc, "end ", count),
        End::Stop(test, name, place) => {
            stop_line(alloc, count, test.as_str(), name.as_str(), *place)
        }
    }
}
