//! The runner of tables.

ghost use Rattle.std.specs.Prelude.{◌≡◌, ◌++◌, [], ◌∷◌, IfOk, OnOk, IsSome, Some, IsSomeAnd};
ghost use Rattle.hol_terms.specs.Definition.{signature_of};
ghost use Rattle.hol_terms.specs.Signature.{IsTyOver, IsOver};
ghost use Rattle.hol_terms.specs.Reading.{reading_of_type, reading_of_term};
ghost use Rattle.hol_text.specs.Over.{GivesTypes};
ghost use Rattle.hol_kernel.specs.State.{Has, Grows};
ghost use Rattle.library_facts.specs.Facts.{statement_of, statements_of};
ghost use Rattle.kernel_lines.specs.Bases.{HasBase};
ghost use Rattle.nd_rules.specs.Kept.{HasRules};
ghost use Rattle.kernel_lines.specs.Ready.{behind, sequents, AllHad};
ghost use Rattle.script_core.specs.Words.{words};
ghost use Rattle.script_core.specs.Steps.{inferred};
ghost use Rattle.script_core.specs.Tables.{read, with_type, with_term, with_thm, stepped, run, facts_put};
ghost use Rattle.script_core.specs.Shelves.{IsFact, IsOn, AreOn, ShelfHad};
ghost use Rattle.script_core.specs.Ready.{values, given_values, IsReady, IsGiven, Fits, Gives, StartsFrom, LineFits, LineSteps};

use crate::entries::Entries;
use crate::rule::{LineKind, Rule, kind_named};
use crate::shelf::Shelf;
use crate::steps::infer;
use crate::words::{head, lines, words};
use hol_kernel::{Kernel, Thm};
use hol_terms::terms::Term;
use hol_terms::types::HolType;
use hol_text::read::{ReadError, read_term, read_type};
use library_facts::Fact;
use nd_rules::Rules;
use std::alloc::{AllocError, Global};

/// What a table is given beside facts: the first types, the first terms, and the theorems behind those of the facts.
pub struct Given<'a> {
    pub types: &'a [HolType],
    pub terms: &'a [Term],
    pub thms: &'a [&'a Thm],
}

impl Given<'static> {
    /// Nothing beside facts.
    pub fn none() -> Given<'static>
        ensures types { result.types.now ≡ [] }
        ensures terms { result.terms.now ≡ [] }
        ensures thms { result.thms.now ≡ [] }
    {
        Given {
            types: &[],
            terms: &[],
            thms: &[],
        }
    }
}

/// The type that a text reads as.
fn type_read(alloc: Global, k: &Kernel, text: &str) -> Result<HolType, AllocError>
    requires { IsSome (read (reading_of_type (signature_of k.now.defs) text.now)) }
    ensures exact { IfOk result (λ t. read (reading_of_type (signature_of k.now.defs) text.now) ≡ Some t) }
    ensures over { IfOk result (λ t. IsTyOver (signature_of k.now.defs) t) }
{
    match read_type(alloc, k.sig(), text) {
        Ok(t) => Ok(t),
        Err(ReadError::Memory) => Err(AllocError),
        Err(ReadError::Syntax { .. }) => unreachable!(),
        Err(ReadError::Unknown { .. }) => unreachable!(),
        Err(ReadError::IllTyped { .. }) => unreachable!(),
    }
}

/// The term that a text reads as.
fn term_read(alloc: Global, k: &Kernel, text: &str) -> Result<Term, AllocError>
    requires typed { GivesTypes (signature_of k.now.defs) }
    requires fits { IsSome (read (reading_of_term (signature_of k.now.defs) text.now)) }
    ensures exact { IfOk result (λ t. read (reading_of_term (signature_of k.now.defs) text.now) ≡ Some t) }
    ensures over { IfOk result (λ t. IsOver (signature_of k.now.defs) [] t) }
{
    match read_term(alloc, k.sig(), text) {
        Ok(t) => Ok(t),
        Err(ReadError::Memory) => Err(AllocError),
        Err(ReadError::Syntax { .. }) => unreachable!(),
        Err(ReadError::Unknown { .. }) => unreachable!(),
        Err(ReadError::IllTyped { .. }) => unreachable!(),
    }
}

/// The theorem that a line makes, by its rule and the text behind it.
fn thm_made(
    alloc: Global,
    k: &mut Kernel,
    rules: &Rules,
    r: &Entries,
    rule: Rule,
    text: &str,
) -> Result<Thm, AllocError>
    requires rules { HasRules k.old rules.now }
    requires ready { IsReady k.old r.now }
    requires fits { IsSome (inferred k.old.defs (values r.now) rule (words text.now)) }
    ensures exact { IfOk result (λ th. inferred k.old.defs (values r.now) rule (words text.now) ≡ Some th.sequent) }
    ensures has { IfOk result (λ th. Has k.new th) }
    ensures grows { Grows k.old k.new }
{
    let words = words(alloc, text)?;
    infer(alloc, k, rules, r, rule, &words)
}

/// Puts a type behind the others.
#[tactic(auto, using(crate::proofs::TableLemmas::push_lemmas))]
fn push_type(k: &Kernel, r: &mut Entries, ty: HolType) -> Result<(), AllocError>
    requires ready { IsReady k.now r.old }
    requires over { IsTyOver (signature_of k.now.defs) ty }
    ensures ready { OnOk result (IsReady k.now r.new) }
    ensures exact { OnOk result (values r.new ≡ with_type (values r.old) ty) }
{
    r.types.push(ty)?;
    Ok(())
}

/// Puts a term behind the others.
#[tactic(auto, using(crate::proofs::TableLemmas::push_lemmas))]
fn push_term(k: &Kernel, r: &mut Entries, t: Term) -> Result<(), AllocError>
    requires ready { IsReady k.now r.old }
    requires over { IsOver (signature_of k.now.defs) [] t }
    ensures ready { OnOk result (IsReady k.now r.new) }
    ensures exact { OnOk result (values r.new ≡ with_term (values r.old) t) }
{
    r.terms.push(t)?;
    Ok(())
}

/// Puts a theorem behind the others.
#[tactic(auto, using(crate::proofs::TableLemmas::push_lemmas))]
fn push_thm(k: &Kernel, r: &mut Entries, th: Thm) -> Result<(), AllocError>
    requires ready { IsReady k.now r.old }
    requires has { Has k.now th }
    ensures ready { OnOk result (IsReady k.now r.new) }
    ensures exact { OnOk result (values r.new ≡ with_thm (values r.old) th.sequent) }
{
    r.thms.push(th)?;
    Ok(())
}

/// Adds the entry that a line of a kind makes, by the text behind its first word.
#[tactic(auto, using(crate::proofs::TableLemmas::step_lemmas))]
fn add_entry(
    alloc: Global,
    k: &mut Kernel,
    rules: &Rules,
    r: &mut Entries,
    kind: LineKind,
    text: &str,
) -> Result<(), AllocError>
    requires rules { HasRules k.old rules.now }
    requires typed { GivesTypes (signature_of k.old.defs) }
    requires ready { IsReady k.old r.old }
    requires fits { IsSome (stepped k.old.defs (values r.old) kind text.now) }
    ensures ready { OnOk result (IsReady k.new r.new) }
    ensures exact { OnOk result (stepped k.old.defs (values r.old) kind text.now ≡ Some (values r.new)) }
    ensures grows { Grows k.old k.new }
{
    match kind {
        LineKind::TypeText => {
            let ty = type_read(alloc, k, text)?;
            push_type(k, r, ty)?;
            Ok(())
        }
        LineKind::TermText => {
            let t = term_read(alloc, k, text)?;
            push_term(k, r, t)?;
            Ok(())
        }
        LineKind::Step(rule) => {
            let th = thm_made(alloc, k, rules, r, rule, text)?;
            push_thm(k, r, th)?;
            Ok(())
        }
    }
}

/// Follows a line.
#[tactic(auto, using(crate::proofs::TableLemmas::line_lemmas))]
fn run_line(
    alloc: Global,
    k: &mut Kernel,
    rules: &Rules,
    r: &mut Entries,
    line: &str,
) -> Result<(), AllocError>
    requires rules { HasRules k.old rules.now }
    requires typed { GivesTypes (signature_of k.old.defs) }
    requires ready { IsReady k.old r.old }
    requires fits { LineFits k.old.defs (values r.old) line.now }
    ensures ready { OnOk result (IsReady k.new r.new) }
    ensures exact { OnOk result (LineSteps k.old.defs (values r.old) line.now (values r.new)) }
    ensures grows { Grows k.old k.new }
{
    let (word, text) = head(line);
    let Some(kind) = kind_named(word) else {
        unreachable!();
    };
    add_entry(alloc, k, rules, r, kind, text)?;
    Ok(())
}

/// The last theorem, after the lines.
#[tactic(auto, using(crate::proofs::TableLemmas::loop_lemmas))]
fn run_lines(
    alloc: Global,
    k: &mut Kernel,
    rules: &Rules,
    r: Entries,
    lines: &[&str],
) -> Result<Thm, AllocError>
    requires rules { HasRules k.old rules.now }
    requires typed { GivesTypes (signature_of k.old.defs) }
    requires ready { IsReady k.old r }
    requires fits { IsSome (run k.old.defs (values r) (behind lines.now)) }
    ensures exact { IfOk result (λ th. run k.old.defs (values r) (behind lines.now) ≡ Some th.sequent) }
    ensures has { IfOk result (λ th. Has k.new th) }
    ensures grows { Grows k.old k.new }
{
    let mut r = r;
    for line in lines {
        run_line(alloc, k, rules, &mut r, line)?;
    }
    match r.thms.pop() {
        Some(th) => Ok(th),
        None => unreachable!(),
    }
}

/// Shows that the kernel's definitions give a signature whose constants have types of it, by one of its theorems.
#[tactic(auto, using(crate::proofs::TableLemmas::type_lemmas))]
fn check_types(alloc: Global, k: &Kernel) -> Result<(), AllocError>
    requires { HasBase k.now.defs }
    ensures { OnOk result (GivesTypes (signature_of k.now.defs)) }
{
    let th = k.def_at(alloc, 0)?;
    let _ = th.concl();
    Ok(())
}

/// The theorem of a fact that is on the shelf.
#[tactic(auto, using(crate::proofs::ShelfLemmas::known_lemmas))]
fn known<'a>(s: &'a Shelf, k: &Kernel, fact: Fact) -> &'a Thm
    requires on { IsOn s.now (statement_of fact) }
    requires had { ShelfHad k.now s.now }
    ensures has { Has k.now result.now }
    ensures stated { IsFact (statement_of fact) result.now.sequent }
{
    match s.get(fact) {
        Some(th) => th,
        None => unreachable!(),
    }
}

/// Copies the theorems of the facts.
#[tactic(auto, using(crate::proofs::ShelfLemmas::premise_lemmas))]
fn premises(alloc: Global, k: &Kernel, s: &Shelf, facts: &[Fact]) -> Result<Vec<Thm>, AllocError>
    requires on { AreOn s.now (statements_of facts.now) }
    requires had { ShelfHad k.now s.now }
    ensures exact { IfOk result (λ v. facts_put [] (statements_of facts.now) ≡ Some (sequents v.items)) }
    ensures had { IfOk result (λ v. AllHad k.now v.items) }
{
    let mut thms = Vec::new(alloc);
    for fact in facts {
        let th = known(s, k, *fact).copy(alloc)?;
        thms.push(th)?;
    }
    Ok(thms)
}

fn copy_types(alloc: Global, given: &[HolType]) -> Result<Vec<HolType>, AllocError>
    ensures { IfOk result (λ v. v.items ≡ given.now) }
{
    let mut types = Vec::new(alloc);
    for ty in given {
        types.push(ty.copy()?)?;
    }
    Ok(types)
}

fn copy_terms(alloc: Global, given: &[Term]) -> Result<Vec<Term>, AllocError>
    ensures { IfOk result (λ v. v.items ≡ given.now) }
{
    let mut terms = Vec::new(alloc);
    for t in given {
        terms.push(t.copy()?)?;
    }
    Ok(terms)
}

fn add_given(alloc: Global, thms: &mut Vec<Thm>, given: &[&Thm]) -> Result<(), AllocError>
    ensures { OnOk result (thms.new.items ≡ thms.old.items ++ behind given.now) }
{
    for th in given {
        thms.push(th.copy(alloc)?)?;
    }
    Ok(())
}

/// The registers that a table starts from.
#[tactic(auto, using(crate::proofs::TableLemmas::start_lemmas))]
fn start(
    alloc: Global,
    k: &Kernel,
    s: &Shelf,
    facts: &[Fact],
    given: &Given<'_>,
) -> Result<Entries, AllocError>
    requires on { AreOn s.now (statements_of facts.now) }
    requires had { ShelfHad k.now s.now }
    requires given { IsGiven k.now given.now }
    ensures exact { IfOk result (λ r. StartsFrom (statements_of facts.now) (given_values given.now) (values r)) }
    ensures ready { IfOk result (λ r. IsReady k.now r) }
{
    let types = copy_types(alloc, given.types)?;
    let terms = copy_terms(alloc, given.terms)?;
    let mut thms = premises(alloc, k, s, facts)?;
    add_given(alloc, &mut thms, given.thms)?;
    Ok(Entries { types, terms, thms })
}

/// The last theorem of a table: lines of text over the listed facts, which are on the shelf, and what is given. Each line puts one
/// entry behind those of its register, types, terms or theorems: the type or the term that its text reads as over the kernel's
/// definitions, or the theorem that a rule gives from entries, which are named by their numbers, from 0. Only steps are added to
/// the kernel. The one error is want of memory.
#[tactic(auto, using(crate::proofs::TableLemmas::table_lemmas))]
pub fn run_table(
    alloc: Global,
    k: &mut Kernel,
    rules: &Rules,
    s: &Shelf,
    facts: &[Fact],
    given: &Given<'_>,
    table: &str,
) -> Result<Thm, AllocError>
    requires rules { HasRules k.old rules.now }
    requires shelf { ShelfHad k.old s.now }
    requires listed { AreOn s.now (statements_of facts.now) }
    requires given { IsGiven k.old given.now }
    requires fits { Fits k.old.defs (statements_of facts.now) (given_values given.now) table.now }
    ensures exact { IfOk result (λ th. Gives k.old.defs (statements_of facts.now) (given_values given.now) table.now th.sequent) }
    ensures has { IfOk result (λ th. Has k.new th) }
    ensures grows { Grows k.old k.new }
{
    check_types(alloc, k)?;
    let r = start(alloc, k, s, facts, given)?;
    let lines = lines(alloc, table)?;
    let th = run_lines(alloc, k, rules, r, &lines)?;
    Ok(th)
}
