//! Types and terms from tables of lines, each of which makes one from those that lines before it made.

ghost use Rattle.std.specs.Prelude.{◌≡◌, [], ◌∷◌, IfOk, OnOk, IsSome, Some, slice_get};
ghost use Rattle.hol_terms.specs.Loose.{IsClosedAt};
ghost use Rattle.hol_terms.specs.Rules.{if_so, fits, lambda};
ghost use Rattle.hol_terms.specs.Tm.{tm_free, tm_comb};
ghost use Rattle.hol_tables.specs.Building.{listed, type_made, types_made, const_made, term_made, terms_made};
ghost use Rattle.hol_tables.specs.Building.{PlaceFits, PlaceSteps, TypeFits, TypeSteps, TermFits, TermSteps, AllClosed, Makes, MakesTerm};

use hol_terms::terms::{Term, Var};
use hol_terms::types::HolType;
use std::alloc::{AllocError, Global};

/// A line that makes a type, from types that lines before it made, each named by its place.
pub enum TypeLine {
    /// The type variable of a name.
    TypeVar(&'static str),
    /// The type of a name at type arguments.
    Apply(&'static str, &'static [usize]),
    /// The functions from a type to a type.
    Fun(usize, usize),
}

/// A line that makes a term, from types of a table and from terms that lines before it made, each named by its place.
pub enum TermLine {
    /// The constant of a name and a generic type, at type arguments.
    Const(&'static str, usize, &'static [usize]),
    /// The free variable of a name and a type.
    Var(&'static str, usize),
    /// A function applied to an argument of its domain.
    Comb(usize, usize),
    /// The abstraction that binds the variable of a name and a type in a term.
    Abs(&'static str, usize, usize),
}

fn type_at(types: &[HolType], i: usize) -> &HolType
    requires { IsSome (slice_get types.now i) }
    ensures { slice_get types.now i ≡ Some result.now }
{
    match types.get(i) {
        Some(t) => t,
        None => unreachable!(),
    }
}

#[tactic(auto, using(crate::proofs::BuildingLemmas::at_lemmas))]
fn term_at(terms: &[Term], i: usize) -> &Term
    requires { IsSome (slice_get terms.now i) }
    ensures exact { slice_get terms.now i ≡ Some result.now }
    ensures closed { AllClosed terms.now → IsClosedAt 0 result.now }
{
    match terms.get(i) {
        Some(t) => t,
        None => unreachable!(),
    }
}

fn add_place(types: &[HolType], found: &mut Vec<HolType>, place: usize) -> Result<(), AllocError>
    requires { PlaceFits types.now found.old.items place }
    ensures { OnOk result (PlaceSteps types.now found.old.items place found.new.items) }
{
    let t = type_at(types, place).copy()?;
    found.push(t)?;
    Ok(())
}

fn types_at(alloc: Global, types: &[HolType], places: &[usize]) -> Result<Vec<HolType>, AllocError>
    requires { IsSome (listed types.now [] places.now) }
    ensures { IfOk result (λ v. listed types.now [] places.now ≡ Some v.items) }
{
    let mut found = Vec::new(alloc);
    for place in places {
        add_place(types, &mut found, *place)?;
    }
    Ok(found)
}

fn make_type(alloc: Global, types: &[HolType], line: &TypeLine) -> Result<HolType, AllocError>
    requires { IsSome (type_made types.now line.now) }
    ensures { IfOk result (λ t. type_made types.now line.now ≡ Some t) }
{
    match line {
        TypeLine::TypeVar(name) => HolType::var(alloc, name),
        TypeLine::Apply(name, places) => {
            let args = types_at(alloc, types, places)?;
            HolType::app(alloc, name, &args)
        }
        TypeLine::Fun(i, j) => HolType::fun(alloc, type_at(types, *i), type_at(types, *j)),
    }
}

fn add_type(alloc: Global, types: &mut Vec<HolType>, line: &TypeLine) -> Result<(), AllocError>
    requires { TypeFits types.old.items line.now }
    ensures { OnOk result (TypeSteps types.old.items line.now types.new.items) }
{
    let t = make_type(alloc, types, line)?;
    types.push(t)?;
    Ok(())
}

fn make_types(alloc: Global, lines: &[TypeLine]) -> Result<Vec<HolType>, AllocError>
    requires { IsSome (types_made [] lines.now) }
    ensures { IfOk result (λ v. types_made [] lines.now ≡ Some v.items) }
{
    let mut types = Vec::new(alloc);
    for line in lines {
        add_type(alloc, &mut types, line)?;
    }
    Ok(types)
}

#[tactic(auto, using(crate::proofs::BuildingLemmas::fit_lemmas))]
fn apply(alloc: Global, f: &Term, x: &Term) -> Result<Term, AllocError>
    requires { IsSome (if_so (fits f.now x.now) (tm_comb f.now x.now)) }
    ensures { IfOk result (λ t. if_so (fits f.now x.now) (tm_comb f.now x.now) ≡ Some t) }
{
    Term::mk_comb(alloc, f, x)
}

fn abstract_over(alloc: Global, name: &str, ty: &HolType, body: &Term) -> Result<Term, AllocError>
    requires { IsClosedAt 0 body.now }
    ensures { IfOk result (λ t. t ≡ lambda (record { name = name.now; ty = ty.now }) body.now) }
{
    let v = Var::new(alloc, name, ty)?;
    Term::mk_abs(alloc, &v, body)
}

fn free_variable(alloc: Global, name: &str, ty: &HolType) -> Result<Term, AllocError>
    ensures { IfOk result (λ t. t ≡ tm_free (record { name = name.now; ty = ty.now })) }
{
    let v = Var::new(alloc, name, ty)?;
    Term::mk_var(alloc, &v)
}

#[tactic(auto, using(crate::proofs::BuildingLemmas::const_lemmas))]
fn constant(
    alloc: Global,
    types: &[HolType],
    name: &str,
    generic: &HolType,
    places: &[usize],
) -> Result<Term, AllocError>
    requires { IsSome (const_made types.now name.now generic.now places.now) }
    ensures { IfOk result (λ t. const_made types.now name.now generic.now places.now ≡ Some t) }
{
    let args = types_at(alloc, types, places)?;
    Term::mk_const_at(alloc, name, generic, &args)
}

fn make_term(
    alloc: Global,
    types: &[HolType],
    terms: &[Term],
    line: &TermLine,
) -> Result<Term, AllocError>
    requires closed { AllClosed terms.now }
    requires fits { IsSome (term_made types.now terms.now line.now) }
    ensures { IfOk result (λ t. term_made types.now terms.now line.now ≡ Some t) }
{
    match line {
        TermLine::Const(name, i, places) => {
            constant(alloc, types, name, type_at(types, *i), places)
        }
        TermLine::Var(name, i) => free_variable(alloc, name, type_at(types, *i)),
        TermLine::Comb(i, j) => apply(alloc, term_at(terms, *i), term_at(terms, *j)),
        TermLine::Abs(name, i, j) => {
            abstract_over(alloc, name, type_at(types, *i), term_at(terms, *j))
        }
    }
}

fn add_term(
    alloc: Global,
    types: &[HolType],
    terms: &mut Vec<Term>,
    line: &TermLine,
) -> Result<(), AllocError>
    requires closed { AllClosed terms.old.items }
    requires fits { TermFits types.now terms.old.items line.now }
    ensures closed { OnOk result (AllClosed terms.new.items) }
    ensures exact { OnOk result (TermSteps types.now terms.old.items line.now terms.new.items) }
{
    let t = make_term(alloc, types, terms, line)?;
    terms.push(t)?;
    Ok(())
}

fn make_terms(alloc: Global, types: &[HolType], lines: &[TermLine]) -> Result<Term, AllocError>
    requires { IsSome (terms_made types.now [] lines.now) }
    ensures { IfOk result (λ t. terms_made types.now [] lines.now ≡ Some t) }
{
    let mut terms = Vec::new(alloc);
    for line in lines {
        add_term(alloc, types, &mut terms, line)?;
    }
    match terms.pop() {
        Some(t) => Ok(t),
        None => unreachable!(),
    }
}

/// The term that the last line makes. Each line names by their places what it takes from the lines before it.
pub fn build(
    alloc: Global,
    type_lines: &[TypeLine],
    term_lines: &[TermLine],
) -> Result<Term, AllocError>
    requires { Makes type_lines.now term_lines.now }
    ensures { IfOk result (λ t. MakesTerm type_lines.now term_lines.now t) }
{
    let types = make_types(alloc, type_lines)?;
    make_terms(alloc, &types, term_lines)
}
