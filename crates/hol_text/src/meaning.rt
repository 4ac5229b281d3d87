//! What a text means over a signature, or its first fault.

ghost use Rattle.std.specs.Prelude.{◌≡◌, ◌+◌, ◌<◌, ◌^◌, ◌==◌, [], length, IfOk};
ghost use Rattle.hol_terms.specs.Signature.{arity_of};
ghost use Rattle.hol_terms.specs.TyVars.{ty_vars};
ghost use Rattle.hol_terms.specs.Typing.{fun_ty, range_ty};
ghost use Rattle.hol_terms.specs.Rules.{same_ty};
ghost use Rattle.hol_text.specs.Fitting.{first_of_two, IsClosedMeaning};
ghost use Rattle.hol_terms.specs.Meaning.{unknown_at, given, first_fault, count, with_one, is_count, applied, function, constant_by, constant, fitted, apply, one_type, type_of, equation, connective, negation, abstraction, quantified};
ghost use Rattle.hol_text.specs.MeaningViews.{fault_of, meaning_of, arguments_of, operand_of};

use hol_terms::sig::Sig;
use hol_terms::terms::{Term, Var};
use hol_terms::types::{HolType, TypeNode};
use std::alloc::{AllocError, Global};
use std::cmp::Ordering;

/// Why a text that the grammar admits is no type or term.
#[derive(Drop)]
pub enum Fault {
    /// A name that the signature and the binders don't give, or that has another number of type arguments.
    Unknown { name: String, place: usize },
    /// An application of a term to one that it doesn't take.
    IllTyped { place: usize },
}

/// A type or a term, or a fault in place of it.
#[derive(Drop)]
pub enum Meaning<T> {
    Means(T),
    Faulty(Fault),
}

/// Type arguments; where one has a fault, how many there are.
#[derive(Drop)]
pub(crate) enum Arguments {
    Given(Vec<HolType>),
    Flawed { count: usize, fault: Fault },
}

/// A term, and the place of its first token.
#[derive(Drop)]
pub struct Operand {
    pub meaning: Meaning<Term>,
    pub first: usize,
}

/// The fault that is told of two.
pub(crate) fn first_fault(e: Fault, d: Fault) -> Fault
    ensures { fault_of result ≡ first_fault (fault_of e) (fault_of d) }
{
    match e {
        Fault::Unknown { name, place } => match d {
            Fault::Unknown {
                name: other,
                place: at,
            } => {
                if at < place {
                    Fault::Unknown {
                        name: other,
                        place: at,
                    }
                } else {
                    Fault::Unknown { name, place }
                }
            }
            Fault::IllTyped { .. } => Fault::Unknown { name, place },
        },
        Fault::IllTyped { place } => match d {
            Fault::Unknown { name, place } => Fault::Unknown { name, place },
            Fault::IllTyped { .. } => Fault::IllTyped { place },
        },
    }
}

fn unknown(alloc: Global, name: &str, place: usize) -> Result<Fault, AllocError>
    ensures { IfOk result (λ e. fault_of e ≡ unknown_at name.now place) }
{
    let name = String::from_str(alloc, name)?;
    Ok(Fault::Unknown { name, place })
}

impl Arguments {
    /// How many there are.
    fn count(&self) -> usize
        ensures { result ≡ count (arguments_of self.now) }
    {
        match self {
            Arguments::Given(types) => types.len(),
            Arguments::Flawed { count, .. } => *count,
        }
    }
}

/// The arguments with one more.
pub(crate) fn with_one(args: Arguments, ty: Meaning<HolType>) -> Result<Arguments, AllocError>
    requires { count (arguments_of args) + 1 < 2 ^ 64 }
    ensures { IfOk result (λ a. arguments_of a ≡ with_one (arguments_of args) (meaning_of ty)) }
{
    match args {
        Arguments::Given(types) => {
            let mut types = types;
            match ty {
                Meaning::Means(ty) => {
                    types.push(ty)?;
                    Ok(Arguments::Given(types))
                }
                Meaning::Faulty(fault) => {
                    let count = types.len() + 1;
                    Ok(Arguments::Flawed { count, fault })
                }
            }
        }
        Arguments::Flawed { count, fault } => {
            let count = count + 1;
            match ty {
                Meaning::Means(_) => Ok(Arguments::Flawed { count, fault }),
                Meaning::Faulty(other) => {
                    let fault = first_fault(fault, other);
                    Ok(Arguments::Flawed { count, fault })
                }
            }
        }
    }
}

fn has_arity(sig: &Sig, name: &str, count: usize) -> bool
    ensures { result ≡ is_count (arity_of sig.now name.now) count }
{
    match sig.arity(name) {
        Some(arity) => arity as usize == count,
        None => false,
    }
}

/// The type of the name at `place`, applied to arguments.
#[tactic(auto, unfolding(hol_terms::specs::Meaning::applied))]
pub(crate) fn applied(
    alloc: Global,
    sig: &Sig,
    name: &str,
    place: usize,
    args: Arguments,
) -> Result<Meaning<HolType>, AllocError>
    ensures { IfOk result (λ m. meaning_of m ≡ applied sig.now name.now place (arguments_of args)) }
{
    let known = has_arity(sig, name, args.count());
    match args {
        Arguments::Given(types) => {
            if known {
                Ok(Meaning::Means(HolType::app(alloc, name, &types)?))
            } else {
                Ok(Meaning::Faulty(unknown(alloc, name, place)?))
            }
        }
        Arguments::Flawed { fault, .. } => {
            if known {
                Ok(Meaning::Faulty(fault))
            } else {
                let own = unknown(alloc, name, place)?;
                Ok(Meaning::Faulty(first_fault(own, fault)))
            }
        }
    }
}

/// The function type whose arrow is at `place`.
#[tactic(auto, unfolding(hol_terms::specs::Meaning::function))]
pub(crate) fn function(
    alloc: Global,
    sig: &Sig,
    place: usize,
    domain: Meaning<HolType>,
    range: Meaning<HolType>,
) -> Result<Meaning<HolType>, AllocError>
    ensures { IfOk result (λ m. meaning_of m ≡ function sig.now place (meaning_of domain) (meaning_of range)) }
{
    let args = with_one(Arguments::Given(Vec::new(alloc)), domain)?;
    let args = with_one(args, range)?;
    applied(alloc, sig, "fun", place, args)
}

/// The constant of the name at `place`, with type arguments in the order of first occurrence in its generic type.
#[tactic(auto, unfolding(hol_terms::specs::Meaning::constant))]
pub(crate) fn constant(
    alloc: Global,
    sig: &Sig,
    name: &str,
    place: usize,
    args: Arguments,
) -> Result<Meaning<Term>, AllocError>
    ensures { IfOk result (λ m. meaning_of m ≡ constant sig.now name.now place (arguments_of args)) }
{
    match sig.generic(name) {
        Some(generic) => constant_at(alloc, name, place, generic, args),
        None => {
            let own = unknown(alloc, name, place)?;
            match args {
                Arguments::Given(_) => Ok(Meaning::Faulty(own)),
                Arguments::Flawed { fault, .. } => Ok(Meaning::Faulty(first_fault(own, fault))),
            }
        }
    }
}

/// The constant of a generic type.
fn constant_at(
    alloc: Global,
    name: &str,
    place: usize,
    generic: &HolType,
    args: Arguments,
) -> Result<Meaning<Term>, AllocError>
    ensures { IfOk result (λ m. meaning_of m ≡ constant_by (length (ty_vars generic.now []) == count (arguments_of args)) name.now place generic.now (arguments_of args)) }
{
    let vars = generic.vars(alloc)?;
    let known = vars.len() == args.count();
    match args {
        Arguments::Given(types) => {
            if known {
                let term = Term::mk_const_at(alloc, name, generic, &types)?;
                Ok(Meaning::Means(term))
            } else {
                Ok(Meaning::Faulty(unknown(alloc, name, place)?))
            }
        }
        Arguments::Flawed { fault, .. } => {
            if known {
                Ok(Meaning::Faulty(fault))
            } else {
                let own = unknown(alloc, name, place)?;
                Ok(Meaning::Faulty(first_fault(own, fault)))
            }
        }
    }
}

/// Whether there are two types, the first of which is `domain`.
fn is_first_of_two(args: &[HolType], domain: &HolType) -> bool
    ensures { result ≡ first_of_two args.now domain.now }
{
    match args {
        [first, _] => matches!(first.cmp(domain), Ordering::Equal),
        _ => false,
    }
}

/// Whether the type is that of functions from `domain`.
#[tactic(auto, using(crate::proofs::Fits::from_lemmas))]
fn is_from(t: &HolType, domain: &HolType) -> bool
    ensures { result ≡ same_ty t.now (fun_ty domain.now (range_ty t.now)) }
{
    match t.view() {
        TypeNode::Var(_) => false,
        TypeNode::App(name, args) => name == "fun" && is_first_of_two(args, domain),
    }
}

/// The application of two terms, whose first token is at `place`.
#[tactic(auto, using(crate::proofs::Fits::takes_if), unfolding(hol_terms::specs::Meaning::fitted))]
fn fitted(
    alloc: Global,
    place: usize,
    f: Meaning<Term>,
    x: Meaning<Term>,
) -> Result<Meaning<Term>, AllocError>
    ensures { IfOk result (λ m. meaning_of m ≡ fitted place (meaning_of f) (meaning_of x)) }
{
    match f {
        Meaning::Means(f) => match x {
            Meaning::Means(x) => {
                if is_from(f.type_of(), x.type_of()) {
                    Ok(Meaning::Means(Term::mk_comb(alloc, &f, &x)?))
                } else {
                    Ok(Meaning::Faulty(Fault::IllTyped { place }))
                }
            }
            Meaning::Faulty(fault) => Ok(Meaning::Faulty(fault)),
        },
        Meaning::Faulty(fault) => match x {
            Meaning::Means(_) => Ok(Meaning::Faulty(fault)),
            Meaning::Faulty(other) => Ok(Meaning::Faulty(first_fault(fault, other))),
        },
    }
}

/// The application of two operands.
#[tactic(auto, unfolding(hol_terms::specs::Meaning::apply))]
pub(crate) fn apply(alloc: Global, f: Operand, x: Operand) -> Result<Operand, AllocError>
    ensures { IfOk result (λ o. operand_of o ≡ apply (operand_of f) (operand_of x)) }
{
    let first = f.first;
    let meaning = fitted(alloc, first, f.meaning, x.meaning)?;
    Ok(Operand { meaning, first })
}

impl Fault {
    fn copy(&self, alloc: Global) -> Result<Fault, AllocError>
        ensures { IfOk result (λ e. fault_of e ≡ fault_of self.now) }
    {
        match self {
            Fault::Unknown { name, place } => unknown(alloc, name.as_str(), *place),
            Fault::IllTyped { place } => Ok(Fault::IllTyped { place: *place }),
        }
    }
}

/// No type arguments.
pub(crate) fn no_types(alloc: Global) -> Arguments
    ensures { arguments_of result ≡ given [] }
{
    Arguments::Given(Vec::new(alloc))
}

/// A type as the only argument.
pub(crate) fn one_type(alloc: Global, ty: Meaning<HolType>) -> Result<Arguments, AllocError>
    ensures { IfOk result (λ a. arguments_of a ≡ one_type (meaning_of ty)) }
{
    with_one(no_types(alloc), ty)
}

/// The type of a term.
fn type_of(alloc: Global, term: &Meaning<Term>) -> Result<Meaning<HolType>, AllocError>
    ensures { IfOk result (λ m. meaning_of m ≡ type_of (meaning_of term.now)) }
{
    match term {
        Meaning::Means(term) => Ok(Meaning::Means(term.type_of().copy()?)),
        Meaning::Faulty(fault) => Ok(Meaning::Faulty(fault.copy(alloc)?)),
    }
}

/// `a = b`, with the sign at `place`.
#[tactic(auto, unfolding(hol_terms::specs::Meaning::equation))]
pub(crate) fn equation(
    alloc: Global,
    sig: &Sig,
    place: usize,
    a: Operand,
    b: Operand,
) -> Result<Operand, AllocError>
    ensures { IfOk result (λ o. operand_of o ≡ equation sig.now place (operand_of a) (operand_of b)) }
{
    let first = a.first;
    let args = one_type(alloc, type_of(alloc, &a.meaning)?)?;
    let meaning = constant(alloc, sig, "eq", place, args)?;
    let half = apply(alloc, Operand { meaning, first }, a)?;
    apply(alloc, half, b)
}

/// `a /\ b`, `a \/ b` or `a ==> b`, with the sign of the constant at `place`.
#[tactic(auto, unfolding(hol_terms::specs::Meaning::connective))]
pub(crate) fn connective(
    alloc: Global,
    sig: &Sig,
    name: &str,
    place: usize,
    a: Operand,
    b: Operand,
) -> Result<Operand, AllocError>
    ensures { IfOk result (λ o. operand_of o ≡ connective sig.now name.now place (operand_of a) (operand_of b)) }
{
    let first = a.first;
    let meaning = constant(alloc, sig, name, place, no_types(alloc))?;
    let half = apply(alloc, Operand { meaning, first }, a)?;
    apply(alloc, half, b)
}

/// `~ a`, with the sign at `place`.
#[tactic(auto, unfolding(hol_terms::specs::Meaning::negation))]
pub(crate) fn negation(
    alloc: Global,
    sig: &Sig,
    place: usize,
    a: Operand,
) -> Result<Operand, AllocError>
    ensures { IfOk result (λ o. operand_of o ≡ negation sig.now place (operand_of a)) }
{
    let meaning = constant(alloc, sig, "not", place, no_types(alloc))?;
    let first = place;
    apply(alloc, Operand { meaning, first }, a)
}

/// The abstraction of a body over the variable that was read in place of the bound one. What is unknown in the binder's type
/// comes before any fault of the body.
pub(crate) fn abstraction(
    alloc: Global,
    ty: &Meaning<HolType>,
    v: &Var,
    body: Meaning<Term>,
) -> Result<Meaning<Term>, AllocError>
    requires { IsClosedMeaning (meaning_of body) }
    ensures { IfOk result (λ m. meaning_of m ≡ abstraction (meaning_of ty.now) v.now (meaning_of body)) }
{
    match ty {
        Meaning::Means(_) => match body {
            Meaning::Means(body) => Ok(Meaning::Means(Term::mk_abs(alloc, v, &body)?)),
            Meaning::Faulty(fault) => Ok(Meaning::Faulty(fault)),
        },
        Meaning::Faulty(fault) => Ok(Meaning::Faulty(fault.copy(alloc)?)),
    }
}

/// `!x:t. b` or `?x:t. b`, of the abstraction, with the sign of the constant at `place`.
#[tactic(auto, unfolding(hol_terms::specs::Meaning::quantified))]
pub(crate) fn quantified(
    alloc: Global,
    sig: &Sig,
    name: &str,
    place: usize,
    ty: Meaning<HolType>,
    abstraction: Meaning<Term>,
) -> Result<Operand, AllocError>
    ensures { IfOk result (λ o. operand_of o ≡ quantified sig.now name.now place (meaning_of ty) (meaning_of abstraction)) }
{
    let args = one_type(alloc, ty)?;
    let meaning = constant(alloc, sig, name, place, args)?;
    let first = place;
    let quantifier = Operand { meaning, first };
    let meaning = abstraction;
    apply(alloc, quantifier, Operand { meaning, first })
}
