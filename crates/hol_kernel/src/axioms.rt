//! The three axioms (HOL Light), whose terms are built from tables.

ghost use Rattle.std.specs.Prelude.{◌≡◌, [], IfOk, OnErr, IsSome, Some};
ghost use Rattle.hol_terms.specs.Sequent.{seq};
ghost use Rattle.hol_terms.specs.Logic.{axiom_1, axiom_2, axiom_3};
ghost use Rattle.hol_terms.specs.Base.{base};
ghost use Rattle.hol_terms.specs.Proves.{IsPrefix};
ghost use Rattle.hol_kernel.specs.State.{Has, IsNewStep, Grows};
ghost use Rattle.hol_kernel.specs.Run.{axiom_at};

use crate::kernel::{Kernel, Thm};
use crate::step::Step;
use hol_tables::build::{TermLine, TypeLine, build};
use hol_terms::terms::Term;
use std::alloc::{AllocError, Global};

impl Kernel {
    /// The axiom of a number: 1 says that a function is what it does, 2 that what holds of something holds of the chosen one,
    /// and 3 that some function of `ind` is one to one and not onto. The connectives are defined. After want of memory the
    /// kernel is as before.
    pub fn axiom(&mut self, alloc: Global, n: u32) -> Result<Thm, AllocError>
        requires number { IsSome (axiom_at n) }
        requires base { IsPrefix (base 10) self.old.defs }
        ensures exact { IfOk result (λ th. axiom_at n ≡ Some th.sequent) }
        ensures ok { IfOk result (λ th. IsNewStep self.old self.old.defs self.new th th.sequent) }
        ensures err { OnErr result (self.new ≡ self.old) }
        ensures has { IfOk result (λ th. Has self.new th) }
        ensures grows { Grows self.old self.new }
    {
        let concl = axiom_term(alloc, n)?;
        let th = self.add(alloc, Step::Axiom(n), Vec::new(alloc), concl)?;
        Ok(th)
    }
}

#[tactic(auto, using(crate::proofs::AxiomNumbers::number_lemmas))]
fn axiom_term(alloc: Global, n: u32) -> Result<Term, AllocError>
    requires { IsSome (axiom_at n) }
    ensures { IfOk result (λ t. axiom_at n ≡ Some (seq [] t)) }
{
    match n {
        1 => extensionality(alloc),
        2 => selection(alloc),
        3 => infinity(alloc),
        _ => unreachable!(),
    }
}

// The types that the tables name, each by its place.
const BOOL: usize = 0;

const ALPHA: usize = 1;

const BETA: usize = 2;

const IND: usize = 3;

const FUNCTION: usize = 4;

const PREDICATE: usize = 5;

const QUANTIFIER: usize = 6;

const EQUALITY: usize = 7;

const CHOICE: usize = 8;

const UNARY: usize = 9;

const BINARY: usize = 10;

const OF_FUNCTION: usize = 11;

const ENDOMAP: usize = 12;

static TYPES: [TypeLine; 13] = [
    // bool
    TypeLine::Apply("bool", &[]),
    // 'a
    TypeLine::TypeVar("a"),
    // 'b
    TypeLine::TypeVar("b"),
    // ind
    TypeLine::Apply("ind", &[]),
    // 'a -> 'b
    TypeLine::Fun(ALPHA, BETA),
    // 'a -> bool
    TypeLine::Fun(ALPHA, BOOL),
    // ('a -> bool) -> bool
    TypeLine::Fun(PREDICATE, BOOL),
    // 'a -> 'a -> bool
    TypeLine::Fun(ALPHA, PREDICATE),
    // ('a -> bool) -> 'a
    TypeLine::Fun(PREDICATE, ALPHA),
    // bool -> bool
    TypeLine::Fun(BOOL, BOOL),
    // bool -> bool -> bool
    TypeLine::Fun(BOOL, UNARY),
    // ('a -> 'b) -> bool
    TypeLine::Fun(FUNCTION, BOOL),
    // ind -> ind
    TypeLine::Fun(IND, IND),
];

static EXTENSIONALITY: [TermLine; 10] = [
    // 0: f
    TermLine::Var("f", FUNCTION),
    // 1: x
    TermLine::Var("x", ALPHA),
    // 2: f x
    TermLine::Comb(0, 1),
    // 3: \x. f x
    TermLine::Abs("x", ALPHA, 2),
    // 4: eq
    TermLine::Const("eq", EQUALITY, &[FUNCTION]),
    // 5: eq (\x. f x)
    TermLine::Comb(4, 3),
    // 6: (\x. f x) = f
    TermLine::Comb(5, 0),
    // 7: \f. (\x. f x) = f
    TermLine::Abs("f", FUNCTION, 6),
    // 8: all
    TermLine::Const("all", QUANTIFIER, &[FUNCTION]),
    // 9: !f. (\x. f x) = f
    TermLine::Comb(8, 7),
];

/// `!f. (\x. f x) = f`.
#[tactic(auto, unfolding(hol_terms::specs::Rules::same_ty))]
fn extensionality(alloc: Global) -> Result<Term, AllocError>
    ensures { IfOk result (λ t. t ≡ axiom_1) }
{
    build(alloc, &TYPES, &EXTENSIONALITY)
}

static SELECTION: [TermLine; 15] = [
    // 0: P
    TermLine::Var("P", PREDICATE),
    // 1: x
    TermLine::Var("x", ALPHA),
    // 2: P x
    TermLine::Comb(0, 1),
    // 3: imp
    TermLine::Const("imp", BINARY, &[]),
    // 4: imp (P x)
    TermLine::Comb(3, 2),
    // 5: some
    TermLine::Const("some", CHOICE, &[ALPHA]),
    // 6: some P
    TermLine::Comb(5, 0),
    // 7: P (some P)
    TermLine::Comb(0, 6),
    // 8: P x ==> P (some P)
    TermLine::Comb(4, 7),
    // 9: \x. P x ==> P (some P)
    TermLine::Abs("x", ALPHA, 8),
    // 10: all
    TermLine::Const("all", QUANTIFIER, &[ALPHA]),
    // 11: !x. P x ==> P (some P)
    TermLine::Comb(10, 9),
    // 12: \P. !x. P x ==> P (some P)
    TermLine::Abs("P", PREDICATE, 11),
    // 13: all
    TermLine::Const("all", QUANTIFIER, &[PREDICATE]),
    // 14: !P. !x. P x ==> P (some P)
    TermLine::Comb(13, 12),
];

/// `!P. !x. P x ==> P (some P)`.
#[tactic(auto, unfolding(hol_terms::specs::Rules::same_ty))]
fn selection(alloc: Global) -> Result<Term, AllocError>
    ensures { IfOk result (λ t. t ≡ axiom_2) }
{
    build(alloc, &TYPES, &SELECTION)
}

static INFINITY: [TermLine; 13] = [
    // 0: f
    TermLine::Var("f", ENDOMAP),
    // 1: one_one
    TermLine::Const("one_one", OF_FUNCTION, &[IND, IND]),
    // 2: one_one f
    TermLine::Comb(1, 0),
    // 3: conj
    TermLine::Const("conj", BINARY, &[]),
    // 4: conj (one_one f)
    TermLine::Comb(3, 2),
    // 5: onto
    TermLine::Const("onto", OF_FUNCTION, &[IND, IND]),
    // 6: onto f
    TermLine::Comb(5, 0),
    // 7: not
    TermLine::Const("not", UNARY, &[]),
    // 8: ~ onto f
    TermLine::Comb(7, 6),
    // 9: one_one f /\ (~ onto f)
    TermLine::Comb(4, 8),
    // 10: \f. one_one f /\ (~ onto f)
    TermLine::Abs("f", ENDOMAP, 9),
    // 11: ex
    TermLine::Const("ex", QUANTIFIER, &[ENDOMAP]),
    // 12: ?f. one_one f /\ (~ onto f)
    TermLine::Comb(11, 10),
];

/// `?f. one_one f /\ (~ onto f)`, over `ind`.
#[tactic(auto, unfolding(hol_terms::specs::Rules::same_ty))]
fn infinity(alloc: Global) -> Result<Term, AllocError>
    ensures { IfOk result (λ t. t ≡ axiom_3) }
{
    build(alloc, &TYPES, &INFINITY)
}
