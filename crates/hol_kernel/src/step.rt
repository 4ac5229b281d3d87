use hol_terms::terms::{Term, Var};
use hol_terms::types::HolType;

/// What gave the sequent of a step. A premise is named by the number of its step, a definition by its place among the
/// definitions.
#[derive(Drop)]
pub enum Step {
    Refl(Term),
    Trans(usize, usize),
    Comb(usize, usize),
    Abs(Var, usize),
    Beta(Term),
    Assume(Term),
    Mp(usize, usize),
    Deduct(usize, usize),
    InstType(usize, Vec<(String, HolType)>),
    Inst(usize, Vec<(Var, Term)>),
    Axiom(u32),
    /// The equation of a constant's definition.
    Const(usize),
    /// `abs (rep a) = a` of a type's definition.
    TypeAbs(usize),
    /// `P r = (rep (abs r) = r)` of a type's definition.
    TypeRep(usize),
}
