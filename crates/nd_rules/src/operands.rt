//! What the rules read off their premises.

ghost use Rattle.std.specs.Prelude.{◌≡◌, []};
ghost use Rattle.hol_terms.specs.Tm.{tm_comb};
ghost use Rattle.hol_terms.specs.Typing.{tm_type};
ghost use Rattle.hol_terms.specs.Signature.{IsOver};
ghost use Rattle.hol_terms.specs.Definition.{bool_ty, signature_of};
ghost use Rattle.hol_terms.specs.Sequent.{IsEq, left_of, argument};
ghost use Rattle.hol_terms.specs.Rules.{function};
ghost use Rattle.hol_terms.specs.Proves.{IsDerivable};
ghost use Rattle.hol_kernel.specs.State.{Has};
ghost use Rattle.nd_rules.specs.Shapes.{IsUnary, IsBinary, AreOperands, IsOperand, AreSides, IsQuantified, IsPredicate};

use hol_kernel::{Kernel, Thm};
use hol_terms::terms::{Term, TermNode};

/// The conclusion.
pub(crate) fn conclusion<'a>(k: &Kernel, a: &'a Thm) -> &'a Term
    requires { Has k.now a.now }
    ensures value { result.now ≡ a.now.sequent.concl }
    ensures over { IsOver (signature_of k.now.defs) [] result.now }
    ensures boolean { tm_type result.now ≡ bool_ty }
    ensures derivable { IsDerivable a.now.defs a.now.sequent }
{
    let concl = a.concl();
    concl
}

/// s of a term `s o t`.
fn first_of(t: &Term) -> &Term
    requires { IsBinary t.now }
    ensures { result.now ≡ left_of t.now }
{
    match t.view() {
        TermNode::Comb(f, _) => match f.view() {
            TermNode::Comb(_, s) => s,
            _ => unreachable!(),
        },
        _ => unreachable!(),
    }
}

/// t of a term `f t`.
fn argument_of(t: &Term) -> &Term
    requires { t.now ≡ tm_comb (function t.now) (argument t.now) }
    ensures { result.now ≡ argument t.now }
{
    match t.view() {
        TermNode::Comb(_, s) => s,
        _ => unreachable!(),
    }
}

/// s and t of a conclusion `s o t`, where o is a connective.
pub(crate) fn operands<'a>(k: &Kernel, a: &'a Thm) -> (&'a Term, &'a Term)
    requires has { Has k.now a.now }
    requires binary { IsBinary a.now.sequent.concl }
    ensures operands { AreOperands (signature_of k.now.defs) a.now.sequent.concl result.0.now result.1.now }
    ensures derivable { IsDerivable a.now.defs a.now.sequent }
{
    let concl = a.concl();
    (first_of(concl), argument_of(concl))
}

/// s of a conclusion `~ s`.
pub(crate) fn operand<'a>(k: &Kernel, a: &'a Thm) -> &'a Term
    requires has { Has k.now a.now }
    requires unary { IsUnary a.now.sequent.concl }
    ensures { IsOperand (signature_of k.now.defs) a.now.sequent.concl result.now }
{
    let concl = a.concl();
    argument_of(concl)
}

/// Both sides of a conclusion that is an equation.
pub(crate) fn sides<'a>(k: &Kernel, a: &'a Thm) -> (&'a Term, &'a Term)
    requires has { Has k.now a.now }
    requires equation { IsEq a.now.sequent.concl }
    ensures { AreSides (signature_of k.now.defs) a.now.sequent.concl result.0.now result.1.now }
{
    let concl = a.concl();
    (concl.left(), concl.right())
}

/// P of `q P`, where q is a quantifier over the type of t.
pub(crate) fn predicate<'a>(k: &Kernel, t: &Term, e: &'a Term) -> &'a Term
    requires over { IsOver (signature_of k.now.defs) [] e.now }
    requires quantified { IsQuantified (tm_type t.now) e.now }
    ensures value { result.now ≡ argument e.now }
    ensures predicate { IsPredicate (signature_of k.now.defs) (tm_type t.now) result.now }
{
    argument_of(e)
}
