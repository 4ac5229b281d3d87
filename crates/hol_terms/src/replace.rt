//! A term in place of subterms.

ghost use Rattle.std.specs.Prelude.{◌≡◌, IfOk};
ghost use Rattle.hol_terms.specs.Typing.{tm_type};
ghost use Rattle.hol_terms.specs.Rules.{same};
ghost use Rattle.hol_terms.specs.Loose.{IsClosedAt};
ghost use Rattle.hol_terms.specs.Replacing.{has_subterm, replaced, replaced_at, FitsAt};

use crate::terms::{Term, TermNode};
use std::alloc::{AllocError, Global};
use std::cmp::Ordering;

impl Term {
    /// Whether the terms are the same.
    #[tactic(auto, unfolding(crate::specs::Rules::same))]
    pub fn is_same(&self, o: &Term) -> bool
        ensures { result ≡ same self.now o.now }
    {
        matches!(self.cmp(o), Ordering::Equal)
    }

    /// Whether the term is `part`, or has it as a subterm.
    #[tactic(auto, using(crate::proofs::Replacements::subterm_lemmas))]
    pub fn has_subterm(&self, part: &Term) -> bool
        ensures { result ≡ has_subterm part.now self.now }
    {
        if self.is_same(part) {
            return true;
        }
        match self.view() {
            TermNode::Comb(f, x) => f.has_subterm(part) || x.has_subterm(part),
            TermNode::Abs(_, b) => b.has_subterm(part),
            _ => false,
        }
    }

    /// The term with `to`, which has no loose index, in place of each topmost subterm that is `from`.
    #[tactic(auto, using(crate::proofs::Replacements::replace_lemmas))]
    pub fn replace(&self, alloc: Global, from: &Term, to: &Term) -> Result<Term, AllocError>
        requires types { tm_type from.now ≡ tm_type to.now }
        requires closed { IsClosedAt 0 to.now }
        ensures { IfOk result (λ t. t ≡ replaced from.now to.now self.now) }
    {
        if self.is_same(from) {
            return to.copy();
        }
        match self.view() {
            TermNode::Comb(f, x) => {
                let f = f.replace(alloc, from, to)?;
                let x = x.replace(alloc, from, to)?;
                Term::apply(alloc, f, x)
            }
            TermNode::Abs(a, b) => Term::mk_lambda(alloc, a, b.replace(alloc, from, to)?),
            _ => self.copy(),
        }
    }

    /// The term with `to`, which has no loose index, in place of the subterm at the path. A step of a path is 0 for the
    /// function of an application or the body of an abstraction, and 1 for the argument.
    #[tactic(auto, using(crate::proofs::Replacements::replace_at_lemmas))]
    pub fn replace_at(&self, alloc: Global, path: &[u32], to: &Term) -> Result<Term, AllocError>
        requires fits { FitsAt path.now to.now self.now }
        requires closed { IsClosedAt 0 to.now }
        ensures exact { IfOk result (λ t. t ≡ replaced_at path.now to.now self.now) }
        ensures ty { IfOk result (λ t. tm_type t ≡ tm_type self.now) }
    {
        match (path, self.view()) {
            ([], _) => to.copy(),
            ([0, rest @ ..], TermNode::Comb(f, x)) => {
                let f = f.replace_at(alloc, rest, to)?;
                Term::apply(alloc, f, x.copy()?)
            }
            ([1, rest @ ..], TermNode::Comb(f, x)) => {
                let x = x.replace_at(alloc, rest, to)?;
                Term::apply(alloc, f.copy()?, x)
            }
            ([0, rest @ ..], TermNode::Abs(a, b)) => {
                Term::mk_lambda(alloc, a, b.replace_at(alloc, rest, to)?)
            }
            _ => unreachable!(),
        }
    }
}
