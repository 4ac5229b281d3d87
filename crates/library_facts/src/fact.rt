//! Facts, and their statements.

ghost use Rattle.std.specs.Prelude.{◌≡◌, ◌+◌, ◌<◌, IfOk, OnOk};
ghost use Rattle.hol_terms.specs.Definition.{signature_of};
ghost use Rattle.hol_terms.specs.Base.{base, base_definitions};
ghost use Rattle.hol_terms.specs.Reading.{reading_of_term};
ghost use Rattle.hol_text.specs.Answers.{Answers};
ghost use Rattle.library_facts.specs.Facts.{statement_of};

use hol_terms::sig::Sig;
use hol_terms::terms::Term;
use hol_text::read::{ReadError, read_term};
use std::alloc::{AllocError, Global};
use stmt_core::base_def;

/// A fact, which is the canonical text of its statement over the base definitions.
#[derive(Clone, Copy, Debug, PartialEq, Eq, Drop)]
pub struct Fact {
    pub statement: &'static str,
}

/// The stated conclusion of the fact: the term that its text reads as over the base definitions. The errors are those of reading it. It
/// makes their signature anew.
pub fn fact_stmt(alloc: Global, fact: Fact) -> Result<Term, ReadError>
    ensures { Answers result (reading_of_term (signature_of base_definitions) (statement_of fact)) }
{
    let sig = base_signature(alloc)?;
    read_term(alloc, &sig, fact.statement)
}

/// The signature of the base definitions.
#[tactic(auto, using(stmt_core::proofs::BaseSteps::base_whole))]
fn base_signature(alloc: Global) -> Result<Sig, AllocError>
    ensures { IfOk result (λ sig. sig ≡ signature_of base_definitions) }
{
    let mut sig = Sig::start(alloc)?;
    for place in 0..52 {
        add_base(alloc, &mut sig, place)?;
    }
    Ok(sig)
}

/// Adds the names of the base definition at a place to the signature of those before it.
fn add_base(alloc: Global, sig: &mut Sig, place: u32) -> Result<(), AllocError>
    requires place { place < 52 }
    requires so_far { sig.old ≡ signature_of (base place) }
    ensures { OnOk result (sig.new ≡ signature_of (base (place + 1))) }
{
    let next = base_def(alloc, place + 1)?;
    sig.add_def(alloc, &next)?;
    Ok(())
}
