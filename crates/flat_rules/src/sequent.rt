//! Sequents over the tables.

use flat_terms::nodes::TermId;

/// A sequent by the numbers of its hypotheses and of its conclusion.
#[derive(Drop)]
pub struct FlatSequent {
    pub hyps: Vec<TermId>,
    pub concl: TermId,
}
