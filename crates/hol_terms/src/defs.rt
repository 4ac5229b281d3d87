ghost use Rattle.std.specs.Prelude.{◌≡◌, IfOk};
ghost use Rattle.hol_terms.specs.DefShape.{definition_of, from_of};

use crate::terms::Term;
use std::alloc::{AllocError, Global};

/// A definition of a constant by a closed term, or of a type by a predicate. `from` is the number of the step `|- pred t` that
/// shows the new type inhabited, and no part of what contracts see as the definition.
#[derive(Drop)]
pub enum Def {
    Const {
        name: String,
        body: Term,
    },
    NewType {
        name: String,
        pred: Term,
        from: usize,
    },
}

impl Def {
    /// The same definition with the same `from`, over the same shared term.
    pub fn copy(&self) -> Result<Def, AllocError>
        ensures value { IfOk result (λ d. definition_of d ≡ definition_of self.now) }
        ensures step { IfOk result (λ d. from_of d ≡ from_of self.now) }
    {
        match self {
            Def::Const { name, body } => {
                let name = name.clone()?;
                let body = body.copy()?;
                Ok(Def::Const { name, body })
            }
            Def::NewType { name, pred, from } => {
                let name = name.clone()?;
                let pred = pred.copy()?;
                Ok(Def::NewType {
                    name,
                    pred,
                    from: *from,
                })
            }
        }
    }
}
