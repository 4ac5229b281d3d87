ghost use Rattle.std.specs.Prelude.{◌≡◌, string_bytes};

use hol_terms::terms::Term;
use std::marker::Model;

/// A fact: its name, and the term that it states.
#[derive(Drop)]
pub struct NamedFact {
    name: String,
    statement: Term,
}

impl Model for NamedFact {
    ghost use Rattle.std.specs.Prelude.{string_bytes};
    ghost use Rattle.decl_core.specs.Statements.{Fact, fact_code};

    ghost Value = { Fact };

    ghost coded = { fact_code };

    ghost view = { λ a. (string_bytes a.name, a.statement) };
}

impl NamedFact {
    /// The statement under the name.
    pub fn new(name: String, statement: Term) -> NamedFact
        ensures { result ≡ (string_bytes name, statement) }
    {
        NamedFact { name, statement }
    }

    /// The name.
    pub fn name(&self) -> &str
        ensures { result.now ≡ self.now.0 }
    {
        self.name.as_str()
    }

    /// The term that the fact states.
    pub fn statement(&self) -> &Term
        ensures { result.now ≡ self.now.1 }
    {
        &self.statement
    }
}
