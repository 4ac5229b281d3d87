//! The shelf of proved facts.

ghost use Rattle.std.specs.Prelude.{◌≡◌, ◌≢◌, ◌++◌, ◌∷◌, [], All, IfOk, OnOk, OnErr, IfSome};
ghost use Rattle.library_facts.specs.Facts.{statement_of};
ghost use Rattle.script_core.specs.Shelves.{IsFact, IsLastPut};

use hol_kernel::Thm;
use library_facts::Fact;
use std::alloc::{AllocError, Global};
use std::marker::Model;

/// Proved facts. The theorem of each is `|- p`, where p is the fact's statement.
#[derive(Drop)]
pub struct Shelf {
    entries: Vec<(Fact, Thm)>,
}

impl Model for Shelf {
    ghost use Rattle.std.specs.Coded.{coded×, coded_list, coded_ℕ};
    ghost use Rattle.hol_kernel.specs.State.{theorem_code};
    ghost use Rattle.script_core.specs.Shelves.{Shelved, shelved, AreStated};

    ghost Value = { Shelved };

    ghost coded = { coded_list (coded× (coded_list coded_ℕ) theorem_code) };

    ghost view = { λ a. shelved a.entries.items };

    ghost invariant = { λ a. AreStated (shelved a.entries.items) };
}

impl Shelf {
    /// The empty shelf.
    pub fn new(alloc: Global) -> Result<Shelf, AllocError>
        ensures { IfOk result (λ s. s ≡ []) }
    {
        Ok(Shelf {
            entries: Vec::new(alloc),
        })
    }

    /// Puts the theorem of a fact. What was there still is; after want of memory the shelf is as before.
    pub fn put(&mut self, fact: Fact, th: Thm) -> Result<(), AllocError>
        requires { IsFact (statement_of fact) th.sequent }
        ensures ok { OnOk result (self.new ≡ self.old ++ (statement_of fact, th) ∷ []) }
        ensures err { OnErr result (self.new ≡ self.old) }
    {
        self.entries.push((fact, th))?;
        Ok(())
    }

    /// The theorem that was put last for a fact, or None where none was put.
    pub fn get(&self, fact: Fact) -> Option<&Thm>
        ensures none { result ≡ None → All (λ e. e.0 ≢ statement_of fact) self.now }
        ensures last { IfSome result (λ th. IsLastPut self.now (statement_of fact) th.now) }
        ensures stated { IfSome result (λ th. IsFact (statement_of fact) th.now.sequent) }
    {
        let mut left = self.entries.len();
        while left > 0 {
            left -= 1;
            if self.entries[left].0.statement == fact.statement {
                return Some(&self.entries[left].1);
            }
        }
        None
    }
}
