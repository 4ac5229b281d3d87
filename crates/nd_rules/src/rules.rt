//! What the rules keep.

ghost use Rattle.std.specs.Prelude.{◌≡◌, ◌<◌, [], Some, length, IfOk, OnOk, IsSome};
ghost use Rattle.hol_kernel.specs.State.{Has, Grows};
ghost use Rattle.kernel_lines.specs.Bases.{HasBase};
ghost use Rattle.kernel_lines.specs.Lines.{run};
ghost use Rattle.kernel_lines.specs.Ready.{behind, sequents, AllHad};
ghost use Rattle.nd_rules.specs.Facts.{kept_facts, fact_at};
ghost use Rattle.nd_rules.specs.Kept.{HasRules, derived};

use crate::kept_tables::{
    ALL_APPLIED, ALL_FOLD, ALL_MEANS, CASES, CONJ_FIRST, CONJ_MEANS, CONJ_SECOND, CONJ_WITH,
    DISJ_FIRST, DISJ_MEANS, DISJ_SECOND, EX_APPLIED, EX_MEANS, EX_SHOWN, IMP_APPLIED, IMP_MEANS,
    IS_TRUE, MEANS_IMP, MEANS_NOT, NOT_MEANS, SYMMETRY, TRUE_IS, TRUTH_HOLDS,
};
use hol_kernel::{Kernel, Thm};
use kernel_lines::{Line, run_lines};
use std::alloc::{AllocError, Global};
use std::marker::Model;

/// The derived rules of natural deduction (HOL Light's). Their closed theorems are derived once, in one kernel; the rules serve that
/// kernel as long as it grows.
#[derive(Drop)]
pub struct Rules {
    kept: Vec<Thm>,
}

impl Model for Rules {
    ghost use Rattle.std.specs.Prelude.{◌≡◌, List};
    ghost use Rattle.std.specs.Coded.{coded_list};
    ghost use Rattle.hol_kernel.specs.State.{Theorem, theorem_code};
    ghost use Rattle.kernel_lines.specs.Ready.{sequents};
    ghost use Rattle.nd_rules.specs.Facts.{kept_facts};

    ghost Value = { List Theorem };

    ghost coded = { coded_list theorem_code };

    ghost view = { λ a. a.kept.items };

    ghost invariant = { λ a. sequents a.kept.items ≡ kept_facts };
}

fn references(alloc: Global, thms: &[Thm]) -> Result<Vec<&Thm>, AllocError>
    ensures { IfOk result (λ v. behind v.items ≡ thms.now) }
{
    let mut given = Vec::new(alloc);
    for th in thms {
        given.push(th)?;
    }
    Ok(given)
}

/// The theorem that a table gives over all those before it.
#[tactic(auto, using(kernel_lines::proofs::Given::given_lemmas))]
fn derive(alloc: Global, k: &mut Kernel, kept: &[Thm], table: &[Line]) -> Result<Thm, AllocError>
    requires base { HasBase k.old.defs }
    requires had { AllHad k.old kept.now }
    requires fits { IsSome (run [] (sequents kept.now) table.now) }
    ensures exact { IfOk result (λ th. run [] (sequents kept.now) table.now ≡ Some th.sequent) }
    ensures has { IfOk result (λ th. Has k.new th) }
    ensures grows { Grows k.old k.new }
{
    let given = references(alloc, kept)?;
    let th = run_lines(alloc, k, &[], &given, table)?;
    Ok(th)
}

/// The theorems that tables give, each over all those before it.
#[tactic(auto, using(kernel_lines::proofs::Given::given_lemmas, kernel_lines::proofs::Given::grows_lemmas))]
fn derive_all(alloc: Global, k: &mut Kernel, tables: &[&[Line]]) -> Result<Vec<Thm>, AllocError>
    requires base { HasBase k.old.defs }
    requires fit { IsSome (derived [] tables.now) }
    ensures exact { IfOk result (λ v. derived [] tables.now ≡ Some (sequents v.items)) }
    ensures had { IfOk result (λ v. AllHad k.new v.items) }
    ensures grows { Grows k.old k.new }
{
    let mut kept = Vec::new(alloc);
    for table in tables {
        let th = derive(alloc, k, &kept, table)?;
        kept.push(th)?;
    }
    Ok(kept)
}

impl Rules {
    /// Derives what the rules keep, in some 300 steps of the kernel, which gains these alone. The one error is want of memory.
    pub fn new(alloc: Global, k: &mut Kernel) -> Result<Rules, AllocError>
        requires { HasBase k.old.defs }
        ensures rules { IfOk result (λ r. HasRules k.new r) }
        ensures grows { Grows k.old k.new }
    {
        let tables: [&[Line]; 23] = [
            &TRUTH_HOLDS,
            &SYMMETRY,
            &IS_TRUE,
            &TRUE_IS,
            &CONJ_MEANS,
            &CONJ_FIRST,
            &CONJ_SECOND,
            &CONJ_WITH,
            &IMP_MEANS,
            &MEANS_IMP,
            &IMP_APPLIED,
            &NOT_MEANS,
            &MEANS_NOT,
            &ALL_MEANS,
            &ALL_FOLD,
            &ALL_APPLIED,
            &DISJ_MEANS,
            &DISJ_FIRST,
            &DISJ_SECOND,
            &CASES,
            &EX_MEANS,
            &EX_SHOWN,
            &EX_APPLIED,
        ];
        let kept = derive_all(alloc, k, &tables)?;
        Ok(Rules { kept })
    }

    /// What is kept at a place.
    pub(crate) fn kept<'a>(&'a self, k: &Kernel, place: usize) -> &'a Thm
        requires rules { HasRules k.now self.now }
        requires there { place < length kept_facts }
        ensures is { result.now.sequent ≡ fact_at place }
        ensures has { Has k.now result.now }
    {
        &self.kept[place]
    }
}
