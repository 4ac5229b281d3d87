ghost use Rattle.std.specs.Prelude.{◌≡◌, [], map, slice_get, IfOk, OnErr, IsSome, IsSomeAnd};
ghost use Rattle.hol_terms.specs.Definition.{signature_of};
ghost use Rattle.hol_terms.specs.DefShape.{definition_of};
ghost use Rattle.hol_terms.specs.Sequent.{seq};
ghost use Rattle.hol_kernel.specs.State.{Has, IsNewStep, Grows};
ghost use Rattle.hol_kernel.specs.Run.{IsStep, IsRun};
ghost use Rattle.hol_kernel.specs.Log.{IsLogOf};

use crate::history::History;
use crate::room::push_within;
use crate::step::Step;
pub use crate::theorem::Thm;
use crate::theorem::copy_all;
use hol_terms::defs::Def;
use hol_terms::sig::Sig;
use hol_terms::terms::Term;
use std::alloc::{AllocError, Global};
use std::marker::Model;

/// Why a name and a term or a predicate make no definition: the name; a type variable of the term that its type lacks; a free
/// variable; a theorem that shows no predicate inhabited.
#[derive(Clone, Copy, Debug, PartialEq, Eq, Drop)]
pub enum Unfit {
    Name,
    TypeVar,
    Free,
    Shape,
}

/// The sequent of a step.
#[derive(Drop)]
pub(crate) struct Record {
    pub(crate) hyps: Vec<Term>,
    pub(crate) concl: Term,
}

impl Model for Record {
    ghost use Rattle.hol_terms.specs.Sequent.{Sequent, sequent_code};

    ghost Value = { Sequent };

    ghost coded = { sequent_code };

    ghost view = { λ a. record { hyps = a.hyps.items; concl = a.concl } };
}

impl Record {
    /// The sequent with no hypothesis.
    pub(crate) fn of_none(alloc: Global, concl: Term) -> Record
        ensures { result ≡ seq [] concl }
    {
        Record {
            hyps: Vec::new(alloc),
            concl,
        }
    }
}

/// The definitions and the steps so far.
#[derive(Drop)]
pub struct Kernel {
    pub(crate) defs: Vec<Def>,
    pub(crate) history: History,
    pub(crate) sig: Sig,
    pub(crate) steps: Vec<Record>,
    pub(crate) log: Vec<Step>,
    /// Of each definition, the number of the first step that says it.
    pub(crate) made: Vec<usize>,
}

impl Model for Kernel {
    ghost use Rattle.hol_kernel.specs.State.{State, state_code};

    ghost Value = { State };

    ghost coded = { state_code };

    ghost view = { λ a. record { defs = a.history; steps = a.steps.items } };

    ghost use Rattle.hol_kernel.specs.Kept.{IsKernel};

    ghost invariant = { IsKernel };
}

impl Kernel {
    /// The kernel with no definition and no step.
    pub fn new(alloc: Global) -> Result<Kernel, AllocError>
        ensures { IfOk result (λ k. k ≡ record { defs = []; steps = [] }) }
    {
        let history = History::start(alloc)?;
        let sig = Sig::start(alloc)?;
        Ok(Kernel {
            defs: Vec::new(alloc),
            history,
            sig,
            steps: Vec::new(alloc),
            log: Vec::new(alloc),
            made: Vec::new(alloc),
        })
    }

    /// The definitions in the order of making.
    pub fn defs(&self) -> &[Def]
        ensures { map definition_of result.now ≡ self.now.defs }
    {
        &self.defs
    }

    /// The steps in the order of making.
    pub fn steps(&self) -> &[Step]
        ensures { IsLogOf self.now result.now }
    {
        &self.log
    }

    /// The definitions and the steps, which give all that the kernel says.
    pub fn defs_and_steps(&self) -> (&[Def], &[Step])
        ensures defs { map definition_of result.0.now ≡ self.now.defs }
        ensures run { IsRun result.0.now result.1.now self.now }
    {
        (&self.defs, &self.log)
    }

    /// The hypotheses of the step's sequent.
    pub fn hyps_at(&self, step: usize) -> &[Term]
        requires { IsSome (slice_get self.now.steps step) }
        ensures { IsSomeAnd (slice_get self.now.steps step) (λ a. result.now ≡ a.hyps) }
    {
        &self.steps[step].hyps
    }

    /// The conclusion of the step's sequent.
    pub fn concl_at(&self, step: usize) -> &Term
        requires { IsSome (slice_get self.now.steps step) }
        ensures { IsSomeAnd (slice_get self.now.steps step) (λ a. result.now ≡ a.concl) }
    {
        &self.steps[step].concl
    }

    /// The signature of the definitions.
    pub fn sig(&self) -> &Sig
        ensures { result.now ≡ signature_of self.now.defs }
    {
        &self.sig
    }

    /// Adds the step, whose sequent the kernel has from now on.
    pub(crate) fn add(
        &mut self,
        alloc: Global,
        step: Step,
        hyps: Vec<Term>,
        concl: Term,
    ) -> Result<Thm, AllocError>
        requires { IsStep self.old step (seq hyps.items concl) }
        ensures exact { IfOk result (λ th. th.sequent ≡ seq hyps.items concl) }
        ensures ok { IfOk result (λ th. IsNewStep self.old self.old.defs self.new th (seq hyps.items concl)) }
        ensures err { OnErr result (self.new ≡ self.old) }
        ensures has { IfOk result (λ th. Has self.new th) }
        ensures grows { Grows self.old self.new }
    {
        let th = self.add_step(alloc, step, hyps, concl)?;
        Ok(th)
    }

    fn add_step(
        &mut self,
        alloc: Global,
        step: Step,
        hyps: Vec<Term>,
        concl: Term,
    ) -> Result<Thm, AllocError>
        requires { IsStep self.old step (seq hyps.items concl) }
        ensures ok { IfOk result (λ th. IsNewStep self.old self.old.defs self.new th (seq hyps.items concl)) }
        ensures err { OnErr result (self.new ≡ self.old) }
    {
        let defs = self.history.copy()?;
        let kept = copy_all(alloc, &hyps)?;
        let said = concl.copy()?;
        self.steps.reserve(1)?;
        self.log.reserve(1)?;
        let number = self.steps.len();
        push_within(
            &mut self.steps,
            Record {
                hyps: kept,
                concl: said,
            },
        );
        push_within(&mut self.log, step);
        Ok(Thm {
            defs,
            hyps,
            concl,
            step: number,
        })
    }
}
