//! What the lines so far gave, and what comes of a further one.

ghost use Rattle.std.specs.Prelude.{◌≡◌, ◌<◌, ◌^◌, ℕ, false, true, ◌==◌, IfOk, OnOk};
ghost use Rattle.std.specs.Str.{is_utf8};
ghost use Rattle.hol_logs.specs.Step.{LogStep};
ghost use Rattle.hol_logs.specs.Line.{LogLine, line_first, line_step, line_const, line_type, line_base, line_section, line_name, line_end, is_section};
ghost use Rattle.hol_logs.specs.Position.{start_position, is_misplaced};
ghost use Rattle.flat_terms.specs.Plain.{HasName, HasTerm, name_of, term_of};
ghost use Rattle.flat_signatures.specs.FlatNames.{plain_signature};
ghost use Rattle.flat_lines.specs.Lines.{IsFlatStep, IsFlatLine, IsStop};
ghost use Rattle.flat_lines.specs.Numbers.{IsNumber};
ghost use Rattle.base_count.specs.InForce.{in_force};
ghost use Rattle.replay_check.specs.Definitions.{definition_of, HasDefinition, MayDefine};
ghost use Rattle.replay_check.specs.Steps.{IsStepRead};
ghost use Rattle.replay_check.specs.Positions.{IsPosition, IsInside, IsDefined, IsDefinitionVerdict, log_position, IsVerdict, IsTaken, IsLineRead, Gains, reported, definition_report, off_base};

use crate::bases::is_next_base;
use crate::definitions::{FlatDefinition, fit_predicate, introduce, is_unfit_constant, says};
use crate::reports::{base_line, definition_line, joined, theorem_line};
use crate::steps::{give, is_beyond, lacks_a_premise, sequent};
use crate::why::{Verdict, Why};
use base_count::BASE_DEFINITIONS;
use flat_lines::lines::{FlatLine, read_line};
use flat_lines::numbers::Number;
use flat_lines::steps::FlatStep;
use flat_rules::sequent::FlatSequent;
use flat_signatures::signature::FlatSignature;
use flat_terms::nodes::{NameId, TermId};
use flat_terms::tables::Tables;
use std::alloc::{AllocError, Global};

/// What the lines so far gave: the definitions, the sequents of the steps by their numbers, how many lines were read, and whether the
/// base line and the last line were.
#[derive(Drop)]
pub(crate) struct Position {
    pub(crate) tables: Tables,
    pub(crate) signature: FlatSignature,
    pub(crate) definitions: Vec<FlatDefinition>,
    pub(crate) sequents: Vec<FlatSequent>,
    pub(crate) lines: u64,
    pub(crate) is_based: bool,
    pub(crate) is_over: bool,
}

impl Position {
    /// Where no line was read.
    pub(crate) fn start(alloc: Global) -> Result<Position, AllocError>
        ensures position { IfOk result IsPosition }
        ensures start { IfOk result (λ p. log_position p ≡ start_position) }
    {
        let mut tables = Tables::new(alloc);
        let signature = FlatSignature::start(&mut tables, alloc)?;
        Ok(Position {
            tables,
            signature,
            definitions: Vec::new(alloc),
            sequents: Vec::new(alloc),
            lines: 0,
            is_based: false,
            is_over: false,
        })
    }

    /// Takes the line of that text.
    pub(crate) fn take(&mut self, alloc: Global, text: &[u8]) -> Result<Verdict, AllocError>
        requires position { IsPosition self.old }
        requires few { self.old.lines < 2 ^ 62 }
        ensures { IfOk result (λ v. IsTaken self.old self.new text.now v) }
    {
        match read_line(&mut self.tables, alloc, &self.signature, text)? {
            Some(line) => self.take_line(alloc, line),
            None => Ok(Verdict::Bad(Why::Form)),
        }
    }

    /// Takes a line that was read.
    fn take_line(&mut self, alloc: Global, line: FlatLine) -> Result<Verdict, AllocError>
        requires position { IsPosition self.old }
        requires few { self.old.lines < 2 ^ 62 }
        requires line { IsLineRead self.old line }
        ensures { IfOk result (λ v. (l : LogLine) → IsFlatLine self.old.tables line.entry l → IsVerdict self.old self.new l v) }
    {
        if self.is_misplaced(&line) {
            return Ok(Verdict::Bad(Why::Form));
        }
        match line {
            FlatLine::First => Ok(self.take_first()),
            FlatLine::Step(step) => self.take_step(alloc, &step),
            FlatLine::Constant(name, term) => self.take_constant(alloc, name, term),
            FlatLine::NewType(name, step) => self.take_type(alloc, name, step),
            FlatLine::Base(count) => self.take_base(alloc, count),
            FlatLine::Section(text) => self.take_section(alloc, text),
            FlatLine::Name(name, step, statement) => self.take_name(alloc, name, step, statement),
            FlatLine::End(count) => Ok(self.take_end(count)),
            FlatLine::Stop(count, refusal) => self.take_stop(alloc, count, refusal),
        }
    }

    /// Whether a line stands where it may not: behind the last line, or it is the first line elsewhere, or another line is first.
    fn is_misplaced(&self, line: &FlatLine) -> bool
        ensures { (l : LogLine) → IsFlatLine self.now.tables line.now l → result ≡ is_misplaced (log_position self.now) l }
    {
        let is_first = matches!(line, FlatLine::First);
        self.is_over || (self.lines == 0) != is_first
    }

    /// Takes the first line.
    fn take_first(&mut self) -> Verdict
        requires position { IsPosition self.old }
        requires few { self.old.lines < 2 ^ 62 }
        requires placed { is_misplaced (log_position self.old) line_first ≡ false }
        ensures { IsVerdict self.old self.new line_first result }
    {
        self.lines += 1;
        Verdict::Good(None)
    }

    /// Takes a step.
    fn take_step(&mut self, alloc: Global, step: &FlatStep) -> Result<Verdict, AllocError>
        requires position { IsPosition self.old }
        requires few { self.old.lines < 2 ^ 62 }
        requires inside { IsInside self.old }
        requires step { IsStepRead self.old.tables (plain_signature self.old.tables self.old.signature) step.now }
        ensures { IfOk result (λ v. (l : LogStep) → IsFlatStep self.old.tables step.now l → IsVerdict self.old self.new (line_step l) v) }
    {
        if lacks_a_premise(step, self.sequents.len()) {
            return Ok(Verdict::Bad(Why::Number));
        }
        let given = give(
            &mut self.tables,
            alloc,
            &self.signature,
            &self.definitions,
            &self.sequents,
            step,
        )?;
        let Some(sequent) = given else {
            return Ok(Verdict::Bad(Why::Rule));
        };
        self.sequents.push(sequent)?;
        self.lines += 1;
        Ok(Verdict::Good(None))
    }

    /// Takes the definition of a constant.
    fn take_constant(
        &mut self,
        alloc: Global,
        name: NameId,
        term: TermId,
    ) -> Result<Verdict, AllocError>
        requires position { IsPosition self.old }
        requires few { self.old.lines < 2 ^ 62 }
        requires name { HasName self.old.tables name }
        requires term { HasTerm self.old.tables term }
        requires inside { IsInside self.old }
        ensures { IfOk result (λ v. IsVerdict self.old self.new (line_const (name_of self.old.tables name) (term_of self.old.tables term)) v) }
    {
        if is_unfit_constant(&self.tables, alloc, &self.signature, name, term)? {
            return Ok(Verdict::Bad(Why::Unfit));
        }
        self.take_definition(alloc, FlatDefinition::Constant(name, term))
    }

    /// Takes the definition of a type by a step.
    fn take_type(
        &mut self,
        alloc: Global,
        name: NameId,
        step: Number,
    ) -> Result<Verdict, AllocError>
        requires position { IsPosition self.old }
        requires few { self.old.lines < 2 ^ 62 }
        requires name { HasName self.old.tables name }
        requires inside { IsInside self.old }
        ensures { IfOk result (λ v. (i : ℕ) → IsNumber step i → IsVerdict self.old self.new (line_type (name_of self.old.tables name) i) v) }
    {
        if is_beyond(step, self.sequents.len()) {
            return Ok(Verdict::Bad(Why::Number));
        }
        let theorem = sequent(&self.sequents, step);
        let Some(predicate) = fit_predicate(
            &mut self.tables,
            alloc,
            &self.signature,
            name,
            theorem,
        )?
        else {
            return Ok(Verdict::Bad(Why::Unfit));
        };
        self.take_definition(alloc, FlatDefinition::NewType(name, predicate))
    }

    /// Takes a definition that isn't unfit.
    fn take_definition(
        &mut self,
        alloc: Global,
        definition: FlatDefinition,
    ) -> Result<Verdict, AllocError>
        requires position { IsPosition self.old }
        requires few { self.old.lines < 2 ^ 62 }
        requires definition { HasDefinition self.old.tables definition }
        requires new { MayDefine (plain_signature self.old.tables self.old.signature) (definition_of self.old.tables definition) }
        ensures { IfOk result (λ v. IsDefinitionVerdict self.old self.new (definition_of self.old.tables definition) v) }
    {
        if self.is_off_base(alloc, definition)? {
            return Ok(Verdict::Bad(Why::Base));
        }
        let report = self.definition_report(alloc, definition)?;
        let mut said = says(&mut self.tables, alloc, definition)?;
        self.define(alloc, definition)?;
        self.sequents.append(&mut said)?;
        self.lines += 1;
        Ok(Verdict::Good(report))
    }

    /// Whether a definition stands before the base line and isn't the next base definition.
    fn is_off_base(&mut self, alloc: Global, definition: FlatDefinition) -> Result<bool, AllocError>
        requires position { IsPosition self.old }
        requires definition { HasDefinition self.old.tables definition }
        ensures grows { Gains self.old self.new }
        ensures ok { IfOk result (λ b. b ≡ off_base (log_position self.old) (definition_of self.old.tables definition)) }
    {
        if self.is_based {
            return Ok(false);
        }
        let is_next = is_next_base(
            &mut self.tables,
            alloc,
            &self.signature,
            &self.definitions,
            definition,
        )?;
        Ok(!is_next)
    }

    /// What a definition prints, which is nothing before the base line.
    fn definition_report(
        &mut self,
        alloc: Global,
        definition: FlatDefinition,
    ) -> Result<Option<String>, AllocError>
        requires position { IsPosition self.old }
        requires definition { HasDefinition self.old.tables definition }
        ensures grows { Gains self.old self.new }
        ensures ok { IfOk result (λ r. reported r ≡ definition_report (log_position self.old) (definition_of self.old.tables definition)) }
    {
        if !self.is_based {
            return Ok(None);
        }
        let line = definition_line(&mut self.tables, alloc, definition)?;
        Ok(Some(line))
    }

    /// Puts a definition and what it introduces behind those before it.
    fn define(&mut self, alloc: Global, definition: FlatDefinition) -> Result<(), AllocError>
        requires position { IsPosition self.old }
        requires definition { HasDefinition self.old.tables definition }
        requires new { MayDefine (plain_signature self.old.tables self.old.signature) (definition_of self.old.tables definition) }
        requires stands { off_base (log_position self.old) (definition_of self.old.tables definition) ≡ false }
        ensures { OnOk result (IsDefined self.old self.new (definition_of self.old.tables definition)) }
    {
        introduce(&mut self.tables, alloc, &mut self.signature, definition)?;
        self.definitions.push(definition)?;
        Ok(())
    }

    /// Takes the base line.
    fn take_base(&mut self, alloc: Global, count: Number) -> Result<Verdict, AllocError>
        requires position { IsPosition self.old }
        requires few { self.old.lines < 2 ^ 62 }
        requires inside { IsInside self.old }
        ensures { IfOk result (λ v. (m : ℕ) → IsNumber count m → IsVerdict self.old self.new (line_base m) v) }
    {
        if self.is_based || !is_base_count(count) || self.definitions.len() != BASE_DEFINITIONS {
            return Ok(Verdict::Bad(Why::Base));
        }
        let line = base_line(alloc, BASE_DEFINITIONS)?;
        self.is_based = true;
        self.lines += 1;
        Ok(Verdict::Good(Some(line)))
    }

    /// Takes the line that opens a section.
    fn take_section(&mut self, alloc: Global, text: &[u8]) -> Result<Verdict, AllocError>
        requires position { IsPosition self.old }
        requires few { self.old.lines < 2 ^ 62 }
        requires section { is_section text.now ≡ true }
        requires inside { IsInside self.old }
        ensures { IfOk result (λ v. IsVerdict self.old self.new (line_section text.now) v) }
    {
        if !self.is_based {
            return Ok(Verdict::Bad(Why::Base));
        }
        let line = joined(alloc, "", text)?;
        self.lines += 1;
        Ok(Verdict::Good(Some(line)))
    }

    /// Takes the line that names a theorem.
    fn take_name(
        &mut self,
        alloc: Global,
        name: NameId,
        step: Number,
        statement: TermId,
    ) -> Result<Verdict, AllocError>
        requires position { IsPosition self.old }
        requires few { self.old.lines < 2 ^ 62 }
        requires name { HasName self.old.tables name }
        requires statement { HasTerm self.old.tables statement }
        requires inside { IsInside self.old }
        ensures { IfOk result (λ v. (i : ℕ) → IsNumber step i → IsVerdict self.old self.new (line_name (name_of self.old.tables name) i (term_of self.old.tables statement)) v) }
    {
        if is_beyond(step, self.sequents.len()) {
            return Ok(Verdict::Bad(Why::Number));
        }
        if !self.is_based {
            return Ok(Verdict::Bad(Why::Base));
        }
        let theorem = sequent(&self.sequents, step);
        if !theorem.hyps.is_empty() || !self.tables.same_term(theorem.concl, statement) {
            return Ok(Verdict::Bad(Why::Text));
        }
        let line = theorem_line(&self.tables, alloc, name, statement)?;
        self.lines += 1;
        Ok(Verdict::Good(Some(line)))
    }

    /// Takes the last line of a theory that was done.
    fn take_end(&mut self, count: Number) -> Verdict
        requires position { IsPosition self.old }
        requires few { self.old.lines < 2 ^ 62 }
        requires inside { IsInside self.old }
        ensures { (k : ℕ) → IsNumber count k → IsVerdict self.old self.new (line_end k) result }
    {
        if !self.is_based {
            return Verdict::Bad(Why::Base);
        }
        if !self.counts(count) {
            return Verdict::Bad(Why::Count);
        }
        self.is_over = true;
        self.lines += 1;
        Verdict::Good(None)
    }

    /// Takes the last line of a theory that was refused.
    fn take_stop(
        &mut self,
        alloc: Global,
        count: Number,
        refusal: &[u8],
    ) -> Result<Verdict, AllocError>
        requires position { IsPosition self.old }
        requires few { self.old.lines < 2 ^ 62 }
        requires inside { IsInside self.old }
        requires utf8 { is_utf8 refusal.now ≡ true }
        ensures { IfOk result (λ v. (l : LogLine) → IsStop count refusal.now l → IsVerdict self.old self.new l v) }
    {
        if !self.is_based {
            return Ok(Verdict::Bad(Why::Base));
        }
        if !self.counts(count) {
            return Ok(Verdict::Bad(Why::Count));
        }
        let line = joined(alloc, "refused ", refusal)?;
        self.is_over = true;
        self.lines += 1;
        Ok(Verdict::Good(Some(line)))
    }

    /// Whether a number is that of the lines so far.
    fn counts(&self, count: Number) -> bool
        requires few { self.now.lines < 2 ^ 62 }
        ensures { (k : ℕ) → IsNumber count k → result ≡ (k == self.now.lines) }
    {
        match count {
            Number::Small(n) => n as u64 == self.lines,
            Number::Huge => false,
        }
    }
}

/// Whether a number is that of the base definitions in force.
fn is_base_count(count: Number) -> bool
    ensures { (m : ℕ) → IsNumber count m → result ≡ (m == in_force) }
{
    match count {
        Number::Small(n) => n == BASE_DEFINITIONS,
        Number::Huge => false,
    }
}
