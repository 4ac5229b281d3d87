//! Steps by rules and axioms, on the sequents of the steps before them.

ghost use Rattle.std.specs.Prelude.{◌≡◌, ◌⊎◌, length, not, true, false, IfOk};
ghost use Rattle.std.specs.List.{list_any};
ghost use Rattle.hol_terms.specs.Definition.{signature_of, bool_ty};
ghost use Rattle.hol_terms.specs.Base.{base};
ghost use Rattle.hol_terms.specs.Proves.{IsPrefix};
ghost use Rattle.hol_terms.specs.ReadsBack.{ReadsBack};
ghost use Rattle.hol_logs.specs.Step.{LogStep, step_gives};
ghost use Rattle.flat_instances.specs.TablesGrow.{TablesGrow};
ghost use Rattle.hol_terms.specs.Typing.{tm_type};
ghost use Rattle.hol_terms.specs.Rules.{eq_mp_rule};
ghost use Rattle.flat_rules.specs.Sequents.{sequent_of, HasSequent, IsAnswer};
ghost use Rattle.flat_signatures.specs.FlatNames.{plain_signature, HasSignature};
ghost use Rattle.flat_lines.specs.Lines.{IsFlatStep};
ghost use Rattle.replay_check.specs.Definitions.{definitions_of, AreSequents, IsBooleanAnswer, sequents_of};
ghost use Rattle.replay_check.specs.Steps.{is_there, IsAt, flat_premises, IsStepRead};

use crate::bases::axiom;
use crate::definitions::FlatDefinition;
use flat_lines::numbers::Number;
use flat_lines::steps::FlatStep;
use flat_rules::equations::equation;
use flat_rules::rules::{abs, assume, beta, comb, deduct, eq_mp, inst, inst_type, refl, trans};
use flat_rules::sequent::FlatSequent;
use flat_signatures::signature::FlatSignature;
use flat_terms::tables::Tables;
use std::alloc::{AllocError, Global};

/// Whether a number is that of none of so many steps.
pub(crate) fn is_beyond(number: Number, count: usize) -> bool
    ensures { result ≡ not (is_there count number) }
{
    match number {
        Number::Small(n) => n >= count,
        Number::Huge => true,
    }
}

/// Whether a step names one that isn't there.
pub(crate) fn lacks_a_premise(step: &FlatStep, count: usize) -> bool
    ensures { result ≡ list_any (λ i. not (is_there count i)) (flat_premises step.now) }
{
    match step {
        FlatStep::Refl(_) => false,
        FlatStep::Trans(i, j) => is_beyond(*i, count) || is_beyond(*j, count),
        FlatStep::Comb(i, j) => is_beyond(*i, count) || is_beyond(*j, count),
        FlatStep::Abs(_, i) => is_beyond(*i, count),
        FlatStep::Beta(_) => false,
        FlatStep::Assume(_) => false,
        FlatStep::Mp(i, j) => is_beyond(*i, count) || is_beyond(*j, count),
        FlatStep::Deduct(i, j) => is_beyond(*i, count) || is_beyond(*j, count),
        FlatStep::InstType(i, _) => is_beyond(*i, count),
        FlatStep::Inst(i, _) => is_beyond(*i, count),
        FlatStep::Axiom(_) => false,
    }
}

/// The sequent of the step of that number.
pub(crate) fn sequent(sequents: &[FlatSequent], number: Number) -> &FlatSequent
    requires { is_there (length sequents.now) number ≡ true }
    ensures { IsAt sequents.now number result.now }
{
    match number {
        Number::Small(n) => &sequents[n],
        Number::Huge => unreachable!(),
    }
}

/// What a step gives, or None where a condition of its rule fails. After want of memory the tables may have more entries.
pub(crate) fn give(
    tables: &mut Tables,
    alloc: Global,
    signature: &FlatSignature,
    definitions: &[FlatDefinition],
    sequents: &[FlatSequent],
    step: &FlatStep,
) -> Result<Option<FlatSequent>, AllocError>
    requires signature { HasSignature tables.old signature.now }
    requires plain { plain_signature tables.old signature.now ≡ signature_of (definitions_of tables.old definitions.now) }
    requires reads_back { ReadsBack (plain_signature tables.old signature.now) }
    requires stands { IsPrefix (base 10) (definitions_of tables.old definitions.now) ⊎ IsPrefix (definitions_of tables.old definitions.now) (base 10) }
    requires sequents { AreSequents tables.old sequents.now }
    requires step { IsStepRead tables.old (plain_signature tables.old signature.now) step.now }
    requires there { list_any (λ i. not (is_there (length sequents.now) i)) (flat_premises step.now) ≡ false }
    ensures grows { TablesGrow tables.old tables.new }
    ensures ok { IfOk result (λ r. (l : LogStep) → IsFlatStep tables.old step.now l → IsAnswer tables.new (step_gives (definitions_of tables.old definitions.now) (sequents_of tables.old sequents.now) l) r) }
    ensures boolean { IfOk result (λ r. IsBooleanAnswer tables.new r) }
{
    match step {
        FlatStep::Refl(term) => refl(tables, alloc, *term),
        FlatStep::Trans(i, j) => {
            trans(tables, alloc, sequent(sequents, *i), sequent(sequents, *j))
        }
        FlatStep::Comb(i, j) => comb(tables, alloc, sequent(sequents, *i), sequent(sequents, *j)),
        FlatStep::Abs(variable, i) => abs(tables, alloc, *variable, sequent(sequents, *i)),
        FlatStep::Beta(term) => beta(tables, alloc, *term),
        FlatStep::Assume(term) => assume(tables, alloc, *term),
        FlatStep::Mp(i, j) => {
            modus_ponens(tables, alloc, sequent(sequents, *i), sequent(sequents, *j))
        }
        FlatStep::Deduct(i, j) => {
            deduct(tables, alloc, sequent(sequents, *i), sequent(sequents, *j))
        }
        FlatStep::InstType(i, pairs) => inst_type(tables, alloc, pairs, sequent(sequents, *i)),
        FlatStep::Inst(i, pairs) => inst(tables, alloc, pairs, sequent(sequents, *i)),
        FlatStep::Axiom(number) => axiom(tables, alloc, signature, definitions, *number),
    }
}

/// EQ_MP: `A |- p = q` and `B |- p` give `A, B |- q`, which is boolean since p is.
fn modus_ponens(
    tables: &Tables,
    alloc: Global,
    a: &FlatSequent,
    b: &FlatSequent,
) -> Result<Option<FlatSequent>, AllocError>
    requires a { HasSequent tables.now a.now }
    requires b { HasSequent tables.now b.now }
    requires boolean { tm_type (sequent_of tables.now b.now).concl ≡ bool_ty }
    ensures ok { IfOk result (λ r. IsAnswer tables.now (eq_mp_rule (sequent_of tables.now a.now) (sequent_of tables.now b.now)) r) }
    ensures boolean { IfOk result (λ r. IsBooleanAnswer tables.now r) }
{
    match equation(tables, a.concl) {
        Some(_) => eq_mp(tables, alloc, a, b),
        None => Ok(None),
    }
}
