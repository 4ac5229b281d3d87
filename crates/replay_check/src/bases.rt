//! The base definitions and the axioms, put into the tables.

ghost use Rattle.std.specs.Prelude.{◌≡◌, ◌⊎◌, ◌<◌, ℕ, IfOk, take, slice_get};
ghost use Rattle.hol_terms.specs.Definition.{signature_of};
ghost use Rattle.hol_terms.specs.Base.{base};
ghost use Rattle.hol_terms.specs.Proves.{IsPrefix};
ghost use Rattle.hol_terms.specs.ReadsBack.{ReadsBack};
ghost use Rattle.hol_logs.specs.Step.{axiom_of, if_connectives, are_base};
ghost use Rattle.hol_logs.specs.Position.{is_next_base};
ghost use Rattle.flat_instances.specs.TablesGrow.{TablesGrow};
ghost use Rattle.flat_rules.specs.Sequents.{IsAnswer};
ghost use Rattle.flat_signatures.specs.FlatNames.{plain_signature, HasSignature};
ghost use Rattle.flat_lines.specs.Numbers.{IsNumber};
ghost use Rattle.replay_check.specs.Definitions.{definition_of, definitions_of, HasDefinition, IsPut, IsAxiomText, IsBooleanAnswer, IsTermText, IsTermOfText};
ghost use Rattle.base_count.specs.InForce.{in_force};

use crate::base_texts::{BaseKind, axiom_text, base_text};
use crate::definitions::{FlatDefinition, are_same};
use base_count::BASE_DEFINITIONS;
use flat_lines::numbers::Number;
use flat_reading::terms::read_term;
use flat_rules::sequent::FlatSequent;
use flat_signatures::entries::put_name;
use flat_signatures::signature::FlatSignature;
use flat_terms::nodes::TermId;
use flat_terms::tables::Tables;
use std::alloc::{AllocError, Global};

/// The number of the closed term that has the text. After want of memory the tables may have more entries.
fn put_term(
    tables: &mut Tables,
    alloc: Global,
    signature: &FlatSignature,
    text: &str,
) -> Result<TermId, AllocError>
    requires signature { HasSignature tables.old signature.now }
    requires reads_back { ReadsBack (plain_signature tables.old signature.now) }
    requires text { IsTermText (plain_signature tables.old signature.now) text.now }
    ensures grows { TablesGrow tables.old tables.new }
    ensures ok { IfOk result (λ n. IsTermOfText tables.new (plain_signature tables.old signature.now) text.now n) }
{
    match read_term(tables, alloc, signature, text.as_bytes())? {
        Some(read) => Ok(read.term),
        None => unreachable!(),
    }
}

/// The base definition of that place, or None where it isn't in force. After want of memory the tables may have more entries.
fn put_base(
    tables: &mut Tables,
    alloc: Global,
    signature: &FlatSignature,
    place: usize,
) -> Result<Option<FlatDefinition>, AllocError>
    requires signature { HasSignature tables.old signature.now }
    requires reads_back { ReadsBack (plain_signature tables.old signature.now) }
    requires before { place < in_force → plain_signature tables.old signature.now ≡ signature_of (base place) }
    ensures grows { TablesGrow tables.old tables.new }
    ensures ok { IfOk result (λ r. IsPut tables.new r (slice_get (base in_force) place)) }
{
    if place >= BASE_DEFINITIONS {
        return Ok(None);
    }
    let Some(text) = base_text(place) else {
        unreachable!()
    };
    let term = put_term(tables, alloc, signature, text.term)?;
    let name = put_name(tables, alloc, text.name)?;
    Ok(Some(match text.kind {
        BaseKind::Constant => FlatDefinition::Constant(name, term),
        BaseKind::NewType => FlatDefinition::NewType(name, term),
    }))
}

/// Whether a definition is the next base definition, which is in force. After want of memory the tables may have more entries.
pub(crate) fn is_next_base(
    tables: &mut Tables,
    alloc: Global,
    signature: &FlatSignature,
    definitions: &[FlatDefinition],
    definition: FlatDefinition,
) -> Result<bool, AllocError>
    requires signature { HasSignature tables.old signature.now }
    requires plain { plain_signature tables.old signature.now ≡ signature_of (definitions_of tables.old definitions.now) }
    requires reads_back { ReadsBack (plain_signature tables.old signature.now) }
    requires prefix { IsPrefix (definitions_of tables.old definitions.now) (base in_force) }
    requires definition { HasDefinition tables.old definition }
    ensures grows { TablesGrow tables.old tables.new }
    ensures ok { IfOk result (λ b. b ≡ is_next_base in_force (definitions_of tables.old definitions.now) (definition_of tables.old definition)) }
{
    match put_base(tables, alloc, signature, definitions.len())? {
        Some(base) => Ok(are_same(tables, definition, base)),
        None => Ok(false),
    }
}

/// The axiom of that number, counted from 1, or None where there is none, or the definitions of the connectives and quantifiers do not
/// stand. After want of memory the tables may have more entries.
pub(crate) fn axiom(
    tables: &mut Tables,
    alloc: Global,
    signature: &FlatSignature,
    definitions: &[FlatDefinition],
    number: Number,
) -> Result<Option<FlatSequent>, AllocError>
    requires signature { HasSignature tables.old signature.now }
    requires plain { plain_signature tables.old signature.now ≡ signature_of (definitions_of tables.old definitions.now) }
    requires reads_back { ReadsBack (plain_signature tables.old signature.now) }
    requires stands { IsPrefix (base 10) (definitions_of tables.old definitions.now) ⊎ IsPrefix (definitions_of tables.old definitions.now) (base 10) }
    ensures grows { TablesGrow tables.old tables.new }
    ensures ok { IfOk result (λ r. (n : ℕ) → IsNumber number n → IsAnswer tables.new (if_connectives (are_base 10 (take 10 (definitions_of tables.old definitions.now))) (axiom_of n)) r) }
    ensures boolean { IfOk result (λ r. IsBooleanAnswer tables.new r) }
{
    if definitions.len() < 10 {
        return Ok(None);
    }
    let Some(text) = numbered_axiom(number) else {
        return Ok(None);
    };
    let concl = put_term(tables, alloc, signature, text)?;
    Ok(Some(FlatSequent {
        hyps: Vec::new(alloc),
        concl,
    }))
}

/// The text of the axiom of that number, counted from 1.
fn numbered_axiom(number: Number) -> Option<&'static str>
    ensures { IsAxiomText number result }
{
    match number {
        Number::Small(0) => None,
        Number::Small(n) => axiom_text(n - 1),
        Number::Huge => None,
    }
}
