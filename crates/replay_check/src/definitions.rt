//! Definitions over the tables: what makes one unfit, and the signature with one more.

ghost use Rattle.std.specs.Prelude.{◌≡◌, true, List, bytes_eq, ◌∷◌, option_to_list, IfOk, OnOk};
ghost use Rattle.hol_terms.specs.Typing.{tm_type};
ghost use Rattle.hol_terms.specs.Definition.{Definition, type_def, with_def, bool_ty, signature_of};
ghost use Rattle.hol_terms.specs.TypeNames.{may_introduce_type};
ghost use Rattle.hol_logs.specs.Step.{same_definition};
ghost use Rattle.flat_terms.specs.Plain.{HasName, HasType, HasTerm, name_of, type_of, term_of};
ghost use Rattle.flat_instances.specs.TablesGrow.{TablesGrow};
ghost use Rattle.flat_rules.specs.Sequents.{sequent_of, HasSequent};
ghost use Rattle.flat_rules.specs.Said.{AreSaid};
ghost use Rattle.flat_signatures.specs.FlatNames.{plain_signature, HasSignature};
ghost use Rattle.replay_check.specs.Bridges.{AreBridgeTypes, AreBridgeNames, with_bridge};
ghost use Rattle.replay_check.specs.Definitions.{definition_of, HasDefinition, IsPredicate, IsPredicateType, IsTypedDefinition, MayDefine, is_unfit_const_over, count_of};

use crate::walks::has_frees;
use flat_rules::definitions::{constant_sequent, make_new_type, type_sequents};
use flat_rules::sequent::FlatSequent;
use flat_rules::variables::is_within;
use flat_signatures::entries::{put_dotted, put_function};
use flat_signatures::signature::FlatSignature;
use flat_terms::nodes::{NameId, TermId, TermView, TypeId, TypeView};
use flat_terms::tables::Tables;
use std::alloc::{AllocError, Global};

/// A definition: the name, and the constant's term or the type's predicate.
#[derive(Clone, Copy)]
pub(crate) enum FlatDefinition {
    Constant(NameId, TermId),
    NewType(NameId, TermId),
}

/// A new type, and the types of the functions to it and from it.
#[derive(Clone, Copy)]
struct BridgeTypes {
    new: TypeId,
    abs: TypeId,
    rep: TypeId,
}

/// The names of these functions.
#[derive(Clone, Copy)]
struct BridgeNames {
    abs: NameId,
    rep: NameId,
}

/// Whether two definitions are the same.
pub(crate) fn are_same(tables: &Tables, a: FlatDefinition, b: FlatDefinition) -> bool
    requires a { HasDefinition tables.now a }
    requires b { HasDefinition tables.now b }
    ensures { result ≡ same_definition (definition_of tables.now a) (definition_of tables.now b) }
{
    match (a, b) {
        (FlatDefinition::Constant(c, t), FlatDefinition::Constant(d, u)) => {
            is_same_name(tables, c, d) && tables.same_term(t, u)
        }
        (FlatDefinition::NewType(c, t), FlatDefinition::NewType(d, u)) => {
            is_same_name(tables, c, d) && tables.same_term(t, u)
        }
        _ => false,
    }
}

/// Whether two numbers are those of one name.
fn is_same_name(tables: &Tables, a: NameId, b: NameId) -> bool
    requires a { HasName tables.now a }
    requires b { HasName tables.now b }
    ensures { result ≡ bytes_eq (name_of tables.now a) (name_of tables.now b) }
{
    tables.entries_once();
    a == b
}

/// Whether a constant may not be defined so: its name may not be introduced, the term has a free variable, or a type variable that its
/// type lacks.
pub(crate) fn is_unfit_constant(
    tables: &Tables,
    alloc: Global,
    signature: &FlatSignature,
    name: NameId,
    term: TermId,
) -> Result<bool, AllocError>
    requires signature { HasSignature tables.now signature.now }
    requires name { HasName tables.now name }
    requires term { HasTerm tables.now term }
    ensures { IfOk result (λ b. b ≡ is_unfit_const_over (plain_signature tables.now signature.now) (name_of tables.now name) (term_of tables.now term)) }
{
    if !signature.may_introduce(tables, name) {
        return Ok(true);
    }
    if has_frees(tables, alloc, term)? {
        return Ok(true);
    }
    let within = is_within(tables, alloc, term, tables.type_of(term))?;
    Ok(!within)
}

/// The predicate P of a theorem `|- P t` by which a type may be defined, or None where it may not: its names may not be introduced, the
/// theorem has hypotheses or is no application, or P has a free variable. After want of memory the tables may have more names.
pub(crate) fn fit_predicate(
    tables: &mut Tables,
    alloc: Global,
    signature: &FlatSignature,
    name: NameId,
    theorem: &FlatSequent,
) -> Result<Option<TermId>, AllocError>
    requires signature { HasSignature tables.old signature.now }
    requires name { HasName tables.old name }
    requires theorem { HasSequent tables.old theorem.now }
    requires boolean { tm_type (term_of tables.old theorem.now.concl) ≡ bool_ty }
    ensures grows { TablesGrow tables.old tables.new }
    ensures ok { IfOk result (λ r. IsPredicate tables.new (plain_signature tables.old signature.now) (name_of tables.old name) (sequent_of tables.old theorem.now) r) }
{
    if !signature.may_introduce_type(tables, alloc, name)? {
        return Ok(None);
    }
    if !theorem.hyps.is_empty() {
        return Ok(None);
    }
    let TermView::Comb(predicate, _) = tables.term_view(theorem.concl) else {
        return Ok(None);
    };
    if has_frees(tables, alloc, predicate)? {
        return Ok(None);
    }
    Ok(Some(predicate))
}

/// What a definition says. After want of memory the tables may have more entries.
pub(crate) fn says(
    tables: &mut Tables,
    alloc: Global,
    definition: FlatDefinition,
) -> Result<Vec<FlatSequent>, AllocError>
    requires definition { HasDefinition tables.old definition }
    requires typed { IsTypedDefinition (definition_of tables.old definition) }
    ensures grows { TablesGrow tables.old tables.new }
    ensures ok { IfOk result (λ v. AreSaid tables.new (definition_of tables.old definition) v.items) }
{
    match definition {
        FlatDefinition::Constant(name, term) => {
            let said = constant_sequent(tables, alloc, name, term)?;
            listed(alloc, said, None)
        }
        FlatDefinition::NewType(name, predicate) => {
            let said = type_sequents(tables, alloc, name, predicate)?;
            listed(alloc, said.abs_rep, Some(said.rep_abs))
        }
    }
}

/// A list of one sequent or two.
fn listed(
    alloc: Global,
    first: FlatSequent,
    second: Option<FlatSequent>,
) -> Result<Vec<FlatSequent>, AllocError>
    ensures { IfOk result (λ v. v.items ≡ first ∷ option_to_list second) }
{
    let mut said = Vec::new(alloc);
    said.push(first)?;
    if let Some(second) = second {
        said.push(second)?;
    }
    Ok(said)
}

/// Adds what a definition introduces to the signature. After want of memory the tables may have more entries, and the signature a part
/// of it.
pub(crate) fn introduce(
    tables: &mut Tables,
    alloc: Global,
    signature: &mut FlatSignature,
    definition: FlatDefinition,
) -> Result<(), AllocError>
    requires signature { HasSignature tables.old signature.old }
    requires definition { HasDefinition tables.old definition }
    requires new { MayDefine (plain_signature tables.old signature.old) (definition_of tables.old definition) }
    ensures grows { TablesGrow tables.old tables.new }
    ensures has { OnOk result (HasSignature tables.new signature.new) }
    ensures ok { OnOk result (plain_signature tables.new signature.new ≡ with_def (plain_signature tables.old signature.old) (definition_of tables.old definition)) }
{
    match definition {
        FlatDefinition::Constant(name, term) => {
            signature.add_constant(tables, name, tables.type_of(term))
        }
        FlatDefinition::NewType(name, predicate) => {
            introduce_type(tables, alloc, signature, name, predicate)
        }
    }
}

/// Adds a type and its two functions to the signature.
fn introduce_type(
    tables: &mut Tables,
    alloc: Global,
    signature: &mut FlatSignature,
    name: NameId,
    predicate: TermId,
) -> Result<(), AllocError>
    requires signature { HasSignature tables.old signature.old }
    requires name { HasName tables.old name }
    requires predicate { HasTerm tables.old predicate }
    requires typed { IsPredicateType (term_of tables.old predicate) }
    requires new { may_introduce_type (plain_signature tables.old signature.old) (name_of tables.old name) ≡ true }
    ensures grows { TablesGrow tables.old tables.new }
    ensures has { OnOk result (HasSignature tables.new signature.new) }
    ensures ok { OnOk result (plain_signature tables.new signature.new ≡ with_def (plain_signature tables.old signature.old) (type_def (name_of tables.old name) (term_of tables.old predicate))) }
{
    let types = make_types(tables, alloc, name, predicate)?;
    let names = make_names(tables, alloc, name)?;
    add_names(tables, signature, name, types, names)
}

/// The new type, and the types of its two functions.
fn make_types(
    tables: &mut Tables,
    alloc: Global,
    name: NameId,
    predicate: TermId,
) -> Result<BridgeTypes, AllocError>
    requires name { HasName tables.old name }
    requires predicate { HasTerm tables.old predicate }
    requires typed { IsPredicateType (term_of tables.old predicate) }
    ensures grows { TablesGrow tables.old tables.new }
    ensures ok { IfOk result (λ b. AreBridgeTypes tables.new (name_of tables.old name) (term_of tables.old predicate) b) }
{
    let Some((domain, _)) = tables.function_parts(tables.type_of(predicate)) else {
        unreachable!()
    };
    let new = make_new_type(tables, alloc, name, predicate)?;
    let abs = put_function(tables, alloc, domain, new)?;
    let rep = put_function(tables, alloc, new, domain)?;
    Ok(BridgeTypes { new, abs, rep })
}

/// The names of the two functions of a type.
fn make_names(tables: &mut Tables, alloc: Global, name: NameId) -> Result<BridgeNames, AllocError>
    requires { HasName tables.old name }
    ensures grows { TablesGrow tables.old tables.new }
    ensures ok { IfOk result (λ b. AreBridgeNames tables.new (name_of tables.old name) b) }
{
    let abs = put_dotted(tables, alloc, name, ".abs")?;
    let rep = put_dotted(tables, alloc, name, ".rep")?;
    Ok(BridgeNames { abs, rep })
}

/// Adds a type and its two functions, of these names and types, to the signature.
fn add_names(
    tables: &Tables,
    signature: &mut FlatSignature,
    name: NameId,
    types: BridgeTypes,
    names: BridgeNames,
) -> Result<(), AllocError>
    requires signature { HasSignature tables.now signature.old }
    requires name { HasName tables.now name }
    requires types { HasType tables.now types.new × HasType tables.now types.abs × HasType tables.now types.rep }
    requires names { AreBridgeNames tables.now (name_of tables.now name) names }
    requires new { may_introduce_type (plain_signature tables.now signature.old) (name_of tables.now name) ≡ true }
    ensures has { OnOk result (HasSignature tables.now signature.new) }
    ensures ok { OnOk result (plain_signature tables.now signature.new ≡ with_bridge (plain_signature tables.now signature.old) (name_of tables.now name) (type_of tables.now types.new) (type_of tables.now types.abs) (type_of tables.now types.rep)) }
{
    signature.add_type(tables, name, count_arguments(tables, types.new))?;
    signature.add_constant(tables, names.abs, types.abs)?;
    signature.add_constant(tables, names.rep, types.rep)
}

/// How many arguments a type has.
fn count_arguments(tables: &Tables, ty: TypeId) -> usize
    requires { HasType tables.now ty }
    ensures { result ≡ count_of (type_of tables.now ty) }
{
    match tables.type_view(ty) {
        TypeView::App(_, args) => args.len(),
        TypeView::Var(_) => 0,
    }
}
