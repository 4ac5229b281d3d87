//! Terms made of others, where they fit.

ghost use Rattle.std.specs.Prelude.{◌≡◌, IfOk, Some, codes};
ghost use Rattle.hol_terms.specs.Tm.{tm_comb};
ghost use Rattle.hol_terms.specs.Rules.{fits};
ghost use Rattle.strict_reading.specs.Steps.{when};
ghost use Rattle.strict_reading.specs.Terms.{constant, connected, negated, quantified};
ghost use Rattle.flat_terms.specs.Plain.{HasType, HasTypes, HasTerm, type_of, types_of, term_of};
ghost use Rattle.flat_instances.specs.TablesGrow.{TablesGrow};
ghost use Rattle.flat_walks.specs.Number.{IsNumber};
ghost use Rattle.hol_terms.specs.Tm.{tm_abs};
ghost use Rattle.flat_signatures.specs.FlatNames.{plain_signature, HasSignature};
ghost use Rattle.flat_signatures.specs.Reads.{IsTermOf};
ghost use Rattle.flat_reading.specs.Signs.{bound_by, connected_by};

use crate::shapes::fits;
use crate::signs::{BinderSign, Connective};
use flat_signatures::constants::constant;
use flat_signatures::entries::{put_function, put_name};
use flat_signatures::signature::FlatSignature;
use flat_terms::nodes::{TermId, TypeId};
use flat_terms::tables::Tables;
use std::alloc::{AllocError, Global};

/// The number of a function applied to an argument, or None where it doesn't take it. After want of memory the tables are as before.
pub fn apply(tables: &mut Tables, f: TermId, x: TermId) -> Result<Option<TermId>, AllocError>
    requires function { HasTerm tables.old f }
    requires argument { HasTerm tables.old x }
    ensures grows { TablesGrow tables.old tables.new }
    ensures ok { IfOk result (λ r. IsTermOf tables.new r (when (fits (term_of tables.old f) (term_of tables.old x)) (Some (tm_comb (term_of tables.old f) (term_of tables.old x))))) }
{
    if !fits(tables, f, x) {
        return Ok(None);
    }
    let made = tables.application(f, x)?;
    Ok(Some(made))
}

/// The number of an abstraction. After want of memory the tables may have more names and types.
pub fn abstract_over(
    tables: &mut Tables,
    alloc: Global,
    bound: TypeId,
    body: TermId,
) -> Result<TermId, AllocError>
    requires bound { HasType tables.old bound }
    requires body { HasTerm tables.old body }
    ensures grows { TablesGrow tables.old tables.new }
    ensures ok { IfOk result (λ r. IsNumber tables.new r (tm_abs (type_of tables.old bound) (term_of tables.old body))) }
{
    let range = tables.type_of(body);
    let ty = put_function(tables, alloc, bound, range)?;
    tables.abstraction(bound, body, ty)
}

/// The number of the constant of that name, or None where the signature has none of it at these types. After want of memory the tables
/// may have more names and types.
pub fn constant_named(
    tables: &mut Tables,
    alloc: Global,
    signature: &FlatSignature,
    word: &[u8],
    args: &[TypeId],
) -> Result<Option<TermId>, AllocError>
    requires signature { HasSignature tables.old signature.now }
    requires args { HasTypes tables.old args.now }
    ensures grows { TablesGrow tables.old tables.new }
    ensures ok { IfOk result (λ r. IsTermOf tables.new r (constant (plain_signature tables.old signature.now) word.now (types_of tables.old args.now))) }
{
    let Ok(text) = str::from_utf8(word) else {
        return Ok(None);
    };
    let name = put_name(tables, alloc, text)?;
    constant(tables, alloc, signature, name, args)
}

/// What the sign makes of the operands around it, or None where they don't fit.
pub fn connect(
    tables: &mut Tables,
    alloc: Global,
    signature: &FlatSignature,
    sign: Connective,
    a: TermId,
    b: TermId,
) -> Result<Option<TermId>, AllocError>
    requires signature { HasSignature tables.old signature.now }
    requires left { HasTerm tables.old a }
    requires right { HasTerm tables.old b }
    ensures grows { TablesGrow tables.old tables.new }
    ensures ok { IfOk result (λ r. IsTermOf tables.new r (connected_by (plain_signature tables.old signature.now) sign (term_of tables.old a) (term_of tables.old b))) }
{
    match sign {
        Connective::Equals => {
            let ty = tables.type_of(a);
            connect_by(tables, alloc, signature, b"eq", &[ty], a, b)
        }
        Connective::And => connect_by(tables, alloc, signature, b"conj", &[], a, b),
        Connective::Or => connect_by(tables, alloc, signature, b"disj", &[], a, b),
        Connective::Implies => connect_by(tables, alloc, signature, b"imp", &[], a, b),
    }
}

/// A constant applied to two operands, or None where they don't fit.
fn connect_by(
    tables: &mut Tables,
    alloc: Global,
    signature: &FlatSignature,
    word: &[u8],
    args: &[TypeId],
    a: TermId,
    b: TermId,
) -> Result<Option<TermId>, AllocError>
    requires signature { HasSignature tables.old signature.now }
    requires args { HasTypes tables.old args.now }
    requires left { HasTerm tables.old a }
    requires right { HasTerm tables.old b }
    ensures grows { TablesGrow tables.old tables.new }
    ensures ok { IfOk result (λ r. IsTermOf tables.new r (connected (plain_signature tables.old signature.now) word.now (types_of tables.old args.now) (term_of tables.old a) (term_of tables.old b))) }
{
    let Some(f) = constant_named(tables, alloc, signature, word, args)? else {
        return Ok(None);
    };
    let Some(g) = apply(tables, f, a)? else {
        return Ok(None);
    };
    apply(tables, g, b)
}

/// The negation of a term, or None where it has none.
pub fn negate(
    tables: &mut Tables,
    alloc: Global,
    signature: &FlatSignature,
    a: TermId,
) -> Result<Option<TermId>, AllocError>
    requires signature { HasSignature tables.old signature.now }
    requires term { HasTerm tables.old a }
    ensures grows { TablesGrow tables.old tables.new }
    ensures ok { IfOk result (λ r. IsTermOf tables.new r (negated (plain_signature tables.old signature.now) (term_of tables.old a))) }
{
    let Some(f) = constant_named(tables, alloc, signature, b"not", &[])? else {
        return Ok(None);
    };
    apply(tables, f, a)
}

/// What the sign of a binder makes of the type of its variable and its body, or None where they don't fit.
pub fn bind_by(
    tables: &mut Tables,
    alloc: Global,
    signature: &FlatSignature,
    sign: BinderSign,
    ty: TypeId,
    body: TermId,
) -> Result<Option<TermId>, AllocError>
    requires signature { HasSignature tables.old signature.now }
    requires ty { HasType tables.old ty }
    requires body { HasTerm tables.old body }
    ensures grows { TablesGrow tables.old tables.new }
    ensures ok { IfOk result (λ r. IsTermOf tables.new r (bound_by (plain_signature tables.old signature.now) sign (type_of tables.old ty) (term_of tables.old body))) }
{
    match sign {
        BinderSign::Lambda => {
            let made = abstract_over(tables, alloc, ty, body)?;
            Ok(Some(made))
        }
        BinderSign::All => quantify(tables, alloc, signature, b"all", ty, body),
        BinderSign::Exists => quantify(tables, alloc, signature, b"ex", ty, body),
    }
}

/// A constant applied to an abstraction, or None where it doesn't take it.
fn quantify(
    tables: &mut Tables,
    alloc: Global,
    signature: &FlatSignature,
    word: &[u8],
    ty: TypeId,
    body: TermId,
) -> Result<Option<TermId>, AllocError>
    requires signature { HasSignature tables.old signature.now }
    requires ty { HasType tables.old ty }
    requires body { HasTerm tables.old body }
    ensures grows { TablesGrow tables.old tables.new }
    ensures ok { IfOk result (λ r. IsTermOf tables.new r (quantified (plain_signature tables.old signature.now) word.now (type_of tables.old ty) (term_of tables.old body))) }
{
    let Some(f) = constant_named(tables, alloc, signature, word, &[ty])? else {
        return Ok(None);
    };
    let scope = abstract_over(tables, alloc, ty, body)?;
    apply(tables, f, scope)
}
