//! The ten rules (HOL Light). Each answers the sequent that the rule's partial function gives, or None where it gives none. The tables
//! only gain entries, also after want of memory, which is the only error; binders that can't be counted in a term are answered as want of memory.

ghost use Rattle.std.specs.Prelude.{◌≡◌, IfOk, IfSome};
ghost use Rattle.hol_terms.specs.Typing.{tm_type};
ghost use Rattle.hol_terms.specs.Rules.{lambda, refl_rule, trans_rule, comb_rule, abs_rule, beta_rule, assume_rule, eq_mp_rule, deduct_rule, inst_type_rule, inst_rule};
ghost use Rattle.flat_terms.specs.Plain.{HasTerm, term_of};
ghost use Rattle.flat_walks.specs.Walk.{IsVariable, var_of};
ghost use Rattle.flat_walks.specs.Number.{IsNumber};
ghost use Rattle.flat_instances.specs.Types.{HasTypePairs, type_pairs};
ghost use Rattle.flat_instances.specs.Terms.{term_pairs};
ghost use Rattle.flat_instances.specs.Retypings.{KeepsType};
ghost use Rattle.flat_instances.specs.TablesGrow.{TablesGrow};
ghost use Rattle.flat_rules.specs.Sequents.{HasVariablePairs, sequent_of, HasSequent, IsAnswer, IsWellTyped};
ghost use Rattle.flat_rules.specs.Redexes.{IsRedex};

use crate::equations::{equation, is_bool, make_equation, range_over};
use crate::hypotheses::{
    copied, instances, is_free_in_none, type_instances, union_of, without_term,
};
use crate::pairs::{are_distinct_names, are_distinct_variables, have_types};
use crate::sequent::FlatSequent;
use flat_instances::instance::instance;
use flat_instances::retype::type_instance_in;
use flat_signatures::entries::put_function;
use flat_terms::nodes::{NameId, TermId, TermView, TypeId};
use flat_terms::tables::Tables;
use flat_walks::bind::bind;
use flat_walks::occurs::occurs;
use flat_walks::open::open;
use std::alloc::{AllocError, Global};

/// An abstraction that is applied to a variable.
#[derive(Clone, Copy)]
struct Redex {
    function: TermId,
    variable: TermId,
    body: TermId,
}

/// REFL: `|- t = t`, always. The error is want of memory.
pub fn refl(
    tables: &mut Tables,
    alloc: Global,
    term: TermId,
) -> Result<Option<FlatSequent>, AllocError>
    requires { HasTerm tables.old term }
    ensures grows { TablesGrow tables.old tables.new }
    ensures ok { IfOk result (λ r. IsAnswer tables.new (refl_rule (term_of tables.old term)) r) }
{
    let concl = make_equation(tables, alloc, term, term)?;
    Ok(Some(FlatSequent {
        hyps: Vec::new(alloc),
        concl,
    }))
}

/// TRANS: `A |- s = t` and `B |- t = u` give `A, B |- s = u`. None where a conclusion is no equation, or the terms between differ. The
/// error is want of memory.
pub fn trans(
    tables: &mut Tables,
    alloc: Global,
    a: &FlatSequent,
    b: &FlatSequent,
) -> Result<Option<FlatSequent>, AllocError>
    requires a { HasSequent tables.old a.now }
    requires b { HasSequent tables.old b.now }
    ensures grows { TablesGrow tables.old tables.new }
    ensures ok { IfOk result (λ r. IsAnswer tables.new (trans_rule (sequent_of tables.old a.now) (sequent_of tables.old b.now)) r) }
{
    let Some((left, middle)) = equation(tables, a.concl) else {
        return Ok(None);
    };
    let Some((same, right)) = equation(tables, b.concl) else {
        return Ok(None);
    };
    if !tables.same_term(middle, same) {
        return Ok(None);
    }
    let hyps = union_of(tables, alloc, &a.hyps, &b.hyps)?;
    let concl = make_equation(tables, alloc, left, right)?;
    Ok(Some(FlatSequent { hyps, concl }))
}

/// MK_COMB: `A |- f = g` and `B |- x = y` give `A, B |- f x = g y`, where f takes x. None where a conclusion is no equation, or f doesn't
/// take x. The error is want of memory.
pub fn comb(
    tables: &mut Tables,
    alloc: Global,
    a: &FlatSequent,
    b: &FlatSequent,
) -> Result<Option<FlatSequent>, AllocError>
    requires a { HasSequent tables.old a.now }
    requires b { HasSequent tables.old b.now }
    ensures grows { TablesGrow tables.old tables.new }
    ensures ok { IfOk result (λ r. IsAnswer tables.new (comb_rule (sequent_of tables.old a.now) (sequent_of tables.old b.now)) r) }
{
    let Some((f, g)) = equation(tables, a.concl) else {
        return Ok(None);
    };
    let Some((x, y)) = equation(tables, b.concl) else {
        return Ok(None);
    };
    if range_over(tables, tables.type_of(f), tables.type_of(x)).is_none() {
        return Ok(None);
    }
    let hyps = union_of(tables, alloc, &a.hyps, &b.hyps)?;
    let left = tables.application(f, x)?;
    let right = tables.application(g, y)?;
    let concl = make_equation(tables, alloc, left, right)?;
    Ok(Some(FlatSequent { hyps, concl }))
}

/// ABS: `A |- s = t` gives `A |- (\v. s) = (\v. t)`, where v is free in no hypothesis. None where the conclusion is no equation, or v is
/// free in a hypothesis. The error is want of memory.
pub fn abs(
    tables: &mut Tables,
    alloc: Global,
    variable: TermId,
    a: &FlatSequent,
) -> Result<Option<FlatSequent>, AllocError>
    requires variable { IsVariable tables.old variable }
    requires a { HasSequent tables.old a.now }
    ensures grows { TablesGrow tables.old tables.new }
    ensures ok { IfOk result (λ r. IsAnswer tables.new (abs_rule (var_of (term_of tables.old variable)) (sequent_of tables.old a.now)) r) }
{
    let Some((left, right)) = equation(tables, a.concl) else {
        return Ok(None);
    };
    if !is_free_in_none(tables, alloc, variable, &a.hyps)? {
        return Ok(None);
    }
    let hyps = copied(alloc, &a.hyps)?;
    let left = abstracted(tables, alloc, variable, left)?;
    let right = abstracted(tables, alloc, variable, right)?;
    let concl = make_equation(tables, alloc, left, right)?;
    Ok(Some(FlatSequent { hyps, concl }))
}

/// The number of a term that is abstracted over a variable. After want of memory the tables may have more entries.
fn abstracted(
    tables: &mut Tables,
    alloc: Global,
    variable: TermId,
    term: TermId,
) -> Result<TermId, AllocError>
    requires variable { IsVariable tables.old variable }
    requires term { HasTerm tables.old term }
    ensures grows { TablesGrow tables.old tables.new }
    ensures ok { IfOk result (λ r. IsNumber tables.new r (lambda (var_of (term_of tables.old variable)) (term_of tables.old term))) }
{
    let bound = tables.type_of(variable);
    let range = tables.type_of(term);
    let ty = put_function(tables, alloc, bound, range)?;
    let body = bind(tables, alloc, variable, term)?;
    tables.abstraction(bound, body, ty)
}

/// The parts of an abstraction that is applied to a variable, or None of another term.
fn redex_parts(tables: &Tables, term: TermId) -> Option<Redex>
    requires { HasTerm tables.now term }
    ensures { IsRedex tables.now (term_of tables.now term) result }
{
    let TermView::Comb(function, variable) = tables.term_view(term) else {
        return None;
    };
    let TermView::Abs(_, body) = tables.term_view(function) else {
        return None;
    };
    let TermView::Free(_, _) = tables.term_view(variable) else {
        return None;
    };
    Some(Redex {
        function,
        variable,
        body,
    })
}

/// BETA: `|- (\x. b) v = b` with v for x, where v isn't free in `\x. b`. None of another term, or where v is free there. The error is
/// want of memory.
pub fn beta(
    tables: &mut Tables,
    alloc: Global,
    term: TermId,
) -> Result<Option<FlatSequent>, AllocError>
    requires term { HasTerm tables.old term }
    requires typed { IsWellTyped (term_of tables.old term) }
    ensures grows { TablesGrow tables.old tables.new }
    ensures ok { IfOk result (λ r. IsAnswer tables.new (beta_rule (term_of tables.old term)) r) }
{
    let Some(parts) = redex_parts(tables, term) else {
        return Ok(None);
    };
    if occurs(tables, alloc, parts.variable, parts.function)? {
        return Ok(None);
    }
    let right = open(tables, alloc, parts.variable, parts.body)?;
    let concl = make_equation(tables, alloc, term, right)?;
    Ok(Some(FlatSequent {
        hyps: Vec::new(alloc),
        concl,
    }))
}

/// ASSUME: `p |- p`, where p is boolean. None of a term of another type. The error is want of memory.
pub fn assume(
    tables: &Tables,
    alloc: Global,
    term: TermId,
) -> Result<Option<FlatSequent>, AllocError>
    requires { HasTerm tables.now term }
    ensures { IfOk result (λ r. IsAnswer tables.now (assume_rule (term_of tables.now term)) r) }
{
    if !is_bool(tables, tables.type_of(term)) {
        return Ok(None);
    }
    let hyps = copied(alloc, &[term])?;
    Ok(Some(FlatSequent { hyps, concl: term }))
}

/// EQ_MP: `A |- p = q` and `B |- p` give `A, B |- q`. None where the first conclusion is no equation, or its left side isn't the second.
/// The error is want of memory.
pub fn eq_mp(
    tables: &Tables,
    alloc: Global,
    a: &FlatSequent,
    b: &FlatSequent,
) -> Result<Option<FlatSequent>, AllocError>
    requires a { HasSequent tables.now a.now }
    requires b { HasSequent tables.now b.now }
    ensures { IfOk result (λ r. IsAnswer tables.now (eq_mp_rule (sequent_of tables.now a.now) (sequent_of tables.now b.now)) r) }
{
    let Some((left, right)) = equation(tables, a.concl) else {
        return Ok(None);
    };
    if !tables.same_term(left, b.concl) {
        return Ok(None);
    }
    let hyps = union_of(tables, alloc, &a.hyps, &b.hyps)?;
    Ok(Some(FlatSequent { hyps, concl: right }))
}

/// DEDUCT_ANTISYM_RULE: `A |- p` and `B |- q` give `(A without q), (B without p) |- p = q`. The conclusions have one
/// type. The error is want of memory.
pub fn deduct(
    tables: &mut Tables,
    alloc: Global,
    a: &FlatSequent,
    b: &FlatSequent,
) -> Result<Option<FlatSequent>, AllocError>
    requires a { HasSequent tables.old a.now }
    requires b { HasSequent tables.old b.now }
    requires typed { tm_type (term_of tables.old b.now.concl) ≡ tm_type (term_of tables.old a.now.concl) }
    ensures grows { TablesGrow tables.old tables.new }
    ensures ok { IfOk result (λ r. IsAnswer tables.new (deduct_rule (sequent_of tables.old a.now) (sequent_of tables.old b.now)) r) }
{
    let left = without_term(tables, alloc, b.concl, &a.hyps)?;
    let right = without_term(tables, alloc, a.concl, &b.hyps)?;
    let hyps = union_of(tables, alloc, &left, &right)?;
    let concl = make_equation(tables, alloc, a.concl, b.concl)?;
    Ok(Some(FlatSequent { hyps, concl }))
}

/// INST_TYPE: the sequent with types for type variables, all at once. None where there is no pair, or two pairs have one type variable.
/// The conclusion's type is that instance of its type.
/// The error is want of memory.
pub fn inst_type(
    tables: &mut Tables,
    alloc: Global,
    pairs: &[(NameId, TypeId)],
    a: &FlatSequent,
) -> Result<Option<FlatSequent>, AllocError>
    requires pairs { HasTypePairs tables.old pairs.now }
    requires a { HasSequent tables.old a.now }
    ensures grows { TablesGrow tables.old tables.new }
    ensures ok { IfOk result (λ r. IsAnswer tables.new (inst_type_rule (type_pairs tables.old pairs.now) (sequent_of tables.old a.now)) r) }
    ensures typed { IfOk result (λ r. IfSome r (λ q. KeepsType (type_pairs tables.old pairs.now) (term_of tables.old a.now.concl))) }
{
    if pairs.is_empty() {
        return Ok(None);
    }
    if !are_distinct_names(tables, pairs) {
        return Ok(None);
    }
    let hyps = type_instances(tables, alloc, pairs, &a.hyps)?;
    let concl = type_instance_in(tables, alloc, pairs, a.concl)?;
    let hyps = union_of(tables, alloc, &hyps, &[])?;
    Ok(Some(FlatSequent { hyps, concl }))
}

/// INST: the sequent with terms for free variables, all at once. None where there is no pair, two pairs have one variable, or a term
/// has another type than its variable. The error is want of memory.
pub fn inst(
    tables: &mut Tables,
    alloc: Global,
    pairs: &[(TermId, TermId)],
    a: &FlatSequent,
) -> Result<Option<FlatSequent>, AllocError>
    requires pairs { HasVariablePairs tables.old pairs.now }
    requires a { HasSequent tables.old a.now }
    ensures grows { TablesGrow tables.old tables.new }
    ensures ok { IfOk result (λ r. IsAnswer tables.new (inst_rule (term_pairs tables.old pairs.now) (sequent_of tables.old a.now)) r) }
{
    if pairs.is_empty() {
        return Ok(None);
    }
    if !are_distinct_variables(tables, pairs) {
        return Ok(None);
    }
    if !have_types(tables, pairs) {
        return Ok(None);
    }
    let hyps = instances(tables, alloc, pairs, &a.hyps)?;
    let concl = instance(tables, alloc, pairs, a.concl)?;
    let hyps = union_of(tables, alloc, &hyps, &[])?;
    Ok(Some(FlatSequent { hyps, concl }))
}
