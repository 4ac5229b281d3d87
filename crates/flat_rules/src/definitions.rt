//! What definitions say, over the tables.

ghost use Rattle.std.specs.Prelude.{◌≡◌, [], ◌∷◌, ◌++◌, IfOk};
ghost use Rattle.hol_terms.specs.Tm.{tm_free, tm_comb};
ghost use Rattle.hol_terms.specs.Typing.{tm_type, fun_ty, domain_ty, range_ty};
ghost use Rattle.hol_terms.specs.Takes.{Takes};
ghost use Rattle.hol_terms.specs.TyVars.{own_const};
ghost use Rattle.hol_terms.specs.Sequent.{eq_tm};
ghost use Rattle.hol_terms.specs.Definition.{const_def, type_def, bool_ty, new_type};
ghost use Rattle.flat_terms.specs.Plain.{HasName, HasType, HasTerm, name_of, type_of, term_of};
ghost use Rattle.flat_walks.specs.Number.{IsNumber};
ghost use Rattle.flat_instances.specs.Types.{IsTypeNumber};
ghost use Rattle.flat_instances.specs.TablesGrow.{TablesGrow};
ghost use Rattle.flat_rules.specs.Said.{AreSaid};
ghost use Rattle.flat_rules.specs.Bridges.{IsBridge, AreJoined, there_and_back, new_variable, old_variable};

use crate::equations::make_equation;
use crate::sequent::FlatSequent;
use crate::variables::term_type_variables;
use flat_signatures::entries::{put_dotted, put_function};
use flat_signatures::variables::type_variables;
use flat_terms::nodes::{NameId, TermId, TypeId};
use flat_terms::tables::Tables;
use std::alloc::{AllocError, Global};

/// The two sequents of a type definition.
#[derive(Drop)]
pub struct TypeSequents {
    pub abs_rep: FlatSequent,
    pub rep_abs: FlatSequent,
}

/// A new type, the type that it is carved out of, and the constants between them.
#[derive(Clone, Copy)]
struct Bridge {
    old_type: TypeId,
    new_type: TypeId,
    abs: TermId,
    rep: TermId,
}

/// What the definition of a constant says. After want of memory the tables may have more entries.
pub fn constant_sequent(
    tables: &mut Tables,
    alloc: Global,
    name: NameId,
    term: TermId,
) -> Result<FlatSequent, AllocError>
    requires name { HasName tables.old name }
    requires term { HasTerm tables.old term }
    ensures grows { TablesGrow tables.old tables.new }
    ensures ok { IfOk result (λ q. AreSaid tables.new (const_def (name_of tables.old name) (term_of tables.old term)) (q ∷ [])) }
{
    let constant = own_constant(tables, alloc, name, tables.type_of(term))?;
    let concl = make_equation(tables, alloc, constant, term)?;
    Ok(without_hypotheses(alloc, concl))
}

/// The sequent of a conclusion without hypotheses.
fn without_hypotheses(alloc: Global, concl: TermId) -> FlatSequent
    ensures hyps { result.hyps.items ≡ [] }
    ensures concl { result.concl ≡ concl }
{
    FlatSequent {
        hyps: Vec::new(alloc),
        concl,
    }
}

/// The number of a constant of a generic type, at the type's own variables. After want of memory the tables are as before.
fn own_constant(
    tables: &mut Tables,
    alloc: Global,
    name: NameId,
    ty: TypeId,
) -> Result<TermId, AllocError>
    requires name { HasName tables.old name }
    requires ty { HasType tables.old ty }
    ensures grows { TablesGrow tables.old tables.new }
    ensures ok { IfOk result (λ r. IsNumber tables.new r (own_const (name_of tables.old name) (type_of tables.old ty))) }
{
    let args = type_variables(tables, alloc, ty)?;
    tables.constant(alloc, name, args.as_slice(), ty)
}

/// What the definition of a type says of both constants between the new type and the old one. After want of memory the tables may
/// have more entries.
pub fn type_sequents(
    tables: &mut Tables,
    alloc: Global,
    name: NameId,
    predicate: TermId,
) -> Result<TypeSequents, AllocError>
    requires name { HasName tables.old name }
    requires predicate { HasTerm tables.old predicate }
    requires typed { tm_type (term_of tables.old predicate) ≡ fun_ty (domain_ty (tm_type (term_of tables.old predicate))) bool_ty }
    ensures grows { TablesGrow tables.old tables.new }
    ensures ok { IfOk result (λ s. AreSaid tables.new (type_def (name_of tables.old name) (term_of tables.old predicate)) (s.abs_rep ∷ s.rep_abs ∷ [])) }
{
    let between = make_bridge(tables, alloc, name, predicate)?;
    let abs_rep = abs_rep_equation(tables, alloc, between)?;
    let rep_abs = rep_abs_equation(tables, alloc, between, predicate)?;
    Ok(TypeSequents {
        abs_rep: without_hypotheses(alloc, abs_rep),
        rep_abs: without_hypotheses(alloc, rep_abs),
    })
}

/// The types and the constants of a type definition. After want of memory the tables may have more entries.
fn make_bridge(
    tables: &mut Tables,
    alloc: Global,
    name: NameId,
    predicate: TermId,
) -> Result<Bridge, AllocError>
    requires name { HasName tables.old name }
    requires predicate { HasTerm tables.old predicate }
    requires typed { tm_type (term_of tables.old predicate) ≡ fun_ty (domain_ty (tm_type (term_of tables.old predicate))) bool_ty }
    ensures grows { TablesGrow tables.old tables.new }
    ensures ok { IfOk result (λ b. IsBridge tables.new (name_of tables.old name) (term_of tables.old predicate) b) }
{
    let old_type = domain_of(tables, predicate);
    let new_type = make_new_type(tables, alloc, name, predicate)?;
    let abs = dotted_constant(tables, alloc, name, ".abs", old_type, new_type)?;
    let rep = dotted_constant(tables, alloc, name, ".rep", new_type, old_type)?;
    Ok(Bridge {
        old_type,
        new_type,
        abs,
        rep,
    })
}

/// The number of the domain of a predicate.
fn domain_of(tables: &Tables, predicate: TermId) -> TypeId
    requires predicate { HasTerm tables.now predicate }
    requires typed { tm_type (term_of tables.now predicate) ≡ fun_ty (domain_ty (tm_type (term_of tables.now predicate))) bool_ty }
    ensures { IsTypeNumber tables.now result (domain_ty (tm_type (term_of tables.now predicate))) }
{
    match tables.function_parts(tables.type_of(predicate)) {
        Some((domain, _)) => domain,
        None => unreachable!(),
    }
}

/// The number of a new type at its parameters. After want of memory the tables are as before.
pub fn make_new_type(
    tables: &mut Tables,
    alloc: Global,
    name: NameId,
    predicate: TermId,
) -> Result<TypeId, AllocError>
    requires name { HasName tables.old name }
    requires predicate { HasTerm tables.old predicate }
    ensures grows { TablesGrow tables.old tables.new }
    ensures ok { IfOk result (λ t. IsTypeNumber tables.new t (new_type (name_of tables.old name) (term_of tables.old predicate))) }
{
    let parameters = term_type_variables(tables, alloc, predicate)?;
    tables.type_application(alloc, name, parameters.as_slice())
}

/// The number of the constant of a name with an end, a function from one type to another. After want of memory the tables may have
/// more entries.
fn dotted_constant(
    tables: &mut Tables,
    alloc: Global,
    name: NameId,
    end: &str,
    from: TypeId,
    to: TypeId,
) -> Result<TermId, AllocError>
    requires name { HasName tables.old name }
    requires from { HasType tables.old from }
    requires to { HasType tables.old to }
    ensures grows { TablesGrow tables.old tables.new }
    ensures ok { IfOk result (λ r. IsNumber tables.new r (own_const (name_of tables.old name ++ end.now) (fun_ty (type_of tables.old from) (type_of tables.old to)))) }
{
    let ty = put_function(tables, alloc, from, to)?;
    let constant = put_dotted(tables, alloc, name, end)?;
    own_constant(tables, alloc, constant, ty)
}

/// The number of a free variable of a name. After want of memory the tables may have one more name.
fn variable(
    tables: &mut Tables,
    alloc: Global,
    text: &str,
    ty: TypeId,
) -> Result<TermId, AllocError>
    requires { HasType tables.old ty }
    ensures grows { TablesGrow tables.old tables.new }
    ensures ok { IfOk result (λ r. IsNumber tables.new r (tm_free (record { name = text.now; ty = type_of tables.old ty }))) }
{
    let name = tables.name(alloc, text)?;
    tables.free(name, ty)
}

/// The number of `g (f x) = x`. After want of memory the tables may have more entries.
fn round_trip(
    tables: &mut Tables,
    alloc: Global,
    g: TermId,
    f: TermId,
    x: TermId,
) -> Result<TermId, AllocError>
    requires g { HasTerm tables.old g }
    requires f { HasTerm tables.old f }
    requires x { HasTerm tables.old x }
    requires takes { Takes (term_of tables.old f) (term_of tables.old x) }
    requires back { tm_type (term_of tables.old g) ≡ fun_ty (range_ty (tm_type (term_of tables.old f))) (tm_type (term_of tables.old x)) }
    ensures grows { TablesGrow tables.old tables.new }
    ensures ok { IfOk result (λ r. IsNumber tables.new r (there_and_back (term_of tables.old g) (term_of tables.old f) (term_of tables.old x))) }
{
    let there = tables.application(f, x)?;
    let back = tables.application(g, there)?;
    make_equation(tables, alloc, back, x)
}

/// The number of `abs (rep a) = a`. After want of memory the tables may have more entries.
fn abs_rep_equation(
    tables: &mut Tables,
    alloc: Global,
    between: Bridge,
) -> Result<TermId, AllocError>
    requires { AreJoined tables.old between }
    ensures grows { TablesGrow tables.old tables.new }
    ensures ok { IfOk result (λ r. IsNumber tables.new r (there_and_back (term_of tables.old between.abs) (term_of tables.old between.rep) (new_variable (type_of tables.old between.new_type)))) }
{
    let a = variable(tables, alloc, "a", between.new_type)?;
    round_trip(tables, alloc, between.abs, between.rep, a)
}

/// The number of `P r = (rep (abs r) = r)`. After want of memory the tables may have more entries.
fn rep_abs_equation(
    tables: &mut Tables,
    alloc: Global,
    between: Bridge,
    predicate: TermId,
) -> Result<TermId, AllocError>
    requires joined { AreJoined tables.old between }
    requires predicate { HasTerm tables.old predicate }
    requires typed { tm_type (term_of tables.old predicate) ≡ fun_ty (type_of tables.old between.old_type) bool_ty }
    ensures grows { TablesGrow tables.old tables.new }
    ensures ok { IfOk result (λ q. let r = old_variable (type_of tables.old between.old_type) in IsNumber tables.new q (eq_tm (tm_comb (term_of tables.old predicate) r) (there_and_back (term_of tables.old between.rep) (term_of tables.old between.abs) r))) }
{
    let r = variable(tables, alloc, "r", between.old_type)?;
    let back = round_trip(tables, alloc, between.rep, between.abs, r)?;
    let holds = tables.application(predicate, r)?;
    make_equation(tables, alloc, holds, back)
}
