//! Tests of the pairs that instances are taken by.

ghost use Rattle.std.specs.Prelude.{◌≡◌, bytes_eq};
ghost use Rattle.std.specs.List.{list_any};
ghost use Rattle.hol_terms.specs.Binding.{var_eq};
ghost use Rattle.hol_terms.specs.Rules.{are_distinct_types, are_distinct_vars, keeps_types};
ghost use Rattle.flat_terms.specs.Plain.{HasName, HasTerm, name_of, term_of};
ghost use Rattle.flat_walks.specs.Walk.{IsVariable, var_of};
ghost use Rattle.flat_instances.specs.Types.{HasTypePairs, type_pairs};
ghost use Rattle.flat_instances.specs.Terms.{term_pairs};
ghost use Rattle.flat_rules.specs.Sequents.{HasVariablePairs};

use flat_terms::nodes::{NameId, TermId, TypeId};
use flat_terms::tables::Tables;

/// Whether a type variable is among those of pairs.
fn has_name(tables: &Tables, name: NameId, pairs: &[(NameId, TypeId)]) -> bool
    requires name { HasName tables.now name }
    requires pairs { HasTypePairs tables.now pairs.now }
    ensures { result ≡ list_any (λ q. bytes_eq (name_of tables.now name) q.0) (type_pairs tables.now pairs.now) }
{
    tables.entries_once();
    for (key, _) in pairs {
        if *key == name {
            return true;
        }
    }
    false
}

/// Whether no two pairs have one type variable.
pub fn are_distinct_names(tables: &Tables, pairs: &[(NameId, TypeId)]) -> bool
    requires { HasTypePairs tables.now pairs.now }
    ensures { result ≡ are_distinct_types (type_pairs tables.now pairs.now) }
{
    for (i, (name, _)) in pairs.iter().enumerate() {
        if has_name(tables, *name, &pairs[i + 1..]) {
            return false;
        }
    }
    true
}

/// Whether a variable is among those of pairs.
fn has_variable(tables: &Tables, variable: TermId, pairs: &[(TermId, TermId)]) -> bool
    requires variable { IsVariable tables.now variable }
    requires pairs { HasVariablePairs tables.now pairs.now }
    ensures { result ≡ list_any (λ q. var_eq (var_of (term_of tables.now variable)) q.0) (term_pairs tables.now pairs.now) }
{
    for (key, _) in pairs {
        if tables.same_term(*key, variable) {
            return true;
        }
    }
    false
}

/// Whether no two pairs have one variable.
pub fn are_distinct_variables(tables: &Tables, pairs: &[(TermId, TermId)]) -> bool
    requires { HasVariablePairs tables.now pairs.now }
    ensures { result ≡ are_distinct_vars (term_pairs tables.now pairs.now) }
{
    for (i, (variable, _)) in pairs.iter().enumerate() {
        if has_variable(tables, *variable, &pairs[i + 1..]) {
            return false;
        }
    }
    true
}

/// Whether each term has the type of its variable.
pub fn have_types(tables: &Tables, pairs: &[(TermId, TermId)]) -> bool
    requires { HasVariablePairs tables.now pairs.now }
    ensures { result ≡ keeps_types (term_pairs tables.now pairs.now) }
{
    for (variable, term) in pairs {
        if !tables.same_type(tables.type_of(*term), tables.type_of(*variable)) {
            return false;
        }
    }
    true
}
