//! Lines of a report.

ghost use Rattle.std.specs.Prelude.{◌≡◌, ◌++◌, codes, IfOk, string_bytes, true};
ghost use Rattle.std.specs.Fmt.{decimal};
ghost use Rattle.std.specs.Str.{is_utf8};
ghost use Rattle.hol_terms.specs.Definition.{const_def, type_def};
ghost use Rattle.hol_terms.specs.Text.{definition_line, theorem_line};
ghost use Rattle.flat_terms.specs.Plain.{HasName, HasTerm, name_of, term_of};
ghost use Rattle.flat_instances.specs.TablesGrow.{TablesGrow};
ghost use Rattle.replay_check.specs.Definitions.{definition_of, HasDefinition};

use crate::definitions::FlatDefinition;
use flat_printing::lines::{push_constant_line, push_theorem_line, push_type_line};
use flat_rules::definitions::make_new_type;
use flat_terms::nodes::{NameId, TermId};
use flat_terms::tables::Tables;
use itoa::Buffer;
use std::alloc::{AllocError, Global};

/// The line of a definition. After want of memory the tables may have more entries.
pub(crate) fn definition_line(
    tables: &mut Tables,
    alloc: Global,
    definition: FlatDefinition,
) -> Result<String, AllocError>
    requires { HasDefinition tables.old definition }
    ensures grows { TablesGrow tables.old tables.new }
    ensures ok { IfOk result (λ s. string_bytes s ≡ definition_line (definition_of tables.old definition)) }
{
    match definition {
        FlatDefinition::Constant(name, term) => constant_line(tables, alloc, name, term),
        FlatDefinition::NewType(name, predicate) => type_line(tables, alloc, name, predicate),
    }
}

/// The line of a constant's definition.
fn constant_line(
    tables: &Tables,
    alloc: Global,
    name: NameId,
    term: TermId,
) -> Result<String, AllocError>
    requires name { HasName tables.now name }
    requires term { HasTerm tables.now term }
    ensures { IfOk result (λ s. string_bytes s ≡ definition_line (const_def (name_of tables.now name) (term_of tables.now term))) }
{
    let mut line = String::new(alloc);
    push_constant_line(tables, &mut line, name, term)?;
    Ok(line)
}

/// The line of a type's definition.
fn type_line(
    tables: &mut Tables,
    alloc: Global,
    name: NameId,
    predicate: TermId,
) -> Result<String, AllocError>
    requires name { HasName tables.old name }
    requires predicate { HasTerm tables.old predicate }
    ensures grows { TablesGrow tables.old tables.new }
    ensures ok { IfOk result (λ s. string_bytes s ≡ definition_line (type_def (name_of tables.old name) (term_of tables.old predicate))) }
{
    let new = make_new_type(tables, alloc, name, predicate)?;
    let mut line = String::new(alloc);
    push_type_line(tables, &mut line, new, predicate)?;
    Ok(line)
}

/// The line of a theorem.
pub(crate) fn theorem_line(
    tables: &Tables,
    alloc: Global,
    name: NameId,
    statement: TermId,
) -> Result<String, AllocError>
    requires name { HasName tables.now name }
    requires statement { HasTerm tables.now statement }
    ensures { IfOk result (λ s. string_bytes s ≡ theorem_line (name_of tables.now name) (term_of tables.now statement)) }
{
    let mut line = String::new(alloc);
    push_theorem_line(tables, &mut line, name, statement)?;
    Ok(line)
}

/// The text behind another.
pub(crate) fn joined(alloc: Global, front: &str, text: &[u8]) -> Result<String, AllocError>
    requires { is_utf8 text.now ≡ true }
    ensures { IfOk result (λ s. string_bytes s ≡ front.now ++ text.now) }
{
    let Ok(text) = str::from_utf8(text) else {
        unreachable!()
    };
    let mut line = String::from_str(alloc, front)?;
    line.push_str(text)?;
    Ok(line)
}

/// The line of the base definitions, by their number.
pub(crate) fn base_line(alloc: Global, count: usize) -> Result<String, AllocError>
    ensures { IfOk result (λ s. string_bytes s ≡ codes "base " ++ decimal count) }
{
    let mut digits = Buffer::new();
    let mut line = String::from_str(alloc, "base ")?;
    line.push_str(digits.format(count))?;
    Ok(line)
}
