//! Lines of definitions and of theorems in canonical text.

ghost use Rattle.std.specs.Prelude.{◌≡◌, ◌++◌, OnOk, string_bytes};
ghost use Rattle.hol_terms.specs.Name.{Name};
ghost use Rattle.hol_terms.specs.Definition.{const_def, type_def, new_type};
ghost use Rattle.hol_terms.specs.Text.{definition_line, theorem_line};
ghost use Rattle.flat_terms.specs.Plain.{HasName, HasType, HasTerm, name_of, type_of, term_of};

use crate::terms::push_term;
use crate::types::push_type;
use flat_terms::nodes::{NameId, TermId, TypeId};
use flat_terms::tables::Tables;
use std::alloc::AllocError;

/// Writes the line that defines a constant as a term. An `Err`, as of `push_term`, leaves a part there.
#[tactic(auto, using(std::proofs::Common::append_assoc))]
pub fn push_constant_line(
    tables: &Tables,
    out: &mut String,
    name: NameId,
    term: TermId,
) -> Result<(), AllocError>
    requires name { HasName tables.now name }
    requires term { HasTerm tables.now term }
    ensures { OnOk result (string_bytes out.new ≡ string_bytes out.old ++ definition_line (const_def (name_of tables.now name) (term_of tables.now term))) }
{
    out.push_str("def ")?;
    out.push_str(tables.name_text(name))?;
    out.push_str(" : ")?;
    push_type(tables, out, tables.type_of(term))?;
    out.push_str(" = ")?;
    push_term(tables, out, term)
}

/// Writes the line that defines a type, at its parameters, by a predicate: that of the type definition whose new type it is. An `Err`, as
/// of `push_term`, leaves a part there.
#[tactic(auto, using(std::proofs::Common::append_assoc))]
pub fn push_type_line(
    tables: &Tables,
    out: &mut String,
    ty: TypeId,
    predicate: TermId,
) -> Result<(), AllocError>
    requires ty { HasType tables.now ty }
    requires predicate { HasTerm tables.now predicate }
    ensures { OnOk result ((n : Name) → type_of tables.now ty ≡ new_type n (term_of tables.now predicate) → string_bytes out.new ≡ string_bytes out.old ++ definition_line (type_def n (term_of tables.now predicate))) }
{
    out.push_str("type ")?;
    push_type(tables, out, ty)?;
    out.push_str(" = ")?;
    push_term(tables, out, predicate)
}

/// Writes the line of the theorem of a name, with its conclusion. An `Err`, as of `push_term`, leaves a part there.
#[tactic(auto, using(std::proofs::Common::append_assoc))]
pub fn push_theorem_line(
    tables: &Tables,
    out: &mut String,
    name: NameId,
    concl: TermId,
) -> Result<(), AllocError>
    requires name { HasName tables.now name }
    requires concl { HasTerm tables.now concl }
    ensures { OnOk result (string_bytes out.new ≡ string_bytes out.old ++ theorem_line (name_of tables.now name) (term_of tables.now concl)) }
{
    out.push_str("thm ")?;
    out.push_str(tables.name_text(name))?;
    out.push_str(" : ")?;
    push_term(tables, out, concl)
}
