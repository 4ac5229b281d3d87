//! Laws of the definitions: each function does nothing, and its contract is the law.

ghost use Rattle.std.specs.Prelude.{◌≡◌, ℕ, List, [], Some, map, slice_get};
ghost use Rattle.std.specs.Cmp.{IsTotalOrder};
ghost use Rattle.std.specs.declared.cmp.Ordering.TheVariants.{Equal};
ghost use Rattle.hol_terms.specs.Tm.{Tm};
ghost use Rattle.hol_terms.specs.Binding.{tm_cmp};
ghost use Rattle.hol_terms.specs.Signature.{Signature, IsOver};
ghost use Rattle.hol_terms.specs.Definition.{Definition};
ghost use Rattle.hol_terms.specs.Plain.{plain};
ghost use Rattle.hol_terms.specs.Logic.{axioms};
ghost use Rattle.hol_terms.specs.Base.{base, base_definitions};
ghost use Rattle.hol_terms.specs.Proves.{AreConservative};
ghost use Rattle.hol_terms.specs.WellFormed.{IsWellFormed};
ghost use Rattle.hol_terms.specs.Text.{definition_line, tm_text};
ghost use Rattle.hol_terms.specs.BaseLines.{base_lines, axiom_lines};

/// Two closed terms that are well typed over one signature are the same term if they look the same without the types that
/// stand beside bound variables and constants: those types follow from the binders and from the signature.
pub fn plain_trees_decide()
    ensures { (s : Signature) (t u : Tm) → IsOver s [] t → IsOver s [] u → plain t ≡ plain u → t ≡ u }
{}

/// Terms that the order does not tell apart are the same term.
pub fn term_order_decides()
    ensures { (t u : Tm) → tm_cmp t u ≡ Equal → t ≡ u }
{}

/// The order of terms is total.
pub fn term_order_is_total()
    ensures { IsTotalOrder tm_cmp }
{}

/// Each of the 52 base definitions is well formed after those before it: its names are new, its term is well typed over what
/// stands before and has no free variable; the term of a constant has no type variable that its type lacks, and the
/// predicate of a type is a function into bool.
pub fn base_definitions_are_well_formed()
    ensures { (k : ℕ) (d : Definition) → slice_get base_definitions k ≡ Some d → IsWellFormed (base k) d }
{}

/// The first ten base definitions, which define the connectives and the quantifiers, are conservative.
pub fn first_ten_are_conservative()
    ensures { AreConservative (base 10) }
{}

/// The base definitions read, in canonical text, as the list of 52 lines does.
pub fn base_definitions_read_so()
    ensures { map definition_line base_definitions ≡ base_lines }
{}

/// The axioms of extensionality, choice and infinity read, in canonical text, as the list of three lines does.
pub fn axioms_read_so()
    ensures { map (λ a. tm_text a.concl) axioms ≡ axiom_lines }
{}
