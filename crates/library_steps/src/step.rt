//! What a step is.

use library_facts::Fact;

/// A step of the building of a library.
pub enum Step {
    /// Makes a base definition, a constant's, by the number of those before it.
    Constant(u32),
    /// Makes that of a type, from the table of a theorem that something is of the type.
    NewType(u32, &'static str),
    /// Proves a fact, from facts by a table.
    Prove(Fact, &'static [Fact], &'static str),
}
