//! What stands in a log besides the steps of the kernel.

/// What is said before the step of the number `at`.
#[derive(Drop)]
pub struct Mark {
    pub at: usize,
    pub kind: MarkKind,
}

/// What a mark says: so many base definitions stand above; a section begins, with its line of the report; the step of the number
/// is a theorem of the name.
#[derive(Drop)]
pub enum MarkKind {
    Base(u32),
    Section(String),
    Name(String, usize),
}

/// How a log ends: the theory was done; or it was refused by a test, at a name and a place.
#[derive(Drop)]
pub enum End {
    Done,
    Stop(String, String, usize),
}
