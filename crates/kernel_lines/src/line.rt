//! Lines. Each names by their places the terms and the theorems that it takes: the given ones stand first, and then those that
//! lines before it made.

/// A connective.
pub enum Connective {
    Truth,
    Falsity,
    Not,
    Conj,
    Disj,
    Imp,
}

/// A constant with one type argument.
pub enum Generic {
    Equality,
    All,
    Ex,
}

/// A base definition of the logic, by the name of its constant.
pub enum BaseName {
    Truth,
    Conj,
    Imp,
    All,
    Ex,
    Disj,
    Falsity,
    Not,
    OneOne,
    Onto,
}

/// The name of a free variable.
pub enum Letter {
    F,
    H,
    P,
    Q,
    R,
    X,
    Y,
}

/// A type: one by itself, that of a term, or the functions between those of two terms.
pub enum Shape {
    Boolean,
    Alpha,
    Of(usize),
    Fun(usize, usize),
}

/// A line that makes a term.
pub enum Make {
    Const(Connective),
    /// A constant at the type of a term.
    At(Generic, usize),
    Var(Letter, Shape),
    /// A function and its argument.
    App(usize, usize),
    /// The abstraction of a variable in a term.
    Lambda(usize, usize),
    /// The sides of a theorem that is an equation.
    Left(usize),
    Right(usize),
}

/// A line that makes a theorem.
pub enum Infer {
    Refl(usize),
    Assume(usize),
    Beta(usize),
    Trans(usize, usize),
    Comb(usize, usize),
    EqMp(usize, usize),
    Deduct(usize, usize),
    /// A variable and a theorem.
    Abs(usize, usize),
    /// A theorem, and pairs of a type variable's name and a term, whose type is put for it.
    InstType(usize, &'static [(&'static str, usize)]),
    /// A theorem, and pairs of a variable and a term that is put for it.
    Inst(usize, &'static [(usize, usize)]),
    /// What a base definition says.
    Definition(BaseName),
}

pub enum Line {
    Term(Make),
    Thm(Infer),
}
