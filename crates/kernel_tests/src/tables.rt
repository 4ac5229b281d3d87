//! A table for each rule of the kernel.

use kernel_lines::{BaseName, Generic, Infer, Letter, Line, Make, Shape};

pub(crate) static REFL: [Line; 2] = [
    // 0: p
    Line::Term(Make::Var(Letter::P, Shape::Boolean)),
    // 0: |- p = p
    Line::Thm(Infer::Refl(0)),
];

pub(crate) static ASSUME: [Line; 2] = [
    // 0: p
    Line::Term(Make::Var(Letter::P, Shape::Boolean)),
    // 0: p |- p
    Line::Thm(Infer::Assume(0)),
];

pub(crate) static TRANS: [Line; 11] = [
    // 0: p
    Line::Term(Make::Var(Letter::P, Shape::Boolean)),
    // 1: eq
    Line::Term(Make::At(Generic::Equality, 0)),
    // 2: eq p
    Line::Term(Make::App(1, 0)),
    // 3: q
    Line::Term(Make::Var(Letter::Q, Shape::Boolean)),
    // 4: p = q
    Line::Term(Make::App(2, 3)),
    // 5: eq q
    Line::Term(Make::App(1, 3)),
    // 6: r
    Line::Term(Make::Var(Letter::R, Shape::Boolean)),
    // 7: q = r
    Line::Term(Make::App(5, 6)),
    // 0: p = q |- p = q
    Line::Thm(Infer::Assume(4)),
    // 1: q = r |- q = r
    Line::Thm(Infer::Assume(7)),
    // 2: p = q, q = r |- p = r
    Line::Thm(Infer::Trans(0, 1)),
];

pub(crate) static COMB: [Line; 13] = [
    // 0: p
    Line::Term(Make::Var(Letter::P, Shape::Boolean)),
    // 1: eq
    Line::Term(Make::At(Generic::Equality, 0)),
    // 2: eq p
    Line::Term(Make::App(1, 0)),
    // 3: q
    Line::Term(Make::Var(Letter::Q, Shape::Boolean)),
    // 4: p = q
    Line::Term(Make::App(2, 3)),
    // 5: f
    Line::Term(Make::Var(Letter::F, Shape::Fun(0, 0))),
    // 6: eq, at the type of f
    Line::Term(Make::At(Generic::Equality, 5)),
    // 7: eq f
    Line::Term(Make::App(6, 5)),
    // 8: h
    Line::Term(Make::Var(Letter::H, Shape::Fun(0, 0))),
    // 9: f = h
    Line::Term(Make::App(7, 8)),
    // 0: f = h |- f = h
    Line::Thm(Infer::Assume(9)),
    // 1: p = q |- p = q
    Line::Thm(Infer::Assume(4)),
    // 2: p = q, f = h |- f p = h q
    Line::Thm(Infer::Comb(0, 1)),
];

pub(crate) static ABS_KEEPS: [Line; 8] = [
    // 0: p
    Line::Term(Make::Var(Letter::P, Shape::Boolean)),
    // 1: eq
    Line::Term(Make::At(Generic::Equality, 0)),
    // 2: eq p
    Line::Term(Make::App(1, 0)),
    // 3: q
    Line::Term(Make::Var(Letter::Q, Shape::Boolean)),
    // 4: p = q
    Line::Term(Make::App(2, 3)),
    // 5: r
    Line::Term(Make::Var(Letter::R, Shape::Boolean)),
    // 0: p = q |- p = q
    Line::Thm(Infer::Assume(4)),
    // 1: p = q |- (\r. p) = (\r. q)
    Line::Thm(Infer::Abs(5, 0)),
];

pub(crate) static ABS_BINDS: [Line; 9] = [
    // 0: p
    Line::Term(Make::Var(Letter::P, Shape::Boolean)),
    // 1: eq
    Line::Term(Make::At(Generic::Equality, 0)),
    // 2: eq p
    Line::Term(Make::App(1, 0)),
    // 3: q
    Line::Term(Make::Var(Letter::Q, Shape::Boolean)),
    // 4: p = q
    Line::Term(Make::App(2, 3)),
    // 5: \p. p = q
    Line::Term(Make::Lambda(0, 4)),
    // 6: (\p. p = q) p
    Line::Term(Make::App(5, 0)),
    // 0: |- (\p. p = q) p = (p = q)
    Line::Thm(Infer::Beta(6)),
    // 1: |- (\p. (\p. p = q) p) = (\p. p = q)
    Line::Thm(Infer::Abs(0, 0)),
];

pub(crate) static BETA: [Line; 8] = [
    // 0: p
    Line::Term(Make::Var(Letter::P, Shape::Boolean)),
    // 1: eq
    Line::Term(Make::At(Generic::Equality, 0)),
    // 2: eq p
    Line::Term(Make::App(1, 0)),
    // 3: q
    Line::Term(Make::Var(Letter::Q, Shape::Boolean)),
    // 4: p = q
    Line::Term(Make::App(2, 3)),
    // 5: \p. p = q
    Line::Term(Make::Lambda(0, 4)),
    // 6: (\p. p = q) p
    Line::Term(Make::App(5, 0)),
    // 0: |- (\p. p = q) p = (p = q)
    Line::Thm(Infer::Beta(6)),
];

pub(crate) static EQ_MP: [Line; 8] = [
    // 0: p
    Line::Term(Make::Var(Letter::P, Shape::Boolean)),
    // 1: eq
    Line::Term(Make::At(Generic::Equality, 0)),
    // 2: eq p
    Line::Term(Make::App(1, 0)),
    // 3: q
    Line::Term(Make::Var(Letter::Q, Shape::Boolean)),
    // 4: p = q
    Line::Term(Make::App(2, 3)),
    // 0: p = q |- p = q
    Line::Thm(Infer::Assume(4)),
    // 1: p |- p
    Line::Thm(Infer::Assume(0)),
    // 2: p, p = q |- q
    Line::Thm(Infer::EqMp(0, 1)),
];

pub(crate) static DEDUCT_JOINS: [Line; 5] = [
    // 0: p
    Line::Term(Make::Var(Letter::P, Shape::Boolean)),
    // 1: q
    Line::Term(Make::Var(Letter::Q, Shape::Boolean)),
    // 0: p |- p
    Line::Thm(Infer::Assume(0)),
    // 1: q |- q
    Line::Thm(Infer::Assume(1)),
    // 2: p, q |- q = p
    Line::Thm(Infer::Deduct(1, 0)),
];

pub(crate) static DEDUCT_DROPS: [Line; 10] = [
    // 0: p
    Line::Term(Make::Var(Letter::P, Shape::Boolean)),
    // 1: eq
    Line::Term(Make::At(Generic::Equality, 0)),
    // 2: eq p
    Line::Term(Make::App(1, 0)),
    // 3: q
    Line::Term(Make::Var(Letter::Q, Shape::Boolean)),
    // 4: p = q
    Line::Term(Make::App(2, 3)),
    // 0: p = q |- p = q
    Line::Thm(Infer::Assume(4)),
    // 1: p |- p
    Line::Thm(Infer::Assume(0)),
    // 2: p, p = q |- q
    Line::Thm(Infer::EqMp(0, 1)),
    // 3: q |- q
    Line::Thm(Infer::Assume(3)),
    // 4: p, p = q |- q = q
    Line::Thm(Infer::Deduct(2, 3)),
];

pub(crate) static INST_TYPE: [Line; 8] = [
    // 0: x : 'a
    Line::Term(Make::Var(Letter::X, Shape::Alpha)),
    // 1: eq
    Line::Term(Make::At(Generic::Equality, 0)),
    // 2: eq x
    Line::Term(Make::App(1, 0)),
    // 3: y : 'a
    Line::Term(Make::Var(Letter::Y, Shape::Alpha)),
    // 4: x = y
    Line::Term(Make::App(2, 3)),
    // 5: p
    Line::Term(Make::Var(Letter::P, Shape::Boolean)),
    // 0: x = y |- x = y
    Line::Thm(Infer::Assume(4)),
    // 1: the same at bool
    Line::Thm(Infer::InstType(0, &[("a", 5)])),
];

pub(crate) static INST: [Line; 7] = [
    // 0: p
    Line::Term(Make::Var(Letter::P, Shape::Boolean)),
    // 1: eq
    Line::Term(Make::At(Generic::Equality, 0)),
    // 2: eq p
    Line::Term(Make::App(1, 0)),
    // 3: q
    Line::Term(Make::Var(Letter::Q, Shape::Boolean)),
    // 4: p = q
    Line::Term(Make::App(2, 3)),
    // 0: p = q |- p = q
    Line::Thm(Infer::Assume(4)),
    // 1: q = p |- q = p
    Line::Thm(Infer::Inst(0, &[(0, 3), (3, 0)])),
];

pub(crate) static DEFINITION: [Line; 1] = [
    // 0: |- T = ((\x:bool. x) = (\x:bool. x))
    Line::Thm(Infer::Definition(BaseName::Truth)),
];
