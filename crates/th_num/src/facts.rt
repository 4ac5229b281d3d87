// Written by `python3 tools/library.py write` from the scripts of tools/library/.
//! The facts of this library, in the order of proving.

use library_facts::Fact;

// On numbers.

/// The successor on ind is injective and not onto.
pub const IND_INFINITE: Fact = Fact {
    statement: "one_one{ind,ind} num.suc_ind /\\ (~ onto{ind,ind} num.suc_ind)",
};

/// What stands for zero in ind is no successor.
pub const ZERO_IND_NOT_SUC: Fact = Fact {
    statement: "!x0:ind. ~ (num.suc_ind x0 = num.zero_ind)",
};

/// It represents a number.
pub const ZERO_IND_IS_NUM: Fact = Fact {
    statement: "num.is num.zero_ind",
};

/// The successor of what represents a number represents one.
pub const SUC_IND_IS_NUM: Fact = Fact {
    statement: "!x0:ind. num.is x0 ==> num.is (num.suc_ind x0)",
};

/// A number is the one that its representation stands for.
pub const NUM_ABS_REP: Fact = Fact {
    statement: "!x0:num. num.abs (num.rep x0) = x0",
};

/// An element of ind represents a number where it is reached from zero by successors.
pub const NUM_REP_ABS: Fact = Fact {
    statement: "!x0:ind. num.is x0 = (num.rep (num.abs x0) = x0)",
};

/// The representation of a number represents one.
pub const REP_IS_NUM: Fact = Fact {
    statement: "!x0:num. num.is (num.rep x0)",
};

/// How zero is represented.
pub const REP_ZERO: Fact = Fact {
    statement: "num.rep 0 = num.zero_ind",
};

/// How a successor is represented.
pub const REP_SUC: Fact = Fact {
    statement: "!x0:num. num.rep (suc x0) = num.suc_ind (num.rep x0)",
};

/// A successor is not zero.
pub const SUC_NOT_ZERO: Fact = Fact {
    statement: "!x0:num. ~ (suc x0 = 0)",
};

/// Numbers with equal successors are equal.
pub const SUC_INJECTIVE: Fact = Fact {
    statement: "!x0:num. !x1:num. (suc x0 = suc x1) ==> (x0 = x1)",
};

/// Induction over numbers.
pub const NUM_INDUCTION: Fact = Fact {
    statement: "!x0:num -> bool. x0 0 ==> ((!x1:num. x0 x1 ==> x0 (suc x1)) ==> (!x1:num. x0 x1))",
};

/// A number is zero or a successor.
pub const NUM_CASES: Fact = Fact {
    statement: "!x0:num. (x0 = 0) \\/ (?x1:num. x0 = suc x1)",
};

// On the graph of a recursion.

/// Knaster and Tarski: a monotone function of relations has a fixed relation.
pub const FIXED_RELATION: Fact = Fact {
    statement: "!x0:('a -> 'b -> bool) -> 'a -> 'b -> bool. (!x1:'a -> 'b -> bool. !x2:'a -> 'b -> bool. (!x3:'a. !x4:'b. x1 x3 x4 ==> x2 x3 x4) ==> (!x3:'a. !x4:'b. x0 x1 x3 x4 ==> x0 x2 x3 x4)) ==> (?x1:'a -> 'b -> bool. !x2:'a. !x3:'b. x1 x2 x3 = x0 x1 x2 x3)",
};

/// There is a relation that satisfies the equation of a graph of recursion along a step function c.
pub const RECURSION_GRAPH: Fact = Fact {
    statement: "!x0:'a. !x1:'b -> num -> 'a -> 'a. !x2:'b -> num -> num. ?x3:num -> 'a -> bool. !x4:num. !x5:'a. x3 x4 x5 = (((x4 = 0) /\\ (x5 = x0)) \\/ (?x6:'b. ?x7:num. (x4 = x2 x6 x7) /\\ (?x8:'a. x3 x7 x8 /\\ (x5 = x1 x6 x7 x8))))",
};

/// Where no step gives zero, such a relation has the start alone at zero.
pub const GRAPH_AT_ZERO: Fact = Fact {
    statement: "!x0:'a. !x1:'b -> num -> 'a -> 'a. !x2:'b -> num -> num. !x3:num -> 'a -> bool. (!x4:num. !x5:'a. x3 x4 x5 = (((x4 = 0) /\\ (x5 = x0)) \\/ (?x6:'b. ?x7:num. (x4 = x2 x6 x7) /\\ (?x8:'a. x3 x7 x8 /\\ (x5 = x1 x6 x7 x8))))) ==> ((!x4:'b. !x5:num. ~ (x2 x4 x5 = 0)) ==> (!x4:'a. x3 0 x4 = (x4 = x0)))",
};

/// One-point rule: there are arguments of P at which an injective function has its value at i and p where P holds of i and p.
pub const ONE_POINT_OF_TWO: Fact = Fact {
    statement: "!x0:'a -> 'b -> 'c. (!x1:'a. !x2:'b. !x3:'a. !x4:'b. (x0 x1 x2 = x0 x3 x4) ==> ((x1 = x3) /\\ (x2 = x4))) ==> (!x1:'a -> 'b -> bool. !x2:'a. !x3:'b. (?x4:'a. ?x5:'b. (x0 x2 x3 = x0 x4 x5) /\\ x1 x4 x5) = x1 x2 x3)",
};

/// Where steps are also injective, it has at a step what the function makes of the values before it.
pub const GRAPH_AT_STEP: Fact = Fact {
    statement: "!x0:'a. !x1:'b -> num -> 'a -> 'a. !x2:'b -> num -> num. !x3:num -> 'a -> bool. (!x4:num. !x5:'a. x3 x4 x5 = (((x4 = 0) /\\ (x5 = x0)) \\/ (?x6:'b. ?x7:num. (x4 = x2 x6 x7) /\\ (?x8:'a. x3 x7 x8 /\\ (x5 = x1 x6 x7 x8))))) ==> ((!x4:'b. !x5:num. ~ (x2 x4 x5 = 0)) ==> ((!x4:'b. !x5:num. !x6:'b. !x7:num. (x2 x4 x5 = x2 x6 x7) ==> ((x4 = x6) /\\ (x5 = x7))) ==> (!x4:'b. !x5:num. !x6:'a. x3 (x2 x4 x5) x6 = (?x7:'a. x3 x5 x7 /\\ (x6 = x1 x4 x5 x7)))))",
};

// On recursion over numbers.

/// One-point rule: where b alone satisfies P, there is one that satisfies P and Q where b satisfies Q.
pub const ONLY_ONE: Fact = Fact {
    statement: "!x0:'a -> bool. !x1:'a. (!x2:'a. x0 x2 = (x2 = x1)) ==> (!x2:'a -> bool. (?x3:'a. x0 x3 /\\ x2 x3) = x2 x1)",
};

/// By induction along the steps, it has one value everywhere.
pub const GRAPH_VALUES: Fact = Fact {
    statement: "!x0:'a. !x1:'b -> num -> 'a -> 'a. !x2:'b -> num -> num. !x3:num -> 'a -> bool. (!x4:'a. x3 0 x4 = (x4 = x0)) ==> ((!x4:'b. !x5:num. !x6:'a. x3 (x2 x4 x5) x6 = (?x7:'a. x3 x5 x7 /\\ (x6 = x1 x4 x5 x7))) ==> ((!x4:num -> bool. x4 0 ==> ((!x5:'b. !x6:num. x4 x6 ==> x4 (x2 x5 x6)) ==> (!x5:num. x4 x5))) ==> (!x4:num. ?x5:'a. !x6:'a. x3 x4 x6 = (x6 = x5))))",
};

/// The function of these values satisfies the equations of recursion.
pub const GRAPH_FUNCTION: Fact = Fact {
    statement: "!x0:'a. !x1:'b -> num -> 'a -> 'a. !x2:'b -> num -> num. !x3:num -> 'a -> bool. (!x4:'a. x3 0 x4 = (x4 = x0)) ==> ((!x4:'b. !x5:num. !x6:'a. x3 (x2 x4 x5) x6 = (?x7:'a. x3 x5 x7 /\\ (x6 = x1 x4 x5 x7))) ==> ((!x4:num. ?x5:'a. !x6:'a. x3 x4 x6 = (x6 = x5)) ==> (?x4:num -> 'a. (x4 0 = x0) /\\ (!x5:'b. !x6:num. x4 (x2 x5 x6) = x1 x5 x6 (x4 x6)))))",
};

/// By induction along the steps, a relation with both equations of the graph gives a function of recursion.
pub const RECURSION_FROM_GRAPH: Fact = Fact {
    statement: "!x0:'a. !x1:'b -> num -> 'a -> 'a. !x2:'b -> num -> num. !x3:num -> 'a -> bool. (!x4:'a. x3 0 x4 = (x4 = x0)) ==> ((!x4:'b. !x5:num. !x6:'a. x3 (x2 x4 x5) x6 = (?x7:'a. x3 x5 x7 /\\ (x6 = x1 x4 x5 x7))) ==> ((!x4:num -> bool. x4 0 ==> ((!x5:'b. !x6:num. x4 x6 ==> x4 (x2 x5 x6)) ==> (!x5:num. x4 x5))) ==> (?x4:num -> 'a. (x4 0 = x0) /\\ (!x5:'b. !x6:num. x4 (x2 x5 x6) = x1 x5 x6 (x4 x6)))))",
};

/// Recursion along steps that are injective, never zero, and reach each number.
pub const RECURSION: Fact = Fact {
    statement: "!x0:'b -> num -> num. (!x1:'b. !x2:num. ~ (x0 x1 x2 = 0)) ==> ((!x1:'b. !x2:num. !x3:'b. !x4:num. (x0 x1 x2 = x0 x3 x4) ==> ((x1 = x3) /\\ (x2 = x4))) ==> ((!x1:num -> bool. x1 0 ==> ((!x2:'b. !x3:num. x1 x3 ==> x1 (x0 x2 x3)) ==> (!x2:num. x1 x2))) ==> (!x1:'a. !x2:'b -> num -> 'a -> 'a. ?x3:num -> 'a. (x3 0 = x1) /\\ (!x4:'b. !x5:num. x3 (x0 x4 x5) = x2 x4 x5 (x3 x5)))))",
};

/// Recursion over numbers: there is a function with these two equations.
pub const NUM_RECURSION: Fact = Fact {
    statement: "!x0:'a. !x1:num -> 'a -> 'a. ?x2:num -> 'a. (x2 0 = x0) /\\ (!x3:num. x2 (suc x3) = x1 x3 (x2 x3))",
};

/// The recursor satisfies both equations.
pub const REC_EQUATIONS: Fact = Fact {
    statement: "!x0:'a. !x1:num -> 'a -> 'a. (num.rec{'a} x0 x1 0 = x0) /\\ (!x2:num. num.rec{'a} x0 x1 (suc x2) = x1 x2 (num.rec{'a} x0 x1 x2))",
};

/// The recursor at zero.
pub const REC_ZERO: Fact = Fact {
    statement: "!x0:'a. !x1:num -> 'a -> 'a. num.rec{'a} x0 x1 0 = x0",
};

/// The recursor at a successor.
pub const REC_SUC: Fact = Fact {
    statement: "!x0:'a. !x1:num -> 'a -> 'a. !x2:num. num.rec{'a} x0 x1 (suc x2) = x1 x2 (num.rec{'a} x0 x1 x2)",
};

// On the order of numbers.

/// A number is at most itself.
pub const LE_REFLEXIVE: Fact = Fact {
    statement: "!x0:num. num.le x0 x0",
};

/// What is at most a number is at most its successor.
pub const LE_SUC: Fact = Fact {
    statement: "!x0:num. !x1:num. num.le x0 x1 ==> num.le x0 (suc x1)",
};

/// Induction from a number upwards.
pub const LE_INDUCTION: Fact = Fact {
    statement: "!x0:num -> bool. !x1:num. !x2:num. x0 x1 ==> ((!x3:num. x0 x3 ==> x0 (suc x3)) ==> (num.le x1 x2 ==> x0 x2))",
};

/// The order is transitive.
pub const LE_TRANSITIVE: Fact = Fact {
    statement: "!x0:num. !x1:num. !x2:num. num.le x0 x1 ==> (num.le x1 x2 ==> num.le x0 x2)",
};

/// Successors keep the order.
pub const LE_SUC_SUC: Fact = Fact {
    statement: "!x0:num. !x1:num. num.le x0 x1 ==> num.le (suc x0) (suc x1)",
};

/// What is at most a number is that number or below it.
pub const LE_CASES: Fact = Fact {
    statement: "!x0:num. !x1:num. num.le x0 x1 ==> ((x0 = x1) \\/ num.le (suc x0) x1)",
};

/// Nothing is below zero.
pub const NONE_BELOW_ZERO: Fact = Fact {
    statement: "!x0:num. ~ num.le (suc x0) 0",
};

/// The order of successors is that of the numbers.
pub const LE_OF_SUCS: Fact = Fact {
    statement: "!x0:num. !x1:num. num.le (suc x0) (suc x1) ==> num.le x0 x1",
};

/// Induction over smaller numbers.
pub const STRONG_INDUCTION: Fact = Fact {
    statement: "!x0:num -> bool. (!x1:num. (!x2:num. num.le (suc x2) x1 ==> x0 x2) ==> x0 x1) ==> (!x1:num. x0 x1)",
};

// On doubling.

/// Twice zero.
pub const DOUBLE_ZERO: Fact = Fact {
    statement: "num.dbl 0 = 0",
};

/// Twice a successor.
pub const DOUBLE_SUC: Fact = Fact {
    statement: "!x0:num. num.dbl (suc x0) = suc (suc (num.dbl x0))",
};

/// A function that gives the first of two functions of n at twice n, and the second at the number after it.
pub const EVEN_ODD_SELECTOR: Fact = Fact {
    statement: "?x0:num -> (num -> 'a) -> (num -> 'a) -> 'a. !x1:num. (x0 (num.dbl x1) = (\\x2:num -> 'a. \\x3:num -> 'a. x2 x1)) /\\ (x0 (suc (num.dbl x1)) = (\\x2:num -> 'a. \\x3:num -> 'a. x3 x1))",
};

/// An even number is not odd.
pub const DOUBLE_NOT_ODD: Fact = Fact {
    statement: "!x0:num. !x1:num. ~ (num.dbl x0 = suc (num.dbl x1))",
};

/// Numbers of which the doubles are equal are equal.
pub const DOUBLE_INJECTIVE: Fact = Fact {
    statement: "!x0:num. !x1:num. (num.dbl x0 = num.dbl x1) ==> (x0 = x1)",
};

/// Twice zero alone is zero.
pub const DOUBLE_IS_ZERO: Fact = Fact {
    statement: "!x0:num. (num.dbl x0 = 0) ==> (x0 = 0)",
};

/// A number is at most its double.
pub const LE_DOUBLE: Fact = Fact {
    statement: "!x0:num. num.le x0 (num.dbl x0)",
};

/// A number is zero or below its double.
pub const BELOW_DOUBLE: Fact = Fact {
    statement: "!x0:num. (x0 = 0) \\/ num.le (suc x0) (num.dbl x0)",
};

/// A number is even or odd.
pub const EVEN_OR_ODD: Fact = Fact {
    statement: "!x0:num. ?x1:num. (x0 = num.dbl x1) \\/ (x0 = suc (num.dbl x1))",
};

// On path codes.

/// The path code of a step 0.
pub const CONS_ZERO: Fact = Fact {
    statement: "!x0:num. num.cons 0 x0 = suc (num.dbl x0)",
};

/// The path code of a step that is a successor.
pub const CONS_SUC: Fact = Fact {
    statement: "!x0:num. !x1:num. num.cons (suc x0) x1 = num.dbl (num.cons x0 x1)",
};

/// The rest of a path has a smaller code than the path.
pub const BELOW_CONS: Fact = Fact {
    statement: "!x0:num. !x1:num. num.le (suc x1) (num.cons x0 x1)",
};

/// The path code of a step is not zero, which is that of the empty path.
pub const CONS_NOT_ZERO: Fact = Fact {
    statement: "!x0:num. !x1:num. ~ (num.cons x0 x1 = 0)",
};

/// A path code that is one of a step 0 has the step 0 and the same rest.
pub const CONS_STEP_ZERO: Fact = Fact {
    statement: "!x0:num. !x1:num. !x2:num. (num.cons x0 x1 = num.cons 0 x2) ==> ((x0 = 0) /\\ (x1 = x2))",
};

/// Where a path code of a step 0 is another code, the steps and the rests are equal.
pub const CONS_ZERO_INJECTIVE: Fact = Fact {
    statement: "!x0:num. !x1:num. !x2:num. (num.cons 0 x0 = num.cons x1 x2) ==> ((0 = x1) /\\ (x0 = x2))",
};

/// Equal path codes have equal first steps and equal rests.
pub const CONS_INJECTIVE: Fact = Fact {
    statement: "!x0:num. !x1:num. !x2:num. !x3:num. (num.cons x0 x1 = num.cons x2 x3) ==> ((x0 = x2) /\\ (x1 = x3))",
};

/// Twice the path code of a step is the path code of one.
pub const DOUBLE_IS_CODE: Fact = Fact {
    statement: "!x0:num. (?x1:num. ?x2:num. x0 = num.cons x1 x2) ==> (?x1:num. ?x2:num. num.dbl x0 = num.cons x1 x2)",
};

/// Each number is a path code.
pub const PATH_CASES: Fact = Fact {
    statement: "!x0:num. (x0 = 0) \\/ (?x1:num. ?x2:num. x0 = num.cons x1 x2)",
};

/// Induction along path codes.
pub const PATH_INDUCTION: Fact = Fact {
    statement: "!x0:num -> bool. x0 0 ==> ((!x1:num. !x2:num. x0 x2 ==> x0 (num.cons x1 x2)) ==> (!x1:num. x0 x1))",
};

/// Recursion along path codes.
pub const PATH_RECURSION: Fact = Fact {
    statement: "!x0:'a. !x1:num -> num -> 'a -> 'a. ?x2:num -> 'a. (x2 0 = x0) /\\ (!x3:num. !x4:num. x2 (num.cons x3 x4) = x1 x3 x4 (x2 x4))",
};

/// All of them.
pub const FACTS: &[Fact] = &[
    IND_INFINITE,
    ZERO_IND_NOT_SUC,
    ZERO_IND_IS_NUM,
    SUC_IND_IS_NUM,
    NUM_ABS_REP,
    NUM_REP_ABS,
    REP_IS_NUM,
    REP_ZERO,
    REP_SUC,
    SUC_NOT_ZERO,
    SUC_INJECTIVE,
    NUM_INDUCTION,
    NUM_CASES,
    FIXED_RELATION,
    RECURSION_GRAPH,
    GRAPH_AT_ZERO,
    ONE_POINT_OF_TWO,
    GRAPH_AT_STEP,
    ONLY_ONE,
    GRAPH_VALUES,
    GRAPH_FUNCTION,
    RECURSION_FROM_GRAPH,
    RECURSION,
    NUM_RECURSION,
    REC_EQUATIONS,
    REC_ZERO,
    REC_SUC,
    LE_REFLEXIVE,
    LE_SUC,
    LE_INDUCTION,
    LE_TRANSITIVE,
    LE_SUC_SUC,
    LE_CASES,
    NONE_BELOW_ZERO,
    LE_OF_SUCS,
    STRONG_INDUCTION,
    DOUBLE_ZERO,
    DOUBLE_SUC,
    EVEN_ODD_SELECTOR,
    DOUBLE_NOT_ODD,
    DOUBLE_INJECTIVE,
    DOUBLE_IS_ZERO,
    LE_DOUBLE,
    BELOW_DOUBLE,
    EVEN_OR_ODD,
    CONS_ZERO,
    CONS_SUC,
    BELOW_CONS,
    CONS_NOT_ZERO,
    CONS_STEP_ZERO,
    CONS_ZERO_INJECTIVE,
    CONS_INJECTIVE,
    DOUBLE_IS_CODE,
    PATH_CASES,
    PATH_INDUCTION,
    PATH_RECURSION,
];
