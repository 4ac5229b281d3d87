// Written by `python3 tools/library.py write` from the scripts of tools/library/.
//! The facts of this library, in the order of proving.

use library_facts::Fact;

// On logic, choice, the identity and the conditional.

/// The truth value T holds.
pub const TRUTH: Fact = Fact { statement: "T" };

/// Functions that agree at each argument are equal.
pub const EXTENSIONALITY: Fact = Fact {
    statement: "!x0:'a -> 'b. !x1:'a -> 'b. (!x2:'a. x0 x2 = x1 x2) ==> (x0 = x1)",
};

/// A truth value or its negation holds.
pub const EXCLUDED_MIDDLE: Fact = Fact {
    statement: "!x0:bool. x0 \\/ (~ x0)",
};

/// What cannot be false holds.
pub const CONTRADICTION: Fact = Fact {
    statement: "!x0:bool. ((~ x0) ==> F) ==> x0",
};

/// A truth value is its double negation.
pub const DOUBLE_NEGATION: Fact = Fact {
    statement: "!x0:bool. (~ (~ x0)) = x0",
};

/// De Morgan: a disjunction fails where both of its sides do.
pub const NOT_DISJ: Fact = Fact {
    statement: "!x0:bool. !x1:bool. (~ (x0 \\/ x1)) = ((~ x0) /\\ (~ x1))",
};

/// De Morgan: a conjunction fails where one of its sides does.
pub const NOT_CONJ: Fact = Fact {
    statement: "!x0:bool. !x1:bool. (~ (x0 /\\ x1)) = ((~ x0) \\/ (~ x1))",
};

/// An implication holds where its premise fails or its conclusion holds.
pub const IMP_AS_DISJ: Fact = Fact {
    statement: "!x0:bool. !x1:bool. (x0 ==> x1) = ((~ x0) \\/ x1)",
};

/// An implication fails where its premise holds and its conclusion does not.
pub const NOT_IMP: Fact = Fact {
    statement: "!x0:bool. !x1:bool. (~ (x0 ==> x1)) = (x0 /\\ (~ x1))",
};

/// Where there is none, all are not.
pub const NOT_EX: Fact = Fact {
    statement: "!x0:'a -> bool. (~ (?x1:'a. x0 x1)) = (!x1:'a. ~ x0 x1)",
};

/// Where not all are, there is one that is not.
pub const NOT_ALL: Fact = Fact {
    statement: "!x0:'a -> bool. (~ (!x1:'a. x0 x1)) = (?x1:'a. ~ x0 x1)",
};

/// A negation says that the truth value is F.
pub const NOT_AS_EQUATION: Fact = Fact {
    statement: "!x0:bool. (~ x0) = (x0 = F)",
};

/// Different functions differ at some argument.
pub const FUNCTIONS_DIFFER: Fact = Fact {
    statement: "!x0:'a -> 'b. !x1:'a -> 'b. (~ (x0 = x1)) = (?x2:'a. ~ (x0 x2 = x1 x2))",
};

/// Of two different truth values one holds and the other does not.
pub const TRUTH_VALUES_DIFFER: Fact = Fact {
    statement: "!x0:bool. !x1:bool. (~ (x0 = x1)) = ((x0 /\\ (~ x1)) \\/ ((~ x0) /\\ x1))",
};

/// Where there is one, the chosen one is.
pub const SOME_HOLDS: Fact = Fact {
    statement: "!x0:'a -> bool. (?x1:'a. x0 x1) ==> x0 (some{'a} x0)",
};

/// Where each argument has a value, there is a function that chooses one.
pub const CHOICE: Fact = Fact {
    statement: "!x0:'a -> 'b -> bool. (!x1:'a. ?x2:'b. x0 x1 x2) ==> (?x1:'a -> 'b. !x2:'a. x0 x2 (x1 x2))",
};

/// The same for the arguments of a set.
pub const CHOICE_ON: Fact = Fact {
    statement: "!x0:'a -> bool. !x1:'a -> 'b -> bool. (!x2:'a. x0 x2 ==> (?x3:'b. x1 x2 x3)) ==> (?x2:'a -> 'b. !x3:'a. x0 x3 ==> x1 x3 (x2 x3))",
};

/// The chosen one of a set with one element is that element.
pub const UNIQUE_CHOICE: Fact = Fact {
    statement: "!x0:'a -> bool. !x1:'a. x0 x1 ==> ((!x2:'a. x0 x2 ==> (x2 = x1)) ==> (some{'a} x0 = x1))",
};

/// The identity gives its argument.
pub const IDENTITY: Fact = Fact {
    statement: "!x0:'a. id{'a} x0 = x0",
};

/// A conditional gives its first value where its condition holds.
pub const IF_TRUE: Fact = Fact {
    statement: "!x0:bool. !x1:'a. !x2:'a. x0 ==> (if{'a} x0 x1 x2 = x1)",
};

/// A conditional gives its second value where its condition fails.
pub const IF_FALSE: Fact = Fact {
    statement: "!x0:bool. !x1:'a. !x2:'a. (~ x0) ==> (if{'a} x0 x1 x2 = x2)",
};

// On unit and products.

/// An element of unit is the one that its representation stands for.
pub const UNIT_ABS_REP: Fact = Fact {
    statement: "!x0:unit. unit.abs (unit.rep x0) = x0",
};

/// A truth value represents an element of unit where it holds.
pub const UNIT_REP_ABS: Fact = Fact {
    statement: "!x0:bool. x0 = (unit.rep (unit.abs x0) = x0)",
};

/// Unit has one element.
pub const UNIT_EQUAL: Fact = Fact {
    statement: "!x0:unit. !x1:unit. x0 = x1",
};

/// An element of a product is the one that its representation stands for.
pub const PROD_ABS_REP: Fact = Fact {
    statement: "!x0:('a,'b) prod. prod.abs{'a,'b} (prod.rep{'a,'b} x0) = x0",
};

/// A relation represents an element of a product where it is the graph of a pair.
pub const PROD_REP_ABS: Fact = Fact {
    statement: "!x0:'a -> 'b -> bool. (?x1:'a. ?x2:'b. x0 = prod.graph{'a,'b} x1 x2) = (prod.rep{'a,'b} (prod.abs{'a,'b} x0) = x0)",
};

/// A pair is represented by its graph.
pub const PAIR_REP: Fact = Fact {
    statement: "!x0:'a. !x1:'b. prod.rep{'a,'b} (pair{'a,'b} x0 x1) = prod.graph{'a,'b} x0 x1",
};

/// Equal pairs have equal components.
pub const PAIR_INJECTIVE: Fact = Fact {
    statement: "!x0:'a. !x1:'b. !x2:'a. !x3:'b. (pair{'a,'b} x0 x1 = pair{'a,'b} x2 x3) ==> ((x0 = x2) /\\ (x1 = x3))",
};

/// Each element of a product is a pair.
pub const PAIR_EXHAUSTS: Fact = Fact {
    statement: "!x0:('a,'b) prod. ?x1:'a. ?x2:'b. x0 = pair{'a,'b} x1 x2",
};

/// The first component of a pair.
pub const FST_PAIR: Fact = Fact {
    statement: "!x0:'a. !x1:'b. fst{'a,'b} (pair{'a,'b} x0 x1) = x0",
};

/// The second component of a pair.
pub const SND_PAIR: Fact = Fact {
    statement: "!x0:'a. !x1:'b. snd{'a,'b} (pair{'a,'b} x0 x1) = x1",
};

/// An element of a product is the pair of its components.
pub const PAIR_OF_COMPONENTS: Fact = Fact {
    statement: "!x0:('a,'b) prod. pair{'a,'b} (fst{'a,'b} x0) (snd{'a,'b} x0) = x0",
};

// On sums.

/// An element of a sum is the one that its representation stands for.
pub const SUM_ABS_REP: Fact = Fact {
    statement: "!x0:('a,'b) sum. sum.abs{'a,'b} (sum.rep{'a,'b} x0) = x0",
};

/// A relation represents an element of a sum where it is that of a left or a right value.
pub const SUM_REP_ABS: Fact = Fact {
    statement: "!x0:bool -> 'a -> 'b -> bool. ((?x1:'a. x0 = sum.left{'a,'b} x1) \\/ (?x1:'b. x0 = sum.right{'b,'a} x1)) = (sum.rep{'a,'b} (sum.abs{'a,'b} x0) = x0)",
};

/// How a left value is represented.
pub const INL_REP: Fact = Fact {
    statement: "!x0:'a. sum.rep{'a,'b} (inl{'a,'b} x0) = sum.left{'a,'b} x0",
};

/// How a right value is represented.
pub const INR_REP: Fact = Fact {
    statement: "!x0:'b. sum.rep{'a,'b} (inr{'b,'a} x0) = sum.right{'b,'a} x0",
};

/// Equal left values have equal contents.
pub const INL_INJECTIVE: Fact = Fact {
    statement: "!x0:'a. !x1:'a. (inl{'a,'b} x0 = inl{'a,'b} x1) ==> (x0 = x1)",
};

/// Equal right values have equal contents.
pub const INR_INJECTIVE: Fact = Fact {
    statement: "!x0:'b. !x1:'b. (inr{'b,'a} x0 = inr{'b,'a} x1) ==> (x0 = x1)",
};

/// A left value is no right value.
pub const INL_NOT_INR: Fact = Fact {
    statement: "!x0:'a. !x1:'b. ~ (inl{'a,'b} x0 = inr{'b,'a} x1)",
};

/// A right value is no left value.
pub const INR_NOT_INL: Fact = Fact {
    statement: "!x0:'a. !x1:'b. ~ (inr{'b,'a} x1 = inl{'a,'b} x0)",
};

/// Each element of a sum is a left or a right value.
pub const INL_OR_INR: Fact = Fact {
    statement: "!x0:('a,'b) sum. (?x1:'a. x0 = inl{'a,'b} x1) \\/ (?x1:'b. x0 = inr{'b,'a} x1)",
};

/// Case analysis of a left value.
pub const CASE_INL: Fact = Fact {
    statement: "!x0:'a -> 'b. !x1:'c -> 'b. !x2:'a. sum.case{'a,'b,'c} x0 x1 (inl{'a,'c} x2) = x0 x2",
};

/// Case analysis of a right value.
pub const CASE_INR: Fact = Fact {
    statement: "!x0:'a -> 'b. !x1:'c -> 'b. !x2:'c. sum.case{'a,'b,'c} x0 x1 (inr{'c,'a} x2) = x1 x2",
};

/// All of them.
pub const FACTS: &[Fact] = &[
    TRUTH,
    EXTENSIONALITY,
    EXCLUDED_MIDDLE,
    CONTRADICTION,
    DOUBLE_NEGATION,
    NOT_DISJ,
    NOT_CONJ,
    IMP_AS_DISJ,
    NOT_IMP,
    NOT_EX,
    NOT_ALL,
    NOT_AS_EQUATION,
    FUNCTIONS_DIFFER,
    TRUTH_VALUES_DIFFER,
    SOME_HOLDS,
    CHOICE,
    CHOICE_ON,
    UNIQUE_CHOICE,
    IDENTITY,
    IF_TRUE,
    IF_FALSE,
    UNIT_ABS_REP,
    UNIT_REP_ABS,
    UNIT_EQUAL,
    PROD_ABS_REP,
    PROD_REP_ABS,
    PAIR_REP,
    PAIR_INJECTIVE,
    PAIR_EXHAUSTS,
    FST_PAIR,
    SND_PAIR,
    PAIR_OF_COMPONENTS,
    SUM_ABS_REP,
    SUM_REP_ABS,
    INL_REP,
    INR_REP,
    INL_INJECTIVE,
    INR_INJECTIVE,
    INL_NOT_INR,
    INR_NOT_INL,
    INL_OR_INR,
    CASE_INL,
    CASE_INR,
];
