// Written by `python3 tools/library.py write` from the scripts of tools/library/.
//! Logic, choice, the identity and the conditional: the proof tables, and the steps of the building. Each line of a table puts
//! one type, term or theorem at the end of its register; the theorems begin with the facts that the table takes.

use crate::facts;
use library_facts::Fact;
use library_steps::Step;

// The truth value T holds.
const TRUTH: &str = "\
    term T\n\
    refl 0\n\
    eqt_e 0\n\
";

// The facts that it takes.
const TRUTH_FACTS: &[Fact] = &[];

// Functions that agree at each argument are equal.
const EXTENSIONALITY: &str = "\
    term !x0:'a. [f:'a -> 'b] x0 = [g:'a -> 'b] x0\n\
    assume 0\n\
    term [x:'a]\n\
    spec 1 0\n\
    abs 1 1\n\
    term \\x0:'a. [f:'a -> 'b] x0\n\
    eta_conv 2\n\
    sym 3\n\
    term \\x0:'a. [g:'a -> 'b] x0\n\
    eta_conv 3\n\
    trans 4 2\n\
    trans 6 5\n\
    disch 0 7\n\
    term [g:'a -> 'b]\n\
    gen 4 8\n\
    term [f:'a -> 'b]\n\
    gen 5 9\n\
";

// The facts that it takes.
const EXTENSIONALITY_FACTS: &[Fact] = &[];

// A truth value or its negation holds.
const EXCLUDED_MIDDLE: &str = "\
    axiom 2\n\
    type bool\n\
    inst_type 0 a 0\n\
    term \\x0:bool. (x0 = [c:bool]) \\/ [p:bool]\n\
    spec 0 1\n\
    term [c:bool]\n\
    spec 1 2\n\
    norm 3\n\
    refl 1\n\
    term [p:bool]\n\
    disj_l 5 2\n\
    mp 4 6\n\
    assume 2\n\
    term [y:bool] = F\n\
    disj_r 3 8\n\
    term [y:bool] = T\n\
    disj_r 4 8\n\
    deduct 9 10\n\
    term [y:bool]\n\
    abs 5 11\n\
    term some{bool}\n\
    refl 6\n\
    comb 13 12\n\
    term some{bool} (\\x0:bool. (x0 = T) \\/ [p:bool]) = T\n\
    assume 7\n\
    trans 14 15\n\
    term some{bool} (\\x0:bool. (x0 = F) \\/ [p:bool]) = F\n\
    assume 8\n\
    eqt_e 16\n\
    eq_mp 17 18\n\
    disch 2 19\n\
    not_i 20\n\
    disj_r 2 21\n\
    term ~ [p:bool]\n\
    disj_l 8 9\n\
    term T\n\
    inst 7 1 10\n\
    term F\n\
    inst 7 1 11\n\
    disj_e 25 22 23\n\
    disj_e 24 26 23\n\
    gen 2 27\n\
";

// The facts that it takes.
const EXCLUDED_MIDDLE_FACTS: &[Fact] = &[];

// What cannot be false holds.
const CONTRADICTION: &str = "\
    term (~ [p:bool]) ==> F\n\
    assume 0\n\
    term ~ [p:bool]\n\
    assume 1\n\
    mp 1 2\n\
    def 6\n\
    eq_mp 4 3\n\
    term [p:bool]\n\
    spec 2 5\n\
    spec 2 0\n\
    assume 2\n\
    disj_e 7 8 6\n\
    disch 0 9\n\
    gen 2 10\n\
";

// The facts that it takes.
const CONTRADICTION_FACTS: &[Fact] = &[facts::EXCLUDED_MIDDLE];

// A truth value is its double negation.
const DOUBLE_NEGATION: &str = "\
    term [p:bool]\n\
    spec 0 0\n\
    term ~ (~ [p:bool])\n\
    assume 1\n\
    not_e 2\n\
    mp 1 3\n\
    term ~ [p:bool]\n\
    assume 2\n\
    assume 0\n\
    not_e 5\n\
    mp 7 6\n\
    disch 2 8\n\
    not_i 9\n\
    deduct 10 4\n\
    gen 0 11\n\
";

// The facts that it takes.
const DOUBLE_NEGATION_FACTS: &[Fact] = &[facts::CONTRADICTION];

// De Morgan: a disjunction fails where both of its sides do.
const NOT_DISJ: &str = "\
    term ~ ([p:bool] \\/ [q:bool])\n\
    assume 0\n\
    term [p:bool]\n\
    assume 1\n\
    term [q:bool]\n\
    disj_l 1 2\n\
    not_e 0\n\
    mp 3 2\n\
    disch 1 4\n\
    not_i 5\n\
    assume 2\n\
    disj_r 1 7\n\
    mp 3 8\n\
    disch 2 9\n\
    not_i 10\n\
    term (~ [p:bool]) /\\ (~ [q:bool])\n\
    assume 3\n\
    term [p:bool] \\/ [q:bool]\n\
    assume 4\n\
    conj_l 12\n\
    not_e 14\n\
    mp 15 1\n\
    conj_r 12\n\
    not_e 17\n\
    mp 18 7\n\
    disj_e 13 16 19\n\
    conj_i 6 11\n\
    disch 4 20\n\
    not_i 22\n\
    deduct 23 21\n\
    gen 2 24\n\
    gen 1 25\n\
";

// The facts that it takes.
const NOT_DISJ_FACTS: &[Fact] = &[];

// De Morgan: a conjunction fails where one of its sides does.
const NOT_CONJ: &str = "\
    term ~ [p:bool]\n\
    spec 0 0\n\
    term ~ [q:bool]\n\
    spec 1 2\n\
    term [p:bool]\n\
    spec 2 1\n\
    term [q:bool]\n\
    spec 3 1\n\
    term [v:bool]\n\
    term (~ ((~ [p:bool]) \\/ (~ [q:bool]))) = ([v:bool] /\\ (~ (~ [q:bool])))\n\
    subst 4 5 4 3\n\
    term (~ ((~ [p:bool]) \\/ (~ [q:bool]))) = ([p:bool] /\\ [v:bool])\n\
    subst 4 6 5 6\n\
    term not\n\
    refl 7\n\
    comb 8 7\n\
    sym 9\n\
    term (~ [p:bool]) \\/ (~ [q:bool])\n\
    spec 8 1\n\
    trans 10 11\n\
    gen 3 12\n\
    gen 2 13\n\
";

// The facts that it takes.
const NOT_CONJ_FACTS: &[Fact] = &[facts::NOT_DISJ, facts::DOUBLE_NEGATION];

// An implication holds where its premise fails or its conclusion holds.
const IMP_AS_DISJ: &str = "\
    term [p:bool] ==> [q:bool]\n\
    assume 0\n\
    term [p:bool]\n\
    assume 1\n\
    mp 1 2\n\
    term ~ [p:bool]\n\
    disj_r 2 3\n\
    spec 1 0\n\
    assume 2\n\
    term [q:bool]\n\
    disj_l 6 3\n\
    disj_e 5 4 7\n\
    not_e 6\n\
    mp 9 2\n\
    def 6\n\
    eq_mp 11 10\n\
    spec 3 12\n\
    term (~ [p:bool]) \\/ [q:bool]\n\
    assume 4\n\
    assume 3\n\
    disj_e 14 13 15\n\
    disch 1 16\n\
    deduct 17 8\n\
    gen 3 18\n\
    gen 1 19\n\
";

// The facts that it takes.
const IMP_AS_DISJ_FACTS: &[Fact] = &[facts::EXCLUDED_MIDDLE];

// An implication fails where its premise holds and its conclusion does not.
const NOT_IMP: &str = "\
    term [p:bool]\n\
    spec 0 0\n\
    term [q:bool]\n\
    spec 1 3\n\
    term not\n\
    refl 2\n\
    comb 5 4\n\
    term ~ [p:bool]\n\
    spec 3 1\n\
    spec 1 7\n\
    trans 6 8\n\
    spec 0 2\n\
    term [v:bool]\n\
    term (~ ([p:bool] ==> [q:bool])) = ([v:bool] /\\ (~ [q:bool]))\n\
    subst 4 5 10 9\n\
    gen 1 11\n\
    gen 0 12\n\
";

// The facts that it takes.
const NOT_IMP_FACTS: &[Fact] = &[facts::IMP_AS_DISJ, facts::NOT_DISJ, facts::DOUBLE_NEGATION];

// Where there is none, all are not.
const NOT_EX: &str = "\
    term [P:'a -> bool] [x:'a]\n\
    assume 0\n\
    term ~ (?x0:'a. [P:'a -> bool] x0)\n\
    assume 1\n\
    term ?x0:'a. [P:'a -> bool] x0\n\
    term [x:'a]\n\
    ex_i 2 3 0\n\
    not_e 1\n\
    mp 3 2\n\
    disch 0 4\n\
    not_i 5\n\
    gen 3 6\n\
    term !x0:'a. ~ [P:'a -> bool] x0\n\
    assume 4\n\
    spec 3 8\n\
    not_e 9\n\
    mp 10 0\n\
    assume 2\n\
    choose 3 12 11\n\
    disch 2 13\n\
    not_i 14\n\
    deduct 15 7\n\
    term [P:'a -> bool]\n\
    gen 5 16\n\
";

// The facts that it takes.
const NOT_EX_FACTS: &[Fact] = &[];

// Where not all are, there is one that is not.
const NOT_ALL: &str = "\
    term \\x0:'a. ~ [P:'a -> bool] x0\n\
    spec 0 0\n\
    norm 2\n\
    term [P:'a -> bool] [x:'a]\n\
    spec 1 1\n\
    term [x:'a]\n\
    abs 2 4\n\
    term all{'a}\n\
    refl 3\n\
    comb 6 5\n\
    trans 3 7\n\
    term not\n\
    refl 4\n\
    comb 9 8\n\
    sym 10\n\
    term ?x0:'a. ~ [P:'a -> bool] x0\n\
    spec 5 1\n\
    trans 11 12\n\
    term [P:'a -> bool]\n\
    gen 6 13\n\
";

// The facts that it takes.
const NOT_ALL_FACTS: &[Fact] = &[facts::NOT_EX, facts::DOUBLE_NEGATION];

// A negation says that the truth value is F.
const NOT_AS_EQUATION: &str = "\
    term ~ [p:bool]\n\
    assume 0\n\
    term [p:bool]\n\
    assume 1\n\
    not_e 0\n\
    mp 2 1\n\
    term F\n\
    assume 2\n\
    def 6\n\
    eq_mp 5 4\n\
    spec 1 6\n\
    deduct 7 3\n\
    term [p:bool] = F\n\
    assume 3\n\
    eq_mp 9 1\n\
    disch 1 10\n\
    not_i 11\n\
    deduct 12 8\n\
    gen 1 13\n\
";

// The facts that it takes.
const NOT_AS_EQUATION_FACTS: &[Fact] = &[];

// Different functions differ at some argument.
const FUNCTIONS_DIFFER: &str = "\
    term [f:'a -> 'b] = [g:'a -> 'b]\n\
    assume 0\n\
    term [x:'a]\n\
    refl 1\n\
    comb 2 3\n\
    gen 1 4\n\
    term [f:'a -> 'b]\n\
    spec 2 0\n\
    term [g:'a -> 'b]\n\
    spec 3 6\n\
    term !x0:'a. [f:'a -> 'b] x0 = [g:'a -> 'b] x0\n\
    assume 4\n\
    mp 7 8\n\
    deduct 9 5\n\
    term not\n\
    refl 5\n\
    comb 11 10\n\
    term \\x0:'a. [f:'a -> 'b] x0 = [g:'a -> 'b] x0\n\
    spec 6 1\n\
    norm 13\n\
    trans 12 14\n\
    gen 3 15\n\
    gen 2 16\n\
";

// The facts that it takes.
const FUNCTIONS_DIFFER_FACTS: &[Fact] = &[facts::EXTENSIONALITY, facts::NOT_ALL];

// Of two different truth values one holds and the other does not.
const TRUTH_VALUES_DIFFER: &str = "\
    term [p:bool] = [q:bool]\n\
    assume 0\n\
    term [p:bool]\n\
    assume 1\n\
    eq_mp 2 3\n\
    disch 1 4\n\
    term [q:bool]\n\
    assume 2\n\
    sym 2\n\
    eq_mp 7 6\n\
    disch 2 8\n\
    term ([p:bool] ==> [q:bool]) /\\ ([q:bool] ==> [p:bool])\n\
    assume 3\n\
    conj_r 10\n\
    mp 11 6\n\
    conj_l 10\n\
    mp 13 3\n\
    deduct 12 14\n\
    conj_i 5 9\n\
    deduct 15 16\n\
    term not\n\
    refl 4\n\
    comb 18 17\n\
    term [p:bool] ==> [q:bool]\n\
    spec 5 0\n\
    term [q:bool] ==> [p:bool]\n\
    spec 6 20\n\
    trans 19 21\n\
    term [q:bool] /\\ [r:bool]\n\
    assume 7\n\
    conj_r 23\n\
    conj_l 23\n\
    conj_i 24 25\n\
    term [r:bool]\n\
    term ~ [p:bool]\n\
    inst 26 8 9\n\
    inst 26 2 9 8 2\n\
    deduct 28 27\n\
    spec 1 1\n\
    spec 2 30\n\
    spec 2 1\n\
    spec 1 32\n\
    term [v:bool]\n\
    term (~ ([p:bool] = [q:bool])) = ([v:bool] \\/ (~ ([q:bool] ==> [p:bool])))\n\
    subst 10 11 31 22\n\
    term (~ ([p:bool] = [q:bool])) = (([p:bool] /\\ (~ [q:bool])) \\/ [v:bool])\n\
    subst 10 12 33 34\n\
    subst 10 12 29 35\n\
    gen 2 36\n\
    gen 1 37\n\
";

// The facts that it takes.
const TRUTH_VALUES_DIFFER_FACTS: &[Fact] = &[facts::NOT_CONJ, facts::NOT_IMP];

// Where there is one, the chosen one is.
const SOME_HOLDS: &str = "\
    axiom 2\n\
    term [P:'a -> bool]\n\
    spec 0 0\n\
    term [x:'a]\n\
    spec 1 1\n\
    term [P:'a -> bool] [x:'a]\n\
    assume 2\n\
    mp 2 3\n\
    term ?x0:'a. [P:'a -> bool] x0\n\
    assume 3\n\
    choose 1 5 4\n\
    disch 3 6\n\
    gen 0 7\n\
";

// The facts that it takes.
const SOME_HOLDS_FACTS: &[Fact] = &[];

// Where each argument has a value, there is a function that chooses one.
const CHOICE: &str = "\
    term !x0:'a. ?x1:'b. [R:'a -> 'b -> bool] x0 x1\n\
    assume 0\n\
    type 'b\n\
    inst_type 0 a 0\n\
    term [R:'a -> 'b -> bool] [x:'a]\n\
    spec 1 2\n\
    term [x:'a]\n\
    spec 2 1\n\
    mp 3 4\n\
    gen 2 5\n\
    term !x0:'a. [R:'a -> 'b -> bool] x0 ((\\x1:'a. some{'b} ([R:'a -> 'b -> bool] x1)) x0)\n\
    beta_norm 3\n\
    sym 7\n\
    eq_mp 8 6\n\
    term ?x0:'a -> 'b. !x1:'a. [R:'a -> 'b -> bool] x1 (x0 x1)\n\
    term \\x0:'a. some{'b} ([R:'a -> 'b -> bool] x0)\n\
    ex_i 4 5 9\n\
    disch 0 10\n\
    term [R:'a -> 'b -> bool]\n\
    gen 6 11\n\
";

// The facts that it takes.
const CHOICE_FACTS: &[Fact] = &[facts::SOME_HOLDS];

// The same for the arguments of a set.
const CHOICE_ON: &str = "\
    term !x0:'a. [S:'a -> bool] x0 ==> (?x1:'b. [R:'a -> 'b -> bool] x0 x1)\n\
    assume 0\n\
    type 'b\n\
    inst_type 0 a 0\n\
    term [R:'a -> 'b -> bool] [x:'a]\n\
    spec 1 2\n\
    term [x:'a]\n\
    spec 2 1\n\
    term [S:'a -> bool] [x:'a]\n\
    assume 3\n\
    mp 4 5\n\
    mp 3 6\n\
    disch 3 7\n\
    gen 2 8\n\
    term !x0:'a. [S:'a -> bool] x0 ==> [R:'a -> 'b -> bool] x0 ((\\x1:'a. some{'b} ([R:'a -> 'b -> bool] x1)) x0)\n\
    beta_norm 4\n\
    sym 10\n\
    eq_mp 11 9\n\
    term ?x0:'a -> 'b. !x1:'a. [S:'a -> bool] x1 ==> [R:'a -> 'b -> bool] x1 (x0 x1)\n\
    term \\x0:'a. some{'b} ([R:'a -> 'b -> bool] x0)\n\
    ex_i 5 6 12\n\
    disch 0 13\n\
    term [R:'a -> 'b -> bool]\n\
    gen 7 14\n\
    term [S:'a -> bool]\n\
    gen 8 15\n\
";

// The facts that it takes.
const CHOICE_ON_FACTS: &[Fact] = &[facts::SOME_HOLDS];

// The chosen one of a set with one element is that element.
const UNIQUE_CHOICE: &str = "\
    term [P:'a -> bool] [a:'a]\n\
    assume 0\n\
    term !x0:'a. [P:'a -> bool] x0 ==> (x0 = [a:'a])\n\
    assume 1\n\
    axiom 2\n\
    term [P:'a -> bool]\n\
    spec 2 2\n\
    term [a:'a]\n\
    spec 3 3\n\
    mp 4 0\n\
    term some{'a} [P:'a -> bool]\n\
    spec 4 1\n\
    mp 6 5\n\
    disch 1 7\n\
    disch 0 8\n\
    gen 3 9\n\
    gen 2 10\n\
";

// The facts that it takes.
const UNIQUE_CHOICE_FACTS: &[Fact] = &[];

// The identity gives its argument.
const IDENTITY: &str = "\
    def 10\n\
    term id{'a} [x:'a]\n\
    rewrite_all 0 0\n\
    norm 1\n\
    term [x:'a]\n\
    gen 1 2\n\
";

// The facts that it takes.
const IDENTITY_FACTS: &[Fact] = &[];

// A conditional gives its first value where its condition holds.
const IF_TRUE: &str = "\
    term [c:bool]\n\
    assume 0\n\
    term \\x0:'a. (([c:bool] = T) ==> (x0 = [x:'a])) /\\ (([c:bool] = F) ==> (x0 = [y:'a]))\n\
    spec 1 0\n\
    term [x:'a]\n\
    spec 2 2\n\
    norm 3\n\
    refl 2\n\
    term [c:bool] = T\n\
    disch 3 5\n\
    term [c:bool] = F\n\
    assume 4\n\
    eq_mp 7 1\n\
    def 6\n\
    eq_mp 9 8\n\
    term [x:'a] = [y:'a]\n\
    spec 5 10\n\
    disch 4 11\n\
    term (([c:bool] = T) ==> ([z:'a] = [x:'a])) /\\ (([c:bool] = F) ==> ([z:'a] = [y:'a]))\n\
    assume 6\n\
    conj_l 13\n\
    eqt_i 1\n\
    mp 14 15\n\
    disch 6 16\n\
    term [z:'a]\n\
    gen 7 17\n\
    conj_i 6 12\n\
    mp 4 19\n\
    mp 20 18\n\
    def 11\n\
    term if{'a} [c:bool] [x:'a] [y:'a]\n\
    rewrite_all 8 22\n\
    norm 23\n\
    trans 24 21\n\
    disch 0 25\n\
    term [y:'a]\n\
    gen 9 26\n\
    gen 2 27\n\
    gen 0 28\n\
";

// The facts that it takes.
const IF_TRUE_FACTS: &[Fact] = &[facts::UNIQUE_CHOICE];

// A conditional gives its second value where its condition fails.
const IF_FALSE: &str = "\
    term ~ [c:bool]\n\
    assume 0\n\
    term \\x0:'a. (([c:bool] = T) ==> (x0 = [x:'a])) /\\ (([c:bool] = F) ==> (x0 = [y:'a]))\n\
    spec 1 0\n\
    term [y:'a]\n\
    spec 2 3\n\
    norm 4\n\
    term [c:bool] = T\n\
    assume 3\n\
    eqt_e 6\n\
    not_e 2\n\
    mp 8 7\n\
    def 6\n\
    eq_mp 10 9\n\
    term [y:'a] = [x:'a]\n\
    spec 4 11\n\
    disch 3 12\n\
    refl 2\n\
    term [c:bool] = F\n\
    disch 5 14\n\
    term (([c:bool] = T) ==> ([z:'a] = [x:'a])) /\\ (([c:bool] = F) ==> ([z:'a] = [y:'a]))\n\
    assume 6\n\
    term [c:bool]\n\
    spec 7 1\n\
    eq_mp 17 2\n\
    conj_r 16\n\
    mp 19 18\n\
    disch 6 20\n\
    term [z:'a]\n\
    gen 8 21\n\
    conj_i 13 15\n\
    mp 5 23\n\
    mp 24 22\n\
    def 11\n\
    term if{'a} [c:bool] [x:'a] [y:'a]\n\
    rewrite_all 9 26\n\
    norm 27\n\
    trans 28 25\n\
    disch 0 29\n\
    gen 2 30\n\
    term [x:'a]\n\
    gen 10 31\n\
    gen 7 32\n\
";

// The facts that it takes.
const IF_FALSE_FACTS: &[Fact] = &[facts::UNIQUE_CHOICE, facts::NOT_AS_EQUATION];

// The definitions and the facts, in order.
pub(crate) static STEPS: [Step; 23] = [
    Step::Prove(facts::TRUTH, TRUTH_FACTS, TRUTH),
    Step::Prove(facts::EXTENSIONALITY, EXTENSIONALITY_FACTS, EXTENSIONALITY),
    Step::Prove(
        facts::EXCLUDED_MIDDLE,
        EXCLUDED_MIDDLE_FACTS,
        EXCLUDED_MIDDLE,
    ),
    Step::Prove(facts::CONTRADICTION, CONTRADICTION_FACTS, CONTRADICTION),
    Step::Prove(
        facts::DOUBLE_NEGATION,
        DOUBLE_NEGATION_FACTS,
        DOUBLE_NEGATION,
    ),
    Step::Prove(facts::NOT_DISJ, NOT_DISJ_FACTS, NOT_DISJ),
    Step::Prove(facts::NOT_CONJ, NOT_CONJ_FACTS, NOT_CONJ),
    Step::Prove(facts::IMP_AS_DISJ, IMP_AS_DISJ_FACTS, IMP_AS_DISJ),
    Step::Prove(facts::NOT_IMP, NOT_IMP_FACTS, NOT_IMP),
    Step::Prove(facts::NOT_EX, NOT_EX_FACTS, NOT_EX),
    Step::Prove(facts::NOT_ALL, NOT_ALL_FACTS, NOT_ALL),
    Step::Prove(
        facts::NOT_AS_EQUATION,
        NOT_AS_EQUATION_FACTS,
        NOT_AS_EQUATION,
    ),
    Step::Prove(
        facts::FUNCTIONS_DIFFER,
        FUNCTIONS_DIFFER_FACTS,
        FUNCTIONS_DIFFER,
    ),
    Step::Prove(
        facts::TRUTH_VALUES_DIFFER,
        TRUTH_VALUES_DIFFER_FACTS,
        TRUTH_VALUES_DIFFER,
    ),
    Step::Prove(facts::SOME_HOLDS, SOME_HOLDS_FACTS, SOME_HOLDS),
    Step::Prove(facts::CHOICE, CHOICE_FACTS, CHOICE),
    Step::Prove(facts::CHOICE_ON, CHOICE_ON_FACTS, CHOICE_ON),
    Step::Prove(facts::UNIQUE_CHOICE, UNIQUE_CHOICE_FACTS, UNIQUE_CHOICE),
    Step::Constant(10),
    Step::Prove(facts::IDENTITY, IDENTITY_FACTS, IDENTITY),
    Step::Constant(11),
    Step::Prove(facts::IF_TRUE, IF_TRUE_FACTS, IF_TRUE),
    Step::Prove(facts::IF_FALSE, IF_FALSE_FACTS, IF_FALSE),
];
