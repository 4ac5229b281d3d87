// Written by `python3 tools/library.py write` from the scripts of tools/library/.
//! Path codes: the proof tables, and the steps of the building. Each line of a table puts
//! one type, term or theorem at the end of its register; the theorems begin with the facts that the table takes.

use crate::facts;
use library_facts::Fact;
use library_steps::Step;

// The path code of a step 0.
const CONS_ZERO: &str = "\
    type num\n\
    inst_type 0 a 0\n\
    term suc (num.dbl [p:num])\n\
    spec 0 1\n\
    term \\x0:num. \\x1:num. num.dbl x1\n\
    spec 1 2\n\
    def 42\n\
    term num.cons 0 [p:num]\n\
    rewrite_all 2 4\n\
    norm 5\n\
    trans 6 3\n\
    term [p:num]\n\
    gen 3 7\n\
";

// The facts that it takes.
const CONS_ZERO_FACTS: &[Fact] = &[facts::REC_ZERO];

// The path code of a step that is a successor.
const CONS_SUC: &str = "\
    type num\n\
    inst_type 0 a 0\n\
    term suc (num.dbl [p:num])\n\
    spec 0 1\n\
    term \\x0:num. \\x1:num. num.dbl x1\n\
    spec 1 2\n\
    term [i:num]\n\
    spec 2 3\n\
    norm 4\n\
    def 42\n\
    term num.cons (suc [i:num]) [p:num] = num.dbl (num.cons [i:num] [p:num])\n\
    rewrite_all 3 6\n\
    norm 7\n\
    sym 8\n\
    eq_mp 9 5\n\
    term [p:num]\n\
    gen 4 10\n\
    gen 2 11\n\
";

// The facts that it takes.
const CONS_SUC_FACTS: &[Fact] = &[facts::REC_SUC];

// The rest of a path has a smaller code than the path.
const BELOW_CONS: &str = "\
    term [p:num]\n\
    spec 0 0\n\
    term num.dbl [p:num]\n\
    spec 1 6\n\
    spec 0 1\n\
    mp 7 8\n\
    spec 0 2\n\
    sym 10\n\
    term [v:num]\n\
    term num.le (suc [p:num]) [v:num]\n\
    subst 2 3 11 9\n\
    gen 0 12\n\
    term suc [p:num]\n\
    spec 4 3\n\
    term num.cons [i:num] [p:num]\n\
    spec 5 14\n\
    term num.dbl (num.cons [i:num] [p:num])\n\
    spec 6 15\n\
    term !x0:num. num.le (suc x0) (num.cons [i:num] x0)\n\
    assume 7\n\
    spec 0 17\n\
    spec 5 1\n\
    mp 16 18\n\
    mp 20 19\n\
    term [i:num]\n\
    spec 8 4\n\
    spec 0 22\n\
    sym 23\n\
    subst 2 3 24 21\n\
    gen 0 25\n\
    term \\x0:num. !x1:num. num.le (suc x1) (num.cons x0 x1)\n\
    spec 9 5\n\
    norm 27\n\
    disch 7 26\n\
    gen 8 29\n\
    mp 28 13\n\
    mp 31 30\n\
";

// The facts that it takes.
const BELOW_CONS_FACTS: &[Fact] = &[
    facts::LE_SUC_SUC,
    facts::LE_DOUBLE,
    facts::CONS_ZERO,
    facts::LE_TRANSITIVE,
    facts::CONS_SUC,
    facts::NUM_INDUCTION,
];

// The path code of a step is not zero, which is that of the empty path.
const CONS_NOT_ZERO: &str = "\
    term num.cons [i:num] [p:num] = 0\n\
    assume 0\n\
    term [i:num]\n\
    spec 1 0\n\
    term [p:num]\n\
    spec 2 3\n\
    term [v:num]\n\
    term num.le (suc [p:num]) [v:num]\n\
    subst 3 4 2 4\n\
    spec 2 1\n\
    not_e 6\n\
    mp 7 5\n\
    disch 0 8\n\
    not_i 9\n\
    gen 2 10\n\
    gen 1 11\n\
";

// The facts that it takes.
const CONS_NOT_ZERO_FACTS: &[Fact] = &[facts::BELOW_CONS, facts::NONE_BELOW_ZERO];

// A path code that is one of a step 0 has the step 0 and the same rest.
const CONS_STEP_ZERO: &str = "\
    term num.cons 0 [p:num] = num.cons 0 [q:num]\n\
    assume 0\n\
    term [p:num]\n\
    spec 1 0\n\
    term [q:num]\n\
    spec 2 0\n\
    term [v:num]\n\
    term [v:num] = num.cons 0 [q:num]\n\
    subst 3 4 7 6\n\
    term suc (num.dbl [p:num]) = [v:num]\n\
    subst 3 5 8 9\n\
    term num.dbl [p:num]\n\
    spec 6 1\n\
    term num.dbl [q:num]\n\
    spec 7 11\n\
    mp 12 10\n\
    spec 1 2\n\
    spec 2 14\n\
    mp 15 13\n\
    term 0\n\
    refl 8\n\
    conj_i 17 16\n\
    disch 0 18\n\
    gen 2 19\n\
    gen 1 20\n\
    term num.cons (suc [i:num]) [p:num] = num.cons 0 [q:num]\n\
    assume 9\n\
    term [i:num]\n\
    spec 10 3\n\
    spec 1 23\n\
    subst 3 4 24 22\n\
    term num.dbl (num.cons [i:num] [p:num]) = [v:num]\n\
    subst 3 11 8 25\n\
    term num.cons [i:num] [p:num]\n\
    spec 12 4\n\
    spec 2 27\n\
    not_e 28\n\
    mp 29 26\n\
    def 6\n\
    eq_mp 31 30\n\
    term (suc [i:num] = 0) /\\ ([p:num] = [q:num])\n\
    spec 13 32\n\
    disch 9 33\n\
    gen 2 34\n\
    gen 1 35\n\
    term \\x0:num. !x1:num. !x2:num. (num.cons x0 x1 = num.cons 0 x2) ==> ((x0 = 0) /\\ (x1 = x2))\n\
    spec 14 5\n\
    norm 37\n\
    term !x0:num. !x1:num. (num.cons [i:num] x0 = num.cons 0 x1) ==> (([i:num] = 0) /\\ (x0 = x1))\n\
    disch 15 36\n\
    gen 10 39\n\
    mp 38 21\n\
    mp 41 40\n\
";

// The facts that it takes.
const CONS_STEP_ZERO_FACTS: &[Fact] = &[
    facts::CONS_ZERO,
    facts::SUC_INJECTIVE,
    facts::DOUBLE_INJECTIVE,
    facts::CONS_SUC,
    facts::DOUBLE_NOT_ODD,
    facts::NUM_INDUCTION,
];

// Where a path code of a step 0 is another code, the steps and the rests are equal.
const CONS_ZERO_INJECTIVE: &str = "\
    term num.cons 0 [p:num] = num.cons [j:num] [q:num]\n\
    assume 0\n\
    term [j:num]\n\
    spec 1 0\n\
    term [q:num]\n\
    spec 2 2\n\
    term [p:num]\n\
    spec 3 3\n\
    sym 1\n\
    mp 4 5\n\
    conj_l 6\n\
    sym 7\n\
    conj_r 6\n\
    sym 9\n\
    conj_i 8 10\n\
    disch 0 11\n\
    gen 2 12\n\
    gen 1 13\n\
    gen 3 14\n\
";

// The facts that it takes.
const CONS_ZERO_INJECTIVE_FACTS: &[Fact] = &[facts::CONS_STEP_ZERO];

// Equal path codes have equal first steps and equal rests.
const CONS_INJECTIVE: &str = "\
    term suc [i:num]\n\
    spec 0 0\n\
    term [p:num]\n\
    spec 1 5\n\
    term num.cons (suc [i:num]) [p:num] = num.cons (suc [j:num]) [q:num]\n\
    assume 2\n\
    term [i:num]\n\
    spec 3 1\n\
    spec 1 8\n\
    term [j:num]\n\
    spec 4 1\n\
    term [q:num]\n\
    spec 5 10\n\
    term [v:num]\n\
    term [v:num] = num.cons (suc [j:num]) [q:num]\n\
    subst 6 7 9 7\n\
    term num.dbl (num.cons [i:num] [p:num]) = [v:num]\n\
    subst 6 8 11 12\n\
    term num.cons [i:num] [p:num]\n\
    spec 9 2\n\
    term num.cons [j:num] [q:num]\n\
    spec 10 14\n\
    mp 15 13\n\
    term !x0:num. !x1:num. !x2:num. (num.cons [i:num] x0 = num.cons x1 x2) ==> (([i:num] = x1) /\\ (x0 = x2))\n\
    assume 11\n\
    spec 1 17\n\
    spec 4 18\n\
    spec 5 19\n\
    mp 20 16\n\
    conj_l 21\n\
    term suc\n\
    refl 12\n\
    comb 23 22\n\
    conj_r 21\n\
    conj_i 24 25\n\
    disch 2 26\n\
    gen 5 27\n\
    term \\x0:num. !x1:num. (num.cons (suc [i:num]) [p:num] = num.cons x0 x1) ==> ((suc [i:num] = x0) /\\ ([p:num] = x1))\n\
    spec 13 3\n\
    norm 29\n\
    term !x0:num. (num.cons (suc [i:num]) [p:num] = num.cons [j:num] x0) ==> ((suc [i:num] = [j:num]) /\\ ([p:num] = x0))\n\
    disch 14 28\n\
    gen 4 31\n\
    mp 30 6\n\
    mp 33 32\n\
    gen 1 34\n\
    term \\x0:num. !x1:num. !x2:num. !x3:num. (num.cons x0 x1 = num.cons x2 x3) ==> ((x0 = x2) /\\ (x1 = x3))\n\
    spec 15 3\n\
    norm 36\n\
    disch 11 35\n\
    gen 3 38\n\
    mp 37 4\n\
    mp 40 39\n\
";

// The facts that it takes.
const CONS_INJECTIVE_FACTS: &[Fact] = &[
    facts::CONS_STEP_ZERO,
    facts::CONS_SUC,
    facts::DOUBLE_INJECTIVE,
    facts::NUM_INDUCTION,
    facts::CONS_ZERO_INJECTIVE,
];

// Twice the path code of a step is the path code of one.
const DOUBLE_IS_CODE: &str = "\
    term [n:num] = num.cons [i:num] [p:num]\n\
    assume 0\n\
    term num.dbl\n\
    refl 1\n\
    comb 2 1\n\
    term [i:num]\n\
    spec 2 0\n\
    term [p:num]\n\
    spec 3 4\n\
    sym 5\n\
    trans 3 6\n\
    term ?x0:num. num.dbl [n:num] = num.cons (suc [i:num]) x0\n\
    ex_i 4 3 7\n\
    term ?x0:num. ?x1:num. num.dbl [n:num] = num.cons x0 x1\n\
    term suc [i:num]\n\
    ex_i 5 6 8\n\
    term ?x0:num. [n:num] = num.cons [i:num] x0\n\
    assume 7\n\
    choose 3 10 9\n\
    term ?x0:num. ?x1:num. [n:num] = num.cons x0 x1\n\
    assume 8\n\
    choose 2 12 11\n\
    disch 8 13\n\
    term [n:num]\n\
    gen 9 14\n\
";

// The facts that it takes.
const DOUBLE_IS_CODE_FACTS: &[Fact] = &[facts::CONS_SUC];

// Each number is a path code.
const PATH_CASES: &str = "\
    term \\x0:num. (x0 = 0) \\/ (?x1:num. ?x2:num. x0 = num.cons x1 x2)\n\
    spec 0 0\n\
    norm 6\n\
    term !x0:num. num.le (suc x0) [n:num] ==> ((x0 = 0) \\/ (?x1:num. ?x2:num. x0 = num.cons x1 x2))\n\
    assume 1\n\
    term [n:num] = num.dbl [m:num]\n\
    assume 2\n\
    term [m:num] = 0\n\
    assume 3\n\
    term [v:num]\n\
    term [n:num] = num.dbl [v:num]\n\
    subst 4 5 10 9\n\
    term [n:num] = [v:num]\n\
    subst 4 6 1 11\n\
    term ?x0:num. ?x1:num. [n:num] = num.cons x0 x1\n\
    disj_l 12 7\n\
    term [m:num]\n\
    spec 8 2\n\
    term ?x0:num. ?x1:num. [m:num] = num.cons x0 x1\n\
    assume 9\n\
    mp 14 15\n\
    sym 9\n\
    term ?x0:num. ?x1:num. [v:num] = num.cons x0 x1\n\
    subst 4 10 17 16\n\
    term [n:num] = 0\n\
    disj_r 11 18\n\
    spec 8 8\n\
    term num.le (suc [m:num]) [v:num] ==> (([m:num] = 0) \\/ (?x0:num. ?x1:num. [m:num] = num.cons x0 x1))\n\
    subst 4 12 9 20\n\
    term num.le (suc [m:num]) (num.dbl [m:num])\n\
    assume 13\n\
    mp 21 22\n\
    spec 8 3\n\
    disj_e 23 13 19\n\
    disj_e 24 13 25\n\
    term [n:num] = suc (num.dbl [m:num])\n\
    assume 14\n\
    spec 8 4\n\
    sym 28\n\
    trans 27 29\n\
    term ?x0:num. [n:num] = num.cons 0 x0\n\
    ex_i 15 8 30\n\
    term 0\n\
    ex_i 7 16 31\n\
    term ([n:num] = num.dbl [m:num]) \\/ ([n:num] = suc (num.dbl [m:num]))\n\
    assume 17\n\
    disj_r 11 32\n\
    disj_e 33 26 34\n\
    term [n:num]\n\
    spec 18 5\n\
    choose 8 36 35\n\
    disch 1 37\n\
    gen 18 38\n\
    mp 7 39\n\
";

// The facts that it takes.
const PATH_CASES_FACTS: &[Fact] = &[
    facts::STRONG_INDUCTION,
    facts::DOUBLE_ZERO,
    facts::DOUBLE_IS_CODE,
    facts::BELOW_DOUBLE,
    facts::CONS_ZERO,
    facts::EVEN_OR_ODD,
];

// Induction along path codes.
const PATH_INDUCTION: &str = "\
    term [P:num -> bool] 0\n\
    assume 0\n\
    term !x0:num. !x1:num. [P:num -> bool] x1 ==> [P:num -> bool] (num.cons x0 x1)\n\
    assume 1\n\
    term !x0:num. num.le (suc x0) [n:num] ==> [P:num -> bool] x0\n\
    assume 2\n\
    term [n:num] = 0\n\
    assume 3\n\
    sym 6\n\
    term [v:num]\n\
    term [P:num -> bool] [v:num]\n\
    subst 4 5 7 3\n\
    term [n:num] = num.cons [i:num] [p:num]\n\
    assume 6\n\
    term [p:num]\n\
    spec 7 5\n\
    term num.le (suc [p:num]) [v:num] ==> [P:num -> bool] [p:num]\n\
    subst 4 8 9 10\n\
    term [i:num]\n\
    spec 9 0\n\
    spec 7 12\n\
    mp 11 13\n\
    spec 9 4\n\
    spec 7 15\n\
    mp 16 14\n\
    sym 9\n\
    subst 4 5 18 17\n\
    term ?x0:num. [n:num] = num.cons [i:num] x0\n\
    assume 10\n\
    choose 7 20 19\n\
    term ?x0:num. ?x1:num. [n:num] = num.cons x0 x1\n\
    assume 11\n\
    choose 9 22 21\n\
    term [n:num]\n\
    spec 12 1\n\
    disj_e 24 8 23\n\
    term [P:num -> bool]\n\
    spec 13 2\n\
    disch 2 25\n\
    gen 12 27\n\
    mp 26 28\n\
    disch 1 29\n\
    disch 0 30\n\
    gen 13 31\n\
";

// The facts that it takes.
const PATH_INDUCTION_FACTS: &[Fact] = &[
    facts::BELOW_CONS,
    facts::PATH_CASES,
    facts::STRONG_INDUCTION,
];

// Recursion along path codes.
const PATH_RECURSION: &str = "\
    type num\n\
    inst_type 0 b 0\n\
    term num.cons\n\
    spec 0 4\n\
    mp 5 1\n\
    mp 6 2\n\
    mp 7 3\n\
";

// The facts that it takes.
const PATH_RECURSION_FACTS: &[Fact] = &[
    facts::RECURSION,
    facts::CONS_NOT_ZERO,
    facts::CONS_INJECTIVE,
    facts::PATH_INDUCTION,
];

// The definitions and the facts, in order.
pub(crate) static STEPS: [Step; 12] = [
    Step::Constant(42),
    Step::Prove(facts::CONS_ZERO, CONS_ZERO_FACTS, CONS_ZERO),
    Step::Prove(facts::CONS_SUC, CONS_SUC_FACTS, CONS_SUC),
    Step::Prove(facts::BELOW_CONS, BELOW_CONS_FACTS, BELOW_CONS),
    Step::Prove(facts::CONS_NOT_ZERO, CONS_NOT_ZERO_FACTS, CONS_NOT_ZERO),
    Step::Prove(facts::CONS_STEP_ZERO, CONS_STEP_ZERO_FACTS, CONS_STEP_ZERO),
    Step::Prove(
        facts::CONS_ZERO_INJECTIVE,
        CONS_ZERO_INJECTIVE_FACTS,
        CONS_ZERO_INJECTIVE,
    ),
    Step::Prove(facts::CONS_INJECTIVE, CONS_INJECTIVE_FACTS, CONS_INJECTIVE),
    Step::Prove(facts::DOUBLE_IS_CODE, DOUBLE_IS_CODE_FACTS, DOUBLE_IS_CODE),
    Step::Prove(facts::PATH_CASES, PATH_CASES_FACTS, PATH_CASES),
    Step::Prove(facts::PATH_INDUCTION, PATH_INDUCTION_FACTS, PATH_INDUCTION),
    Step::Prove(facts::PATH_RECURSION, PATH_RECURSION_FACTS, PATH_RECURSION),
];
