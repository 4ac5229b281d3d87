// Written by `python3 tools/library.py write` from the scripts of tools/library/.
//! The order of numbers: the proof tables, and the steps of the building. Each line of a table puts
//! one type, term or theorem at the end of its register; the theorems begin with the facts that the table takes.

use crate::facts;
use library_facts::Fact;
use library_steps::Step;

// A number is at most itself.
const LE_REFLEXIVE: &str = "\
    term [P:num -> bool] [m:num] /\\ (!x0:num. [P:num -> bool] x0 ==> [P:num -> bool] (suc x0))\n\
    assume 0\n\
    def 40\n\
    term num.le [m:num] [m:num]\n\
    rewrite_all 1 1\n\
    norm 2\n\
    conj_l 0\n\
    disch 0 4\n\
    term [P:num -> bool]\n\
    gen 2 5\n\
    sym 3\n\
    eq_mp 7 6\n\
    term [m:num]\n\
    gen 3 8\n\
";

// The facts that it takes.
const LE_REFLEXIVE_FACTS: &[Fact] = &[];

// What is at most a number is at most its successor.
const LE_SUC: &str = "\
    term num.le [m:num] [n:num]\n\
    assume 0\n\
    term [P:num -> bool] [m:num] /\\ (!x0:num. [P:num -> bool] x0 ==> [P:num -> bool] (suc x0))\n\
    assume 1\n\
    def 40\n\
    rewrite_all 0 2\n\
    norm 3\n\
    eq_mp 4 0\n\
    term [P:num -> bool]\n\
    spec 2 5\n\
    mp 6 1\n\
    conj_r 1\n\
    term [n:num]\n\
    spec 3 8\n\
    mp 9 7\n\
    disch 1 10\n\
    gen 2 11\n\
    term suc [n:num]\n\
    inst 4 3 4\n\
    sym 13\n\
    eq_mp 14 12\n\
    disch 0 15\n\
    gen 3 16\n\
    term [m:num]\n\
    gen 5 17\n\
";

// The facts that it takes.
const LE_SUC_FACTS: &[Fact] = &[];

// Induction from a number upwards.
const LE_INDUCTION: &str = "\
    term [P:num -> bool] [m:num]\n\
    assume 0\n\
    term !x0:num. [P:num -> bool] x0 ==> [P:num -> bool] (suc x0)\n\
    assume 1\n\
    term num.le [m:num] [n:num]\n\
    assume 2\n\
    def 40\n\
    rewrite_all 2 3\n\
    norm 4\n\
    eq_mp 5 2\n\
    term [P:num -> bool]\n\
    spec 3 6\n\
    conj_i 0 1\n\
    mp 7 8\n\
    disch 2 9\n\
    disch 1 10\n\
    disch 0 11\n\
    term [n:num]\n\
    gen 4 12\n\
    term [m:num]\n\
    gen 5 13\n\
    gen 3 14\n\
";

// The facts that it takes.
const LE_INDUCTION_FACTS: &[Fact] = &[];

// The order is transitive.
const LE_TRANSITIVE: &str = "\
    term num.le [k:num] [m:num]\n\
    assume 0\n\
    term num.le [k:num]\n\
    spec 1 0\n\
    term [m:num]\n\
    spec 2 3\n\
    term [n:num]\n\
    spec 3 4\n\
    term [k:num]\n\
    spec 4 1\n\
    mp 5 2\n\
    mp 7 6\n\
    disch 0 8\n\
    gen 3 9\n\
    gen 2 10\n\
    gen 4 11\n\
";

// The facts that it takes.
const LE_TRANSITIVE_FACTS: &[Fact] = &[facts::LE_INDUCTION, facts::LE_SUC];

// Successors keep the order.
const LE_SUC_SUC: &str = "\
    term \\x0:num. num.le (suc [m:num]) (suc x0)\n\
    spec 0 0\n\
    term [m:num]\n\
    spec 1 3\n\
    term [n:num]\n\
    spec 2 4\n\
    norm 5\n\
    term suc [m:num]\n\
    spec 3 1\n\
    term suc [k:num]\n\
    spec 4 7\n\
    term [k:num]\n\
    gen 5 8\n\
    spec 3 2\n\
    mp 6 10\n\
    mp 11 9\n\
    gen 2 12\n\
    gen 1 13\n\
";

// The facts that it takes.
const LE_SUC_SUC_FACTS: &[Fact] = &[facts::LE_INDUCTION, facts::LE_SUC, facts::LE_REFLEXIVE];

// What is at most a number is that number or below it.
const LE_CASES: &str = "\
    term \\x0:num. ([m:num] = x0) \\/ num.le (suc [m:num]) x0\n\
    spec 0 0\n\
    term [m:num]\n\
    spec 1 3\n\
    term [n:num]\n\
    spec 2 4\n\
    norm 5\n\
    refl 1\n\
    term num.le (suc [m:num]) [m:num]\n\
    disj_l 7 3\n\
    term [m:num] = [k:num]\n\
    assume 4\n\
    term suc [m:num]\n\
    spec 5 1\n\
    term num.le (suc [m:num]) (suc [n:num])\n\
    subst 2 6 9 10\n\
    spec 5 2\n\
    term [k:num]\n\
    spec 7 12\n\
    term num.le (suc [m:num]) [k:num]\n\
    assume 8\n\
    mp 13 14\n\
    term ([m:num] = [k:num]) \\/ num.le (suc [m:num]) [k:num]\n\
    assume 9\n\
    disj_e 16 11 15\n\
    term [m:num] = suc [k:num]\n\
    disj_r 10 17\n\
    disch 9 18\n\
    gen 7 19\n\
    mp 6 8\n\
    mp 21 20\n\
    gen 2 22\n\
    gen 1 23\n\
";

// The facts that it takes.
const LE_CASES_FACTS: &[Fact] = &[facts::LE_INDUCTION, facts::LE_REFLEXIVE, facts::LE_SUC];

// Nothing is below zero.
const NONE_BELOW_ZERO: &str = "\
    term \\x0:num. ~ (x0 = 0)\n\
    spec 0 0\n\
    term suc [n:num]\n\
    spec 1 2\n\
    term 0\n\
    spec 2 3\n\
    norm 4\n\
    term [k:num]\n\
    spec 3 1\n\
    term ~ ([k:num] = 0)\n\
    disch 4 6\n\
    gen 3 7\n\
    term num.le (suc [n:num]) 0\n\
    assume 5\n\
    term [n:num]\n\
    spec 6 1\n\
    mp 5 10\n\
    mp 11 8\n\
    mp 12 9\n\
    refl 2\n\
    not_e 13\n\
    mp 15 14\n\
    disch 5 16\n\
    not_i 17\n\
    gen 6 18\n\
";

// The facts that it takes.
const NONE_BELOW_ZERO_FACTS: &[Fact] = &[facts::LE_INDUCTION, facts::SUC_NOT_ZERO];

// The order of successors is that of the numbers.
const LE_OF_SUCS: &str = "\
    term \\x0:num. ?x1:num. (x0 = suc x1) /\\ num.le [m:num] x1\n\
    spec 0 0\n\
    term suc [m:num]\n\
    spec 1 4\n\
    term suc [n:num]\n\
    spec 2 5\n\
    norm 6\n\
    refl 1\n\
    term [m:num]\n\
    spec 3 1\n\
    conj_i 8 9\n\
    term ?x0:num. (suc [m:num] = suc x0) /\\ num.le [m:num] x0\n\
    ex_i 4 3 10\n\
    term ([k:num] = suc [j:num]) /\\ num.le [m:num] [j:num]\n\
    assume 5\n\
    spec 3 2\n\
    term [j:num]\n\
    spec 6 13\n\
    conj_r 12\n\
    mp 14 15\n\
    conj_l 12\n\
    sym 17\n\
    term [v:num]\n\
    term num.le [m:num] [v:num]\n\
    subst 7 8 18 16\n\
    term suc [k:num]\n\
    refl 9\n\
    conj_i 20 19\n\
    term ?x0:num. (suc [k:num] = suc x0) /\\ num.le [m:num] x0\n\
    term [k:num]\n\
    ex_i 10 11 21\n\
    term ?x0:num. ([k:num] = suc x0) /\\ num.le [m:num] x0\n\
    assume 12\n\
    choose 6 23 22\n\
    disch 12 24\n\
    gen 11 25\n\
    term num.le (suc [m:num]) (suc [n:num])\n\
    assume 13\n\
    mp 7 11\n\
    mp 28 26\n\
    mp 29 27\n\
    term (suc [n:num] = suc [j:num]) /\\ num.le [m:num] [j:num]\n\
    assume 14\n\
    term [n:num]\n\
    spec 15 3\n\
    spec 6 32\n\
    conj_l 31\n\
    mp 33 34\n\
    conj_r 31\n\
    sym 35\n\
    subst 7 8 37 36\n\
    choose 6 30 38\n\
    disch 13 39\n\
    gen 15 40\n\
    gen 3 41\n\
";

// The facts that it takes.
const LE_OF_SUCS_FACTS: &[Fact] = &[
    facts::LE_INDUCTION,
    facts::LE_REFLEXIVE,
    facts::LE_SUC,
    facts::SUC_INJECTIVE,
];

// Induction over smaller numbers.
const STRONG_INDUCTION: &str = "\
    term !x0:num. (!x1:num. num.le (suc x1) x0 ==> [P:num -> bool] x1) ==> [P:num -> bool] x0\n\
    assume 0\n\
    term \\x0:num. !x1:num. num.le (suc x1) x0 ==> [P:num -> bool] x1\n\
    spec 1 0\n\
    norm 5\n\
    term [m:num]\n\
    spec 2 1\n\
    term num.le (suc [m:num]) 0\n\
    assume 3\n\
    not_e 7\n\
    mp 9 8\n\
    def 6\n\
    eq_mp 11 10\n\
    term [P:num -> bool] [m:num]\n\
    spec 4 12\n\
    disch 3 13\n\
    gen 2 14\n\
    term !x0:num. num.le (suc x0) [n:num] ==> [P:num -> bool] x0\n\
    assume 5\n\
    term [n:num]\n\
    spec 6 4\n\
    mp 17 16\n\
    term num.le (suc [m:num]) (suc [n:num])\n\
    assume 7\n\
    spec 2 2\n\
    spec 6 20\n\
    spec 2 3\n\
    spec 6 22\n\
    mp 23 19\n\
    mp 21 24\n\
    term [m:num] = [n:num]\n\
    assume 8\n\
    sym 26\n\
    term [v:num]\n\
    term [P:num -> bool] [v:num]\n\
    subst 9 10 27 18\n\
    spec 2 16\n\
    term num.le (suc [m:num]) [n:num]\n\
    assume 11\n\
    mp 29 30\n\
    disj_e 25 28 31\n\
    disch 7 32\n\
    gen 2 33\n\
    disch 5 34\n\
    gen 6 35\n\
    mp 6 15\n\
    mp 37 36\n\
    spec 6 38\n\
    mp 17 39\n\
    gen 6 40\n\
    disch 0 41\n\
    term [P:num -> bool]\n\
    gen 12 42\n\
";

// The facts that it takes.
const STRONG_INDUCTION_FACTS: &[Fact] = &[
    facts::NUM_INDUCTION,
    facts::NONE_BELOW_ZERO,
    facts::LE_CASES,
    facts::LE_OF_SUCS,
];

// The definitions and the facts, in order.
pub(crate) static STEPS: [Step; 10] = [
    Step::Constant(40),
    Step::Prove(facts::LE_REFLEXIVE, LE_REFLEXIVE_FACTS, LE_REFLEXIVE),
    Step::Prove(facts::LE_SUC, LE_SUC_FACTS, LE_SUC),
    Step::Prove(facts::LE_INDUCTION, LE_INDUCTION_FACTS, LE_INDUCTION),
    Step::Prove(facts::LE_TRANSITIVE, LE_TRANSITIVE_FACTS, LE_TRANSITIVE),
    Step::Prove(facts::LE_SUC_SUC, LE_SUC_SUC_FACTS, LE_SUC_SUC),
    Step::Prove(facts::LE_CASES, LE_CASES_FACTS, LE_CASES),
    Step::Prove(
        facts::NONE_BELOW_ZERO,
        NONE_BELOW_ZERO_FACTS,
        NONE_BELOW_ZERO,
    ),
    Step::Prove(facts::LE_OF_SUCS, LE_OF_SUCS_FACTS, LE_OF_SUCS),
    Step::Prove(
        facts::STRONG_INDUCTION,
        STRONG_INDUCTION_FACTS,
        STRONG_INDUCTION,
    ),
];
