// Written by `python3 tools/library.py write` from the scripts of tools/library/.
//! Doubling: the proof tables, and the steps of the building. Each line of a table puts
//! one type, term or theorem at the end of its register; the theorems begin with the facts that the table takes.

use crate::facts;
use library_facts::Fact;
use library_steps::Step;

// Twice zero.
const DOUBLE_ZERO: &str = "\
    type num\n\
    inst_type 0 a 0\n\
    term 0\n\
    spec 0 1\n\
    term \\x0:num. \\x1:num. suc (suc x1)\n\
    spec 1 2\n\
    def 41\n\
    sym 4\n\
    term [v:num -> num]\n\
    term [v:num -> num] 0 = 0\n\
    subst 2 3 5 3\n\
";

// The facts that it takes.
const DOUBLE_ZERO_FACTS: &[Fact] = &[facts::REC_ZERO];

// Twice a successor.
const DOUBLE_SUC: &str = "\
    type num\n\
    inst_type 0 a 0\n\
    term 0\n\
    spec 0 1\n\
    term \\x0:num. \\x1:num. suc (suc x1)\n\
    spec 1 2\n\
    norm 3\n\
    def 41\n\
    sym 5\n\
    term [v:num -> num]\n\
    term !x0:num. [v:num -> num] (suc x0) = suc (suc ([v:num -> num] x0))\n\
    subst 2 3 6 4\n\
";

// The facts that it takes.
const DOUBLE_SUC_FACTS: &[Fact] = &[facts::REC_SUC];

// A function that gives the first of two functions of n at twice n, and the second at the number after it.
const EVEN_ODD_SELECTOR: &str = "\
    type (num -> 'a) -> (num -> 'a) -> 'a\n\
    inst_type 0 a 0\n\
    term \\x0:num -> 'a. \\x1:num -> 'a. x0 0\n\
    spec 0 4\n\
    term \\x0:num. \\x1:(num -> 'a) -> (num -> 'a) -> 'a. \\x2:num -> 'a. \\x3:num -> 'a. x1 x3 (\\x4:num. x2 (suc x4))\n\
    spec 1 5\n\
    norm 6\n\
    term ([r:num -> (num -> 'a) -> (num -> 'a) -> 'a] 0 = (\\x0:num -> 'a. \\x1:num -> 'a. x0 0)) /\\ (!x0:num. [r:num -> (num -> 'a) -> (num -> 'a) -> 'a] (suc x0) = (\\x1:num -> 'a. \\x2:num -> 'a. [r:num -> (num -> 'a) -> (num -> 'a) -> 'a] x0 x2 (\\x3:num. x1 (suc x3))))\n\
    assume 2\n\
    sym 1\n\
    conj_l 8\n\
    term [n:num]\n\
    term [r:num -> (num -> 'a) -> (num -> 'a) -> 'a] [n:num] = (\\x0:num -> 'a. \\x1:num -> 'a. x0 0)\n\
    subst 3 4 9 10\n\
    term [r:num -> (num -> 'a) -> (num -> 'a) -> 'a] (num.dbl [n:num]) = (\\x0:num -> 'a. \\x1:num -> 'a. x0 [n:num])\n\
    assume 5\n\
    conj_r 8\n\
    term num.dbl [n:num]\n\
    spec 6 13\n\
    term [v:(num -> 'a) -> (num -> 'a) -> 'a]\n\
    term [r:num -> (num -> 'a) -> (num -> 'a) -> 'a] (suc (num.dbl [n:num])) = (\\x0:num -> 'a. \\x1:num -> 'a. [v:(num -> 'a) -> (num -> 'a) -> 'a] x1 (\\x2:num. x0 (suc x2)))\n\
    subst 7 8 12 14\n\
    norm 15\n\
    term suc (num.dbl [n:num])\n\
    spec 9 13\n\
    term [r:num -> (num -> 'a) -> (num -> 'a) -> 'a] (suc (suc (num.dbl [n:num]))) = (\\x0:num -> 'a. \\x1:num -> 'a. [v:(num -> 'a) -> (num -> 'a) -> 'a] x1 (\\x2:num. x0 (suc x2)))\n\
    subst 7 10 16 17\n\
    norm 18\n\
    spec 3 2\n\
    sym 20\n\
    term [v:num]\n\
    term [r:num -> (num -> 'a) -> (num -> 'a) -> 'a] [v:num] = (\\x0:num -> 'a. \\x1:num -> 'a. x0 (suc [n:num]))\n\
    subst 11 12 21 19\n\
    term \\x0:num. [r:num -> (num -> 'a) -> (num -> 'a) -> 'a] (num.dbl x0) = (\\x1:num -> 'a. \\x2:num -> 'a. x1 x0)\n\
    spec 13 3\n\
    norm 23\n\
    disch 5 22\n\
    gen 3 25\n\
    mp 24 11\n\
    mp 27 26\n\
    spec 3 28\n\
    subst 7 8 29 14\n\
    norm 30\n\
    conj_i 29 31\n\
    gen 3 32\n\
    term ?x0:num -> (num -> 'a) -> (num -> 'a) -> 'a. !x1:num. (x0 (num.dbl x1) = (\\x2:num -> 'a. \\x3:num -> 'a. x2 x1)) /\\ (x0 (suc (num.dbl x1)) = (\\x2:num -> 'a. \\x3:num -> 'a. x3 x1))\n\
    term [r:num -> (num -> 'a) -> (num -> 'a) -> 'a]\n\
    ex_i 14 15 33\n\
    choose 15 7 34\n\
";

// The facts that it takes.
const EVEN_ODD_SELECTOR_FACTS: &[Fact] = &[
    facts::NUM_RECURSION,
    facts::DOUBLE_ZERO,
    facts::DOUBLE_SUC,
    facts::NUM_INDUCTION,
];

// An even number is not odd.
const DOUBLE_NOT_ODD: &str = "\
    term !x0:num. ([r:num -> (num -> bool) -> (num -> bool) -> bool] (num.dbl x0) = (\\x1:num -> bool. \\x2:num -> bool. x1 x0)) /\\ ([r:num -> (num -> bool) -> (num -> bool) -> bool] (suc (num.dbl x0)) = (\\x1:num -> bool. \\x2:num -> bool. x2 x0))\n\
    assume 0\n\
    term num.dbl [m:num] = suc (num.dbl [n:num])\n\
    assume 1\n\
    term [m:num]\n\
    spec 2 2\n\
    conj_l 4\n\
    term [v:num]\n\
    term [r:num -> (num -> bool) -> (num -> bool) -> bool] [v:num] = (\\x0:num -> bool. \\x1:num -> bool. x0 [m:num])\n\
    subst 3 4 3 5\n\
    term [n:num]\n\
    spec 5 2\n\
    conj_r 7\n\
    term [v:(num -> bool) -> (num -> bool) -> bool]\n\
    term [v:(num -> bool) -> (num -> bool) -> bool] = (\\x0:num -> bool. \\x1:num -> bool. x1 [n:num])\n\
    subst 6 7 6 8\n\
    term \\x0:num. T\n\
    refl 8\n\
    comb 9 10\n\
    term \\x0:num. F\n\
    refl 9\n\
    comb 11 12\n\
    norm 13\n\
    eq_mp 14 0\n\
    type bool\n\
    inst_type 1 a 0\n\
    term [r:num -> (num -> bool) -> (num -> bool) -> bool]\n\
    choose 10 16 15\n\
    disch 1 17\n\
    not_i 18\n\
    gen 5 19\n\
    gen 2 20\n\
";

// The facts that it takes.
const DOUBLE_NOT_ODD_FACTS: &[Fact] = &[th_base::facts::TRUTH, facts::EVEN_ODD_SELECTOR];

// Numbers of which the doubles are equal are equal.
const DOUBLE_INJECTIVE: &str = "\
    term !x0:num. ([r:num -> (num -> num) -> (num -> num) -> num] (num.dbl x0) = (\\x1:num -> num. \\x2:num -> num. x1 x0)) /\\ ([r:num -> (num -> num) -> (num -> num) -> num] (suc (num.dbl x0)) = (\\x1:num -> num. \\x2:num -> num. x2 x0))\n\
    assume 0\n\
    term num.dbl [m:num] = num.dbl [n:num]\n\
    assume 1\n\
    term [m:num]\n\
    spec 2 1\n\
    conj_l 3\n\
    term [v:num]\n\
    term [r:num -> (num -> num) -> (num -> num) -> num] [v:num] = (\\x0:num -> num. \\x1:num -> num. x0 [m:num])\n\
    subst 3 4 2 4\n\
    term [n:num]\n\
    spec 5 1\n\
    conj_l 6\n\
    term [v:(num -> num) -> (num -> num) -> num]\n\
    term [v:(num -> num) -> (num -> num) -> num] = (\\x0:num -> num. \\x1:num -> num. x0 [n:num])\n\
    subst 6 7 5 7\n\
    term \\x0:num. x0\n\
    refl 8\n\
    comb 8 9\n\
    comb 10 9\n\
    norm 11\n\
    type num\n\
    inst_type 0 a 0\n\
    term [r:num -> (num -> num) -> (num -> num) -> num]\n\
    choose 9 13 12\n\
    disch 1 14\n\
    gen 5 15\n\
    gen 2 16\n\
";

// The facts that it takes.
const DOUBLE_INJECTIVE_FACTS: &[Fact] = &[facts::EVEN_ODD_SELECTOR];

// Twice zero alone is zero.
const DOUBLE_IS_ZERO: &str = "\
    term num.dbl [n:num] = 0\n\
    assume 0\n\
    term [n:num]\n\
    spec 1 0\n\
    term 0\n\
    spec 2 3\n\
    sym 1\n\
    trans 2 5\n\
    mp 4 6\n\
    disch 0 7\n\
    gen 1 8\n\
";

// The facts that it takes.
const DOUBLE_IS_ZERO_FACTS: &[Fact] = &[facts::DOUBLE_INJECTIVE, facts::DOUBLE_ZERO];

// A number is at most its double.
const LE_DOUBLE: &str = "\
    term num.dbl 0\n\
    spec 0 1\n\
    term [n:num]\n\
    term num.le [n:num] (num.dbl 0)\n\
    subst 1 2 0 6\n\
    spec 1 2\n\
    term num.dbl [n:num]\n\
    spec 3 8\n\
    term num.le [n:num] (num.dbl [n:num])\n\
    assume 4\n\
    mp 9 10\n\
    term suc [n:num]\n\
    spec 5 3\n\
    term suc (num.dbl [n:num])\n\
    spec 6 12\n\
    mp 13 11\n\
    spec 1 4\n\
    sym 15\n\
    term [v:num]\n\
    term num.le (suc [n:num]) [v:num]\n\
    subst 7 8 16 14\n\
    term \\x0:num. num.le x0 (num.dbl x0)\n\
    spec 9 5\n\
    norm 18\n\
    disch 4 17\n\
    gen 1 20\n\
    mp 19 7\n\
    mp 22 21\n\
";

// The facts that it takes.
const LE_DOUBLE_FACTS: &[Fact] = &[
    facts::DOUBLE_ZERO,
    facts::LE_REFLEXIVE,
    facts::LE_SUC_SUC,
    facts::LE_SUC,
    facts::DOUBLE_SUC,
    facts::NUM_INDUCTION,
];

// A number is zero or below its double.
const BELOW_DOUBLE: &str = "\
    term 0\n\
    refl 0\n\
    term num.le (suc 0) (num.dbl 0)\n\
    disj_l 4 1\n\
    term [n:num]\n\
    spec 2 0\n\
    term num.dbl [n:num]\n\
    spec 3 6\n\
    spec 2 1\n\
    mp 7 8\n\
    term suc [n:num]\n\
    spec 4 0\n\
    term suc (num.dbl [n:num])\n\
    spec 5 10\n\
    mp 11 9\n\
    spec 2 2\n\
    sym 13\n\
    term [v:num]\n\
    term num.le (suc (suc [n:num])) [v:num]\n\
    subst 6 7 14 12\n\
    term suc [n:num] = 0\n\
    disj_r 8 15\n\
    term \\x0:num. (x0 = 0) \\/ num.le (suc x0) (num.dbl x0)\n\
    spec 9 3\n\
    norm 17\n\
    term ([n:num] = 0) \\/ num.le (suc [n:num]) (num.dbl [n:num])\n\
    disch 10 16\n\
    gen 2 19\n\
    mp 18 5\n\
    mp 21 20\n\
";

// The facts that it takes.
const BELOW_DOUBLE_FACTS: &[Fact] = &[
    facts::LE_SUC_SUC,
    facts::LE_DOUBLE,
    facts::DOUBLE_SUC,
    facts::NUM_INDUCTION,
];

// A number is even or odd.
const EVEN_OR_ODD: &str = "\
    sym 0\n\
    term 0 = suc (num.dbl 0)\n\
    disj_l 3 0\n\
    term ?x0:num. (0 = num.dbl x0) \\/ (0 = suc (num.dbl x0))\n\
    term 0\n\
    ex_i 1 2 4\n\
    term [n:num] = num.dbl [m:num]\n\
    assume 3\n\
    term suc\n\
    refl 4\n\
    comb 7 6\n\
    term suc [n:num] = num.dbl [m:num]\n\
    disj_r 5 8\n\
    term ?x0:num. (suc [n:num] = num.dbl x0) \\/ (suc [n:num] = suc (num.dbl x0))\n\
    term [m:num]\n\
    ex_i 6 7 9\n\
    term [n:num] = suc (num.dbl [m:num])\n\
    assume 8\n\
    comb 7 11\n\
    spec 7 1\n\
    sym 13\n\
    trans 12 14\n\
    term suc [n:num] = suc (num.dbl (suc [m:num]))\n\
    disj_l 15 9\n\
    term suc [m:num]\n\
    ex_i 6 10 16\n\
    term ([n:num] = num.dbl [m:num]) \\/ ([n:num] = suc (num.dbl [m:num]))\n\
    assume 11\n\
    disj_e 18 10 17\n\
    term ?x0:num. ([n:num] = num.dbl x0) \\/ ([n:num] = suc (num.dbl x0))\n\
    assume 12\n\
    choose 7 20 19\n\
    term \\x0:num. ?x1:num. (x0 = num.dbl x1) \\/ (x0 = suc (num.dbl x1))\n\
    spec 13 2\n\
    norm 22\n\
    disch 12 21\n\
    term [n:num]\n\
    gen 14 24\n\
    mp 23 5\n\
    mp 26 25\n\
";

// The facts that it takes.
const EVEN_OR_ODD_FACTS: &[Fact] = &[facts::DOUBLE_ZERO, facts::DOUBLE_SUC, facts::NUM_INDUCTION];

// The definitions and the facts, in order.
pub(crate) static STEPS: [Step; 10] = [
    Step::Constant(41),
    Step::Prove(facts::DOUBLE_ZERO, DOUBLE_ZERO_FACTS, DOUBLE_ZERO),
    Step::Prove(facts::DOUBLE_SUC, DOUBLE_SUC_FACTS, DOUBLE_SUC),
    Step::Prove(
        facts::EVEN_ODD_SELECTOR,
        EVEN_ODD_SELECTOR_FACTS,
        EVEN_ODD_SELECTOR,
    ),
    Step::Prove(facts::DOUBLE_NOT_ODD, DOUBLE_NOT_ODD_FACTS, DOUBLE_NOT_ODD),
    Step::Prove(
        facts::DOUBLE_INJECTIVE,
        DOUBLE_INJECTIVE_FACTS,
        DOUBLE_INJECTIVE,
    ),
    Step::Prove(facts::DOUBLE_IS_ZERO, DOUBLE_IS_ZERO_FACTS, DOUBLE_IS_ZERO),
    Step::Prove(facts::LE_DOUBLE, LE_DOUBLE_FACTS, LE_DOUBLE),
    Step::Prove(facts::BELOW_DOUBLE, BELOW_DOUBLE_FACTS, BELOW_DOUBLE),
    Step::Prove(facts::EVEN_OR_ODD, EVEN_OR_ODD_FACTS, EVEN_OR_ODD),
];
