// Written by `python3 tools/library.py write` from the scripts of tools/library/.
//! Numbers: the proof tables, and the steps of the building. Each line of a table puts
//! one type, term or theorem at the end of its register; the theorems begin with the facts that the table takes.

use crate::facts;
use library_facts::Fact;
use library_steps::Step;

// The successor on ind is injective and not onto.
const IND_INFINITE: &str = "\
    type ind -> ind\n\
    inst_type 0 a 0\n\
    term \\x0:ind -> ind. one_one{ind,ind} x0 /\\ (~ onto{ind,ind} x0)\n\
    spec 0 1\n\
    norm 2\n\
    axiom 3\n\
    mp 3 4\n\
    def 33\n\
    sym 6\n\
    term [v:ind -> ind]\n\
    term one_one{ind,ind} [v:ind -> ind] /\\ (~ onto{ind,ind} [v:ind -> ind])\n\
    subst 1 2 7 5\n\
";

// The facts that it takes.
const IND_INFINITE_FACTS: &[Fact] = &[th_base::facts::SOME_HOLDS];

// What stands for zero in ind is no successor.
const ZERO_IND_NOT_SUC: &str = "\
    conj_r 0\n\
    def 9\n\
    type ind\n\
    inst_type 4 a 0 b 0\n\
    term [v:(ind -> ind) -> bool]\n\
    term ~ [v:(ind -> ind) -> bool] num.suc_ind\n\
    subst 0 1 5 3\n\
    norm 6\n\
    inst_type 1 a 0\n\
    term \\x0:ind. ?x1:ind. x0 = num.suc_ind x1\n\
    spec 2 8\n\
    norm 9\n\
    eq_mp 10 7\n\
    term num.suc_ind [x:ind] = [y:ind]\n\
    assume 3\n\
    sym 12\n\
    term ?x0:ind. [y:ind] = num.suc_ind x0\n\
    term [x:ind]\n\
    ex_i 4 5 13\n\
    term ~ (?x0:ind. [y:ind] = num.suc_ind x0)\n\
    assume 6\n\
    not_e 15\n\
    mp 16 14\n\
    disch 3 17\n\
    not_i 18\n\
    gen 5 19\n\
    term ?x0:ind. !x1:ind. ~ (num.suc_ind x1 = x0)\n\
    term [y:ind]\n\
    ex_i 7 8 20\n\
    inst_type 2 a 0\n\
    term \\x0:ind. !x1:ind. ~ (num.suc_ind x1 = x0)\n\
    spec 9 22\n\
    norm 23\n\
    choose 8 11 21\n\
    mp 24 25\n\
    def 34\n\
    sym 27\n\
    term [v:ind]\n\
    term !x0:ind. ~ (num.suc_ind x0 = [v:ind])\n\
    subst 10 11 28 26\n\
";

// The facts that it takes.
const ZERO_IND_NOT_SUC_FACTS: &[Fact] = &[
    facts::IND_INFINITE,
    th_base::facts::NOT_ALL,
    th_base::facts::SOME_HOLDS,
];

// It represents a number.
const ZERO_IND_IS_NUM: &str = "\
    term [P:ind -> bool] num.zero_ind /\\ (!x0:ind. [P:ind -> bool] x0 ==> [P:ind -> bool] (num.suc_ind x0))\n\
    assume 0\n\
    def 35\n\
    term num.is num.zero_ind\n\
    rewrite_all 1 1\n\
    norm 2\n\
    conj_l 0\n\
    disch 0 4\n\
    term [P:ind -> bool]\n\
    gen 2 5\n\
    sym 3\n\
    eq_mp 7 6\n\
";

// The facts that it takes.
const ZERO_IND_IS_NUM_FACTS: &[Fact] = &[];

// The successor of what represents a number represents one.
const SUC_IND_IS_NUM: &str = "\
    term num.is [i:ind]\n\
    assume 0\n\
    term [P:ind -> bool] num.zero_ind /\\ (!x0:ind. [P:ind -> bool] x0 ==> [P:ind -> bool] (num.suc_ind x0))\n\
    assume 1\n\
    def 35\n\
    rewrite_all 0 2\n\
    norm 3\n\
    eq_mp 4 0\n\
    term [P:ind -> bool]\n\
    spec 2 5\n\
    mp 6 1\n\
    conj_r 1\n\
    term [i:ind]\n\
    spec 3 8\n\
    mp 9 7\n\
    disch 1 10\n\
    gen 2 11\n\
    term num.suc_ind [i:ind]\n\
    inst 4 3 4\n\
    sym 13\n\
    eq_mp 14 12\n\
    disch 0 15\n\
    gen 3 16\n\
";

// The facts that it takes.
const SUC_IND_IS_NUM_FACTS: &[Fact] = &[];

// What stands for zero represents a number: the proof of that fact, since the element of a type takes no facts.
const NUM_INHABITED: &str = "\
    term [P:ind -> bool] num.zero_ind /\\ (!x0:ind. [P:ind -> bool] x0 ==> [P:ind -> bool] (num.suc_ind x0))\n\
    assume 0\n\
    def 35\n\
    term num.is num.zero_ind\n\
    rewrite_all 1 1\n\
    norm 2\n\
    conj_l 0\n\
    disch 0 4\n\
    term [P:ind -> bool]\n\
    gen 2 5\n\
    sym 3\n\
    eq_mp 7 6\n\
";

// A number is the one that its representation stands for.
const NUM_ABS_REP: &str = "\
    type_abs 36\n\
    term [a:num]\n\
    gen 0 0\n\
";

// The facts that it takes.
const NUM_ABS_REP_FACTS: &[Fact] = &[];

// An element of ind represents a number where it is reached from zero by successors.
const NUM_REP_ABS: &str = "\
    type_rep 36\n\
    term [r:ind]\n\
    gen 0 0\n\
";

// The facts that it takes.
const NUM_REP_ABS_FACTS: &[Fact] = &[];

// The representation of a number represents one.
const REP_IS_NUM: &str = "\
    term [n:num]\n\
    spec 0 0\n\
    term num.rep\n\
    refl 1\n\
    comb 3 2\n\
    term num.rep [n:num]\n\
    spec 2 1\n\
    sym 5\n\
    eq_mp 6 4\n\
    gen 0 7\n\
";

// The facts that it takes.
const REP_IS_NUM_FACTS: &[Fact] = &[facts::NUM_ABS_REP, facts::NUM_REP_ABS];

// How zero is represented.
const REP_ZERO: &str = "\
    term num.zero_ind\n\
    spec 0 0\n\
    eq_mp 2 1\n\
    def 37\n\
    term num.rep\n\
    refl 1\n\
    comb 5 4\n\
    trans 6 3\n\
";

// The facts that it takes.
const REP_ZERO_FACTS: &[Fact] = &[facts::NUM_REP_ABS, facts::ZERO_IND_IS_NUM];

// How a successor is represented.
const REP_SUC: &str = "\
    term num.rep [n:num]\n\
    spec 0 0\n\
    term [n:num]\n\
    spec 1 1\n\
    mp 3 4\n\
    term num.suc_ind (num.rep [n:num])\n\
    spec 2 2\n\
    eq_mp 6 5\n\
    def 38\n\
    term suc [n:num]\n\
    rewrite_all 3 8\n\
    norm 9\n\
    term num.rep\n\
    refl 4\n\
    comb 11 10\n\
    trans 12 7\n\
    gen 1 13\n\
";

// The facts that it takes.
const REP_SUC_FACTS: &[Fact] = &[facts::SUC_IND_IS_NUM, facts::REP_IS_NUM, facts::NUM_REP_ABS];

// A successor is not zero.
const SUC_NOT_ZERO: &str = "\
    term suc [n:num] = 0\n\
    assume 0\n\
    term [n:num]\n\
    spec 1 0\n\
    sym 4\n\
    term num.rep\n\
    refl 2\n\
    comb 6 3\n\
    trans 5 7\n\
    trans 8 1\n\
    term num.rep [n:num]\n\
    spec 3 2\n\
    not_e 10\n\
    mp 11 9\n\
    disch 0 12\n\
    not_i 13\n\
    gen 1 14\n\
";

// The facts that it takes.
const SUC_NOT_ZERO_FACTS: &[Fact] = &[facts::REP_SUC, facts::REP_ZERO, facts::ZERO_IND_NOT_SUC];

// Numbers with equal successors are equal.
const SUC_INJECTIVE: &str = "\
    term suc [m:num] = suc [n:num]\n\
    assume 0\n\
    term [m:num]\n\
    spec 1 0\n\
    sym 4\n\
    term num.rep\n\
    refl 2\n\
    comb 6 3\n\
    term [n:num]\n\
    spec 3 0\n\
    trans 5 7\n\
    trans 9 8\n\
    conj_l 1\n\
    def 8\n\
    type ind\n\
    inst_type 12 a 0 b 0\n\
    term [v:(ind -> ind) -> bool]\n\
    term [v:(ind -> ind) -> bool] num.suc_ind\n\
    subst 4 5 13 11\n\
    norm 14\n\
    term num.rep [m:num]\n\
    spec 6 15\n\
    term num.rep [n:num]\n\
    spec 7 16\n\
    mp 17 10\n\
    spec 1 2\n\
    sym 19\n\
    term num.abs\n\
    refl 8\n\
    comb 21 18\n\
    spec 3 2\n\
    trans 20 22\n\
    trans 24 23\n\
    disch 0 25\n\
    gen 3 26\n\
    gen 1 27\n\
";

// The facts that it takes.
const SUC_INJECTIVE_FACTS: &[Fact] = &[facts::REP_SUC, facts::IND_INFINITE, facts::NUM_ABS_REP];

// Induction over numbers.
const NUM_INDUCTION: &str = "\
    term [P:num -> bool] 0\n\
    assume 0\n\
    term !x0:num. [P:num -> bool] x0 ==> [P:num -> bool] (suc x0)\n\
    assume 1\n\
    def 35\n\
    term num.is (num.rep [n:num])\n\
    rewrite_all 2 7\n\
    norm 8\n\
    term [n:num]\n\
    spec 3 0\n\
    eq_mp 9 10\n\
    term \\x0:ind. num.is x0 /\\ [P:num -> bool] (num.abs x0)\n\
    spec 4 11\n\
    norm 12\n\
    def 37\n\
    term [v:num]\n\
    term [P:num -> bool] [v:num]\n\
    subst 5 6 14 5\n\
    conj_i 1 15\n\
    term num.is [i:ind] /\\ [P:num -> bool] (num.abs [i:ind])\n\
    assume 7\n\
    term [i:ind]\n\
    spec 8 2\n\
    conj_l 17\n\
    eq_mp 18 19\n\
    term num.abs [i:ind]\n\
    spec 9 6\n\
    conj_r 17\n\
    mp 21 22\n\
    def 38\n\
    term [v:num -> num]\n\
    term [P:num -> bool] ([v:num -> num] (num.abs [i:ind]))\n\
    subst 10 11 24 23\n\
    norm 25\n\
    spec 8 3\n\
    mp 27 19\n\
    term [v:ind]\n\
    term [P:num -> bool] (num.abs (num.suc_ind [v:ind]))\n\
    subst 12 13 20 26\n\
    conj_i 28 29\n\
    disch 7 30\n\
    gen 8 31\n\
    conj_i 16 32\n\
    mp 13 33\n\
    conj_r 34\n\
    spec 3 4\n\
    subst 5 6 36 35\n\
    gen 3 37\n\
    disch 1 38\n\
    disch 0 39\n\
    term [P:num -> bool]\n\
    gen 14 40\n\
";

// The facts that it takes.
const NUM_INDUCTION_FACTS: &[Fact] = &[
    facts::REP_IS_NUM,
    facts::ZERO_IND_IS_NUM,
    facts::NUM_REP_ABS,
    facts::SUC_IND_IS_NUM,
    facts::NUM_ABS_REP,
];

// A number is zero or a successor.
const NUM_CASES: &str = "\
    term \\x0:num. (x0 = 0) \\/ (?x1:num. x0 = suc x1)\n\
    spec 0 0\n\
    norm 1\n\
    term 0\n\
    refl 1\n\
    term ?x0:num. 0 = suc x0\n\
    disj_l 3 2\n\
    term suc [n:num]\n\
    refl 3\n\
    term ?x0:num. suc [n:num] = suc x0\n\
    term [n:num]\n\
    ex_i 4 5 5\n\
    term suc [n:num] = 0\n\
    disj_r 6 6\n\
    term ([n:num] = 0) \\/ (?x0:num. [n:num] = suc x0)\n\
    disch 7 7\n\
    gen 5 8\n\
    mp 2 4\n\
    mp 10 9\n\
";

// The facts that it takes.
const NUM_CASES_FACTS: &[Fact] = &[facts::NUM_INDUCTION];

// The definitions and the facts, in order.
pub(crate) static STEPS: [Step; 19] = [
    Step::Constant(33),
    Step::Prove(facts::IND_INFINITE, IND_INFINITE_FACTS, IND_INFINITE),
    Step::Constant(34),
    Step::Prove(
        facts::ZERO_IND_NOT_SUC,
        ZERO_IND_NOT_SUC_FACTS,
        ZERO_IND_NOT_SUC,
    ),
    Step::Constant(35),
    Step::Prove(
        facts::ZERO_IND_IS_NUM,
        ZERO_IND_IS_NUM_FACTS,
        ZERO_IND_IS_NUM,
    ),
    Step::Prove(facts::SUC_IND_IS_NUM, SUC_IND_IS_NUM_FACTS, SUC_IND_IS_NUM),
    Step::NewType(36, NUM_INHABITED),
    Step::Prove(facts::NUM_ABS_REP, NUM_ABS_REP_FACTS, NUM_ABS_REP),
    Step::Prove(facts::NUM_REP_ABS, NUM_REP_ABS_FACTS, NUM_REP_ABS),
    Step::Prove(facts::REP_IS_NUM, REP_IS_NUM_FACTS, REP_IS_NUM),
    Step::Constant(37),
    Step::Prove(facts::REP_ZERO, REP_ZERO_FACTS, REP_ZERO),
    Step::Constant(38),
    Step::Prove(facts::REP_SUC, REP_SUC_FACTS, REP_SUC),
    Step::Prove(facts::SUC_NOT_ZERO, SUC_NOT_ZERO_FACTS, SUC_NOT_ZERO),
    Step::Prove(facts::SUC_INJECTIVE, SUC_INJECTIVE_FACTS, SUC_INJECTIVE),
    Step::Prove(facts::NUM_INDUCTION, NUM_INDUCTION_FACTS, NUM_INDUCTION),
    Step::Prove(facts::NUM_CASES, NUM_CASES_FACTS, NUM_CASES),
];
