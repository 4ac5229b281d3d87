// Written by `python3 tools/library.py write` from the scripts of tools/library/.
//! Recursion over numbers: the proof tables, and the steps of the building. Each line of a table puts
//! one type, term or theorem at the end of its register; the theorems begin with the facts that the table takes.

use crate::facts;
use library_facts::Fact;
use library_steps::Step;

// One-point rule: where b alone satisfies P, there is one that satisfies P and Q where b satisfies Q.
const ONLY_ONE: &str = "\
    term !x0:'a. [P:'a -> bool] x0 = (x0 = [b:'a])\n\
    assume 0\n\
    term [P:'a -> bool] [a:'a] /\\ [Q:'a -> bool] [a:'a]\n\
    assume 1\n\
    term [a:'a]\n\
    spec 2 0\n\
    conj_l 1\n\
    eq_mp 2 3\n\
    conj_r 1\n\
    term [v:'a]\n\
    term [Q:'a -> bool] [v:'a]\n\
    subst 3 4 4 5\n\
    term ?x0:'a. [P:'a -> bool] x0 /\\ [Q:'a -> bool] x0\n\
    assume 5\n\
    choose 2 7 6\n\
    term [b:'a]\n\
    spec 6 0\n\
    refl 6\n\
    sym 9\n\
    eq_mp 11 10\n\
    term [Q:'a -> bool] [b:'a]\n\
    assume 7\n\
    conj_i 12 13\n\
    ex_i 5 6 14\n\
    deduct 15 8\n\
    term [Q:'a -> bool]\n\
    gen 8 16\n\
    disch 0 17\n\
    gen 6 18\n\
    term [P:'a -> bool]\n\
    gen 9 19\n\
";

// The facts that it takes.
const ONLY_ONE_FACTS: &[Fact] = &[];

// By induction along the steps, it has one value everywhere.
const GRAPH_VALUES: &str = "\
    term !x0:'a. [G:num -> 'a -> bool] 0 x0 = (x0 = [z:'a])\n\
    assume 0\n\
    term !x0:'b. !x1:num. !x2:'a. [G:num -> 'a -> bool] ([c:'b -> num -> num] x0 x1) x2 = (?x3:'a. [G:num -> 'a -> bool] x1 x3 /\\ (x2 = [f:'b -> num -> 'a -> 'a] x0 x1 x3))\n\
    assume 1\n\
    term !x0:num -> bool. x0 0 ==> ((!x1:'b. !x2:num. x0 x2 ==> x0 ([c:'b -> num -> num] x1 x2)) ==> (!x1:num. x0 x1))\n\
    assume 2\n\
    term \\x0:num. ?x1:'a. !x2:'a. [G:num -> 'a -> bool] x0 x2 = (x2 = x1)\n\
    spec 3 3\n\
    norm 4\n\
    term ?x0:'a. !x1:'a. [G:num -> 'a -> bool] 0 x1 = (x1 = x0)\n\
    term [z:'a]\n\
    ex_i 4 5 1\n\
    term !x0:'a. [G:num -> 'a -> bool] [p:num] x0 = (x0 = [b:'a])\n\
    assume 6\n\
    term [G:num -> 'a -> bool] [p:num]\n\
    spec 7 0\n\
    term [b:'a]\n\
    spec 8 8\n\
    mp 9 7\n\
    term \\x0:'a. [a:'a] = [f:'b -> num -> 'a -> 'a] [i:'b] [p:num] x0\n\
    spec 9 10\n\
    norm 11\n\
    term [i:'b]\n\
    spec 10 2\n\
    term [p:num]\n\
    spec 11 13\n\
    term [a:'a]\n\
    spec 12 14\n\
    trans 15 12\n\
    gen 12 16\n\
    term ?x0:'a. !x1:'a. [G:num -> 'a -> bool] ([c:'b -> num -> num] [i:'b] [p:num]) x1 = (x1 = x0)\n\
    term [f:'b -> num -> 'a -> 'a] [i:'b] [p:num] [b:'a]\n\
    ex_i 13 14 17\n\
    term ?x0:'a. !x1:'a. [G:num -> 'a -> bool] [p:num] x1 = (x1 = x0)\n\
    assume 15\n\
    choose 8 19 18\n\
    disch 15 20\n\
    gen 11 21\n\
    gen 10 22\n\
    mp 5 6\n\
    mp 24 23\n\
    disch 2 25\n\
    disch 1 26\n\
    disch 0 27\n\
    term [G:num -> 'a -> bool]\n\
    gen 16 28\n\
    term [c:'b -> num -> num]\n\
    gen 17 29\n\
    term [f:'b -> num -> 'a -> 'a]\n\
    gen 18 30\n\
    gen 5 31\n\
";

// The facts that it takes.
const GRAPH_VALUES_FACTS: &[Fact] = &[facts::ONLY_ONE];

// The function of these values satisfies the equations of recursion.
const GRAPH_FUNCTION: &str = "\
    term !x0:'a. [G:num -> 'a -> bool] 0 x0 = (x0 = [z:'a])\n\
    assume 0\n\
    term !x0:'b. !x1:num. !x2:'a. [G:num -> 'a -> bool] ([c:'b -> num -> num] x0 x1) x2 = (?x3:'a. [G:num -> 'a -> bool] x1 x3 /\\ (x2 = [f:'b -> num -> 'a -> 'a] x0 x1 x3))\n\
    assume 1\n\
    term !x0:num. ?x1:'a. !x2:'a. [G:num -> 'a -> bool] x0 x2 = (x2 = x1)\n\
    assume 2\n\
    type num\n\
    type 'a\n\
    inst_type 0 a 0 b 1\n\
    term \\x0:num. \\x1:'a. !x2:'a. [G:num -> 'a -> bool] x0 x2 = (x2 = x1)\n\
    spec 3 5\n\
    norm 6\n\
    mp 7 4\n\
    term !x0:num. !x1:'a. [G:num -> 'a -> bool] x0 x1 = (x1 = [h:num -> 'a] x0)\n\
    assume 4\n\
    term [n:num]\n\
    spec 5 9\n\
    term [h:num -> 'a] [n:num]\n\
    spec 6 10\n\
    refl 6\n\
    sym 11\n\
    eq_mp 13 12\n\
    term [h:num -> 'a] 0\n\
    spec 7 2\n\
    term 0\n\
    inst 14 5 8\n\
    eq_mp 15 16\n\
    term [G:num -> 'a -> bool] [p:num]\n\
    spec 9 1\n\
    term [h:num -> 'a] [p:num]\n\
    spec 10 18\n\
    term [p:num]\n\
    spec 11 9\n\
    mp 19 20\n\
    term \\x0:'a. [h:num -> 'a] ([c:'b -> num -> num] [i:'b] [p:num]) = [f:'b -> num -> 'a -> 'a] [i:'b] [p:num] x0\n\
    spec 12 21\n\
    term [i:'b]\n\
    spec 13 3\n\
    spec 11 23\n\
    term [h:num -> 'a] ([c:'b -> num -> num] [i:'b] [p:num])\n\
    spec 14 24\n\
    term [c:'b -> num -> num] [i:'b] [p:num]\n\
    inst 14 5 15\n\
    eq_mp 25 26\n\
    norm 22\n\
    eq_mp 28 27\n\
    gen 11 29\n\
    gen 13 30\n\
    conj_i 17 31\n\
    term ?x0:num -> 'a. (x0 0 = [z:'a]) /\\ (!x1:'b. !x2:num. x0 ([c:'b -> num -> num] x1 x2) = [f:'b -> num -> 'a -> 'a] x1 x2 (x0 x2))\n\
    term [h:num -> 'a]\n\
    ex_i 16 17 32\n\
    choose 17 8 33\n\
    disch 2 34\n\
    disch 1 35\n\
    disch 0 36\n\
    term [G:num -> 'a -> bool]\n\
    gen 18 37\n\
    term [c:'b -> num -> num]\n\
    gen 19 38\n\
    term [f:'b -> num -> 'a -> 'a]\n\
    gen 20 39\n\
    term [z:'a]\n\
    gen 21 40\n\
";

// The facts that it takes.
const GRAPH_FUNCTION_FACTS: &[Fact] = &[th_base::facts::CHOICE, facts::ONLY_ONE];

// By induction along the steps, a relation with both equations of the graph gives a function of recursion.
const RECURSION_FROM_GRAPH: &str = "\
    term !x0:'a. [G:num -> 'a -> bool] 0 x0 = (x0 = [z:'a])\n\
    assume 0\n\
    term !x0:'b. !x1:num. !x2:'a. [G:num -> 'a -> bool] ([c:'b -> num -> num] x0 x1) x2 = (?x3:'a. [G:num -> 'a -> bool] x1 x3 /\\ (x2 = [f:'b -> num -> 'a -> 'a] x0 x1 x3))\n\
    assume 1\n\
    term !x0:num -> bool. x0 0 ==> ((!x1:'b. !x2:num. x0 x2 ==> x0 ([c:'b -> num -> num] x1 x2)) ==> (!x1:num. x0 x1))\n\
    assume 2\n\
    term [z:'a]\n\
    spec 3 0\n\
    term [f:'b -> num -> 'a -> 'a]\n\
    spec 4 5\n\
    term [c:'b -> num -> num]\n\
    spec 5 6\n\
    term [G:num -> 'a -> bool]\n\
    spec 6 7\n\
    mp 8 2\n\
    mp 9 3\n\
    mp 10 4\n\
    spec 3 1\n\
    spec 4 12\n\
    spec 5 13\n\
    spec 6 14\n\
    mp 15 2\n\
    mp 16 3\n\
    mp 17 11\n\
    disch 2 18\n\
    disch 1 19\n\
    disch 0 20\n\
    gen 6 21\n\
    gen 5 22\n\
    gen 4 23\n\
    gen 3 24\n\
";

// The facts that it takes.
const RECURSION_FROM_GRAPH_FACTS: &[Fact] = &[facts::GRAPH_VALUES, facts::GRAPH_FUNCTION];

// Recursion along steps that are injective, never zero, and reach each number.
const RECURSION: &str = "\
    term !x0:'b. !x1:num. ~ ([c:'b -> num -> num] x0 x1 = 0)\n\
    assume 0\n\
    term !x0:'b. !x1:num. !x2:'b. !x3:num. ([c:'b -> num -> num] x0 x1 = [c:'b -> num -> num] x2 x3) ==> ((x0 = x2) /\\ (x1 = x3))\n\
    assume 1\n\
    term !x0:num -> bool. x0 0 ==> ((!x1:'b. !x2:num. x0 x2 ==> x0 ([c:'b -> num -> num] x1 x2)) ==> (!x1:num. x0 x1))\n\
    assume 2\n\
    term !x0:num. !x1:'a. [G:num -> 'a -> bool] x0 x1 = (((x0 = 0) /\\ (x1 = [z:'a])) \\/ (?x2:'b. ?x3:num. (x0 = [c:'b -> num -> num] x2 x3) /\\ (?x4:'a. [G:num -> 'a -> bool] x3 x4 /\\ (x1 = [f:'b -> num -> 'a -> 'a] x2 x3 x4))))\n\
    assume 3\n\
    term [z:'a]\n\
    spec 4 0\n\
    term [f:'b -> num -> 'a -> 'a]\n\
    spec 5 8\n\
    term [c:'b -> num -> num]\n\
    spec 6 9\n\
    term [G:num -> 'a -> bool]\n\
    spec 7 10\n\
    mp 11 7\n\
    mp 12 4\n\
    spec 4 1\n\
    spec 5 14\n\
    spec 6 15\n\
    spec 7 16\n\
    mp 17 7\n\
    mp 18 4\n\
    mp 19 5\n\
    spec 4 2\n\
    spec 5 21\n\
    spec 6 22\n\
    spec 7 23\n\
    mp 24 13\n\
    mp 25 20\n\
    mp 26 6\n\
    spec 4 3\n\
    spec 5 28\n\
    spec 6 29\n\
    choose 7 30 27\n\
    gen 5 31\n\
    gen 4 32\n\
    disch 2 33\n\
    disch 1 34\n\
    disch 0 35\n\
    gen 6 36\n\
";

// The facts that it takes.
const RECURSION_FACTS: &[Fact] = &[
    facts::GRAPH_AT_ZERO,
    facts::GRAPH_AT_STEP,
    facts::RECURSION_FROM_GRAPH,
    facts::RECURSION_GRAPH,
];

// Recursion over numbers: there is a function with these two equations.
const NUM_RECURSION: &str = "\
    type unit\n\
    inst_type 0 b 0\n\
    term \\x0:unit. suc\n\
    spec 0 5\n\
    norm 6\n\
    term [i:unit]\n\
    gen 1 1\n\
    term suc [p:num] = suc [q:num]\n\
    assume 2\n\
    spec 1 2\n\
    term [j:unit]\n\
    spec 3 10\n\
    term [p:num]\n\
    spec 4 3\n\
    term [q:num]\n\
    spec 5 12\n\
    mp 13 9\n\
    conj_i 11 14\n\
    disch 2 15\n\
    gen 5 16\n\
    gen 3 17\n\
    gen 4 18\n\
    gen 1 19\n\
    term [P:num -> bool] 0\n\
    assume 6\n\
    term !x0:unit. !x1:num. [P:num -> bool] x1 ==> [P:num -> bool] (suc x1)\n\
    assume 7\n\
    term [P:num -> bool]\n\
    spec 8 4\n\
    term one\n\
    spec 9 22\n\
    mp 23 21\n\
    mp 25 24\n\
    disch 7 26\n\
    disch 6 27\n\
    gen 8 28\n\
    mp 7 8\n\
    mp 30 20\n\
    mp 31 29\n\
    term [z:'a]\n\
    spec 10 32\n\
    term \\x0:unit. [f:num -> 'a -> 'a]\n\
    spec 11 33\n\
    norm 34\n\
    term ([h:num -> 'a] 0 = [z:'a]) /\\ (!x0:unit. !x1:num. [h:num -> 'a] (suc x1) = [f:num -> 'a -> 'a] x1 ([h:num -> 'a] x1))\n\
    assume 12\n\
    conj_l 36\n\
    conj_r 36\n\
    spec 9 38\n\
    conj_i 37 39\n\
    term ?x0:num -> 'a. (x0 0 = [z:'a]) /\\ (!x1:num. x0 (suc x1) = [f:num -> 'a -> 'a] x1 (x0 x1))\n\
    term [h:num -> 'a]\n\
    ex_i 13 14 40\n\
    choose 14 35 41\n\
    term [f:num -> 'a -> 'a]\n\
    gen 15 42\n\
    gen 10 43\n\
";

// The facts that it takes.
const NUM_RECURSION_FACTS: &[Fact] = &[
    facts::RECURSION,
    facts::SUC_NOT_ZERO,
    th_base::facts::UNIT_EQUAL,
    facts::SUC_INJECTIVE,
    facts::NUM_INDUCTION,
];

// The recursor satisfies both equations.
const REC_EQUATIONS: &str = "\
    type num -> 'a\n\
    inst_type 0 a 0\n\
    term \\x0:num -> 'a. (x0 0 = [z:'a]) /\\ (!x1:num. x0 (suc x1) = [f:num -> 'a -> 'a] x1 (x0 x1))\n\
    spec 0 2\n\
    norm 3\n\
    term [z:'a]\n\
    spec 1 1\n\
    term [f:num -> 'a -> 'a]\n\
    spec 2 5\n\
    mp 4 6\n\
    def 39\n\
    term num.rec{'a} [z:'a] [f:num -> 'a -> 'a]\n\
    rewrite_all 3 8\n\
    norm 9\n\
    sym 10\n\
    term [v:num -> 'a]\n\
    term ([v:num -> 'a] 0 = [z:'a]) /\\ (!x0:num. [v:num -> 'a] (suc x0) = [f:num -> 'a -> 'a] x0 ([v:num -> 'a] x0))\n\
    subst 4 5 11 7\n\
    gen 2 12\n\
    gen 1 13\n\
";

// The facts that it takes.
const REC_EQUATIONS_FACTS: &[Fact] = &[th_base::facts::SOME_HOLDS, facts::NUM_RECURSION];

// The recursor at zero.
const REC_ZERO: &str = "\
    term [z:'a]\n\
    spec 0 0\n\
    term [f:num -> 'a -> 'a]\n\
    spec 1 1\n\
    conj_l 2\n\
    gen 1 3\n\
    gen 0 4\n\
";

// The facts that it takes.
const REC_ZERO_FACTS: &[Fact] = &[facts::REC_EQUATIONS];

// The recursor at a successor.
const REC_SUC: &str = "\
    term [z:'a]\n\
    spec 0 0\n\
    term [f:num -> 'a -> 'a]\n\
    spec 1 1\n\
    conj_r 2\n\
    gen 1 3\n\
    gen 0 4\n\
";

// The facts that it takes.
const REC_SUC_FACTS: &[Fact] = &[facts::REC_EQUATIONS];

// The definitions and the facts, in order.
pub(crate) static STEPS: [Step; 10] = [
    Step::Prove(facts::ONLY_ONE, ONLY_ONE_FACTS, ONLY_ONE),
    Step::Prove(facts::GRAPH_VALUES, GRAPH_VALUES_FACTS, GRAPH_VALUES),
    Step::Prove(facts::GRAPH_FUNCTION, GRAPH_FUNCTION_FACTS, GRAPH_FUNCTION),
    Step::Prove(
        facts::RECURSION_FROM_GRAPH,
        RECURSION_FROM_GRAPH_FACTS,
        RECURSION_FROM_GRAPH,
    ),
    Step::Prove(facts::RECURSION, RECURSION_FACTS, RECURSION),
    Step::Prove(facts::NUM_RECURSION, NUM_RECURSION_FACTS, NUM_RECURSION),
    Step::Constant(39),
    Step::Prove(facts::REC_EQUATIONS, REC_EQUATIONS_FACTS, REC_EQUATIONS),
    Step::Prove(facts::REC_ZERO, REC_ZERO_FACTS, REC_ZERO),
    Step::Prove(facts::REC_SUC, REC_SUC_FACTS, REC_SUC),
];
