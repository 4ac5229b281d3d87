// Written by `python3 tools/library.py write` from the scripts of tools/library/.
//! The graph of a recursion: the proof tables, and the steps of the building. Each line of a table puts
//! one type, term or theorem at the end of its register; the theorems begin with the facts that the table takes.

use crate::facts;
use library_facts::Fact;
use library_steps::Step;

// Knaster and Tarski: a monotone function of relations has a fixed relation.
const FIXED_RELATION: &str = "\
    term !x0:'a -> 'b -> bool. !x1:'a -> 'b -> bool. (!x2:'a. !x3:'b. x0 x2 x3 ==> x1 x2 x3) ==> (!x2:'a. !x3:'b. [F:('a -> 'b -> bool) -> 'a -> 'b -> bool] x0 x2 x3 ==> [F:('a -> 'b -> bool) -> 'a -> 'b -> bool] x1 x2 x3)\n\
    assume 0\n\
    term !x0:'a. !x1:'b. [F:('a -> 'b -> bool) -> 'a -> 'b -> bool] [R:'a -> 'b -> bool] x0 x1 ==> [R:'a -> 'b -> bool] x0 x1\n\
    assume 1\n\
    term (\\x0:'a. \\x1:'b. !x2:'a -> 'b -> bool. (!x3:'a. !x4:'b. [F:('a -> 'b -> bool) -> 'a -> 'b -> bool] x2 x3 x4 ==> x2 x3 x4) ==> x2 x0 x1) [x:'a] [y:'b]\n\
    beta_norm 2\n\
    assume 2\n\
    eq_mp 2 3\n\
    term [R:'a -> 'b -> bool]\n\
    spec 3 4\n\
    mp 5 1\n\
    disch 2 6\n\
    term [y:'b]\n\
    gen 4 7\n\
    term [x:'a]\n\
    gen 5 8\n\
    term \\x0:'a. \\x1:'b. !x2:'a -> 'b -> bool. (!x3:'a. !x4:'b. [F:('a -> 'b -> bool) -> 'a -> 'b -> bool] x2 x3 x4 ==> x2 x3 x4) ==> x2 x0 x1\n\
    spec 6 0\n\
    spec 3 10\n\
    mp 11 9\n\
    spec 5 12\n\
    spec 4 13\n\
    spec 5 1\n\
    spec 4 15\n\
    term [F:('a -> 'b -> bool) -> 'a -> 'b -> bool] (\\x0:'a. \\x1:'b. !x2:'a -> 'b -> bool. (!x3:'a. !x4:'b. [F:('a -> 'b -> bool) -> 'a -> 'b -> bool] x2 x3 x4 ==> x2 x3 x4) ==> x2 x0 x1) [x:'a] [y:'b]\n\
    assume 7\n\
    mp 14 17\n\
    mp 16 18\n\
    disch 1 19\n\
    gen 3 20\n\
    sym 2\n\
    eq_mp 22 21\n\
    disch 7 23\n\
    gen 4 24\n\
    gen 5 25\n\
    term [F:('a -> 'b -> bool) -> 'a -> 'b -> bool] (\\x0:'a. \\x1:'b. !x2:'a -> 'b -> bool. (!x3:'a. !x4:'b. [F:('a -> 'b -> bool) -> 'a -> 'b -> bool] x2 x3 x4 ==> x2 x3 x4) ==> x2 x0 x1)\n\
    spec 8 4\n\
    spec 8 0\n\
    spec 6 28\n\
    mp 29 26\n\
    mp 27 30\n\
    deduct 23 31\n\
    gen 4 32\n\
    gen 5 33\n\
    term ?x0:'a -> 'b -> bool. !x1:'a. !x2:'b. x0 x1 x2 = [F:('a -> 'b -> bool) -> 'a -> 'b -> bool] x0 x1 x2\n\
    ex_i 9 6 34\n\
    disch 0 35\n\
    term [F:('a -> 'b -> bool) -> 'a -> 'b -> bool]\n\
    gen 10 36\n\
";

// The facts that it takes.
const FIXED_RELATION_FACTS: &[Fact] = &[];

// There is a relation that satisfies the equation of a graph of recursion along a step function c.
const RECURSION_GRAPH: &str = "\
    type num\n\
    type 'a\n\
    inst_type 0 a 0 b 1\n\
    term \\x0:num -> 'a -> bool. \\x1:num. \\x2:'a. ((x1 = 0) /\\ (x2 = [z:'a])) \\/ (?x3:'b. ?x4:num. (x1 = [c:'b -> num -> num] x3 x4) /\\ (?x5:'a. x0 x4 x5 /\\ (x2 = [f:'b -> num -> 'a -> 'a] x3 x4 x5)))\n\
    spec 0 1\n\
    norm 2\n\
    term !x0:num. !x1:'a. [R:num -> 'a -> bool] x0 x1 ==> [S:num -> 'a -> bool] x0 x1\n\
    assume 1\n\
    term [R:num -> 'a -> bool] [p:num] [a:'a] /\\ ([b:'a] = [f:'b -> num -> 'a -> 'a] [i:'b] [p:num] [a:'a])\n\
    assume 2\n\
    term [p:num]\n\
    spec 3 4\n\
    term [a:'a]\n\
    spec 4 6\n\
    conj_l 5\n\
    mp 7 8\n\
    conj_r 5\n\
    conj_i 9 10\n\
    term ([n:num] = [c:'b -> num -> num] [i:'b] [p:num]) /\\ (?x0:'a. [R:num -> 'a -> bool] [p:num] x0 /\\ ([b:'a] = [f:'b -> num -> 'a -> 'a] [i:'b] [p:num] x0))\n\
    assume 5\n\
    conj_l 12\n\
    conj_r 12\n\
    term ?x0:'a. [S:num -> 'a -> bool] [p:num] x0 /\\ ([b:'a] = [f:'b -> num -> 'a -> 'a] [i:'b] [p:num] x0)\n\
    ex_i 6 4 11\n\
    choose 4 14 15\n\
    conj_i 13 16\n\
    term ?x0:num. ([n:num] = [c:'b -> num -> num] [i:'b] x0) /\\ (?x1:'a. [S:num -> 'a -> bool] x0 x1 /\\ ([b:'a] = [f:'b -> num -> 'a -> 'a] [i:'b] x0 x1))\n\
    ex_i 7 3 17\n\
    term ?x0:'b. ?x1:num. ([n:num] = [c:'b -> num -> num] x0 x1) /\\ (?x2:'a. [S:num -> 'a -> bool] x1 x2 /\\ ([b:'a] = [f:'b -> num -> 'a -> 'a] x0 x1 x2))\n\
    term [i:'b]\n\
    ex_i 8 9 18\n\
    term ?x0:num. ([n:num] = [c:'b -> num -> num] [i:'b] x0) /\\ (?x1:'a. [R:num -> 'a -> bool] x0 x1 /\\ ([b:'a] = [f:'b -> num -> 'a -> 'a] [i:'b] x0 x1))\n\
    assume 10\n\
    choose 3 20 19\n\
    term ?x0:'b. ?x1:num. ([n:num] = [c:'b -> num -> num] x0 x1) /\\ (?x2:'a. [R:num -> 'a -> bool] x1 x2 /\\ ([b:'a] = [f:'b -> num -> 'a -> 'a] x0 x1 x2))\n\
    assume 11\n\
    choose 9 22 21\n\
    term ([n:num] = 0) /\\ ([b:'a] = [z:'a])\n\
    assume 12\n\
    disj_l 24 8\n\
    term (([n:num] = 0) /\\ ([b:'a] = [z:'a])) \\/ (?x0:'b. ?x1:num. ([n:num] = [c:'b -> num -> num] x0 x1) /\\ (?x2:'a. [R:num -> 'a -> bool] x1 x2 /\\ ([b:'a] = [f:'b -> num -> 'a -> 'a] x0 x1 x2)))\n\
    assume 13\n\
    disj_r 12 23\n\
    disj_e 26 25 27\n\
    disch 13 28\n\
    term [b:'a]\n\
    gen 14 29\n\
    term [n:num]\n\
    gen 15 30\n\
    disch 1 31\n\
    term [S:num -> 'a -> bool]\n\
    gen 16 32\n\
    term [R:num -> 'a -> bool]\n\
    gen 17 33\n\
    mp 3 34\n\
    term [c:'b -> num -> num]\n\
    gen 18 35\n\
    term [f:'b -> num -> 'a -> 'a]\n\
    gen 19 36\n\
    term [z:'a]\n\
    gen 20 37\n\
";

// The facts that it takes.
const RECURSION_GRAPH_FACTS: &[Fact] = &[facts::FIXED_RELATION];

// Where no step gives zero, such a relation has the start alone at zero.
const GRAPH_AT_ZERO: &str = "\
    term !x0:num. !x1:'a. [G:num -> 'a -> bool] x0 x1 = (((x0 = 0) /\\ (x1 = [z:'a])) \\/ (?x2:'b. ?x3:num. (x0 = [c:'b -> num -> num] x2 x3) /\\ (?x4:'a. [G:num -> 'a -> bool] x3 x4 /\\ (x1 = [f:'b -> num -> 'a -> 'a] x2 x3 x4))))\n\
    assume 0\n\
    term !x0:'b. !x1:num. ~ ([c:'b -> num -> num] x0 x1 = 0)\n\
    assume 1\n\
    term (0 = [c:'b -> num -> num] [i:'b] [p:num]) /\\ (?x0:'a. [G:num -> 'a -> bool] [p:num] x0 /\\ ([b:'a] = [f:'b -> num -> 'a -> 'a] [i:'b] [p:num] x0))\n\
    assume 2\n\
    conj_l 2\n\
    sym 3\n\
    term [i:'b]\n\
    spec 3 1\n\
    term [p:num]\n\
    spec 4 5\n\
    not_e 6\n\
    mp 7 4\n\
    def 6\n\
    eq_mp 9 8\n\
    term [b:'a] = [z:'a]\n\
    spec 5 10\n\
    term ?x0:num. (0 = [c:'b -> num -> num] [i:'b] x0) /\\ (?x1:'a. [G:num -> 'a -> bool] x0 x1 /\\ ([b:'a] = [f:'b -> num -> 'a -> 'a] [i:'b] x0 x1))\n\
    assume 6\n\
    choose 4 12 11\n\
    term ?x0:'b. ?x1:num. (0 = [c:'b -> num -> num] x0 x1) /\\ (?x2:'a. [G:num -> 'a -> bool] x1 x2 /\\ ([b:'a] = [f:'b -> num -> 'a -> 'a] x0 x1 x2))\n\
    assume 7\n\
    choose 3 14 13\n\
    term ((0 = 0) /\\ ([b:'a] = [z:'a])) \\/ (?x0:'b. ?x1:num. (0 = [c:'b -> num -> num] x0 x1) /\\ (?x2:'a. [G:num -> 'a -> bool] x1 x2 /\\ ([b:'a] = [f:'b -> num -> 'a -> 'a] x0 x1 x2)))\n\
    assume 8\n\
    term (0 = 0) /\\ ([b:'a] = [z:'a])\n\
    assume 9\n\
    conj_r 17\n\
    disj_e 16 18 15\n\
    term 0\n\
    refl 10\n\
    assume 5\n\
    conj_i 20 21\n\
    disj_l 22 7\n\
    spec 10 0\n\
    term [b:'a]\n\
    spec 11 24\n\
    deduct 23 19\n\
    trans 25 26\n\
    gen 11 27\n\
    disch 1 28\n\
    disch 0 29\n\
    term [G:num -> 'a -> bool]\n\
    gen 12 30\n\
    term [c:'b -> num -> num]\n\
    gen 13 31\n\
    term [f:'b -> num -> 'a -> 'a]\n\
    gen 14 32\n\
    term [z:'a]\n\
    gen 15 33\n\
";

// The facts that it takes.
const GRAPH_AT_ZERO_FACTS: &[Fact] = &[];

// One-point rule: there are arguments of P at which an injective function has its value at i and p where P holds of i and p.
const ONE_POINT_OF_TWO: &str = "\
    term !x0:'a. !x1:'b. !x2:'a. !x3:'b. ([c:'a -> 'b -> 'c] x0 x1 = [c:'a -> 'b -> 'c] x2 x3) ==> ((x0 = x2) /\\ (x1 = x3))\n\
    assume 0\n\
    term ([c:'a -> 'b -> 'c] [i:'a] [p:'b] = [c:'a -> 'b -> 'c] [j:'a] [q:'b]) /\\ [P:'a -> 'b -> bool] [j:'a] [q:'b]\n\
    assume 1\n\
    term [i:'a]\n\
    spec 2 0\n\
    term [p:'b]\n\
    spec 3 2\n\
    term [j:'a]\n\
    spec 4 3\n\
    term [q:'b]\n\
    spec 5 4\n\
    conj_l 1\n\
    mp 5 6\n\
    conj_r 1\n\
    conj_l 7\n\
    sym 9\n\
    conj_r 7\n\
    sym 11\n\
    term [v:'a]\n\
    term [P:'a -> 'b -> bool] [v:'a] [q:'b]\n\
    subst 6 7 10 8\n\
    term [v:'b]\n\
    term [P:'a -> 'b -> bool] [i:'a] [v:'b]\n\
    subst 8 9 12 13\n\
    term ?x0:'b. ([c:'a -> 'b -> 'c] [i:'a] [p:'b] = [c:'a -> 'b -> 'c] [j:'a] x0) /\\ [P:'a -> 'b -> bool] [j:'a] x0\n\
    assume 10\n\
    choose 5 15 14\n\
    term ?x0:'a. ?x1:'b. ([c:'a -> 'b -> 'c] [i:'a] [p:'b] = [c:'a -> 'b -> 'c] x0 x1) /\\ [P:'a -> 'b -> bool] x0 x1\n\
    assume 11\n\
    choose 4 17 16\n\
    term [c:'a -> 'b -> 'c] [i:'a] [p:'b]\n\
    refl 12\n\
    term [P:'a -> 'b -> bool] [i:'a] [p:'b]\n\
    assume 13\n\
    conj_i 19 20\n\
    term ?x0:'b. ([c:'a -> 'b -> 'c] [i:'a] [p:'b] = [c:'a -> 'b -> 'c] [i:'a] x0) /\\ [P:'a -> 'b -> bool] [i:'a] x0\n\
    ex_i 14 3 21\n\
    ex_i 11 2 22\n\
    deduct 23 18\n\
    gen 3 24\n\
    gen 2 25\n\
    term [P:'a -> 'b -> bool]\n\
    gen 15 26\n\
    disch 0 27\n\
    term [c:'a -> 'b -> 'c]\n\
    gen 16 28\n\
";

// The facts that it takes.
const ONE_POINT_OF_TWO_FACTS: &[Fact] = &[];

// Where steps are also injective, it has at a step what the function makes of the values before it.
const GRAPH_AT_STEP: &str = "\
    term !x0:num. !x1:'a. [G:num -> 'a -> bool] x0 x1 = (((x0 = 0) /\\ (x1 = [z:'a])) \\/ (?x2:'b. ?x3:num. (x0 = [c:'b -> num -> num] x2 x3) /\\ (?x4:'a. [G:num -> 'a -> bool] x3 x4 /\\ (x1 = [f:'b -> num -> 'a -> 'a] x2 x3 x4))))\n\
    assume 0\n\
    term !x0:'b. !x1:num. ~ ([c:'b -> num -> num] x0 x1 = 0)\n\
    assume 1\n\
    term !x0:'b. !x1:num. !x2:'b. !x3:num. ([c:'b -> num -> num] x0 x1 = [c:'b -> num -> num] x2 x3) ==> ((x0 = x2) /\\ (x1 = x3))\n\
    assume 2\n\
    type 'b\n\
    type num\n\
    inst_type 0 a 0 b 1 c 1\n\
    term [c:'b -> num -> num]\n\
    spec 3 4\n\
    mp 5 3\n\
    term \\x0:'b. \\x1:num. ?x2:'a. [G:num -> 'a -> bool] x1 x2 /\\ ([b:'a] = [f:'b -> num -> 'a -> 'a] x0 x1 x2)\n\
    spec 4 6\n\
    term [i:'b]\n\
    spec 5 7\n\
    term [p:num]\n\
    spec 6 8\n\
    term [c:'b -> num -> num] [i:'b] [p:num]\n\
    spec 7 1\n\
    term [b:'a]\n\
    spec 8 10\n\
    norm 9\n\
    term [v:bool]\n\
    term [G:num -> 'a -> bool] ([c:'b -> num -> num] [i:'b] [p:num]) [b:'a] = ((([c:'b -> num -> num] [i:'b] [p:num] = 0) /\\ ([b:'a] = [z:'a])) \\/ [v:bool])\n\
    subst 9 10 12 11\n\
    spec 5 2\n\
    spec 6 14\n\
    term ([c:'b -> num -> num] [i:'b] [p:num] = 0) /\\ ([b:'a] = [z:'a])\n\
    assume 11\n\
    conj_l 16\n\
    not_e 15\n\
    mp 18 17\n\
    term ?x0:'a. [G:num -> 'a -> bool] [p:num] x0 /\\ ([b:'a] = [f:'b -> num -> 'a -> 'a] [i:'b] [p:num] x0)\n\
    assume 12\n\
    term (([c:'b -> num -> num] [i:'b] [p:num] = 0) /\\ ([b:'a] = [z:'a])) \\/ (?x0:'a. [G:num -> 'a -> bool] [p:num] x0 /\\ ([b:'a] = [f:'b -> num -> 'a -> 'a] [i:'b] [p:num] x0))\n\
    assume 13\n\
    def 6\n\
    eq_mp 22 19\n\
    spec 12 23\n\
    disj_e 21 24 20\n\
    disj_r 11 20\n\
    deduct 26 25\n\
    trans 13 27\n\
    gen 8 28\n\
    gen 6 29\n\
    gen 5 30\n\
    disch 2 31\n\
    disch 1 32\n\
    disch 0 33\n\
    term [G:num -> 'a -> bool]\n\
    gen 14 34\n\
    gen 3 35\n\
    term [f:'b -> num -> 'a -> 'a]\n\
    gen 15 36\n\
    term [z:'a]\n\
    gen 16 37\n\
";

// The facts that it takes.
const GRAPH_AT_STEP_FACTS: &[Fact] = &[facts::ONE_POINT_OF_TWO];

// The definitions and the facts, in order.
pub(crate) static STEPS: [Step; 5] = [
    Step::Prove(facts::FIXED_RELATION, FIXED_RELATION_FACTS, FIXED_RELATION),
    Step::Prove(
        facts::RECURSION_GRAPH,
        RECURSION_GRAPH_FACTS,
        RECURSION_GRAPH,
    ),
    Step::Prove(facts::GRAPH_AT_ZERO, GRAPH_AT_ZERO_FACTS, GRAPH_AT_ZERO),
    Step::Prove(
        facts::ONE_POINT_OF_TWO,
        ONE_POINT_OF_TWO_FACTS,
        ONE_POINT_OF_TWO,
    ),
    Step::Prove(facts::GRAPH_AT_STEP, GRAPH_AT_STEP_FACTS, GRAPH_AT_STEP),
];
