// Written by `python3 tools/library.py write` from the scripts of tools/library/.
//! Countable sets: the proof tables, and the steps of the building. Each line of a table puts
//! one type, term or theorem at the end of its register; the theorems begin with the facts that the table takes.

use crate::facts;
use library_facts::Fact;
use library_steps::Step;

// What the numbers enumerate is countable.
const COUNTABLE_ENUMERATED: &str = "\
    term !x0:'a. [s:'a -> bool] x0 ==> (?x1:num. x0 = [f:num -> 'a] x1)\n\
    assume 0\n\
    type num\n\
    inst_type 0 b 0\n\
    term [s:'a -> bool]\n\
    spec 1 2\n\
    term \\x0:'a. \\x1:num. x0 = [f:num -> 'a] x1\n\
    spec 2 3\n\
    norm 4\n\
    mp 5 1\n\
    term !x0:'a. [s:'a -> bool] x0 ==> (x0 = [f:num -> 'a] ([g:'a -> num] x0))\n\
    assume 3\n\
    term [x:'a]\n\
    spec 4 7\n\
    term [s:'a -> bool] [x:'a]\n\
    assume 5\n\
    mp 8 9\n\
    term [g:'a -> num] [x:'a] = [g:'a -> num] [y:'a]\n\
    assume 6\n\
    term [v:num]\n\
    term [x:'a] = [f:num -> 'a] [v:num]\n\
    subst 7 8 11 10\n\
    term [y:'a]\n\
    inst 10 4 9\n\
    sym 13\n\
    trans 12 14\n\
    disch 6 15\n\
    term [s:'a -> bool] [y:'a]\n\
    disch 10 16\n\
    disch 5 17\n\
    gen 9 18\n\
    gen 4 19\n\
    term ?x0:'a -> num. !x1:'a. !x2:'a. [s:'a -> bool] x1 ==> ([s:'a -> bool] x2 ==> ((x0 x1 = x0 x2) ==> (x1 = x2)))\n\
    term [g:'a -> num]\n\
    ex_i 11 12 20\n\
    def 43\n\
    term countable{'a} [s:'a -> bool]\n\
    rewrite_all 13 22\n\
    norm 23\n\
    sym 24\n\
    eq_mp 25 21\n\
    choose 12 6 26\n\
    disch 0 27\n\
    term [f:num -> 'a]\n\
    gen 14 28\n\
    gen 1 29\n\
";

// The facts that it takes.
const COUNTABLE_ENUMERATED_FACTS: &[Fact] = &[th_base::facts::CHOICE_ON];

// There is a function that enumerates each countable set by numbers.
const COUNTABLE_ENUMERATION: &str = "\
    term countable{'a} [s:'a -> bool]\n\
    assume 0\n\
    term [s:'a -> bool] [x:'a]\n\
    assume 1\n\
    term [g:'a -> num] [x:'a]\n\
    refl 2\n\
    conj_i 3 4\n\
    term ?x0:'a. [s:'a -> bool] x0 /\\ ([g:'a -> num] x0 = [g:'a -> num] [x:'a])\n\
    term [x:'a]\n\
    ex_i 3 4 5\n\
    term \\x0:'a. [s:'a -> bool] x0 /\\ ([g:'a -> num] x0 = [g:'a -> num] [x:'a])\n\
    spec 5 0\n\
    norm 7\n\
    mp 8 6\n\
    term !x0:'a. !x1:'a. [s:'a -> bool] x0 ==> ([s:'a -> bool] x1 ==> (([g:'a -> num] x0 = [g:'a -> num] x1) ==> (x0 = x1)))\n\
    assume 6\n\
    term some{'a} (\\x0:'a. [s:'a -> bool] x0 /\\ ([g:'a -> num] x0 = [g:'a -> num] [x:'a]))\n\
    spec 7 10\n\
    spec 4 11\n\
    conj_l 9\n\
    conj_r 9\n\
    mp 12 13\n\
    mp 15 3\n\
    mp 16 14\n\
    term (\\x0:num. some{'a} (\\x1:'a. [s:'a -> bool] x1 /\\ ([g:'a -> num] x1 = x0))) ([g:'a -> num] [x:'a])\n\
    beta_conv 8\n\
    trans 18 17\n\
    sym 19\n\
    term ?x0:num. [x:'a] = (\\x1:num. some{'a} (\\x2:'a. [s:'a -> bool] x2 /\\ ([g:'a -> num] x2 = x1))) x0\n\
    ex_i 9 2 20\n\
    disch 1 21\n\
    gen 4 22\n\
    term ?x0:num -> 'a. !x1:'a. [s:'a -> bool] x1 ==> (?x2:num. x1 = x0 x2)\n\
    term \\x0:num. some{'a} (\\x1:'a. [s:'a -> bool] x1 /\\ ([g:'a -> num] x1 = x0))\n\
    ex_i 10 11 23\n\
    def 43\n\
    term [v:('a -> bool) -> bool]\n\
    term [v:('a -> bool) -> bool] [s:'a -> bool]\n\
    subst 12 13 25 2\n\
    norm 26\n\
    term [g:'a -> num]\n\
    choose 14 27 24\n\
    type 'a -> bool\n\
    type num -> 'a\n\
    inst_type 1 a 0 b 1\n\
    term countable{'a}\n\
    spec 15 29\n\
    term \\x0:'a -> bool. \\x1:num -> 'a. !x2:'a. x0 x2 ==> (?x3:num. x2 = x1 x3)\n\
    spec 16 30\n\
    norm 31\n\
    disch 0 28\n\
    term [s:'a -> bool]\n\
    gen 17 33\n\
    mp 32 34\n\
";

// The facts that it takes.
const COUNTABLE_ENUMERATION_FACTS: &[Fact] = &[
    th_base::facts::SOME_HOLDS,
    th_base::facts::CHOICE_ON,
];

// A subset of a countable set is countable.
const COUNTABLE_SUBSET: &str = "\
    term countable{'a} [t:'a -> bool]\n\
    assume 0\n\
    term !x0:'a. [s:'a -> bool] x0 ==> [t:'a -> bool] x0\n\
    assume 1\n\
    term [x:'a]\n\
    spec 2 3\n\
    term [s:'a -> bool] [x:'a]\n\
    assume 3\n\
    mp 4 5\n\
    term !x0:'a -> bool. countable{'a} x0 ==> (!x1:'a. x0 x1 ==> (?x2:num. x1 = [e:('a -> bool) -> num -> 'a] x0 x2))\n\
    assume 4\n\
    term [t:'a -> bool]\n\
    spec 5 7\n\
    mp 8 2\n\
    spec 2 9\n\
    mp 10 6\n\
    term [s:'a -> bool]\n\
    spec 6 0\n\
    term [e:('a -> bool) -> num -> 'a] [t:'a -> bool]\n\
    spec 7 12\n\
    disch 3 11\n\
    gen 2 14\n\
    mp 13 15\n\
    term [e:('a -> bool) -> num -> 'a]\n\
    choose 8 1 16\n\
    disch 1 17\n\
    disch 0 18\n\
    gen 5 19\n\
    gen 6 20\n\
";

// The facts that it takes.
const COUNTABLE_SUBSET_FACTS: &[Fact] = &[
    facts::COUNTABLE_ENUMERATED,
    facts::COUNTABLE_ENUMERATION,
];

// Each set of elements of a countable type is countable.
const COUNTABLE_ON_TYPE: &str = "\
    term countable{'a} (\\x0:'a. T)\n\
    assume 0\n\
    term [s:'a -> bool]\n\
    spec 1 0\n\
    term \\x0:'a. T\n\
    spec 2 3\n\
    norm 4\n\
    mp 5 2\n\
    term [s:'a -> bool] [x:'a]\n\
    disch 3 1\n\
    term [x:'a]\n\
    gen 4 7\n\
    mp 6 8\n\
    disch 0 9\n\
    gen 1 10\n\
";

// The facts that it takes.
const COUNTABLE_ON_TYPE_FACTS: &[Fact] = &[facts::COUNTABLE_SUBSET, th_base::facts::TRUTH];

// The numbers are countable.
const COUNTABLE_NUM: &str = "\
    term [x:num]\n\
    refl 0\n\
    term ?x0:num. [x:num] = x0\n\
    ex_i 1 0 1\n\
    term T\n\
    disch 2 2\n\
    gen 0 3\n\
    type num\n\
    inst_type 0 a 0\n\
    term \\x0:num. T\n\
    spec 3 5\n\
    term \\x0:num. x0\n\
    spec 4 6\n\
    norm 7\n\
    mp 8 4\n\
";

// The facts that it takes.
const COUNTABLE_NUM_FACTS: &[Fact] = &[facts::COUNTABLE_ENUMERATED];

// The empty set is countable.
const COUNTABLE_EMPTY: &str = "\
    term F\n\
    assume 0\n\
    def 6\n\
    eq_mp 2 1\n\
    term ?x0:num. [x:'a] = [f:num -> 'a] x0\n\
    spec 1 3\n\
    disch 0 4\n\
    term [x:'a]\n\
    gen 2 5\n\
    term \\x0:'a. F\n\
    spec 3 0\n\
    term [f:num -> 'a]\n\
    spec 4 7\n\
    norm 8\n\
    mp 9 6\n\
";

// The facts that it takes.
const COUNTABLE_EMPTY_FACTS: &[Fact] = &[facts::COUNTABLE_ENUMERATED];

// A set of one element is countable.
const COUNTABLE_SINGLETON: &str = "\
    term [x:'a] = [a:'a]\n\
    assume 0\n\
    term ?x0:num. [x:'a] = [a:'a]\n\
    term 0\n\
    ex_i 1 2 1\n\
    disch 0 2\n\
    term [x:'a]\n\
    gen 3 3\n\
    term \\x0:'a. x0 = [a:'a]\n\
    spec 4 0\n\
    term \\x0:num. [a:'a]\n\
    spec 5 5\n\
    norm 6\n\
    mp 7 4\n\
    term [a:'a]\n\
    gen 6 8\n\
";

// The facts that it takes.
const COUNTABLE_SINGLETON_FACTS: &[Fact] = &[facts::COUNTABLE_ENUMERATED];

// Unit is countable.
const COUNTABLE_UNIT: &str = "\
    term [x:unit]\n\
    spec 0 0\n\
    term [u:unit]\n\
    spec 1 2\n\
    eqt_i 3\n\
    abs 0 4\n\
    term countable{unit}\n\
    refl 2\n\
    comb 6 5\n\
    type unit\n\
    inst_type 1 a 0\n\
    spec 1 8\n\
    eq_mp 7 9\n\
";

// The facts that it takes.
const COUNTABLE_UNIT_FACTS: &[Fact] = &[th_base::facts::UNIT_EQUAL, facts::COUNTABLE_SINGLETON];

// The truth values are countable.
const COUNTABLE_BOOL: &str = "\
    term [p:bool]\n\
    assume 0\n\
    term 0\n\
    refl 1\n\
    deduct 4 5\n\
    term ?x0:num. [p:bool] = (x0 = 0)\n\
    ex_i 2 1 6\n\
    term suc [n:num] = 0\n\
    spec 3 0\n\
    term [n:num]\n\
    spec 4 1\n\
    eq_mp 8 9\n\
    spec 0 0\n\
    term ~ [p:bool]\n\
    assume 5\n\
    eq_mp 11 12\n\
    sym 10\n\
    trans 13 14\n\
    term suc [n:num]\n\
    ex_i 2 6 15\n\
    spec 0 2\n\
    disj_e 17 7 16\n\
    term T\n\
    disch 7 18\n\
    gen 0 19\n\
    type bool\n\
    inst_type 3 a 0\n\
    term \\x0:bool. T\n\
    spec 8 21\n\
    term \\x0:num. x0 = 0\n\
    spec 9 22\n\
    norm 23\n\
    mp 24 20\n\
";

// The facts that it takes.
const COUNTABLE_BOOL_FACTS: &[Fact] = &[
    th_base::facts::NOT_AS_EQUATION,
    th_num::facts::SUC_NOT_ZERO,
    th_base::facts::EXCLUDED_MIDDLE,
    facts::COUNTABLE_ENUMERATED,
];

// What the pairs of numbers enumerate is countable.
const COUNTABLE_ENUMERATED_TWICE: &str = "\
    term !x0:'a. [s:'a -> bool] x0 ==> (?x1:num. ?x2:num. x0 = [f:num -> num -> 'a] x1 x2)\n\
    assume 0\n\
    term [z:'a]\n\
    spec 1 0\n\
    term \\x0:num. \\x1:num. \\x2:'a. [f:num -> num -> 'a] x0 x1\n\
    spec 2 3\n\
    norm 4\n\
    term ([h:num -> 'a] 0 = [z:'a]) /\\ (!x0:num. !x1:num. [h:num -> 'a] (num.cons x0 x1) = [f:num -> num -> 'a] x0 x1)\n\
    assume 3\n\
    conj_r 6\n\
    term [m:num]\n\
    spec 4 7\n\
    term [n:num]\n\
    spec 5 8\n\
    term [x:'a] = [f:num -> num -> 'a] [m:num] [n:num]\n\
    assume 6\n\
    sym 9\n\
    trans 10 11\n\
    term ?x0:num. [x:'a] = [h:num -> 'a] x0\n\
    term num.cons [m:num] [n:num]\n\
    ex_i 7 8 12\n\
    term ?x0:num. [x:'a] = [f:num -> num -> 'a] [m:num] x0\n\
    assume 9\n\
    choose 5 14 13\n\
    term [x:'a]\n\
    spec 10 2\n\
    term [s:'a -> bool] [x:'a]\n\
    assume 11\n\
    mp 16 17\n\
    choose 4 18 15\n\
    term [s:'a -> bool]\n\
    spec 12 1\n\
    term [h:num -> 'a]\n\
    spec 13 20\n\
    disch 11 19\n\
    gen 10 22\n\
    mp 21 23\n\
    choose 13 5 24\n\
    disch 0 25\n\
    term [f:num -> num -> 'a]\n\
    gen 14 26\n\
    gen 12 27\n\
";

// The facts that it takes.
const COUNTABLE_ENUMERATED_TWICE_FACTS: &[Fact] = &[
    th_num::facts::PATH_RECURSION,
    facts::COUNTABLE_ENUMERATED,
];

// The definitions and the facts, in order.
pub(crate) static STEPS: [Step; 11] = [
    Step::Constant(43),
    Step::Prove(
        facts::COUNTABLE_ENUMERATED,
        COUNTABLE_ENUMERATED_FACTS,
        COUNTABLE_ENUMERATED,
    ),
    Step::Prove(
        facts::COUNTABLE_ENUMERATION,
        COUNTABLE_ENUMERATION_FACTS,
        COUNTABLE_ENUMERATION,
    ),
    Step::Prove(
        facts::COUNTABLE_SUBSET,
        COUNTABLE_SUBSET_FACTS,
        COUNTABLE_SUBSET,
    ),
    Step::Prove(
        facts::COUNTABLE_ON_TYPE,
        COUNTABLE_ON_TYPE_FACTS,
        COUNTABLE_ON_TYPE,
    ),
    Step::Prove(facts::COUNTABLE_NUM, COUNTABLE_NUM_FACTS, COUNTABLE_NUM),
    Step::Prove(
        facts::COUNTABLE_EMPTY,
        COUNTABLE_EMPTY_FACTS,
        COUNTABLE_EMPTY,
    ),
    Step::Prove(
        facts::COUNTABLE_SINGLETON,
        COUNTABLE_SINGLETON_FACTS,
        COUNTABLE_SINGLETON,
    ),
    Step::Prove(facts::COUNTABLE_UNIT, COUNTABLE_UNIT_FACTS, COUNTABLE_UNIT),
    Step::Prove(facts::COUNTABLE_BOOL, COUNTABLE_BOOL_FACTS, COUNTABLE_BOOL),
    Step::Prove(
        facts::COUNTABLE_ENUMERATED_TWICE,
        COUNTABLE_ENUMERATED_TWICE_FACTS,
        COUNTABLE_ENUMERATED_TWICE,
    ),
];
