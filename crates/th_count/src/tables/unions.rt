// Written by `python3 tools/library.py write` from the scripts of tools/library/.
//! Unions, images, products and sums of countable sets: the proof tables, and the steps of the building. Each line of a table puts
//! one type, term or theorem at the end of its register; the theorems begin with the facts that the table takes.

use crate::facts;
use library_facts::Fact;
use library_steps::Step;

// The union of countably many countable sets is countable.
const COUNTABLE_UNION: &str = "\
    term countable{'a} [s:'a -> bool]\n\
    assume 0\n\
    term !x0:'a. [s:'a -> bool] x0 ==> countable{'b} ([i:'a -> 'b -> bool] x0)\n\
    assume 1\n\
    term [s:'a -> bool] [z:'a] /\\ [i:'a -> 'b -> bool] [z:'a] [y:'b]\n\
    assume 2\n\
    conj_l 4\n\
    conj_r 4\n\
    term [z:'a]\n\
    spec 3 3\n\
    mp 7 5\n\
    term !x0:'b -> bool. countable{'b} x0 ==> (!x1:'b. x0 x1 ==> (?x2:num. x1 = [d:('b -> bool) -> num -> 'b] x0 x2))\n\
    assume 4\n\
    term [i:'a -> 'b -> bool] [z:'a]\n\
    spec 5 9\n\
    mp 10 8\n\
    term [y:'b]\n\
    spec 6 11\n\
    mp 12 6\n\
    term [z:'a] = [e:('a -> bool) -> num -> 'a] [s:'a -> bool] [m:num]\n\
    assume 7\n\
    term [v:'a]\n\
    term ?x0:num. [y:'b] = [d:('b -> bool) -> num -> 'b] ([i:'a -> 'b -> bool] [v:'a]) x0\n\
    subst 8 9 14 13\n\
    term ?x0:num. ?x1:num. [y:'b] = [d:('b -> bool) -> num -> 'b] ([i:'a -> 'b -> bool] ([e:('a -> bool) -> num -> 'a] [s:'a -> bool] x0)) x1\n\
    term [m:num]\n\
    ex_i 10 11 15\n\
    term !x0:'a -> bool. countable{'a} x0 ==> (!x1:'a. x0 x1 ==> (?x2:num. x1 = [e:('a -> bool) -> num -> 'a] x0 x2))\n\
    assume 12\n\
    term [s:'a -> bool]\n\
    spec 13 17\n\
    mp 18 2\n\
    spec 3 19\n\
    mp 20 5\n\
    choose 11 21 16\n\
    term ?x0:'a. [s:'a -> bool] x0 /\\ [i:'a -> 'b -> bool] x0 [y:'b]\n\
    assume 14\n\
    choose 3 23 22\n\
    disch 14 24\n\
    gen 6 25\n\
    type 'b\n\
    inst_type 0 a 0\n\
    term \\x0:'b. ?x1:'a. [s:'a -> bool] x1 /\\ [i:'a -> 'b -> bool] x1 x0\n\
    spec 15 27\n\
    term \\x0:num. [d:('b -> bool) -> num -> 'b] ([i:'a -> 'b -> bool] ([e:('a -> bool) -> num -> 'a] [s:'a -> bool] x0))\n\
    spec 16 28\n\
    norm 29\n\
    mp 30 26\n\
    term [e:('a -> bool) -> num -> 'a]\n\
    choose 17 1 31\n\
    inst_type 1 a 0\n\
    term [d:('b -> bool) -> num -> 'b]\n\
    choose 18 33 32\n\
    disch 1 34\n\
    disch 0 35\n\
    term [i:'a -> 'b -> bool]\n\
    gen 19 36\n\
    gen 13 37\n\
";

// The facts that it takes.
const COUNTABLE_UNION_FACTS: &[Fact] = &[
    facts::COUNTABLE_ENUMERATED_TWICE,
    facts::COUNTABLE_ENUMERATION,
];

// The union of two countable sets is countable.
const COUNTABLE_UNION_OF_TWO: &str = "\
    term countable{'a} [s:'a -> bool]\n\
    assume 0\n\
    term [s:'a -> bool] [x:'a]\n\
    assume 1\n\
    term !x0:'a -> bool. countable{'a} x0 ==> (!x1:'a. x0 x1 ==> (?x2:num. x1 = [e:('a -> bool) -> num -> 'a] x0 x2))\n\
    assume 2\n\
    term [s:'a -> bool]\n\
    spec 3 5\n\
    mp 6 3\n\
    term [x:'a]\n\
    spec 4 7\n\
    mp 8 4\n\
    type num -> 'a\n\
    inst_type 0 a 0\n\
    term [e:('a -> bool) -> num -> 'a] [s:'a -> bool]\n\
    spec 5 10\n\
    term \\x0:num. \\x1:num -> 'a. [e:('a -> bool) -> num -> 'a] [t:'a -> bool]\n\
    spec 6 11\n\
    norm 12\n\
    term ([f:num -> num -> 'a] 0 = [e:('a -> bool) -> num -> 'a] [s:'a -> bool]) /\\ (!x0:num. [f:num -> num -> 'a] (suc x0) = [e:('a -> bool) -> num -> 'a] [t:'a -> bool])\n\
    assume 7\n\
    conj_l 14\n\
    sym 15\n\
    term [v:num -> 'a]\n\
    term ?x0:num. [x:'a] = [v:num -> 'a] x0\n\
    subst 8 9 16 9\n\
    term ?x0:num. ?x1:num. [x:'a] = [f:num -> num -> 'a] x0 x1\n\
    term 0\n\
    ex_i 10 11 17\n\
    term [t:'a -> bool]\n\
    inst 9 3 12\n\
    conj_r 14\n\
    term [m:num]\n\
    spec 13 20\n\
    sym 21\n\
    subst 8 9 22 19\n\
    term suc [m:num]\n\
    ex_i 10 14 23\n\
    term [s:'a -> bool] [x:'a] \\/ [t:'a -> bool] [x:'a]\n\
    assume 15\n\
    disj_e 25 18 24\n\
    disch 15 26\n\
    gen 4 27\n\
    term \\x0:'a. [s:'a -> bool] x0 \\/ [t:'a -> bool] x0\n\
    spec 16 1\n\
    term [f:num -> num -> 'a]\n\
    spec 17 29\n\
    norm 30\n\
    mp 31 28\n\
    choose 17 13 32\n\
    term [e:('a -> bool) -> num -> 'a]\n\
    choose 18 2 33\n\
    term countable{'a} [t:'a -> bool]\n\
    disch 19 34\n\
    disch 0 35\n\
    gen 12 36\n\
    gen 3 37\n\
";

// The facts that it takes.
const COUNTABLE_UNION_OF_TWO_FACTS: &[Fact] = &[
    th_num::facts::NUM_RECURSION,
    facts::COUNTABLE_ENUMERATED_TWICE,
    facts::COUNTABLE_ENUMERATION,
];

// The image of a countable set is countable.
const COUNTABLE_IMAGE: &str = "\
    term countable{'a} [s:'a -> bool]\n\
    assume 0\n\
    term [s:'a -> bool]\n\
    spec 1 0\n\
    term \\x0:'a. \\x1:'b. x1 = [f:'a -> 'b] x0\n\
    spec 2 3\n\
    norm 4\n\
    mp 5 2\n\
    type 'b\n\
    inst_type 1 a 0\n\
    term [f:'a -> 'b] [x:'a]\n\
    spec 3 7\n\
    term [s:'a -> bool] [x:'a]\n\
    disch 4 8\n\
    term [x:'a]\n\
    gen 5 9\n\
    mp 6 10\n\
    disch 0 11\n\
    term [f:'a -> 'b]\n\
    gen 6 12\n\
    gen 1 13\n\
";

// The facts that it takes.
const COUNTABLE_IMAGE_FACTS: &[Fact] = &[facts::COUNTABLE_UNION, facts::COUNTABLE_SINGLETON];

// The values of a function on a countable type are countable.
const COUNTABLE_RANGE: &str = "\
    term countable{'a} (\\x0:'a. T)\n\
    assume 0\n\
    term \\x0:'a. T\n\
    spec 1 0\n\
    term [f:'a -> 'b]\n\
    spec 2 4\n\
    norm 5\n\
    mp 6 3\n\
    term [y:'b] = [f:'a -> 'b] [x:'a]\n\
    assume 3\n\
    conj_i 1 8\n\
    term ?x0:'a. T /\\ ([y:'b] = [f:'a -> 'b] x0)\n\
    term [x:'a]\n\
    ex_i 4 5 9\n\
    term ?x0:'a. [y:'b] = [f:'a -> 'b] x0\n\
    assume 6\n\
    choose 5 11 10\n\
    type 'b\n\
    inst_type 2 a 0\n\
    term \\x0:'b. ?x1:'a. x0 = [f:'a -> 'b] x1\n\
    spec 7 13\n\
    term \\x0:'b. ?x1:'a. T /\\ (x0 = [f:'a -> 'b] x1)\n\
    spec 8 14\n\
    norm 15\n\
    disch 6 12\n\
    term [y:'b]\n\
    gen 9 17\n\
    mp 16 7\n\
    mp 19 18\n\
    disch 0 20\n\
    gen 2 21\n\
";

// The facts that it takes.
const COUNTABLE_RANGE_FACTS: &[Fact] = &[
    facts::COUNTABLE_IMAGE,
    th_base::facts::TRUTH,
    facts::COUNTABLE_SUBSET,
];

// What is mapped injectively into a countable set is countable.
const COUNTABLE_INJECTION: &str = "\
    term countable{'b} [t:'b -> bool]\n\
    assume 0\n\
    term !x0:'a. [s:'a -> bool] x0 ==> [t:'b -> bool] ([k:'a -> 'b] x0)\n\
    assume 1\n\
    term !x0:'a. !x1:'a. [s:'a -> bool] x0 ==> ([s:'a -> bool] x1 ==> (([k:'a -> 'b] x0 = [k:'a -> 'b] x1) ==> (x0 = x1)))\n\
    assume 2\n\
    term [s:'a -> bool] [x:'a]\n\
    assume 3\n\
    term [k:'a -> 'b] [x:'a]\n\
    refl 4\n\
    conj_i 6 7\n\
    term ?x0:'a. [s:'a -> bool] x0 /\\ ([k:'a -> 'b] x0 = [k:'a -> 'b] [x:'a])\n\
    term [x:'a]\n\
    ex_i 5 6 8\n\
    term \\x0:'a. [s:'a -> bool] x0 /\\ ([k:'a -> 'b] x0 = [k:'a -> 'b] [x:'a])\n\
    spec 7 0\n\
    norm 10\n\
    mp 11 9\n\
    spec 6 5\n\
    term some{'a} (\\x0:'a. [s:'a -> bool] x0 /\\ ([k:'a -> 'b] x0 = [k:'a -> 'b] [x:'a]))\n\
    spec 8 13\n\
    conj_l 12\n\
    mp 14 6\n\
    mp 16 15\n\
    spec 6 4\n\
    mp 18 6\n\
    conj_r 12\n\
    sym 20\n\
    mp 17 21\n\
    conj_i 19 22\n\
    term ?x0:'b. [t:'b -> bool] x0 /\\ ([x:'a] = some{'a} (\\x1:'a. [s:'a -> bool] x1 /\\ ([k:'a -> 'b] x1 = x0)))\n\
    ex_i 9 4 23\n\
    type 'b\n\
    type 'a\n\
    inst_type 1 a 0 b 1\n\
    term [t:'b -> bool]\n\
    spec 10 25\n\
    term \\x0:'b. some{'a} (\\x1:'a. [s:'a -> bool] x1 /\\ ([k:'a -> 'b] x1 = x0))\n\
    spec 11 26\n\
    norm 27\n\
    mp 28 3\n\
    term [s:'a -> bool]\n\
    spec 12 2\n\
    term \\x0:'a. ?x1:'b. [t:'b -> bool] x1 /\\ (x0 = some{'a} (\\x2:'a. [s:'a -> bool] x2 /\\ ([k:'a -> 'b] x2 = x1)))\n\
    spec 13 30\n\
    norm 31\n\
    disch 3 24\n\
    gen 6 33\n\
    mp 32 29\n\
    mp 35 34\n\
    disch 2 36\n\
    disch 1 37\n\
    disch 0 38\n\
    term [k:'a -> 'b]\n\
    gen 14 39\n\
    gen 10 40\n\
    gen 12 41\n\
";

// The facts that it takes.
const COUNTABLE_INJECTION_FACTS: &[Fact] = &[
    th_base::facts::SOME_HOLDS,
    facts::COUNTABLE_IMAGE,
    facts::COUNTABLE_SUBSET,
];

// The pairs from two countable sets are countable.
const COUNTABLE_PRODUCT: &str = "\
    term countable{'a} [s:'a -> bool]\n\
    assume 0\n\
    term countable{'b} [t:'b -> bool]\n\
    assume 1\n\
    type ('a,'b) prod\n\
    inst_type 0 b 0\n\
    term [s:'a -> bool]\n\
    spec 2 6\n\
    term \\x0:'a. \\x1:('a,'b) prod. ?x2:'b. [t:'b -> bool] x2 /\\ (x1 = pair{'a,'b} x0 x2)\n\
    spec 3 7\n\
    norm 8\n\
    type 'b\n\
    inst_type 1 a 1 b 0\n\
    term [t:'b -> bool]\n\
    spec 4 10\n\
    term pair{'a,'b} [a:'a]\n\
    spec 5 11\n\
    mp 12 5\n\
    term [s:'a -> bool] [a:'a]\n\
    disch 6 13\n\
    term [a:'a]\n\
    gen 7 14\n\
    mp 9 4\n\
    mp 16 15\n\
    term [s:'a -> bool] (fst{'a,'b} [p:('a,'b) prod]) /\\ [t:'b -> bool] (snd{'a,'b} [p:('a,'b) prod])\n\
    assume 8\n\
    conj_r 18\n\
    term [p:('a,'b) prod]\n\
    spec 9 2\n\
    sym 20\n\
    conj_i 19 21\n\
    term ?x0:'b. [t:'b -> bool] x0 /\\ ([p:('a,'b) prod] = pair{'a,'b} (fst{'a,'b} [p:('a,'b) prod]) x0)\n\
    term snd{'a,'b} [p:('a,'b) prod]\n\
    ex_i 10 11 22\n\
    conj_l 18\n\
    conj_i 24 23\n\
    term ?x0:'a. [s:'a -> bool] x0 /\\ (?x1:'b. [t:'b -> bool] x1 /\\ ([p:('a,'b) prod] = pair{'a,'b} x0 x1))\n\
    term fst{'a,'b} [p:('a,'b) prod]\n\
    ex_i 12 13 25\n\
    inst_type 3 a 0\n\
    term \\x0:('a,'b) prod. [s:'a -> bool] (fst{'a,'b} x0) /\\ [t:'b -> bool] (snd{'a,'b} x0)\n\
    spec 14 27\n\
    term \\x0:('a,'b) prod. ?x1:'a. [s:'a -> bool] x1 /\\ (?x2:'b. [t:'b -> bool] x2 /\\ (x0 = pair{'a,'b} x1 x2))\n\
    spec 15 28\n\
    norm 29\n\
    disch 8 26\n\
    gen 9 31\n\
    mp 30 17\n\
    mp 33 32\n\
    disch 1 34\n\
    disch 0 35\n\
    gen 4 36\n\
    gen 2 37\n\
";

// The facts that it takes.
const COUNTABLE_PRODUCT_FACTS: &[Fact] = &[
    facts::COUNTABLE_UNION,
    facts::COUNTABLE_IMAGE,
    th_base::facts::PAIR_OF_COMPONENTS,
    facts::COUNTABLE_SUBSET,
];

// The product of countable types is countable.
const COUNTABLE_PROD: &str = "\
    term countable{'a} (\\x0:'a. T)\n\
    assume 0\n\
    term countable{'b} (\\x0:'b. T)\n\
    assume 1\n\
    term \\x0:'a. T\n\
    spec 2 0\n\
    term \\x0:'b. T\n\
    spec 3 4\n\
    norm 5\n\
    mp 6 2\n\
    mp 7 3\n\
    conj_i 1 1\n\
    eqt_i 9\n\
    term [v:bool]\n\
    term countable{('a,'b) prod} (\\x0:('a,'b) prod. [v:bool])\n\
    subst 4 5 10 8\n\
    disch 1 11\n\
    disch 0 12\n\
";

// The facts that it takes.
const COUNTABLE_PROD_FACTS: &[Fact] = &[facts::COUNTABLE_PRODUCT, th_base::facts::TRUTH];

// The sum of countable types is countable.
const COUNTABLE_SUM: &str = "\
    term countable{'a} (\\x0:'a. T)\n\
    assume 0\n\
    term countable{'b} (\\x0:'b. T)\n\
    assume 1\n\
    type ('a,'b) sum\n\
    inst_type 0 b 0\n\
    term inl{'a,'b}\n\
    spec 2 5\n\
    mp 6 3\n\
    type 'b\n\
    inst_type 0 a 1 b 0\n\
    term inr{'b,'a}\n\
    spec 3 8\n\
    mp 9 4\n\
    inst_type 1 a 0\n\
    term \\x0:('a,'b) sum. ?x1:'a. x0 = inl{'a,'b} x1\n\
    spec 4 11\n\
    term \\x0:('a,'b) sum. ?x1:'b. x0 = inr{'b,'a} x1\n\
    spec 5 12\n\
    norm 13\n\
    mp 14 7\n\
    mp 15 10\n\
    term [p:('a,'b) sum]\n\
    spec 6 2\n\
    eqt_i 17\n\
    abs 6 18\n\
    term countable{('a,'b) sum}\n\
    refl 7\n\
    comb 20 19\n\
    eq_mp 21 16\n\
    disch 1 22\n\
    disch 0 23\n\
";

// The facts that it takes.
const COUNTABLE_SUM_FACTS: &[Fact] = &[
    facts::COUNTABLE_RANGE,
    facts::COUNTABLE_UNION_OF_TWO,
    th_base::facts::INL_OR_INR,
];

// The definitions and the facts, in order.
pub(crate) static STEPS: [Step; 8] = [
    Step::Prove(
        facts::COUNTABLE_UNION,
        COUNTABLE_UNION_FACTS,
        COUNTABLE_UNION,
    ),
    Step::Prove(
        facts::COUNTABLE_UNION_OF_TWO,
        COUNTABLE_UNION_OF_TWO_FACTS,
        COUNTABLE_UNION_OF_TWO,
    ),
    Step::Prove(
        facts::COUNTABLE_IMAGE,
        COUNTABLE_IMAGE_FACTS,
        COUNTABLE_IMAGE,
    ),
    Step::Prove(
        facts::COUNTABLE_RANGE,
        COUNTABLE_RANGE_FACTS,
        COUNTABLE_RANGE,
    ),
    Step::Prove(
        facts::COUNTABLE_INJECTION,
        COUNTABLE_INJECTION_FACTS,
        COUNTABLE_INJECTION,
    ),
    Step::Prove(
        facts::COUNTABLE_PRODUCT,
        COUNTABLE_PRODUCT_FACTS,
        COUNTABLE_PRODUCT,
    ),
    Step::Prove(facts::COUNTABLE_PROD, COUNTABLE_PROD_FACTS, COUNTABLE_PROD),
    Step::Prove(facts::COUNTABLE_SUM, COUNTABLE_SUM_FACTS, COUNTABLE_SUM),
];
