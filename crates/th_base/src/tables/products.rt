// Written by `python3 tools/library.py write` from the scripts of tools/library/.
//! Unit and products: the proof tables, and the steps of the building. Each line of a table puts
//! one type, term or theorem at the end of its register; the theorems begin with the facts that the table takes.

use crate::facts;
use library_facts::Fact;
use library_steps::Step;

// The truth value T represents an element of unit.
const UNIT_INHABITED: &str = "\
    term (\\x0:bool. x0) T\n\
    beta_norm 0\n\
    eqt_e 0\n\
";

// An element of unit is the one that its representation stands for.
const UNIT_ABS_REP: &str = "\
    type_abs 12\n\
    term [a:unit]\n\
    gen 0 0\n\
";

// The facts that it takes.
const UNIT_ABS_REP_FACTS: &[Fact] = &[];

// A truth value represents an element of unit where it holds.
const UNIT_REP_ABS: &str = "\
    type_rep 12\n\
    term [r:bool]\n\
    gen 0 0\n\
    norm 1\n\
";

// The facts that it takes.
const UNIT_REP_ABS_FACTS: &[Fact] = &[];

// Unit has one element.
const UNIT_EQUAL: &str = "\
    term [u:unit]\n\
    spec 0 0\n\
    term unit.rep [u:unit]\n\
    spec 1 1\n\
    term unit.rep\n\
    refl 2\n\
    comb 4 2\n\
    sym 3\n\
    eq_mp 6 5\n\
    eqt_i 7\n\
    sym 2\n\
    term unit.abs\n\
    refl 3\n\
    comb 10 8\n\
    trans 9 11\n\
    term [v:unit]\n\
    inst 12 0 4\n\
    sym 13\n\
    trans 12 14\n\
    gen 4 15\n\
    gen 0 16\n\
";

// The facts that it takes.
const UNIT_EQUAL_FACTS: &[Fact] = &[facts::UNIT_ABS_REP, facts::UNIT_REP_ABS];

// The graph of a pair represents an element of the product.
const PROD_INHABITED: &str = "\
    term prod.graph{'a,'b} [x:'a] [y:'b]\n\
    refl 0\n\
    term ?x0:'b. prod.graph{'a,'b} [x:'a] [y:'b] = prod.graph{'a,'b} [x:'a] x0\n\
    term [y:'b]\n\
    ex_i 1 2 0\n\
    term ?x0:'a. ?x1:'b. prod.graph{'a,'b} [x:'a] [y:'b] = prod.graph{'a,'b} x0 x1\n\
    term [x:'a]\n\
    ex_i 3 4 1\n\
    term (\\x0:'a -> 'b -> bool. ?x1:'a. ?x2:'b. x0 = prod.graph{'a,'b} x1 x2) (prod.graph{'a,'b} [x:'a] [y:'b])\n\
    beta_norm 5\n\
    sym 3\n\
    eq_mp 4 2\n\
";

// An element of a product is the one that its representation stands for.
const PROD_ABS_REP: &str = "\
    type_abs 15\n\
    term [a:('a,'b) prod]\n\
    gen 0 0\n\
";

// The facts that it takes.
const PROD_ABS_REP_FACTS: &[Fact] = &[];

// A relation represents an element of a product where it is the graph of a pair.
const PROD_REP_ABS: &str = "\
    type_rep 15\n\
    term [r:'a -> 'b -> bool]\n\
    gen 0 0\n\
    norm 1\n\
";

// The facts that it takes.
const PROD_REP_ABS_FACTS: &[Fact] = &[];

// A pair is represented by its graph.
const PAIR_REP: &str = "\
    term prod.graph{'a,'b} [x:'a] [y:'b]\n\
    refl 0\n\
    term ?x0:'b. prod.graph{'a,'b} [x:'a] [y:'b] = prod.graph{'a,'b} [x:'a] x0\n\
    term [y:'b]\n\
    ex_i 1 2 1\n\
    term ?x0:'a. ?x1:'b. prod.graph{'a,'b} [x:'a] [y:'b] = prod.graph{'a,'b} x0 x1\n\
    term [x:'a]\n\
    ex_i 3 4 2\n\
    spec 0 0\n\
    eq_mp 4 3\n\
    def 16\n\
    term pair{'a,'b} [x:'a] [y:'b]\n\
    rewrite_all 5 6\n\
    norm 7\n\
    term prod.rep{'a,'b}\n\
    refl 6\n\
    comb 9 8\n\
    trans 10 5\n\
    gen 2 11\n\
    gen 4 12\n\
";

// The facts that it takes.
const PAIR_REP_FACTS: &[Fact] = &[facts::PROD_REP_ABS];

// Equal pairs have equal components.
const PAIR_INJECTIVE: &str = "\
    term pair{'a,'b} [x:'a] [y:'b] = pair{'a,'b} [z:'a] [w:'b]\n\
    assume 0\n\
    term [x:'a]\n\
    spec 1 0\n\
    term [y:'b]\n\
    spec 2 2\n\
    term [v:('a,'b) prod]\n\
    term prod.rep{'a,'b} [v:('a,'b) prod] = prod.graph{'a,'b} [x:'a] [y:'b]\n\
    subst 3 4 1 3\n\
    sym 4\n\
    term [z:'a]\n\
    spec 5 0\n\
    term [w:'b]\n\
    spec 6 6\n\
    trans 5 7\n\
    refl 1\n\
    comb 8 9\n\
    refl 2\n\
    comb 10 11\n\
    def 14\n\
    term [v:'a -> 'b -> 'a -> 'b -> bool]\n\
    term [v:'a -> 'b -> 'a -> 'b -> bool] [x:'a] [y:'b] [x:'a] [y:'b] = [v:'a -> 'b -> 'a -> 'b -> bool] [z:'a] [w:'b] [x:'a] [y:'b]\n\
    subst 7 8 13 12\n\
    norm 14\n\
    conj_i 9 11\n\
    eq_mp 15 16\n\
    disch 0 17\n\
    gen 6 18\n\
    gen 5 19\n\
    gen 2 20\n\
    gen 1 21\n\
";

// The facts that it takes.
const PAIR_INJECTIVE_FACTS: &[Fact] = &[facts::PAIR_REP];

// Each element of a product is a pair.
const PAIR_EXHAUSTS: &str = "\
    term [p:('a,'b) prod]\n\
    spec 0 0\n\
    term prod.rep{'a,'b} [p:('a,'b) prod]\n\
    spec 1 1\n\
    term prod.rep{'a,'b}\n\
    refl 2\n\
    comb 4 2\n\
    sym 3\n\
    eq_mp 6 5\n\
    term prod.rep{'a,'b} [p:('a,'b) prod] = prod.graph{'a,'b} [x:'a] [y:'b]\n\
    assume 3\n\
    term prod.abs{'a,'b}\n\
    refl 4\n\
    comb 9 8\n\
    sym 2\n\
    def 16\n\
    term pair{'a,'b} [x:'a] [y:'b]\n\
    rewrite_all 5 12\n\
    norm 13\n\
    sym 14\n\
    trans 11 10\n\
    trans 16 15\n\
    term ?x0:'b. [p:('a,'b) prod] = pair{'a,'b} [x:'a] x0\n\
    term [y:'b]\n\
    ex_i 6 7 17\n\
    term ?x0:'a. ?x1:'b. [p:('a,'b) prod] = pair{'a,'b} x0 x1\n\
    term [x:'a]\n\
    ex_i 8 9 18\n\
    term ?x0:'b. prod.rep{'a,'b} [p:('a,'b) prod] = prod.graph{'a,'b} [x:'a] x0\n\
    assume 10\n\
    choose 7 20 19\n\
    choose 9 7 21\n\
    gen 0 22\n\
";

// The facts that it takes.
const PAIR_EXHAUSTS_FACTS: &[Fact] = &[facts::PROD_ABS_REP, facts::PROD_REP_ABS];

// The first component of a pair.
const FST_PAIR: &str = "\
    def 17\n\
    term fst{'a,'b} (pair{'a,'b} [x:'a] [y:'b])\n\
    rewrite_all 0 2\n\
    norm 3\n\
    term \\x0:'a. ?x1:'b. pair{'a,'b} [x:'a] [y:'b] = pair{'a,'b} x0 x1\n\
    spec 1 0\n\
    term [x:'a]\n\
    spec 2 5\n\
    norm 6\n\
    term pair{'a,'b} [x:'a] [y:'b]\n\
    refl 3\n\
    term ?x0:'b. pair{'a,'b} [x:'a] [y:'b] = pair{'a,'b} [x:'a] x0\n\
    term [y:'b]\n\
    ex_i 4 5 8\n\
    spec 2 1\n\
    spec 5 10\n\
    term [a:'a]\n\
    spec 6 11\n\
    term [b:'b]\n\
    spec 7 12\n\
    term pair{'a,'b} [x:'a] [y:'b] = pair{'a,'b} [a:'a] [b:'b]\n\
    assume 8\n\
    mp 13 14\n\
    conj_l 15\n\
    sym 16\n\
    term ?x0:'b. pair{'a,'b} [x:'a] [y:'b] = pair{'a,'b} [a:'a] x0\n\
    assume 9\n\
    choose 7 18 17\n\
    disch 9 19\n\
    gen 6 20\n\
    mp 7 9\n\
    mp 22 21\n\
    trans 4 23\n\
    gen 5 24\n\
    gen 2 25\n\
";

// The facts that it takes.
const FST_PAIR_FACTS: &[Fact] = &[facts::UNIQUE_CHOICE, facts::PAIR_INJECTIVE];

// The second component of a pair.
const SND_PAIR: &str = "\
    def 18\n\
    term snd{'a,'b} (pair{'a,'b} [x:'a] [y:'b])\n\
    rewrite_all 0 2\n\
    norm 3\n\
    type 'b\n\
    inst_type 0 a 0\n\
    term \\x0:'b. ?x1:'a. pair{'a,'b} [x:'a] [y:'b] = pair{'a,'b} x1 x0\n\
    spec 1 5\n\
    term [y:'b]\n\
    spec 2 6\n\
    norm 7\n\
    term pair{'a,'b} [x:'a] [y:'b]\n\
    refl 3\n\
    term ?x0:'a. pair{'a,'b} [x:'a] [y:'b] = pair{'a,'b} x0 [y:'b]\n\
    term [x:'a]\n\
    ex_i 4 5 9\n\
    spec 5 1\n\
    spec 2 11\n\
    term [a:'a]\n\
    spec 6 12\n\
    term [b:'b]\n\
    spec 7 13\n\
    term pair{'a,'b} [x:'a] [y:'b] = pair{'a,'b} [a:'a] [b:'b]\n\
    assume 8\n\
    mp 14 15\n\
    conj_r 16\n\
    sym 17\n\
    term ?x0:'a. pair{'a,'b} [x:'a] [y:'b] = pair{'a,'b} x0 [b:'b]\n\
    assume 9\n\
    choose 6 19 18\n\
    disch 9 20\n\
    gen 7 21\n\
    mp 8 10\n\
    mp 23 22\n\
    trans 4 24\n\
    gen 2 25\n\
    gen 5 26\n\
";

// The facts that it takes.
const SND_PAIR_FACTS: &[Fact] = &[facts::UNIQUE_CHOICE, facts::PAIR_INJECTIVE];

// An element of a product is the pair of its components.
const PAIR_OF_COMPONENTS: &str = "\
    term [x:'a]\n\
    spec 0 0\n\
    term [y:'b]\n\
    spec 1 3\n\
    term pair{'a,'b}\n\
    refl 2\n\
    comb 5 4\n\
    spec 0 1\n\
    spec 1 7\n\
    comb 6 8\n\
    term [p:('a,'b) prod] = pair{'a,'b} [x:'a] [y:'b]\n\
    assume 3\n\
    sym 10\n\
    term [v:('a,'b) prod]\n\
    term pair{'a,'b} (fst{'a,'b} [v:('a,'b) prod]) (snd{'a,'b} [v:('a,'b) prod]) = [v:('a,'b) prod]\n\
    subst 4 5 11 9\n\
    term [p:('a,'b) prod]\n\
    spec 6 2\n\
    term ?x0:'b. [p:('a,'b) prod] = pair{'a,'b} [x:'a] x0\n\
    assume 7\n\
    choose 1 14 12\n\
    choose 0 13 15\n\
    gen 6 16\n\
";

// The facts that it takes.
const PAIR_OF_COMPONENTS_FACTS: &[Fact] = &[facts::FST_PAIR, facts::SND_PAIR, facts::PAIR_EXHAUSTS];

// The definitions and the facts, in order.
pub(crate) static STEPS: [Step; 22] = [
    Step::NewType(12, UNIT_INHABITED),
    Step::Prove(facts::UNIT_ABS_REP, UNIT_ABS_REP_FACTS, UNIT_ABS_REP),
    Step::Prove(facts::UNIT_REP_ABS, UNIT_REP_ABS_FACTS, UNIT_REP_ABS),
    Step::Prove(facts::UNIT_EQUAL, UNIT_EQUAL_FACTS, UNIT_EQUAL),
    Step::Constant(13),
    Step::Constant(14),
    Step::NewType(15, PROD_INHABITED),
    Step::Prove(facts::PROD_ABS_REP, PROD_ABS_REP_FACTS, PROD_ABS_REP),
    Step::Prove(facts::PROD_REP_ABS, PROD_REP_ABS_FACTS, PROD_REP_ABS),
    Step::Constant(16),
    Step::Constant(17),
    Step::Constant(18),
    Step::Prove(facts::PAIR_REP, PAIR_REP_FACTS, PAIR_REP),
    Step::Prove(facts::PAIR_INJECTIVE, PAIR_INJECTIVE_FACTS, PAIR_INJECTIVE),
    Step::Prove(facts::PAIR_EXHAUSTS, PAIR_EXHAUSTS_FACTS, PAIR_EXHAUSTS),
    Step::Prove(facts::FST_PAIR, FST_PAIR_FACTS, FST_PAIR),
    Step::Prove(facts::SND_PAIR, SND_PAIR_FACTS, SND_PAIR),
    Step::Prove(
        facts::PAIR_OF_COMPONENTS,
        PAIR_OF_COMPONENTS_FACTS,
        PAIR_OF_COMPONENTS,
    ),
    Step::Constant(19),
    Step::Constant(20),
    Step::Constant(21),
    Step::Constant(22),
];
