// Written by `python3 tools/library.py write` from the scripts of tools/library/.
//! The type of countable sets: the proof tables, and the steps of the building. Each line of a table puts
//! one type, term or theorem at the end of its register; the theorems begin with the facts that the table takes.

use crate::facts;
use library_facts::Fact;
use library_steps::Step;

// The empty set represents a countable set.
const CSET_INHABITED: &str = "\
    term F\n\
    assume 0\n\
    def 6\n\
    eq_mp 1 0\n\
    term F ==> (([k:'a -> num] [x:'a] = [k:'a -> num] [y:'a]) ==> ([x:'a] = [y:'a]))\n\
    spec 1 2\n\
    disch 0 3\n\
    term [y:'a]\n\
    gen 2 4\n\
    term [x:'a]\n\
    gen 3 5\n\
    term ?x0:'a -> num. !x1:'a. !x2:'a. F ==> (F ==> ((x0 x1 = x0 x2) ==> (x1 = x2)))\n\
    term [k:'a -> num]\n\
    ex_i 4 5 6\n\
    def 43\n\
    term countable{'a} (\\x0:'a. F)\n\
    rewrite_all 6 8\n\
    norm 9\n\
    sym 10\n\
    eq_mp 11 7\n\
";

// A countable set is the one that its representation stands for.
const CSET_ABS_REP: &str = "\
    type_abs 44\n\
    term [a:'a cset]\n\
    gen 0 0\n\
";

// The facts that it takes.
const CSET_ABS_REP_FACTS: &[Fact] = &[];

// A predicate represents a countable set where it is countable.
const CSET_REP_ABS: &str = "\
    type_rep 44\n\
    term [r:'a -> bool]\n\
    gen 0 0\n\
";

// The facts that it takes.
const CSET_REP_ABS_FACTS: &[Fact] = &[];

// The members of a countable set are countable.
const CSET_COUNTABLE: &str = "\
    term [c:'a cset]\n\
    spec 0 0\n\
    term cset.rep{'a}\n\
    refl 1\n\
    comb 3 2\n\
    term cset.rep{'a} [c:'a cset]\n\
    spec 2 1\n\
    sym 5\n\
    eq_mp 6 4\n\
    gen 0 7\n\
";

// The facts that it takes.
const CSET_COUNTABLE_FACTS: &[Fact] = &[facts::CSET_ABS_REP, facts::CSET_REP_ABS];

// Countable sets with the same members are equal.
const CSET_EXTENSIONALITY: &str = "\
    term !x0:'a. cset.rep{'a} [c:'a cset] x0 = cset.rep{'a} [d:'a cset] x0\n\
    assume 0\n\
    type bool\n\
    inst_type 0 b 0\n\
    term cset.rep{'a} [c:'a cset]\n\
    spec 1 3\n\
    term cset.rep{'a} [d:'a cset]\n\
    spec 2 4\n\
    mp 5 2\n\
    term cset.abs{'a}\n\
    refl 3\n\
    comb 7 6\n\
    term [c:'a cset]\n\
    spec 4 1\n\
    sym 9\n\
    term [d:'a cset]\n\
    spec 5 1\n\
    trans 10 8\n\
    trans 12 11\n\
    disch 0 13\n\
    gen 5 14\n\
    gen 4 15\n\
";

// The facts that it takes.
const CSET_EXTENSIONALITY_FACTS: &[Fact] = &[th_base::facts::EXTENSIONALITY, facts::CSET_ABS_REP];

// The set of a countable predicate has the members of the predicate.
const CSET_MEMBER: &str = "\
    term [s:'a -> bool]\n\
    spec 0 0\n\
    term countable{'a} [s:'a -> bool]\n\
    assume 1\n\
    eq_mp 1 2\n\
    term [x:'a]\n\
    refl 2\n\
    comb 3 4\n\
    gen 2 5\n\
    disch 1 6\n\
    gen 0 7\n\
";

// The facts that it takes.
const CSET_MEMBER_FACTS: &[Fact] = &[facts::CSET_REP_ABS];

// The members of an image.
const CSET_MAP_MEMBER: &str = "\
    term cset.rep{'a} [c:'a cset]\n\
    spec 0 0\n\
    term [f:'a -> 'b]\n\
    spec 1 3\n\
    term [c:'a cset]\n\
    spec 2 1\n\
    mp 4 5\n\
    type 'b\n\
    inst_type 2 a 0\n\
    term \\x0:'b. ?x1:'a. cset.rep{'a} [c:'a cset] x1 /\\ (x0 = [f:'a -> 'b] x1)\n\
    spec 3 7\n\
    mp 8 6\n\
    term [y:'b]\n\
    spec 4 9\n\
    norm 10\n\
    def 46\n\
    term cset.map{'a,'b} [f:'a -> 'b] [c:'a cset]\n\
    rewrite_all 5 12\n\
    norm 13\n\
    sym 14\n\
    term [v:'b cset]\n\
    term cset.rep{'b} [v:'b cset] [y:'b] = (?x0:'a. cset.rep{'a} [c:'a cset] x0 /\\ ([y:'b] = [f:'a -> 'b] x0))\n\
    subst 6 7 15 11\n\
    gen 4 16\n\
    gen 2 17\n\
    gen 1 18\n\
";

// The facts that it takes.
const CSET_MAP_MEMBER_FACTS: &[Fact] = &[
    facts::COUNTABLE_IMAGE,
    facts::CSET_COUNTABLE,
    facts::CSET_MEMBER,
];

// The image is the countable set of the values.
const CSET_MAP_IS: &str = "\
    term !x0:'b. (?x1:'a. cset.rep{'a} [c:'a cset] x1 /\\ (x0 = [f:'a -> 'b] x1)) = cset.rep{'b} [d:'b cset] x0\n\
    assume 0\n\
    term [f:'a -> 'b]\n\
    spec 1 0\n\
    term [c:'a cset]\n\
    spec 2 3\n\
    term [y:'b]\n\
    spec 3 4\n\
    spec 3 2\n\
    trans 5 6\n\
    gen 3 7\n\
    type 'b\n\
    inst_type 1 a 0\n\
    term cset.map{'a,'b} [f:'a -> 'b] [c:'a cset]\n\
    spec 4 9\n\
    term [d:'b cset]\n\
    spec 5 10\n\
    mp 11 8\n\
    disch 0 12\n\
    gen 5 13\n\
    gen 2 14\n\
    gen 1 15\n\
";

// The facts that it takes.
const CSET_MAP_IS_FACTS: &[Fact] = &[facts::CSET_MAP_MEMBER, facts::CSET_EXTENSIONALITY];

// There is one of a kind in an image where there is one in the set whose value is of the kind.
const CSET_MAP_EXISTS: &str = "\
    term cset.rep{'b} (cset.map{'a,'b} [f:'a -> 'b] [c:'a cset]) [y:'b] /\\ [P:'b -> bool] [y:'b]\n\
    assume 0\n\
    term cset.rep{'a} [c:'a cset] [x:'a] /\\ ([y:'b] = [f:'a -> 'b] [x:'a])\n\
    assume 1\n\
    conj_l 2\n\
    conj_r 1\n\
    conj_r 2\n\
    term [v:'b]\n\
    term [P:'b -> bool] [v:'b]\n\
    subst 2 3 5 4\n\
    conj_i 3 6\n\
    term ?x0:'a. cset.rep{'a} [c:'a cset] x0 /\\ [P:'b -> bool] ([f:'a -> 'b] x0)\n\
    term [x:'a]\n\
    ex_i 4 5 7\n\
    term [f:'a -> 'b]\n\
    spec 6 0\n\
    term [c:'a cset]\n\
    spec 7 9\n\
    term [y:'b]\n\
    spec 8 10\n\
    conj_l 1\n\
    eq_mp 11 12\n\
    choose 5 13 8\n\
    term ?x0:'b. cset.rep{'b} (cset.map{'a,'b} [f:'a -> 'b] [c:'a cset]) x0 /\\ [P:'b -> bool] x0\n\
    assume 9\n\
    choose 8 15 14\n\
    term cset.rep{'a} [c:'a cset] [x:'a] /\\ [P:'b -> bool] ([f:'a -> 'b] [x:'a])\n\
    assume 10\n\
    conj_l 17\n\
    term [f:'a -> 'b] [x:'a]\n\
    refl 11\n\
    conj_i 18 19\n\
    term ?x0:'a. cset.rep{'a} [c:'a cset] x0 /\\ ([f:'a -> 'b] [x:'a] = [f:'a -> 'b] x0)\n\
    ex_i 12 5 20\n\
    spec 11 10\n\
    sym 22\n\
    eq_mp 23 21\n\
    conj_r 17\n\
    conj_i 24 25\n\
    ex_i 9 11 26\n\
    assume 4\n\
    choose 5 28 27\n\
    deduct 29 16\n\
    term [P:'b -> bool]\n\
    gen 13 30\n\
    gen 7 31\n\
    gen 6 32\n\
";

// The facts that it takes.
const CSET_MAP_EXISTS_FACTS: &[Fact] = &[facts::CSET_MAP_MEMBER];

// Functor law map_id of cset.
const CSET_MAP_ID: &str = "\
    term cset.rep{'a} [c:'a cset] [x:'a] /\\ ([y:'a] = id{'a} [x:'a])\n\
    assume 0\n\
    conj_r 2\n\
    term [x:'a]\n\
    spec 1 0\n\
    trans 3 4\n\
    conj_l 2\n\
    sym 5\n\
    term [v:'a]\n\
    term cset.rep{'a} [c:'a cset] [v:'a]\n\
    subst 2 3 7 6\n\
    term ?x0:'a. cset.rep{'a} [c:'a cset] x0 /\\ ([y:'a] = id{'a} x0)\n\
    assume 4\n\
    choose 1 9 8\n\
    term cset.rep{'a} [c:'a cset] [y:'a]\n\
    assume 5\n\
    term [y:'a]\n\
    spec 6 0\n\
    sym 12\n\
    conj_i 11 13\n\
    ex_i 4 6 14\n\
    deduct 15 10\n\
    gen 6 16\n\
    type 'a\n\
    inst_type 1 b 0\n\
    term id{'a}\n\
    spec 7 18\n\
    term [c:'a cset]\n\
    spec 8 19\n\
    spec 8 20\n\
    mp 21 17\n\
    gen 8 22\n\
";

// The facts that it takes.
const CSET_MAP_ID_FACTS: &[Fact] = &[th_base::facts::IDENTITY, facts::CSET_MAP_IS];

// Functor law map_comp of cset.
const CSET_MAP_COMP: &str = "\
    term [f:'a -> 'b]\n\
    spec 0 0\n\
    term [c:'a cset]\n\
    spec 1 3\n\
    term \\x0:'b. [z:'c] = [g:'b -> 'c] x0\n\
    spec 2 4\n\
    norm 5\n\
    type 'c\n\
    inst_type 1 b 0\n\
    term \\x0:'a. [g:'b -> 'c] ([f:'a -> 'b] x0)\n\
    spec 3 7\n\
    spec 1 8\n\
    term [z:'c]\n\
    spec 4 9\n\
    norm 10\n\
    sym 11\n\
    trans 6 12\n\
    gen 4 13\n\
    type 'b\n\
    inst_type 2 a 1 b 0\n\
    term [g:'b -> 'c]\n\
    spec 5 15\n\
    term cset.map{'a,'b} [f:'a -> 'b] [c:'a cset]\n\
    spec 6 16\n\
    term cset.map{'a,'c} (\\x0:'a. [g:'b -> 'c] ([f:'a -> 'b] x0)) [c:'a cset]\n\
    spec 7 17\n\
    mp 18 14\n\
    gen 1 19\n\
    gen 5 20\n\
    gen 0 21\n\
";

// The facts that it takes.
const CSET_MAP_COMP_FACTS: &[Fact] = &[
    facts::CSET_MAP_EXISTS,
    facts::CSET_MAP_MEMBER,
    facts::CSET_MAP_IS,
];

// The set function is the representation.
const CSET_SET_IS_REP: &str = "\
    def 47\n\
    term \\x0:'a cset. cset.rep{'a} x0\n\
    eta_conv 0\n\
    trans 0 1\n\
";

// The facts that it takes.
const CSET_SET_IS_REP_FACTS: &[Fact] = &[];

// The set function gives the members.
const CSET_SET_MEMBER: &str = "\
    def 47\n\
    term cset.set1{'a} [c:'a cset] [x:'a]\n\
    rewrite_all 0 0\n\
    norm 1\n\
    term [x:'a]\n\
    gen 1 2\n\
    term [c:'a cset]\n\
    gen 2 3\n\
";

// The facts that it takes.
const CSET_SET_MEMBER_FACTS: &[Fact] = &[];

// Functor law set1_map of cset.
const CSET_SET_MAP: &str = "\
    sym 0\n\
    type 'b\n\
    inst_type 2 a 0\n\
    term [v:'a cset -> 'a -> bool]\n\
    term !x0:'a -> 'b. !x1:'a cset. !x2:'b. cset.rep{'b} (cset.map{'a,'b} x0 x1) x2 = (?x3:'a. [v:'a cset -> 'a -> bool] x1 x3 /\\ (x2 = x0 x3))\n\
    subst 0 1 2 1\n\
    term [v:'b cset -> 'b -> bool]\n\
    term !x0:'a -> 'b. !x1:'a cset. !x2:'b. [v:'b cset -> 'b -> bool] (cset.map{'a,'b} x0 x1) x2 = (?x3:'a. cset.set1{'a} x1 x3 /\\ (x2 = x0 x3))\n\
    subst 2 3 3 4\n\
";

// The facts that it takes.
const CSET_SET_MAP_FACTS: &[Fact] = &[facts::CSET_SET_IS_REP, facts::CSET_MAP_MEMBER];

// Functor law set1_count of cset.
const CSET_SET_COUNT: &str = "\
    sym 1\n\
    term [v:'a cset -> 'a -> bool]\n\
    term !x0:'a cset. countable{'a} ([v:'a cset -> 'a -> bool] x0)\n\
    subst 0 1 2 0\n\
";

// The facts that it takes.
const CSET_SET_COUNT_FACTS: &[Fact] = &[facts::CSET_COUNTABLE, facts::CSET_SET_IS_REP];

// Functor law map_cong of cset.
const CSET_MAP_CONG: &str = "\
    term !x0:'a. cset.set1{'a} [c:'a cset] x0 ==> ([f:'a -> 'b] x0 = [g:'a -> 'b] x0)\n\
    assume 0\n\
    term [v:'a cset -> 'a -> bool]\n\
    term !x0:'a. [v:'a cset -> 'a -> bool] [c:'a cset] x0 ==> ([f:'a -> 'b] x0 = [g:'a -> 'b] x0)\n\
    subst 1 2 0 3\n\
    term [x:'a]\n\
    spec 3 4\n\
    term cset.rep{'a} [c:'a cset] [x:'a] /\\ ([y:'b] = [f:'a -> 'b] [x:'a])\n\
    assume 4\n\
    term cset.rep{'a} [c:'a cset] [x:'a] /\\ ([y:'b] = [g:'a -> 'b] [x:'a])\n\
    assume 5\n\
    conj_l 6\n\
    mp 5 8\n\
    term [v:'b]\n\
    term cset.rep{'a} [c:'a cset] [x:'a] /\\ ([y:'b] = [v:'b])\n\
    subst 6 7 9 6\n\
    conj_l 7\n\
    mp 5 11\n\
    sym 12\n\
    subst 6 7 13 7\n\
    deduct 14 10\n\
    abs 3 15\n\
    term ex{'a}\n\
    refl 8\n\
    comb 17 16\n\
    term [g:'a -> 'b]\n\
    spec 9 1\n\
    term [c:'a cset]\n\
    spec 10 19\n\
    term [y:'b]\n\
    spec 11 20\n\
    sym 21\n\
    trans 18 22\n\
    gen 11 23\n\
    term [f:'a -> 'b]\n\
    spec 12 2\n\
    spec 10 25\n\
    term cset.map{'a,'b} [g:'a -> 'b] [c:'a cset]\n\
    spec 13 26\n\
    mp 27 24\n\
    disch 0 28\n\
    gen 10 29\n\
    gen 9 30\n\
    gen 12 31\n\
";

// The facts that it takes.
const CSET_MAP_CONG_FACTS: &[Fact] = &[
    facts::CSET_SET_IS_REP,
    facts::CSET_MAP_MEMBER,
    facts::CSET_MAP_IS,
];

// The definitions and the facts, in order.
pub(crate) static STEPS: [Step; 19] = [
    Step::NewType(44, CSET_INHABITED),
    Step::Prove(facts::CSET_ABS_REP, CSET_ABS_REP_FACTS, CSET_ABS_REP),
    Step::Prove(facts::CSET_REP_ABS, CSET_REP_ABS_FACTS, CSET_REP_ABS),
    Step::Prove(facts::CSET_COUNTABLE, CSET_COUNTABLE_FACTS, CSET_COUNTABLE),
    Step::Prove(
        facts::CSET_EXTENSIONALITY,
        CSET_EXTENSIONALITY_FACTS,
        CSET_EXTENSIONALITY,
    ),
    Step::Prove(facts::CSET_MEMBER, CSET_MEMBER_FACTS, CSET_MEMBER),
    Step::Constant(45),
    Step::Constant(46),
    Step::Prove(
        facts::CSET_MAP_MEMBER,
        CSET_MAP_MEMBER_FACTS,
        CSET_MAP_MEMBER,
    ),
    Step::Prove(facts::CSET_MAP_IS, CSET_MAP_IS_FACTS, CSET_MAP_IS),
    Step::Prove(
        facts::CSET_MAP_EXISTS,
        CSET_MAP_EXISTS_FACTS,
        CSET_MAP_EXISTS,
    ),
    Step::Prove(facts::CSET_MAP_ID, CSET_MAP_ID_FACTS, CSET_MAP_ID),
    Step::Prove(facts::CSET_MAP_COMP, CSET_MAP_COMP_FACTS, CSET_MAP_COMP),
    Step::Constant(47),
    Step::Prove(
        facts::CSET_SET_IS_REP,
        CSET_SET_IS_REP_FACTS,
        CSET_SET_IS_REP,
    ),
    Step::Prove(
        facts::CSET_SET_MEMBER,
        CSET_SET_MEMBER_FACTS,
        CSET_SET_MEMBER,
    ),
    Step::Prove(facts::CSET_SET_MAP, CSET_SET_MAP_FACTS, CSET_SET_MAP),
    Step::Prove(facts::CSET_SET_COUNT, CSET_SET_COUNT_FACTS, CSET_SET_COUNT),
    Step::Prove(facts::CSET_MAP_CONG, CSET_MAP_CONG_FACTS, CSET_MAP_CONG),
];
