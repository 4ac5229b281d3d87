// Written by `python3 tools/library.py write` from the scripts of tools/library/.
//! Compositions of relations of countable sets: the proof tables, and the steps of the building. Each line of a table puts
//! one type, term or theorem at the end of its register; the theorems begin with the facts that the table takes.

use crate::facts;
use library_facts::Fact;
use library_steps::Step;

// Where a composition relates the values of two functions on a set, there is a set between the images.
const CSET_REL_BETWEEN: &str = "\
    term !x0:'a. cset.rep{'a} [u:'a cset] x0 ==> (?x1:'c. [r:'b -> 'c -> bool] ([f:'a -> 'b] x0) x1 /\\ [s:'c -> 'd -> bool] x1 ([g:'a -> 'd] x0))\n\
    assume 0\n\
    type 'c\n\
    inst_type 0 b 0\n\
    term cset.rep{'a} [u:'a cset]\n\
    spec 1 3\n\
    term \\x0:'a. \\x1:'c. [r:'b -> 'c -> bool] ([f:'a -> 'b] x0) x1 /\\ [s:'c -> 'd -> bool] x1 ([g:'a -> 'd] x0)\n\
    spec 2 4\n\
    norm 5\n\
    mp 6 2\n\
    term !x0:'a. cset.rep{'a} [u:'a cset] x0 ==> ([r:'b -> 'c -> bool] ([f:'a -> 'b] x0) ([k:'a -> 'c] x0) /\\ [s:'c -> 'd -> bool] ([k:'a -> 'c] x0) ([g:'a -> 'd] x0))\n\
    assume 3\n\
    term cset.rep{'a} [u:'a cset] [p:'a]\n\
    assume 4\n\
    term [p:'a]\n\
    spec 5 8\n\
    mp 10 9\n\
    conj_l 11\n\
    disch 4 12\n\
    gen 5 13\n\
    term [r:'b -> 'c -> bool]\n\
    spec 6 1\n\
    term [f:'a -> 'b]\n\
    spec 7 15\n\
    term [k:'a -> 'c]\n\
    spec 8 16\n\
    term [u:'a cset]\n\
    spec 9 17\n\
    mp 18 14\n\
    conj_r 11\n\
    disch 4 20\n\
    gen 5 21\n\
    type 'd\n\
    inst_type 1 b 0 c 1\n\
    term [s:'c -> 'd -> bool]\n\
    spec 10 23\n\
    spec 8 24\n\
    term [g:'a -> 'd]\n\
    spec 11 25\n\
    spec 9 26\n\
    mp 27 22\n\
    conj_i 19 28\n\
    term ?x0:'c cset. cset.rel{'b,'c} [r:'b -> 'c -> bool] (cset.map{'a,'b} [f:'a -> 'b] [u:'a cset]) x0 /\\ cset.rel{'c,'d} [s:'c -> 'd -> bool] x0 (cset.map{'a,'d} [g:'a -> 'd] [u:'a cset])\n\
    term cset.map{'a,'c} [k:'a -> 'c] [u:'a cset]\n\
    ex_i 12 13 29\n\
    choose 8 7 30\n\
    disch 0 31\n\
    gen 9 32\n\
    gen 11 33\n\
    gen 7 34\n\
    gen 10 35\n\
    gen 6 36\n\
";

// The facts that it takes.
const CSET_REL_BETWEEN_FACTS: &[Fact] = &[th_base::facts::CHOICE_ON, facts::CSET_MAPS_RELATED];

// Where a composition relates two sets, there is a set between them.
const CSET_REL_SPLIT: &str = "\
    term cset.rel{'a,'c} (\\x0:'a. \\x1:'c. ?x2:'b. [r:'a -> 'b -> bool] x0 x2 /\\ [s:'b -> 'c -> bool] x2 x1) [c:'a cset] [d:'c cset]\n\
    assume 0\n\
    type 'c\n\
    inst_type 0 b 0\n\
    term \\x0:'a. \\x1:'c. ?x2:'b. [r:'a -> 'b -> bool] x0 x2 /\\ [s:'b -> 'c -> bool] x2 x1\n\
    spec 1 4\n\
    term [c:'a cset]\n\
    spec 2 5\n\
    term [d:'c cset]\n\
    spec 3 6\n\
    eq_mp 7 3\n\
    norm 8\n\
    type ('a,'c) prod\n\
    inst_type 1 a 1\n\
    term [v:('a,'c) prod cset -> ('a,'c) prod -> bool]\n\
    term ?x0:('a,'c) prod cset. (!x1:('a,'c) prod. [v:('a,'c) prod cset -> ('a,'c) prod -> bool] x0 x1 ==> (?x2:'b. [r:'a -> 'b -> bool] (fst{'a,'c} x1) x2 /\\ [s:'b -> 'c -> bool] x2 (snd{'a,'c} x1))) /\\ ((cset.map{('a,'c) prod,'a} fst{'a,'c} x0 = [c:'a cset]) /\\ (cset.map{('a,'c) prod,'c} snd{'a,'c} x0 = [d:'c cset]))\n\
    subst 4 5 10 9\n\
    term (!x0:('a,'c) prod. cset.rep{('a,'c) prod} [u:('a,'c) prod cset] x0 ==> (?x1:'b. [r:'a -> 'b -> bool] (fst{'a,'c} x0) x1 /\\ [s:'b -> 'c -> bool] x1 (snd{'a,'c} x0))) /\\ ((cset.map{('a,'c) prod,'a} fst{'a,'c} [u:('a,'c) prod cset] = [c:'a cset]) /\\ (cset.map{('a,'c) prod,'c} snd{'a,'c} [u:('a,'c) prod cset] = [d:'c cset]))\n\
    assume 6\n\
    conj_l 12\n\
    conj_r 12\n\
    type 'a\n\
    type 'b\n\
    inst_type 2 b 2 c 3 d 0 a 1\n\
    term [r:'a -> 'b -> bool]\n\
    spec 7 15\n\
    term [s:'b -> 'c -> bool]\n\
    spec 8 16\n\
    term fst{'a,'c}\n\
    spec 9 17\n\
    term snd{'a,'c}\n\
    spec 10 18\n\
    term [u:('a,'c) prod cset]\n\
    spec 11 19\n\
    mp 20 13\n\
    conj_l 14\n\
    conj_r 14\n\
    term [v:'a cset]\n\
    term ?x0:'b cset. cset.rel{'a,'b} [r:'a -> 'b -> bool] [v:'a cset] x0 /\\ cset.rel{'b,'c} [s:'b -> 'c -> bool] x0 (cset.map{('a,'c) prod,'c} snd{'a,'c} [u:('a,'c) prod cset])\n\
    subst 12 13 22 21\n\
    term [v:'c cset]\n\
    term ?x0:'b cset. cset.rel{'a,'b} [r:'a -> 'b -> bool] [c:'a cset] x0 /\\ cset.rel{'b,'c} [s:'b -> 'c -> bool] x0 [v:'c cset]\n\
    subst 14 15 23 24\n\
    choose 11 11 25\n\
    disch 0 26\n\
    gen 3 27\n\
    gen 2 28\n\
    gen 8 29\n\
    gen 7 30\n\
";

// The facts that it takes.
const CSET_REL_SPLIT_FACTS: &[Fact] = &[
    facts::CSET_REL_IN,
    facts::CSET_SET_IS_REP,
    facts::CSET_REL_BETWEEN,
];

// Of three sets in a row, each member of the first has one of the last that the composition relates it to.
const CSET_REL_FORWARDS: &str = "\
    term cset.rel{'a,'b} [r:'a -> 'b -> bool] [c:'a cset] [w:'b cset] /\\ cset.rel{'b,'c} [s:'b -> 'c -> bool] [w:'b cset] [d:'c cset]\n\
    assume 0\n\
    conj_l 0\n\
    def 48\n\
    term [v:('a -> 'b -> bool) -> 'a cset -> 'b cset -> bool]\n\
    term [v:('a -> 'b -> bool) -> 'a cset -> 'b cset -> bool] [r:'a -> 'b -> bool] [c:'a cset] [w:'b cset]\n\
    subst 1 2 2 1\n\
    norm 3\n\
    conj_l 4\n\
    conj_r 0\n\
    type 'b\n\
    type 'c\n\
    inst_type 2 a 0 b 1\n\
    term [v:('b -> 'c -> bool) -> 'b cset -> 'c cset -> bool]\n\
    term [v:('b -> 'c -> bool) -> 'b cset -> 'c cset -> bool] [s:'b -> 'c -> bool] [w:'b cset] [d:'c cset]\n\
    subst 3 4 7 6\n\
    norm 8\n\
    conj_l 9\n\
    term cset.rep{'a} [c:'a cset] [x:'a]\n\
    assume 5\n\
    term cset.rep{'b} [w:'b cset] [y:'b] /\\ [r:'a -> 'b -> bool] [x:'a] [y:'b]\n\
    assume 6\n\
    term cset.rep{'c} [d:'c cset] [z:'c] /\\ [s:'b -> 'c -> bool] [y:'b] [z:'c]\n\
    assume 7\n\
    conj_r 12\n\
    conj_r 13\n\
    conj_i 14 15\n\
    term ?x0:'b. [r:'a -> 'b -> bool] [x:'a] x0 /\\ [s:'b -> 'c -> bool] x0 [z:'c]\n\
    term [y:'b]\n\
    ex_i 8 9 16\n\
    conj_l 13\n\
    conj_i 18 17\n\
    term ?x0:'c. cset.rep{'c} [d:'c cset] x0 /\\ (?x1:'b. [r:'a -> 'b -> bool] [x:'a] x1 /\\ [s:'b -> 'c -> bool] x1 x0)\n\
    term [z:'c]\n\
    ex_i 10 11 19\n\
    spec 9 10\n\
    conj_l 12\n\
    mp 21 22\n\
    choose 11 23 20\n\
    term [x:'a]\n\
    spec 12 5\n\
    mp 25 11\n\
    choose 9 26 24\n\
    disch 5 27\n\
    gen 12 28\n\
    disch 0 29\n\
    term [d:'c cset]\n\
    gen 13 30\n\
    term [w:'b cset]\n\
    gen 14 31\n\
    term [c:'a cset]\n\
    gen 15 32\n\
    term [s:'b -> 'c -> bool]\n\
    gen 16 33\n\
    term [r:'a -> 'b -> bool]\n\
    gen 17 34\n\
";

// The facts that it takes.
const CSET_REL_FORWARDS_FACTS: &[Fact] = &[];

// Of three sets in a row, each member of the last has one of the first that the composition relates to it.
const CSET_REL_BACKWARDS: &str = "\
    term cset.rel{'a,'b} [r:'a -> 'b -> bool] [c:'a cset] [w:'b cset] /\\ cset.rel{'b,'c} [s:'b -> 'c -> bool] [w:'b cset] [d:'c cset]\n\
    assume 0\n\
    conj_l 0\n\
    def 48\n\
    term [v:('a -> 'b -> bool) -> 'a cset -> 'b cset -> bool]\n\
    term [v:('a -> 'b -> bool) -> 'a cset -> 'b cset -> bool] [r:'a -> 'b -> bool] [c:'a cset] [w:'b cset]\n\
    subst 1 2 2 1\n\
    norm 3\n\
    conj_r 4\n\
    conj_r 0\n\
    type 'b\n\
    type 'c\n\
    inst_type 2 a 0 b 1\n\
    term [v:('b -> 'c -> bool) -> 'b cset -> 'c cset -> bool]\n\
    term [v:('b -> 'c -> bool) -> 'b cset -> 'c cset -> bool] [s:'b -> 'c -> bool] [w:'b cset] [d:'c cset]\n\
    subst 3 4 7 6\n\
    norm 8\n\
    conj_r 9\n\
    term cset.rep{'c} [d:'c cset] [z:'c]\n\
    assume 5\n\
    term cset.rep{'b} [w:'b cset] [y:'b] /\\ [s:'b -> 'c -> bool] [y:'b] [z:'c]\n\
    assume 6\n\
    term cset.rep{'a} [c:'a cset] [x:'a] /\\ [r:'a -> 'b -> bool] [x:'a] [y:'b]\n\
    assume 7\n\
    conj_r 13\n\
    conj_r 12\n\
    conj_i 14 15\n\
    term ?x0:'b. [r:'a -> 'b -> bool] [x:'a] x0 /\\ [s:'b -> 'c -> bool] x0 [z:'c]\n\
    term [y:'b]\n\
    ex_i 8 9 16\n\
    conj_l 13\n\
    conj_i 18 17\n\
    term ?x0:'a. cset.rep{'a} [c:'a cset] x0 /\\ (?x1:'b. [r:'a -> 'b -> bool] x0 x1 /\\ [s:'b -> 'c -> bool] x1 [z:'c])\n\
    term [x:'a]\n\
    ex_i 10 11 19\n\
    spec 9 5\n\
    conj_l 12\n\
    mp 21 22\n\
    choose 11 23 20\n\
    term [z:'c]\n\
    spec 12 10\n\
    mp 25 11\n\
    choose 9 26 24\n\
    disch 5 27\n\
    gen 12 28\n\
    disch 0 29\n\
    term [d:'c cset]\n\
    gen 13 30\n\
    term [w:'b cset]\n\
    gen 14 31\n\
    term [c:'a cset]\n\
    gen 15 32\n\
    term [s:'b -> 'c -> bool]\n\
    gen 16 33\n\
    term [r:'a -> 'b -> bool]\n\
    gen 17 34\n\
";

// The facts that it takes.
const CSET_REL_BACKWARDS_FACTS: &[Fact] = &[];

// Functor law rel_comp of cset.
const CSET_REL_COMP: &str = "\
    term cset.rel{'a,'c} (\\x0:'a. \\x1:'c. ?x2:'b. [r:'a -> 'b -> bool] x0 x2 /\\ [s:'b -> 'c -> bool] x2 x1) [c:'a cset] [d:'c cset]\n\
    assume 0\n\
    term [r:'a -> 'b -> bool]\n\
    spec 1 0\n\
    term [s:'b -> 'c -> bool]\n\
    spec 2 4\n\
    term [c:'a cset]\n\
    spec 3 5\n\
    term [d:'c cset]\n\
    spec 4 6\n\
    mp 7 3\n\
    term cset.rel{'a,'b} [r:'a -> 'b -> bool] [c:'a cset] [w:'b cset] /\\ cset.rel{'b,'c} [s:'b -> 'c -> bool] [w:'b cset] [d:'c cset]\n\
    assume 5\n\
    spec 1 1\n\
    spec 2 10\n\
    spec 3 11\n\
    term [w:'b cset]\n\
    spec 6 12\n\
    spec 4 13\n\
    mp 14 9\n\
    spec 1 2\n\
    spec 2 16\n\
    spec 3 17\n\
    spec 6 18\n\
    spec 4 19\n\
    mp 20 9\n\
    def 48\n\
    type 'c\n\
    inst_type 22 b 0\n\
    rewrite_all 0 23\n\
    norm 24\n\
    conj_i 15 21\n\
    sym 25\n\
    eq_mp 27 26\n\
    term ?x0:'b cset. cset.rel{'a,'b} [r:'a -> 'b -> bool] [c:'a cset] x0 /\\ cset.rel{'b,'c} [s:'b -> 'c -> bool] x0 [d:'c cset]\n\
    assume 7\n\
    choose 6 29 28\n\
    deduct 30 8\n\
    gen 4 31\n\
    gen 3 32\n\
    gen 2 33\n\
    gen 1 34\n\
";

// The facts that it takes.
const CSET_REL_COMP_FACTS: &[Fact] = &[
    facts::CSET_REL_SPLIT,
    facts::CSET_REL_FORWARDS,
    facts::CSET_REL_BACKWARDS,
];

// The definitions and the facts, in order.
pub(crate) static STEPS: [Step; 5] = [
    Step::Prove(
        facts::CSET_REL_BETWEEN,
        CSET_REL_BETWEEN_FACTS,
        CSET_REL_BETWEEN,
    ),
    Step::Prove(facts::CSET_REL_SPLIT, CSET_REL_SPLIT_FACTS, CSET_REL_SPLIT),
    Step::Prove(
        facts::CSET_REL_FORWARDS,
        CSET_REL_FORWARDS_FACTS,
        CSET_REL_FORWARDS,
    ),
    Step::Prove(
        facts::CSET_REL_BACKWARDS,
        CSET_REL_BACKWARDS_FACTS,
        CSET_REL_BACKWARDS,
    ),
    Step::Prove(facts::CSET_REL_COMP, CSET_REL_COMP_FACTS, CSET_REL_COMP),
];
