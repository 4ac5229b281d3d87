// Written by `python3 tools/library.py write` from the scripts of tools/library/.
//! The related pairs of countable sets: the proof tables, and the steps of the building. Each line of a table puts
//! one type, term or theorem at the end of its register; the theorems begin with the facts that the table takes.

use crate::facts;
use library_facts::Fact;
use library_steps::Step;

// Related sets are the images of the set of their related pairs.
const CSET_REL_OF_PAIRS: &str = "\
    term cset.rep{('a,'b) prod} [w:('a,'b) prod cset] = (\\x0:('a,'b) prod. (cset.rep{'a} [c:'a cset] (fst{'a,'b} x0) /\\ cset.rep{'b} [d:'b cset] (snd{'a,'b} x0)) /\\ [r:'a -> 'b -> bool] (fst{'a,'b} x0) (snd{'a,'b} x0))\n\
    assume 0\n\
    term cset.rel{'a,'b} [r:'a -> 'b -> bool] [c:'a cset] [d:'b cset]\n\
    assume 1\n\
    term cset.rep{('a,'b) prod} [w:('a,'b) prod cset] [p:('a,'b) prod]\n\
    assume 2\n\
    term [p:('a,'b) prod]\n\
    refl 3\n\
    comb 3 6\n\
    norm 7\n\
    eq_mp 8 5\n\
    conj_r 9\n\
    disch 2 10\n\
    gen 3 11\n\
    type ('a,'b) prod\n\
    type 'a\n\
    inst_type 0 a 0 b 1\n\
    term fst{'a,'b}\n\
    spec 4 13\n\
    term [w:('a,'b) prod cset]\n\
    spec 5 14\n\
    term [c:'a cset]\n\
    spec 6 15\n\
    term [v:('a,'b) prod -> bool]\n\
    term (!x0:'a. (?x1:('a,'b) prod. [v:('a,'b) prod -> bool] x1 /\\ (x0 = fst{'a,'b} x1)) = cset.rep{'a} [c:'a cset] x0) ==> (cset.map{('a,'b) prod,'a} fst{'a,'b} [w:('a,'b) prod cset] = [c:'a cset])\n\
    subst 7 8 3 16\n\
    norm 17\n\
    term [r:'a -> 'b -> bool]\n\
    spec 9 1\n\
    spec 6 19\n\
    term [d:'b cset]\n\
    spec 10 20\n\
    mp 21 4\n\
    mp 18 22\n\
    inst_type 0 a 0\n\
    term snd{'a,'b}\n\
    spec 11 24\n\
    spec 5 25\n\
    spec 10 26\n\
    term (!x0:'b. (?x1:('a,'b) prod. [v:('a,'b) prod -> bool] x1 /\\ (x0 = snd{'a,'b} x1)) = cset.rep{'b} [d:'b cset] x0) ==> (cset.map{('a,'b) prod,'b} snd{'a,'b} [w:('a,'b) prod cset] = [d:'b cset])\n\
    subst 7 12 3 27\n\
    norm 28\n\
    spec 9 2\n\
    spec 6 30\n\
    spec 10 31\n\
    mp 32 4\n\
    mp 29 33\n\
    conj_i 23 34\n\
    conj_i 12 35\n\
    disch 1 36\n\
    disch 0 37\n\
    gen 5 38\n\
    gen 10 39\n\
    gen 6 40\n\
    gen 9 41\n\
";

// The facts that it takes.
const CSET_REL_OF_PAIRS_FACTS: &[Fact] = &[
    facts::CSET_MAP_IS,
    facts::CSET_REL_FIRSTS,
    facts::CSET_REL_SECONDS,
];

// Functor law rel_in of cset.
const CSET_REL_IN: &str = "\
    term cset.rep{('a,'b) prod} [w:('a,'b) prod cset] = (\\x0:('a,'b) prod. (cset.rep{'a} [c:'a cset] (fst{'a,'b} x0) /\\ cset.rep{'b} [d:'b cset] (snd{'a,'b} x0)) /\\ [r:'a -> 'b -> bool] (fst{'a,'b} x0) (snd{'a,'b} x0))\n\
    assume 0\n\
    term cset.rel{'a,'b} [r:'a -> 'b -> bool] [c:'a cset] [d:'b cset]\n\
    assume 1\n\
    term [r:'a -> 'b -> bool]\n\
    spec 2 0\n\
    term [c:'a cset]\n\
    spec 3 6\n\
    term [d:'b cset]\n\
    spec 4 7\n\
    term [w:('a,'b) prod cset]\n\
    spec 5 8\n\
    mp 9 4\n\
    mp 10 5\n\
    term ?x0:('a,'b) prod cset. (!x1:('a,'b) prod. cset.rep{('a,'b) prod} x0 x1 ==> [r:'a -> 'b -> bool] (fst{'a,'b} x1) (snd{'a,'b} x1)) /\\ ((cset.map{('a,'b) prod,'a} fst{'a,'b} x0 = [c:'a cset]) /\\ (cset.map{('a,'b) prod,'b} snd{'a,'b} x0 = [d:'b cset]))\n\
    ex_i 6 5 11\n\
    spec 2 1\n\
    spec 3 13\n\
    spec 4 14\n\
    choose 5 15 12\n\
    term (!x0:('a,'b) prod. cset.rep{('a,'b) prod} [w:('a,'b) prod cset] x0 ==> [r:'a -> 'b -> bool] (fst{'a,'b} x0) (snd{'a,'b} x0)) /\\ ((cset.map{('a,'b) prod,'a} fst{'a,'b} [w:('a,'b) prod cset] = [c:'a cset]) /\\ (cset.map{('a,'b) prod,'b} snd{'a,'b} [w:('a,'b) prod cset] = [d:'b cset]))\n\
    assume 7\n\
    conj_l 17\n\
    conj_r 17\n\
    type 'a\n\
    type 'b\n\
    type ('a,'b) prod\n\
    inst_type 2 b 0 c 1 a 2\n\
    spec 2 20\n\
    term fst{'a,'b}\n\
    spec 8 21\n\
    term snd{'a,'b}\n\
    spec 9 22\n\
    spec 5 23\n\
    mp 24 18\n\
    conj_l 19\n\
    conj_r 19\n\
    term [v:'a cset]\n\
    term cset.rel{'a,'b} [r:'a -> 'b -> bool] [v:'a cset] (cset.map{('a,'b) prod,'b} snd{'a,'b} [w:('a,'b) prod cset])\n\
    subst 10 11 26 25\n\
    term [v:'b cset]\n\
    term cset.rel{'a,'b} [r:'a -> 'b -> bool] [c:'a cset] [v:'b cset]\n\
    subst 12 13 27 28\n\
    assume 6\n\
    choose 5 30 29\n\
    sym 3\n\
    inst_type 32 a 2\n\
    deduct 31 16\n\
    gen 4 34\n\
    gen 3 35\n\
    gen 2 36\n\
    term [v:('a,'b) prod cset -> ('a,'b) prod -> bool]\n\
    term !x0:'a -> 'b -> bool. !x1:'a cset. !x2:'b cset. cset.rel{'a,'b} x0 x1 x2 = (?x3:('a,'b) prod cset. (!x4:('a,'b) prod. [v:('a,'b) prod cset -> ('a,'b) prod -> bool] x3 x4 ==> x0 (fst{'a,'b} x4) (snd{'a,'b} x4)) /\\ ((cset.map{('a,'b) prod,'a} fst{'a,'b} x3 = x1) /\\ (cset.map{('a,'b) prod,'b} snd{'a,'b} x3 = x2)))\n\
    subst 14 15 33 37\n\
";

// The facts that it takes.
const CSET_REL_IN_FACTS: &[Fact] = &[
    facts::CSET_REL_OF_PAIRS,
    facts::CSET_RELATED_PAIRS,
    facts::CSET_MAPS_RELATED,
    facts::CSET_SET_IS_REP,
];

// The definitions and the facts, in order.
pub(crate) static STEPS: [Step; 2] = [
    Step::Prove(
        facts::CSET_REL_OF_PAIRS,
        CSET_REL_OF_PAIRS_FACTS,
        CSET_REL_OF_PAIRS,
    ),
    Step::Prove(facts::CSET_REL_IN, CSET_REL_IN_FACTS, CSET_REL_IN),
];
