// Written by `python3 tools/library.py write` from the scripts of tools/library/.
//! The relator of countable sets: the proof tables, and the steps of the building. Each line of a table puts
//! one type, term or theorem at the end of its register; the theorems begin with the facts that the table takes.

use crate::facts;
use library_facts::Fact;
use library_steps::Step;

// Where two functions are related on a set, each member of the one image has a related member of the other.
const CSET_MAPS_RELATE_EACH: &str = "\
    term !x0:'a. cset.rep{'a} [w:'a cset] x0 ==> [r:'b -> 'c -> bool] ([f:'a -> 'b] x0) ([g:'a -> 'c] x0)\n\
    assume 0\n\
    term cset.rep{'a} [w:'a cset] [p:'a] /\\ ([x:'b] = [f:'a -> 'b] [p:'a])\n\
    assume 1\n\
    term [p:'a]\n\
    spec 2 2\n\
    conj_l 3\n\
    mp 4 5\n\
    conj_r 3\n\
    sym 7\n\
    term [v:'b]\n\
    term [r:'b -> 'c -> bool] [v:'b] ([g:'a -> 'c] [p:'a])\n\
    subst 3 4 8 6\n\
    conj_i 5 9\n\
    term ?x0:'a. cset.rep{'a} [w:'a cset] x0 /\\ [r:'b -> 'c -> bool] [x:'b] ([g:'a -> 'c] x0)\n\
    ex_i 5 2 10\n\
    term cset.rep{'b} (cset.map{'a,'b} [f:'a -> 'b] [w:'a cset]) [x:'b]\n\
    assume 6\n\
    term [f:'a -> 'b]\n\
    spec 7 0\n\
    term [w:'a cset]\n\
    spec 8 13\n\
    term [x:'b]\n\
    spec 9 14\n\
    eq_mp 15 12\n\
    choose 2 16 11\n\
    type 'c\n\
    inst_type 1 b 0\n\
    term [g:'a -> 'c]\n\
    spec 10 18\n\
    spec 8 19\n\
    term [r:'b -> 'c -> bool] [x:'b]\n\
    spec 11 20\n\
    sym 21\n\
    eq_mp 22 17\n\
    disch 6 23\n\
    gen 9 24\n\
    disch 0 25\n\
    gen 8 26\n\
    gen 10 27\n\
    gen 7 28\n\
    term [r:'b -> 'c -> bool]\n\
    gen 12 29\n\
";

// The facts that it takes.
const CSET_MAPS_RELATE_EACH_FACTS: &[Fact] = &[facts::CSET_MAP_MEMBER, facts::CSET_MAP_EXISTS];

// Functions that are related on a set give related images.
const CSET_MAPS_RELATED: &str = "\
    term !x0:'a. cset.rep{'a} [w:'a cset] x0 ==> [r:'b -> 'c -> bool] ([f:'a -> 'b] x0) ([g:'a -> 'c] x0)\n\
    assume 0\n\
    term [r:'b -> 'c -> bool]\n\
    spec 1 0\n\
    term [f:'a -> 'b]\n\
    spec 2 2\n\
    term [g:'a -> 'c]\n\
    spec 3 3\n\
    term [w:'a cset]\n\
    spec 4 4\n\
    mp 5 1\n\
    type 'c\n\
    type 'b\n\
    inst_type 0 b 0 c 1\n\
    term \\x0:'c. \\x1:'b. [r:'b -> 'c -> bool] x1 x0\n\
    spec 5 7\n\
    spec 3 8\n\
    spec 2 9\n\
    spec 4 10\n\
    norm 11\n\
    mp 12 1\n\
    def 48\n\
    inst_type 14 a 1 b 0\n\
    term cset.rel{'b,'c} [r:'b -> 'c -> bool] (cset.map{'a,'b} [f:'a -> 'b] [w:'a cset]) (cset.map{'a,'c} [g:'a -> 'c] [w:'a cset])\n\
    rewrite_all 6 15\n\
    norm 16\n\
    conj_i 6 13\n\
    sym 17\n\
    eq_mp 19 18\n\
    disch 0 20\n\
    gen 4 21\n\
    gen 3 22\n\
    gen 2 23\n\
    gen 1 24\n\
";

// The facts that it takes.
const CSET_MAPS_RELATED_FACTS: &[Fact] = &[facts::CSET_MAPS_RELATE_EACH];

// The related pairs of two countable sets are a countable set.
const CSET_RELATED_PAIRS: &str = "\
    term cset.rep{'a} [c:'a cset]\n\
    spec 0 0\n\
    term cset.rep{'b} [d:'b cset]\n\
    spec 1 4\n\
    term [c:'a cset]\n\
    spec 2 1\n\
    type 'b\n\
    inst_type 1 a 0\n\
    term [d:'b cset]\n\
    spec 3 7\n\
    mp 5 6\n\
    mp 9 8\n\
    type ('a,'b) prod\n\
    inst_type 2 a 1\n\
    term \\x0:('a,'b) prod. (cset.rep{'a} [c:'a cset] (fst{'a,'b} x0) /\\ cset.rep{'b} [d:'b cset] (snd{'a,'b} x0)) /\\ [r:'a -> 'b -> bool] (fst{'a,'b} x0) (snd{'a,'b} x0)\n\
    spec 4 11\n\
    term \\x0:('a,'b) prod. cset.rep{'a} [c:'a cset] (fst{'a,'b} x0) /\\ cset.rep{'b} [d:'b cset] (snd{'a,'b} x0)\n\
    spec 5 12\n\
    mp 13 10\n\
    norm 14\n\
    term (cset.rep{'a} [c:'a cset] (fst{'a,'b} [p:('a,'b) prod]) /\\ cset.rep{'b} [d:'b cset] (snd{'a,'b} [p:('a,'b) prod])) /\\ [r:'a -> 'b -> bool] (fst{'a,'b} [p:('a,'b) prod]) (snd{'a,'b} [p:('a,'b) prod])\n\
    assume 6\n\
    conj_l 16\n\
    disch 6 17\n\
    term [p:('a,'b) prod]\n\
    gen 7 18\n\
    mp 15 19\n\
    inst_type 3 a 1\n\
    spec 4 21\n\
    eq_mp 22 20\n\
    term ?x0:('a,'b) prod cset. cset.rep{('a,'b) prod} x0 = (\\x1:('a,'b) prod. (cset.rep{'a} [c:'a cset] (fst{'a,'b} x1) /\\ cset.rep{'b} [d:'b cset] (snd{'a,'b} x1)) /\\ [r:'a -> 'b -> bool] (fst{'a,'b} x1) (snd{'a,'b} x1))\n\
    term cset.abs{('a,'b) prod} (\\x0:('a,'b) prod. (cset.rep{'a} [c:'a cset] (fst{'a,'b} x0) /\\ cset.rep{'b} [d:'b cset] (snd{'a,'b} x0)) /\\ [r:'a -> 'b -> bool] (fst{'a,'b} x0) (snd{'a,'b} x0))\n\
    ex_i 8 9 23\n\
    gen 3 24\n\
    gen 2 25\n\
    term [r:'a -> 'b -> bool]\n\
    gen 10 26\n\
";

// The facts that it takes.
const CSET_RELATED_PAIRS_FACTS: &[Fact] = &[
    facts::COUNTABLE_PRODUCT,
    facts::CSET_COUNTABLE,
    facts::COUNTABLE_SUBSET,
    facts::CSET_REP_ABS,
];

// The first components of the related pairs of related sets are the members of the first set.
const CSET_REL_FIRSTS: &str = "\
    term ((cset.rep{'a} [c:'a cset] (fst{'a,'b} [p:('a,'b) prod]) /\\ cset.rep{'b} [d:'b cset] (snd{'a,'b} [p:('a,'b) prod])) /\\ [r:'a -> 'b -> bool] (fst{'a,'b} [p:('a,'b) prod]) (snd{'a,'b} [p:('a,'b) prod])) /\\ ([x:'a] = fst{'a,'b} [p:('a,'b) prod])\n\
    assume 0\n\
    conj_l 2\n\
    conj_l 3\n\
    conj_l 4\n\
    conj_r 2\n\
    sym 6\n\
    term [v:'a]\n\
    term cset.rep{'a} [c:'a cset] [v:'a]\n\
    subst 1 2 7 5\n\
    term ?x0:('a,'b) prod. ((cset.rep{'a} [c:'a cset] (fst{'a,'b} x0) /\\ cset.rep{'b} [d:'b cset] (snd{'a,'b} x0)) /\\ [r:'a -> 'b -> bool] (fst{'a,'b} x0) (snd{'a,'b} x0)) /\\ ([x:'a] = fst{'a,'b} x0)\n\
    assume 3\n\
    term [p:('a,'b) prod]\n\
    choose 4 9 8\n\
    term cset.rel{'a,'b} [r:'a -> 'b -> bool] [c:'a cset] [d:'b cset]\n\
    assume 5\n\
    term cset.rep{'a} [c:'a cset] [x:'a]\n\
    assume 6\n\
    term cset.rep{'b} [d:'b cset] [y:'b] /\\ [r:'a -> 'b -> bool] [x:'a] [y:'b]\n\
    assume 7\n\
    conj_l 13\n\
    conj_i 12 14\n\
    conj_r 13\n\
    conj_i 15 16\n\
    term [x:'a]\n\
    spec 8 0\n\
    term [y:'b]\n\
    spec 9 18\n\
    sym 19\n\
    spec 8 1\n\
    spec 9 21\n\
    sym 22\n\
    term [w:'b]\n\
    term (cset.rep{'a} [c:'a cset] [x:'a] /\\ cset.rep{'b} [d:'b cset] [w:'b]) /\\ [r:'a -> 'b -> bool] [x:'a] [w:'b]\n\
    subst 10 11 23 17\n\
    term (cset.rep{'a} [c:'a cset] [v:'a] /\\ cset.rep{'b} [d:'b cset] (snd{'a,'b} (pair{'a,'b} [x:'a] [y:'b]))) /\\ [r:'a -> 'b -> bool] [v:'a] (snd{'a,'b} (pair{'a,'b} [x:'a] [y:'b]))\n\
    subst 1 12 20 24\n\
    conj_i 25 20\n\
    term pair{'a,'b} [x:'a] [y:'b]\n\
    ex_i 3 13 26\n\
    def 48\n\
    term [v:('a -> 'b -> bool) -> 'a cset -> 'b cset -> bool]\n\
    term [v:('a -> 'b -> bool) -> 'a cset -> 'b cset -> bool] [r:'a -> 'b -> bool] [c:'a cset] [d:'b cset]\n\
    subst 14 15 28 11\n\
    norm 29\n\
    conj_l 30\n\
    spec 8 31\n\
    mp 32 12\n\
    choose 9 33 27\n\
    deduct 34 10\n\
    gen 8 35\n\
    disch 5 36\n\
    term [d:'b cset]\n\
    gen 16 37\n\
    term [c:'a cset]\n\
    gen 17 38\n\
    term [r:'a -> 'b -> bool]\n\
    gen 18 39\n\
";

// The facts that it takes.
const CSET_REL_FIRSTS_FACTS: &[Fact] = &[th_base::facts::FST_PAIR, th_base::facts::SND_PAIR];

// The second components of the related pairs of related sets are the members of the second set.
const CSET_REL_SECONDS: &str = "\
    term ((cset.rep{'a} [c:'a cset] (fst{'a,'b} [p:('a,'b) prod]) /\\ cset.rep{'b} [d:'b cset] (snd{'a,'b} [p:('a,'b) prod])) /\\ [r:'a -> 'b -> bool] (fst{'a,'b} [p:('a,'b) prod]) (snd{'a,'b} [p:('a,'b) prod])) /\\ ([y:'b] = snd{'a,'b} [p:('a,'b) prod])\n\
    assume 0\n\
    conj_l 2\n\
    conj_l 3\n\
    conj_r 4\n\
    conj_r 2\n\
    sym 6\n\
    term [v:'b]\n\
    term cset.rep{'b} [d:'b cset] [v:'b]\n\
    subst 1 2 7 5\n\
    term ?x0:('a,'b) prod. ((cset.rep{'a} [c:'a cset] (fst{'a,'b} x0) /\\ cset.rep{'b} [d:'b cset] (snd{'a,'b} x0)) /\\ [r:'a -> 'b -> bool] (fst{'a,'b} x0) (snd{'a,'b} x0)) /\\ ([y:'b] = snd{'a,'b} x0)\n\
    assume 3\n\
    term [p:('a,'b) prod]\n\
    choose 4 9 8\n\
    term cset.rel{'a,'b} [r:'a -> 'b -> bool] [c:'a cset] [d:'b cset]\n\
    assume 5\n\
    term cset.rep{'b} [d:'b cset] [y:'b]\n\
    assume 6\n\
    term cset.rep{'a} [c:'a cset] [x:'a] /\\ [r:'a -> 'b -> bool] [x:'a] [y:'b]\n\
    assume 7\n\
    conj_l 13\n\
    conj_i 14 12\n\
    conj_r 13\n\
    conj_i 15 16\n\
    term [x:'a]\n\
    spec 8 0\n\
    term [y:'b]\n\
    spec 9 18\n\
    sym 19\n\
    spec 8 1\n\
    spec 9 21\n\
    sym 22\n\
    term [w:'b]\n\
    term (cset.rep{'a} [c:'a cset] [x:'a] /\\ cset.rep{'b} [d:'b cset] [w:'b]) /\\ [r:'a -> 'b -> bool] [x:'a] [w:'b]\n\
    subst 10 11 23 17\n\
    term [v:'a]\n\
    term (cset.rep{'a} [c:'a cset] [v:'a] /\\ cset.rep{'b} [d:'b cset] (snd{'a,'b} (pair{'a,'b} [x:'a] [y:'b]))) /\\ [r:'a -> 'b -> bool] [v:'a] (snd{'a,'b} (pair{'a,'b} [x:'a] [y:'b]))\n\
    subst 12 13 20 24\n\
    conj_i 25 23\n\
    term pair{'a,'b} [x:'a] [y:'b]\n\
    ex_i 3 14 26\n\
    def 48\n\
    term [v:('a -> 'b -> bool) -> 'a cset -> 'b cset -> bool]\n\
    term [v:('a -> 'b -> bool) -> 'a cset -> 'b cset -> bool] [r:'a -> 'b -> bool] [c:'a cset] [d:'b cset]\n\
    subst 15 16 28 11\n\
    norm 29\n\
    conj_r 30\n\
    spec 9 31\n\
    mp 32 12\n\
    choose 8 33 27\n\
    deduct 34 10\n\
    gen 9 35\n\
    disch 5 36\n\
    term [d:'b cset]\n\
    gen 17 37\n\
    term [c:'a cset]\n\
    gen 18 38\n\
    term [r:'a -> 'b -> bool]\n\
    gen 19 39\n\
";

// The facts that it takes.
const CSET_REL_SECONDS_FACTS: &[Fact] = &[th_base::facts::FST_PAIR, th_base::facts::SND_PAIR];

// The definitions and the facts, in order.
pub(crate) static STEPS: [Step; 6] = [
    Step::Constant(48),
    Step::Prove(
        facts::CSET_MAPS_RELATE_EACH,
        CSET_MAPS_RELATE_EACH_FACTS,
        CSET_MAPS_RELATE_EACH,
    ),
    Step::Prove(
        facts::CSET_MAPS_RELATED,
        CSET_MAPS_RELATED_FACTS,
        CSET_MAPS_RELATED,
    ),
    Step::Prove(
        facts::CSET_RELATED_PAIRS,
        CSET_RELATED_PAIRS_FACTS,
        CSET_RELATED_PAIRS,
    ),
    Step::Prove(
        facts::CSET_REL_FIRSTS,
        CSET_REL_FIRSTS_FACTS,
        CSET_REL_FIRSTS,
    ),
    Step::Prove(
        facts::CSET_REL_SECONDS,
        CSET_REL_SECONDS_FACTS,
        CSET_REL_SECONDS,
    ),
];
