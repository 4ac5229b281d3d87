// Written by `python3 tools/library.py write` from the scripts of tools/library/.
//! Sums: the proof tables, and the steps of the building. Each line of a table puts
//! one type, term or theorem at the end of its register; the theorems begin with the facts that the table takes.

use crate::facts;
use library_facts::Fact;
use library_steps::Step;

// The relation of a left value represents an element of the sum.
const SUM_INHABITED: &str = "\
    term sum.left{'a,'b} [x:'a]\n\
    refl 0\n\
    term ?x0:'a. sum.left{'a,'b} [x:'a] = sum.left{'a,'b} x0\n\
    term [x:'a]\n\
    ex_i 1 2 0\n\
    term ?x0:'b. sum.left{'a,'b} [x:'a] = sum.right{'b,'a} x0\n\
    disj_l 1 3\n\
    term (\\x0:bool -> 'a -> 'b -> bool. (?x1:'a. x0 = sum.left{'a,'b} x1) \\/ (?x1:'b. x0 = sum.right{'b,'a} x1)) (sum.left{'a,'b} [x:'a])\n\
    beta_norm 4\n\
    sym 3\n\
    eq_mp 4 2\n\
";

// An element of a sum is the one that its representation stands for.
const SUM_ABS_REP: &str = "\
    type_abs 25\n\
    term [a:('a,'b) sum]\n\
    gen 0 0\n\
";

// The facts that it takes.
const SUM_ABS_REP_FACTS: &[Fact] = &[];

// A relation represents an element of a sum where it is that of a left or a right value.
const SUM_REP_ABS: &str = "\
    type_rep 25\n\
    term [r:bool -> 'a -> 'b -> bool]\n\
    gen 0 0\n\
    norm 1\n\
";

// The facts that it takes.
const SUM_REP_ABS_FACTS: &[Fact] = &[];

// How a left value is represented.
const INL_REP: &str = "\
    term sum.left{'a,'b} [x:'a]\n\
    refl 0\n\
    term ?x0:'a. sum.left{'a,'b} [x:'a] = sum.left{'a,'b} x0\n\
    term [x:'a]\n\
    ex_i 1 2 1\n\
    term ?x0:'b. sum.left{'a,'b} [x:'a] = sum.right{'b,'a} x0\n\
    disj_l 2 3\n\
    spec 0 0\n\
    eq_mp 4 3\n\
    def 26\n\
    term inl{'a,'b} [x:'a]\n\
    rewrite_all 4 6\n\
    norm 7\n\
    term sum.rep{'a,'b}\n\
    refl 5\n\
    comb 9 8\n\
    trans 10 5\n\
    gen 2 11\n\
";

// The facts that it takes.
const INL_REP_FACTS: &[Fact] = &[facts::SUM_REP_ABS];

// How a right value is represented.
const INR_REP: &str = "\
    term sum.right{'b,'a} [x:'b]\n\
    refl 0\n\
    term ?x0:'b. sum.right{'b,'a} [x:'b] = sum.right{'b,'a} x0\n\
    term [x:'b]\n\
    ex_i 1 2 1\n\
    term ?x0:'a. sum.right{'b,'a} [x:'b] = sum.left{'a,'b} x0\n\
    disj_r 3 2\n\
    spec 0 0\n\
    eq_mp 4 3\n\
    def 27\n\
    term inr{'b,'a} [x:'b]\n\
    rewrite_all 4 6\n\
    norm 7\n\
    term sum.rep{'a,'b}\n\
    refl 5\n\
    comb 9 8\n\
    trans 10 5\n\
    gen 2 11\n\
";

// The facts that it takes.
const INR_REP_FACTS: &[Fact] = &[facts::SUM_REP_ABS];

// Equal left values have equal contents.
const INL_INJECTIVE: &str = "\
    term inl{'a,'b} [x:'a] = inl{'a,'b} [y:'a]\n\
    assume 0\n\
    term [x:'a]\n\
    spec 1 0\n\
    term [v:('a,'b) sum]\n\
    term sum.rep{'a,'b} [v:('a,'b) sum] = sum.left{'a,'b} [x:'a]\n\
    subst 2 3 2 3\n\
    sym 4\n\
    term [y:'a]\n\
    spec 4 0\n\
    trans 5 6\n\
    term T\n\
    refl 5\n\
    comb 7 8\n\
    refl 1\n\
    comb 9 10\n\
    term [b:'b]\n\
    refl 6\n\
    comb 11 12\n\
    def 23\n\
    term [v:'a -> bool -> 'a -> 'b -> bool]\n\
    term [v:'a -> bool -> 'a -> 'b -> bool] [x:'a] T [x:'a] [b:'b] = [v:'a -> bool -> 'a -> 'b -> bool] [y:'a] T [x:'a] [b:'b]\n\
    subst 7 8 14 13\n\
    norm 15\n\
    conj_i 1 10\n\
    eq_mp 16 17\n\
    conj_r 18\n\
    disch 0 19\n\
    gen 4 20\n\
    gen 1 21\n\
";

// The facts that it takes.
const INL_INJECTIVE_FACTS: &[Fact] = &[facts::INL_REP, facts::TRUTH];

// Equal right values have equal contents.
const INR_INJECTIVE: &str = "\
    term inr{'b,'a} [x:'b] = inr{'b,'a} [y:'b]\n\
    assume 0\n\
    term [x:'b]\n\
    spec 1 0\n\
    term [v:('a,'b) sum]\n\
    term sum.rep{'a,'b} [v:('a,'b) sum] = sum.right{'b,'a} [x:'b]\n\
    subst 2 3 1 2\n\
    sym 3\n\
    term [y:'b]\n\
    spec 4 0\n\
    trans 4 5\n\
    term F\n\
    refl 5\n\
    comb 6 7\n\
    term [a:'a]\n\
    refl 6\n\
    comb 8 9\n\
    refl 1\n\
    comb 10 11\n\
    def 24\n\
    term [v:'b -> bool -> 'a -> 'b -> bool]\n\
    term [v:'b -> bool -> 'a -> 'b -> bool] [x:'b] F [a:'a] [x:'b] = [v:'b -> bool -> 'a -> 'b -> bool] [y:'b] F [a:'a] [x:'b]\n\
    subst 7 8 13 12\n\
    norm 14\n\
    assume 5\n\
    disch 5 16\n\
    not_i 17\n\
    conj_i 18 11\n\
    eq_mp 15 19\n\
    conj_r 20\n\
    disch 0 21\n\
    gen 4 22\n\
    gen 1 23\n\
";

// The facts that it takes.
const INR_INJECTIVE_FACTS: &[Fact] = &[facts::INR_REP];

// A left value is no right value.
const INL_NOT_INR: &str = "\
    term inl{'a,'b} [x:'a] = inr{'b,'a} [y:'b]\n\
    assume 0\n\
    term [x:'a]\n\
    spec 1 0\n\
    term [v:('a,'b) sum]\n\
    term sum.rep{'a,'b} [v:('a,'b) sum] = sum.left{'a,'b} [x:'a]\n\
    subst 2 3 3 4\n\
    sym 5\n\
    term [y:'b]\n\
    spec 4 1\n\
    trans 6 7\n\
    term T\n\
    refl 5\n\
    comb 8 9\n\
    refl 1\n\
    comb 10 11\n\
    refl 4\n\
    comb 12 13\n\
    def 23\n\
    term [v:'a -> bool -> 'a -> 'b -> bool]\n\
    term [v:'a -> bool -> 'a -> 'b -> bool] [x:'a] T [x:'a] [y:'b] = sum.right{'b,'a} [y:'b] T [x:'a] [y:'b]\n\
    subst 6 7 15 14\n\
    def 24\n\
    term [v:'b -> bool -> 'a -> 'b -> bool]\n\
    term (\\x0:'a. \\x1:bool. \\x2:'a. \\x3:'b. x1 /\\ (x2 = x0)) [x:'a] T [x:'a] [y:'b] = [v:'b -> bool -> 'a -> 'b -> bool] [y:'b] T [x:'a] [y:'b]\n\
    subst 8 9 17 16\n\
    norm 18\n\
    conj_i 2 11\n\
    eq_mp 19 20\n\
    conj_l 21\n\
    not_e 22\n\
    mp 23 2\n\
    disch 0 24\n\
    not_i 25\n\
    gen 4 26\n\
    gen 1 27\n\
";

// The facts that it takes.
const INL_NOT_INR_FACTS: &[Fact] = &[facts::INL_REP, facts::INR_REP, facts::TRUTH];

// A right value is no left value.
const INR_NOT_INL: &str = "\
    term inr{'b,'a} [y:'b] = inl{'a,'b} [x:'a]\n\
    assume 0\n\
    term [x:'a]\n\
    spec 1 0\n\
    term [y:'b]\n\
    spec 2 2\n\
    sym 1\n\
    not_e 3\n\
    mp 5 4\n\
    disch 0 6\n\
    not_i 7\n\
    gen 2 8\n\
    gen 1 9\n\
";

// The facts that it takes.
const INR_NOT_INL_FACTS: &[Fact] = &[facts::INL_NOT_INR];

// Each element of a sum is a left or a right value.
const INL_OR_INR: &str = "\
    term [s:('a,'b) sum]\n\
    spec 0 0\n\
    term sum.rep{'a,'b} [s:('a,'b) sum]\n\
    spec 1 1\n\
    term sum.rep{'a,'b}\n\
    refl 2\n\
    comb 4 2\n\
    sym 3\n\
    eq_mp 6 5\n\
    term sum.rep{'a,'b} [s:('a,'b) sum] = sum.left{'a,'b} [x:'a]\n\
    assume 3\n\
    term sum.abs{'a,'b}\n\
    refl 4\n\
    comb 9 8\n\
    sym 2\n\
    def 26\n\
    term inl{'a,'b} [x:'a]\n\
    rewrite_all 5 12\n\
    norm 13\n\
    sym 14\n\
    trans 11 10\n\
    trans 16 15\n\
    term ?x0:'a. [s:('a,'b) sum] = inl{'a,'b} x0\n\
    term [x:'a]\n\
    ex_i 6 7 17\n\
    term ?x0:'b. [s:('a,'b) sum] = inr{'b,'a} x0\n\
    disj_l 18 8\n\
    term ?x0:'a. sum.rep{'a,'b} [s:('a,'b) sum] = sum.left{'a,'b} x0\n\
    assume 9\n\
    choose 7 20 19\n\
    term sum.rep{'a,'b} [s:('a,'b) sum] = sum.right{'b,'a} [y:'b]\n\
    assume 10\n\
    comb 9 22\n\
    def 27\n\
    term inr{'b,'a} [y:'b]\n\
    rewrite_all 11 24\n\
    norm 25\n\
    sym 26\n\
    trans 11 23\n\
    trans 28 27\n\
    term [y:'b]\n\
    ex_i 8 12 29\n\
    disj_r 6 30\n\
    term ?x0:'b. sum.rep{'a,'b} [s:('a,'b) sum] = sum.right{'b,'a} x0\n\
    assume 13\n\
    choose 12 32 31\n\
    disj_e 7 21 33\n\
    gen 0 34\n\
";

// The facts that it takes.
const INL_OR_INR_FACTS: &[Fact] = &[facts::SUM_ABS_REP, facts::SUM_REP_ABS];

// Case analysis of a left value.
const CASE_INL: &str = "\
    term inl{'a,'b} [x:'a]\n\
    refl 0\n\
    term [f:'a -> 'c] [x:'a]\n\
    refl 1\n\
    conj_i 3 4\n\
    term ?x0:'a. (inl{'a,'b} [x:'a] = inl{'a,'b} x0) /\\ ([f:'a -> 'c] [x:'a] = [f:'a -> 'c] x0)\n\
    term [x:'a]\n\
    ex_i 2 3 5\n\
    term ?x0:'b. (inl{'a,'b} [x:'a] = inr{'b,'a} x0) /\\ ([f:'a -> 'c] [x:'a] = [g:'b -> 'c] x0)\n\
    disj_l 6 4\n\
    term ?x0:'c. (?x1:'a. (inl{'a,'b} [x:'a] = inl{'a,'b} x1) /\\ (x0 = [f:'a -> 'c] x1)) \\/ (?x1:'b. (inl{'a,'b} [x:'a] = inr{'b,'a} x1) /\\ (x0 = [g:'b -> 'c] x1))\n\
    ex_i 5 1 7\n\
    type 'c\n\
    inst_type 0 a 0\n\
    term \\x0:'c. (?x1:'a. (inl{'a,'b} [x:'a] = inl{'a,'b} x1) /\\ (x0 = [f:'a -> 'c] x1)) \\/ (?x1:'b. (inl{'a,'b} [x:'a] = inr{'b,'a} x1) /\\ (x0 = [g:'b -> 'c] x1))\n\
    spec 6 9\n\
    norm 10\n\
    mp 11 8\n\
    term (inl{'a,'b} [x:'a] = inl{'a,'b} [a:'a]) /\\ (some{'c} (\\x0:'c. (?x1:'a. (inl{'a,'b} [x:'a] = inl{'a,'b} x1) /\\ (x0 = [f:'a -> 'c] x1)) \\/ (?x1:'b. (inl{'a,'b} [x:'a] = inr{'b,'a} x1) /\\ (x0 = [g:'b -> 'c] x1))) = [f:'a -> 'c] [a:'a])\n\
    assume 7\n\
    spec 3 1\n\
    term [a:'a]\n\
    spec 8 14\n\
    conj_l 13\n\
    mp 15 16\n\
    sym 17\n\
    conj_r 13\n\
    term [v:'a]\n\
    term some{'c} (\\x0:'c. (?x1:'a. (inl{'a,'b} [x:'a] = inl{'a,'b} x1) /\\ (x0 = [f:'a -> 'c] x1)) \\/ (?x1:'b. (inl{'a,'b} [x:'a] = inr{'b,'a} x1) /\\ (x0 = [g:'b -> 'c] x1))) = [f:'a -> 'c] [v:'a]\n\
    subst 9 10 18 19\n\
    term ?x0:'a. (inl{'a,'b} [x:'a] = inl{'a,'b} x0) /\\ (some{'c} (\\x1:'c. (?x2:'a. (inl{'a,'b} [x:'a] = inl{'a,'b} x2) /\\ (x1 = [f:'a -> 'c] x2)) \\/ (?x2:'b. (inl{'a,'b} [x:'a] = inr{'b,'a} x2) /\\ (x1 = [g:'b -> 'c] x2))) = [f:'a -> 'c] x0)\n\
    assume 11\n\
    choose 8 21 20\n\
    term (inl{'a,'b} [x:'a] = inr{'b,'a} [b:'b]) /\\ (some{'c} (\\x0:'c. (?x1:'a. (inl{'a,'b} [x:'a] = inl{'a,'b} x1) /\\ (x0 = [f:'a -> 'c] x1)) \\/ (?x1:'b. (inl{'a,'b} [x:'a] = inr{'b,'a} x1) /\\ (x0 = [g:'b -> 'c] x1))) = [g:'b -> 'c] [b:'b])\n\
    assume 12\n\
    spec 3 2\n\
    term [b:'b]\n\
    spec 13 24\n\
    conj_l 23\n\
    not_e 25\n\
    mp 27 26\n\
    def 6\n\
    eq_mp 29 28\n\
    term some{'c} (\\x0:'c. (?x1:'a. (inl{'a,'b} [x:'a] = inl{'a,'b} x1) /\\ (x0 = [f:'a -> 'c] x1)) \\/ (?x1:'b. (inl{'a,'b} [x:'a] = inr{'b,'a} x1) /\\ (x0 = [g:'b -> 'c] x1))) = [f:'a -> 'c] [x:'a]\n\
    spec 14 30\n\
    term ?x0:'b. (inl{'a,'b} [x:'a] = inr{'b,'a} x0) /\\ (some{'c} (\\x1:'c. (?x2:'a. (inl{'a,'b} [x:'a] = inl{'a,'b} x2) /\\ (x1 = [f:'a -> 'c] x2)) \\/ (?x2:'b. (inl{'a,'b} [x:'a] = inr{'b,'a} x2) /\\ (x1 = [g:'b -> 'c] x2))) = [g:'b -> 'c] x0)\n\
    assume 15\n\
    choose 13 32 31\n\
    disj_e 12 22 33\n\
    type 'b\n\
    inst_type 34 b 0 c 1\n\
    def 28\n\
    term sum.case{'a,'b,'c} [f:'a -> 'b] [g:'c -> 'b] (inl{'a,'c} [x:'a])\n\
    rewrite_all 16 36\n\
    norm 37\n\
    trans 38 35\n\
    gen 3 39\n\
    term [g:'c -> 'b]\n\
    gen 17 40\n\
    term [f:'a -> 'b]\n\
    gen 18 41\n\
";

// The facts that it takes.
const CASE_INL_FACTS: &[Fact] = &[facts::SOME_HOLDS, facts::INL_INJECTIVE, facts::INL_NOT_INR];

// Case analysis of a right value.
const CASE_INR: &str = "\
    term inr{'b,'a} [x:'b]\n\
    refl 0\n\
    term [g:'b -> 'c] [x:'b]\n\
    refl 1\n\
    conj_i 3 4\n\
    term ?x0:'b. (inr{'b,'a} [x:'b] = inr{'b,'a} x0) /\\ ([g:'b -> 'c] [x:'b] = [g:'b -> 'c] x0)\n\
    term [x:'b]\n\
    ex_i 2 3 5\n\
    term ?x0:'a. (inr{'b,'a} [x:'b] = inl{'a,'b} x0) /\\ ([g:'b -> 'c] [x:'b] = [f:'a -> 'c] x0)\n\
    disj_r 4 6\n\
    term ?x0:'c. (?x1:'a. (inr{'b,'a} [x:'b] = inl{'a,'b} x1) /\\ (x0 = [f:'a -> 'c] x1)) \\/ (?x1:'b. (inr{'b,'a} [x:'b] = inr{'b,'a} x1) /\\ (x0 = [g:'b -> 'c] x1))\n\
    ex_i 5 1 7\n\
    type 'c\n\
    inst_type 0 a 0\n\
    term \\x0:'c. (?x1:'a. (inr{'b,'a} [x:'b] = inl{'a,'b} x1) /\\ (x0 = [f:'a -> 'c] x1)) \\/ (?x1:'b. (inr{'b,'a} [x:'b] = inr{'b,'a} x1) /\\ (x0 = [g:'b -> 'c] x1))\n\
    spec 6 9\n\
    norm 10\n\
    mp 11 8\n\
    term (inr{'b,'a} [x:'b] = inl{'a,'b} [a:'a]) /\\ (some{'c} (\\x0:'c. (?x1:'a. (inr{'b,'a} [x:'b] = inl{'a,'b} x1) /\\ (x0 = [f:'a -> 'c] x1)) \\/ (?x1:'b. (inr{'b,'a} [x:'b] = inr{'b,'a} x1) /\\ (x0 = [g:'b -> 'c] x1))) = [f:'a -> 'c] [a:'a])\n\
    assume 7\n\
    term [a:'a]\n\
    spec 8 1\n\
    spec 3 14\n\
    conj_l 13\n\
    not_e 15\n\
    mp 17 16\n\
    def 6\n\
    eq_mp 19 18\n\
    term some{'c} (\\x0:'c. (?x1:'a. (inr{'b,'a} [x:'b] = inl{'a,'b} x1) /\\ (x0 = [f:'a -> 'c] x1)) \\/ (?x1:'b. (inr{'b,'a} [x:'b] = inr{'b,'a} x1) /\\ (x0 = [g:'b -> 'c] x1))) = [g:'b -> 'c] [x:'b]\n\
    spec 9 20\n\
    term ?x0:'a. (inr{'b,'a} [x:'b] = inl{'a,'b} x0) /\\ (some{'c} (\\x1:'c. (?x2:'a. (inr{'b,'a} [x:'b] = inl{'a,'b} x2) /\\ (x1 = [f:'a -> 'c] x2)) \\/ (?x2:'b. (inr{'b,'a} [x:'b] = inr{'b,'a} x2) /\\ (x1 = [g:'b -> 'c] x2))) = [f:'a -> 'c] x0)\n\
    assume 10\n\
    choose 8 22 21\n\
    term (inr{'b,'a} [x:'b] = inr{'b,'a} [b:'b]) /\\ (some{'c} (\\x0:'c. (?x1:'a. (inr{'b,'a} [x:'b] = inl{'a,'b} x1) /\\ (x0 = [f:'a -> 'c] x1)) \\/ (?x1:'b. (inr{'b,'a} [x:'b] = inr{'b,'a} x1) /\\ (x0 = [g:'b -> 'c] x1))) = [g:'b -> 'c] [b:'b])\n\
    assume 11\n\
    spec 3 2\n\
    term [b:'b]\n\
    spec 12 25\n\
    conj_l 24\n\
    mp 26 27\n\
    sym 28\n\
    conj_r 24\n\
    term [v:'b]\n\
    term some{'c} (\\x0:'c. (?x1:'a. (inr{'b,'a} [x:'b] = inl{'a,'b} x1) /\\ (x0 = [f:'a -> 'c] x1)) \\/ (?x1:'b. (inr{'b,'a} [x:'b] = inr{'b,'a} x1) /\\ (x0 = [g:'b -> 'c] x1))) = [g:'b -> 'c] [v:'b]\n\
    subst 13 14 29 30\n\
    term ?x0:'b. (inr{'b,'a} [x:'b] = inr{'b,'a} x0) /\\ (some{'c} (\\x1:'c. (?x2:'a. (inr{'b,'a} [x:'b] = inl{'a,'b} x2) /\\ (x1 = [f:'a -> 'c] x2)) \\/ (?x2:'b. (inr{'b,'a} [x:'b] = inr{'b,'a} x2) /\\ (x1 = [g:'b -> 'c] x2))) = [g:'b -> 'c] x0)\n\
    assume 15\n\
    choose 12 32 31\n\
    disj_e 12 23 33\n\
    type 'b\n\
    inst_type 34 b 0 c 1\n\
    def 28\n\
    term sum.case{'a,'b,'c} [f:'a -> 'b] [g:'c -> 'b] (inr{'c,'a} [x:'c])\n\
    rewrite_all 16 36\n\
    norm 37\n\
    trans 38 35\n\
    term [x:'c]\n\
    gen 17 39\n\
    term [g:'c -> 'b]\n\
    gen 18 40\n\
    term [f:'a -> 'b]\n\
    gen 19 41\n\
";

// The facts that it takes.
const CASE_INR_FACTS: &[Fact] = &[facts::SOME_HOLDS, facts::INR_NOT_INL, facts::INR_INJECTIVE];

// The definitions and the facts, in order.
pub(crate) static STEPS: [Step; 21] = [
    Step::Constant(23),
    Step::Constant(24),
    Step::NewType(25, SUM_INHABITED),
    Step::Prove(facts::SUM_ABS_REP, SUM_ABS_REP_FACTS, SUM_ABS_REP),
    Step::Prove(facts::SUM_REP_ABS, SUM_REP_ABS_FACTS, SUM_REP_ABS),
    Step::Constant(26),
    Step::Constant(27),
    Step::Prove(facts::INL_REP, INL_REP_FACTS, INL_REP),
    Step::Prove(facts::INR_REP, INR_REP_FACTS, INR_REP),
    Step::Prove(facts::INL_INJECTIVE, INL_INJECTIVE_FACTS, INL_INJECTIVE),
    Step::Prove(facts::INR_INJECTIVE, INR_INJECTIVE_FACTS, INR_INJECTIVE),
    Step::Prove(facts::INL_NOT_INR, INL_NOT_INR_FACTS, INL_NOT_INR),
    Step::Prove(facts::INR_NOT_INL, INR_NOT_INL_FACTS, INR_NOT_INL),
    Step::Prove(facts::INL_OR_INR, INL_OR_INR_FACTS, INL_OR_INR),
    Step::Constant(28),
    Step::Prove(facts::CASE_INL, CASE_INL_FACTS, CASE_INL),
    Step::Prove(facts::CASE_INR, CASE_INR_FACTS, CASE_INR),
    Step::Constant(29),
    Step::Constant(30),
    Step::Constant(31),
    Step::Constant(32),
];
