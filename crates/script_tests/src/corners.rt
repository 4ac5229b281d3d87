//! The derived rules where hypotheses of their premises meet, or are none, and under binders whose bodies use the variable.

use crate::closed::first_wrong_of_base;
use std::test::Fail;

// Tables and the sequents of their last theorems: hypotheses with commas between them, and the conclusion.
static CASES: [(&str, &str); 18] = [
    (
        "\
        term [p:bool]\n\
        assume 0\n\
        term [q:bool]\n\
        assume 1\n\
        conj_i 0 1\n\
        conj_l 2\n\
        conj_r 2\n\
        conj_i 3 4\n\
        ",
        "[p:bool], [q:bool] |- [p:bool] /\\ [q:bool]",
    ),
    (
        "\
        term [p:bool]\n\
        assume 0\n\
        conj_i 0 0\n\
        ",
        "[p:bool] |- [p:bool] /\\ [p:bool]",
    ),
    (
        "\
        term [q:bool]\n\
        assume 0\n\
        term [p:bool] /\\ [q:bool]\n\
        assume 1\n\
        conj_i 0 1\n\
        conj_r 2\n\
        conj_r 3\n\
        ",
        "[q:bool], [p:bool] /\\ [q:bool] |- [q:bool]",
    ),
    (
        "\
        term [p:bool] \\/ [q:bool]\n\
        assume 0\n\
        term [p:bool]\n\
        assume 1\n\
        conj_i 0 1\n\
        conj_r 2\n\
        term [q:bool]\n\
        disj_l 3 2\n\
        ",
        "[p:bool], [p:bool] \\/ [q:bool] |- [p:bool] \\/ [q:bool]",
    ),
    (
        "\
        term [p:bool] \\/ [q:bool]\n\
        assume 0\n\
        term [r:bool]\n\
        assume 1\n\
        term [p:bool]\n\
        assume 2\n\
        conj_i 2 1\n\
        conj_r 3\n\
        term [q:bool]\n\
        assume 3\n\
        conj_i 5 1\n\
        conj_r 6\n\
        disj_e 0 4 7\n\
        ",
        "[r:bool], [p:bool] \\/ [q:bool] |- [r:bool]",
    ),
    (
        "\
        term [p:bool] \\/ [q:bool]\n\
        assume 0\n\
        term [r:bool]\n\
        assume 1\n\
        term [q:bool]\n\
        assume 2\n\
        conj_i 2 1\n\
        conj_r 3\n\
        term [p:bool]\n\
        assume 3\n\
        conj_i 5 4\n\
        conj_r 6\n\
        disj_e 0 7 7\n\
        ",
        "[p:bool], [q:bool], [r:bool], [p:bool] \\/ [q:bool] |- [r:bool]",
    ),
    (
        "\
        term [p:bool] \\/ [q:bool]\n\
        assume 0\n\
        term [p:bool]\n\
        assume 1\n\
        conj_i 1 0\n\
        conj_r 2\n\
        term [r:bool]\n\
        assume 2\n\
        conj_i 1 4\n\
        conj_r 5\n\
        term [q:bool]\n\
        assume 3\n\
        conj_i 7 4\n\
        conj_r 8\n\
        disj_e 3 6 9\n\
        ",
        "[p:bool], [r:bool], [p:bool] \\/ [q:bool] |- [r:bool]",
    ),
    (
        "\
        term [p:bool] \\/ [p:bool]\n\
        assume 0\n\
        term [p:bool]\n\
        assume 1\n\
        term [q:bool]\n\
        assume 2\n\
        conj_i 2 1\n\
        conj_r 3\n\
        disj_e 0 4 1\n\
        ",
        "[q:bool], [p:bool] \\/ [p:bool] |- [p:bool]",
    ),
    (
        "\
        term [q:bool]\n\
        assume 0\n\
        term [p:bool]\n\
        disch 1 0\n\
        ",
        "[q:bool] |- [p:bool] ==> [q:bool]",
    ),
    (
        "\
        term [p:bool] /\\ [q:bool]\n\
        assume 0\n\
        term [q:bool]\n\
        assume 1\n\
        conj_i 0 1\n\
        conj_r 2\n\
        term [p:bool]\n\
        disch 2 3\n\
        ",
        "[q:bool], [p:bool] /\\ [q:bool] |- [p:bool] ==> [q:bool]",
    ),
    (
        "\
        term [p:bool] ==> [q:bool]\n\
        assume 0\n\
        term [p:bool]\n\
        assume 1\n\
        conj_i 0 1\n\
        conj_l 2\n\
        conj_r 2\n\
        mp 3 4\n\
        ",
        "[p:bool], [p:bool] ==> [q:bool] |- [q:bool]",
    ),
    (
        "\
        term T\n\
        assume 0\n\
        term [p:bool]\n\
        assume 1\n\
        conj_i 0 1\n\
        conj_r 2\n\
        eqt_i 3\n\
        ",
        "[p:bool], T |- [p:bool] = T",
    ),
    (
        "\
        term [x:bool]\n\
        term [p:bool]\n\
        assume 1\n\
        gen 0 0\n\
        ",
        "[p:bool] |- !x0:bool. [p:bool]",
    ),
    (
        "\
        term [x:bool]\n\
        term [x:bool] ==> [p:bool]\n\
        assume 1\n\
        disch 1 0\n\
        gen 0 1\n\
        ",
        "|- !x0:bool. (x0 ==> [p:bool]) ==> (x0 ==> [p:bool])",
    ),
    (
        "\
        term !x0:bool. x0 ==> [q:bool]\n\
        assume 0\n\
        term [p:bool]\n\
        spec 1 0\n\
        ",
        "!x0:bool. x0 ==> [q:bool] |- [p:bool] ==> [q:bool]",
    ),
    (
        "\
        term ?x0:bool. x0 ==> [q:bool]\n\
        term [p:bool]\n\
        term [p:bool] ==> [q:bool]\n\
        assume 2\n\
        ex_i 0 1 0\n\
        ",
        "[p:bool] ==> [q:bool] |- ?x0:bool. x0 ==> [q:bool]",
    ),
    (
        "\
        term ?x0:bool. x0 ==> [p:bool]\n\
        assume 0\n\
        term [x:bool]\n\
        term [x:bool] ==> [p:bool]\n\
        assume 2\n\
        term [q:bool]\n\
        assume 3\n\
        conj_i 1 2\n\
        conj_r 3\n\
        choose 1 0 4\n\
        ",
        "[q:bool], ?x0:bool. x0 ==> [p:bool] |- [q:bool]",
    ),
    (
        "\
        term ?x0:bool. x0 ==> [p:bool]\n\
        assume 0\n\
        term [x:bool]\n\
        term [x:bool] ==> [p:bool]\n\
        assume 2\n\
        conj_i 1 0\n\
        conj_r 2\n\
        term [q:bool]\n\
        assume 3\n\
        conj_i 1 4\n\
        conj_r 5\n\
        choose 1 3 6\n\
        ",
        "[q:bool], ?x0:bool. x0 ==> [p:bool], [x:bool] ==> [p:bool] |- [q:bool]",
    ),
];

#[test]
fn hypotheses_that_meet_stay_or_go(rt: HostRuntime) -> Result<(), Fail> {
    let wrong = first_wrong_of_base(rt.alloc(), &CASES)?;
    assert_eq!(rt; wrong, None);
    Ok(())
}
