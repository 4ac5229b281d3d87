//! The derived rules, as lines of tables.

use crate::closed::first_wrong_of_base;
use std::test::Fail;

// Tables and the sequents of their last theorems: hypotheses with commas between them, and the conclusion.
static CASES: [(&str, &str); 18] = [
    (
        "\
        term [p:bool]\n\
        assume 0\n\
        term [q:bool]\n\
        assume 1\n\
        conj_i 0 1\n\
        ",
        "[p:bool], [q:bool] |- [p:bool] /\\ [q:bool]",
    ),
    (
        "\
        term [p:bool] /\\ [q:bool]\n\
        assume 0\n\
        conj_l 0\n\
        ",
        "[p:bool] /\\ [q:bool] |- [p:bool]",
    ),
    (
        "\
        term [p:bool] /\\ [q:bool]\n\
        assume 0\n\
        conj_r 0\n\
        ",
        "[p:bool] /\\ [q:bool] |- [q:bool]",
    ),
    (
        "\
        term [p:bool]\n\
        assume 0\n\
        term [q:bool]\n\
        disj_l 0 1\n\
        ",
        "[p:bool] |- [p:bool] \\/ [q:bool]",
    ),
    (
        "\
        term [q:bool]\n\
        assume 0\n\
        term [p:bool]\n\
        disj_r 1 0\n\
        ",
        "[q:bool] |- [p:bool] \\/ [q:bool]",
    ),
    (
        "\
        term [p:bool] \\/ [p:bool]\n\
        assume 0\n\
        term [p:bool]\n\
        assume 1\n\
        disj_e 0 1 1\n\
        ",
        "[p:bool] \\/ [p:bool] |- [p:bool]",
    ),
    (
        "\
        term [p:bool] ==> F\n\
        assume 0\n\
        not_i 0\n\
        ",
        "[p:bool] ==> F |- ~ [p:bool]",
    ),
    (
        "\
        term ~ [p:bool]\n\
        assume 0\n\
        not_e 0\n\
        ",
        "~ [p:bool] |- [p:bool] ==> F",
    ),
    (
        "\
        term [p:bool]\n\
        assume 0\n\
        disch 0 0\n\
        ",
        "|- [p:bool] ==> [p:bool]",
    ),
    (
        "\
        term [p:bool] ==> [q:bool]\n\
        assume 0\n\
        term [p:bool]\n\
        assume 1\n\
        mp 0 1\n\
        ",
        "[p:bool], [p:bool] ==> [q:bool] |- [q:bool]",
    ),
    (
        "\
        term [x:'a]\n\
        refl 0\n\
        gen 0 0\n\
        ",
        "|- !x0:'a. x0 = x0",
    ),
    (
        "\
        term !x0:bool. x0\n\
        assume 0\n\
        term [p:bool]\n\
        spec 1 0\n\
        ",
        "!x0:bool. x0 |- [p:bool]",
    ),
    (
        "\
        term ?x0:bool. x0\n\
        term [p:bool]\n\
        assume 1\n\
        ex_i 0 1 0\n\
        ",
        "[p:bool] |- ?x0:bool. x0",
    ),
    (
        "\
        term ?x0:bool. x0\n\
        assume 0\n\
        term [p:bool]\n\
        assume 1\n\
        ex_i 0 1 1\n\
        choose 1 0 2\n\
        ",
        "?x0:bool. x0 |- ?x0:bool. x0",
    ),
    (
        "\
        term [v:bool]\n\
        term [v:bool] ==> [r:bool]\n\
        term [p:bool] = [q:bool]\n\
        assume 2\n\
        term [p:bool] ==> [r:bool]\n\
        assume 3\n\
        subst 0 1 0 1\n\
        ",
        "[p:bool] = [q:bool], [p:bool] ==> [r:bool] |- [q:bool] ==> [r:bool]",
    ),
    (
        "\
        term [p:bool] = [q:bool]\n\
        assume 0\n\
        sym 0\n\
        ",
        "[p:bool] = [q:bool] |- [q:bool] = [p:bool]",
    ),
    (
        "\
        term [p:bool]\n\
        assume 0\n\
        eqt_i 0\n\
        ",
        "[p:bool] |- [p:bool] = T",
    ),
    (
        "\
        term [p:bool] = T\n\
        assume 0\n\
        eqt_e 0\n\
        ",
        "[p:bool] = T |- [p:bool]",
    ),
];

#[test]
fn each_derived_line_gives_its_sequent(rt: HostRuntime) -> Result<(), Fail> {
    let wrong = first_wrong_of_base(rt.alloc(), &CASES)?;
    assert_eq!(rt; wrong, None);
    Ok(())
}
