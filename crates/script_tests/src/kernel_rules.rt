//! The rules of the kernel, an axiom and a definition, as lines of tables.

use crate::closed::first_wrong_of_base;
use std::test::Fail;

// Tables and the sequents of their last theorems: hypotheses with commas between them, and the conclusion.
static CASES: [(&str, &str); 12] = [
    (
        "\
        type bool\n\
        term [p:bool]\n\
        refl 0\n\
        ",
        "|- [p:bool] = [p:bool]",
    ),
    (
        "\
        term [p:bool]\n\
        assume 0\n\
        ",
        "[p:bool] |- [p:bool]",
    ),
    (
        "\
        term (\\x0:bool. x0 = [q:bool]) [p:bool]\n\
        beta 0\n\
        ",
        "|- (\\x0:bool. x0 = [q:bool]) [p:bool] = ([p:bool] = [q:bool])",
    ),
    (
        "\
        term [p:bool] = [q:bool]\n\
        assume 0\n\
        term [q:bool] = [r:bool]\n\
        assume 1\n\
        trans 0 1\n\
        ",
        "[p:bool] = [q:bool], [q:bool] = [r:bool] |- [p:bool] = [r:bool]",
    ),
    (
        "\
        term [f:bool -> bool] = [h:bool -> bool]\n\
        assume 0\n\
        term [p:bool] = [q:bool]\n\
        assume 1\n\
        comb 0 1\n\
        ",
        "[p:bool] = [q:bool], [f:bool -> bool] = [h:bool -> bool] |- [f:bool -> bool] [p:bool] = [h:bool -> bool] [q:bool]",
    ),
    (
        "\
        term [p:bool] = [q:bool]\n\
        assume 0\n\
        term [p:bool]\n\
        assume 1\n\
        eq_mp 0 1\n\
        ",
        "[p:bool], [p:bool] = [q:bool] |- [q:bool]",
    ),
    (
        "\
        term [p:bool]\n\
        assume 0\n\
        term [q:bool]\n\
        assume 1\n\
        deduct 1 0\n\
        ",
        "[p:bool], [q:bool] |- [q:bool] = [p:bool]",
    ),
    (
        "\
        term [p:bool] = [q:bool]\n\
        assume 0\n\
        term [r:bool]\n\
        abs 1 0\n\
        ",
        "[p:bool] = [q:bool] |- (\\x0:bool. [p:bool]) = (\\x0:bool. [q:bool])",
    ),
    (
        "\
        type bool\n\
        term [x:'a] = [y:'a]\n\
        assume 0\n\
        inst_type 0 a 0\n\
        ",
        "[x:bool] = [y:bool] |- [x:bool] = [y:bool]",
    ),
    (
        "\
        term [p:bool]\n\
        term [q:bool]\n\
        term [p:bool] = [q:bool]\n\
        assume 2\n\
        inst 0 0 1 1 0\n\
        ",
        "[q:bool] = [p:bool] |- [q:bool] = [p:bool]",
    ),
    (
        "\
        axiom 1\n\
        ",
        "|- !x0:'a -> 'b. (\\x1:'a. x0 x1) = x0",
    ),
    (
        "\
        def 0\n\
        ",
        "|- T = ((\\x0:bool. x0) = (\\x0:bool. x0))",
    ),
];

#[test]
fn each_kernel_line_gives_its_sequent(rt: HostRuntime) -> Result<(), Fail> {
    let wrong = first_wrong_of_base(rt.alloc(), &CASES)?;
    assert_eq!(rt; wrong, None);
    Ok(())
}
