//! The conversions, as lines of tables.

use crate::closed::first_wrong_of_base;
use std::test::Fail;

// Tables and the sequents of their last theorems: hypotheses with commas between them, and the conclusion.
static CASES: [(&str, &str); 6] = [
    (
        "\
        term (\\x0:bool. x0) T\n\
        beta_conv 0\n\
        ",
        "|- (\\x0:bool. x0) T = T",
    ),
    (
        "\
        term \\x0:bool. [f:bool -> bool] x0\n\
        eta_conv 0\n\
        ",
        "|- (\\x0:bool. [f:bool -> bool] x0) = [f:bool -> bool]",
    ),
    (
        "\
        term (\\x0:bool. (\\x1:bool. x1) x0) T\n\
        beta_norm 0\n\
        ",
        "|- (\\x0:bool. (\\x1:bool. x1) x0) T = T",
    ),
    (
        "\
        term (\\x0:bool. x0) [p:bool]\n\
        assume 0\n\
        norm 0\n\
        ",
        "(\\x0:bool. x0) [p:bool] |- [p:bool]",
    ),
    (
        "\
        term [p:bool] = [q:bool]\n\
        assume 0\n\
        term [p:bool] ==> [p:bool]\n\
        rewrite_all 1 0\n\
        ",
        "[p:bool] = [q:bool] |- ([p:bool] ==> [p:bool]) = ([q:bool] ==> [q:bool])",
    ),
    (
        "\
        term [p:bool] = [q:bool]\n\
        assume 0\n\
        term [p:bool] ==> [p:bool]\n\
        rewrite_at 1 0 1\n\
        ",
        "[p:bool] = [q:bool] |- ([p:bool] ==> [p:bool]) = ([p:bool] ==> [q:bool])",
    ),
];

#[test]
fn each_conversion_line_gives_its_sequent(rt: HostRuntime) -> Result<(), Fail> {
    let wrong = first_wrong_of_base(rt.alloc(), &CASES)?;
    assert_eq!(rt; wrong, None);
    Ok(())
}
