//! Tables on lists, over a kernel that has a type of lists and constants of their types, of which it says nothing else.

ghost use Rattle.std.specs.Prelude.{◌≡◌, [], true, IfOk, IfSome, OnOk};
ghost use Rattle.hol_terms.specs.Base.{base};
ghost use Rattle.hol_terms.specs.Definition.{signature_of};
ghost use Rattle.hol_terms.specs.Sequent.{seq, eq_tm};
ghost use Rattle.hol_terms.specs.Signature.{IsOver};
ghost use Rattle.kernel_lines.specs.Bases.{HasBase};
ghost use Rattle.script_core.specs.Ready.{Gives};
ghost use Rattle.script_tests.specs.Closed.{nothing};
ghost use Rattle.script_tests.specs.Lists.{IsSide, IsConstantOf, with_list, with_nil, with_cons, with_set, with_map};

use crate::closed::{derived, first_wrong};
use hol_kernel::Kernel;
use hol_terms::terms::Term;
use kernel_lines::start;
use std::alloc::{AllocError, Global};
use std::test::Fail;

// The term that the table puts on both sides of its last equation.
#[tactic(auto, using(crate::proofs::ListKernel::side_lemmas))]
pub(crate) fn side(alloc: Global, k: &mut Kernel, table: &str) -> Result<Term, AllocError>
    requires base { HasBase k.old.defs }
    requires side { IsSide k.old.defs table.now }
    ensures exact { IfOk result (λ t. Gives k.old.defs [] nothing table.now (seq [] (eq_tm t t))) }
    ensures over { IfOk result (λ t. IsOver (signature_of k.new.defs) [] t) }
    ensures defs { OnOk result (k.new.defs ≡ k.old.defs) }
{
    let th = derived(alloc, k, table)?;
    let t = th.concl().right().copy()?;
    Ok(t)
}

// Defines the name as that term, and says whether it may be.
#[tactic(auto, using(crate::proofs::ListKernel::constant_lemmas))]
fn add_constant(alloc: Global, k: &mut Kernel, name: &str, table: &str) -> Result<bool, AllocError>
    requires base { HasBase k.old.defs }
    requires side { IsSide k.old.defs table.now }
    ensures { IfOk result (λ b. b ≡ true → IsConstantOf k.old.defs name.now table.now k.new.defs) }
{
    let t = side(alloc, k, table)?;
    if k.may_define(name, &t).is_some() {
        return Ok(false);
    }
    k.define(alloc, name, &t)?;
    Ok(true)
}

// Defines a type `'a list`, and says whether it may be: its predicate is to be the identity of 'a.
fn add_list(alloc: Global, k: &mut Kernel) -> Result<bool, AllocError>
    requires { k.old.defs ≡ base 10 }
    ensures { IfOk result (λ b. b ≡ true → k.new.defs ≡ with_list) }
{
    let a = derived(alloc, k, "term \\x0:'a. x0\nrefl 0\n")?;
    if k.may_define_type("list", &a).is_some() {
        return Ok(false);
    }
    k.define_type(alloc, "list", &a)?;
    Ok(true)
}

fn add_nil(alloc: Global, k: &mut Kernel) -> Result<bool, AllocError>
    requires { k.old.defs ≡ with_list }
    ensures { IfOk result (λ b. b ≡ true → k.new.defs ≡ with_nil) }
{
    let table = "term some{'a list} (\\x0:'a list. T)\nrefl 0\n";
    let is_there = add_constant(alloc, k, "Nil", table)?;
    Ok(is_there)
}

fn add_cons(alloc: Global, k: &mut Kernel) -> Result<bool, AllocError>
    requires { k.old.defs ≡ with_nil }
    ensures { IfOk result (λ b. b ≡ true → k.new.defs ≡ with_cons) }
{
    let table = "term some{'a -> 'a list -> 'a list} (\\x0:'a -> 'a list -> 'a list. T)\nrefl 0\n";
    let is_there = add_constant(alloc, k, "Cons", table)?;
    Ok(is_there)
}

fn add_set(alloc: Global, k: &mut Kernel) -> Result<bool, AllocError>
    requires { k.old.defs ≡ with_cons }
    ensures { IfOk result (λ b. b ≡ true → k.new.defs ≡ with_set) }
{
    let table = "term some{'a list -> 'a -> bool} (\\x0:'a list -> 'a -> bool. T)\nrefl 0\n";
    let is_there = add_constant(alloc, k, "list.set1", table)?;
    Ok(is_there)
}

fn add_map(alloc: Global, k: &mut Kernel) -> Result<bool, AllocError>
    requires { k.old.defs ≡ with_set }
    ensures { IfOk result (λ b. b ≡ true → k.new.defs ≡ with_map) }
{
    let table =
        "term some{('a -> 'x1) -> 'a list -> 'x1 list} (\\x0:('a -> 'x1) -> 'a list -> 'x1 list. T)\nrefl 0\n";
    let is_there = add_constant(alloc, k, "list.map", table)?;
    Ok(is_there)
}

// A kernel with all of these, or nothing where one may not be defined.
fn list_kernel(alloc: Global) -> Result<Option<Kernel>, AllocError>
    ensures { IfOk result (λ o. IfSome o (λ k. k.defs ≡ with_map)) }
{
    let mut k = start(alloc)?;
    let is_there = add_list(alloc, &mut k)?
        && add_nil(alloc, &mut k)?
        && add_cons(alloc, &mut k)?
        && add_set(alloc, &mut k)?
        && add_map(alloc, &mut k)?;
    Ok(if is_there { Some(k) } else { None })
}

// Tables and the sequents of their last theorems: hypotheses with commas between them, and the conclusion.
static CASES: [(&str, &str); 23] = [
    (
        "\
        term (!x0:'a. list.set1{'a} Nil{'a} x0 = F)\n\
        assume 0\n\
        term (!x0:'a -> 'x1. list.map{'a,'x1} x0 Nil{'a} = Nil{'x1})\n\
        assume 1\n\
        conj_i 0 1\n\
        ",
        "!x0:'a. list.set1{'a} Nil{'a} x0 = F, !x0:'a -> 'x1. list.map{'a,'x1} x0 Nil{'a} = Nil{'x1} |- (!x0:'a. list.set1{'a} Nil{'a} x0 = F) /\\ (!x0:'a -> 'x1. list.map{'a,'x1} x0 Nil{'a} = Nil{'x1})",
    ),
    (
        "\
        term (!x0:'a. list.set1{'a} Nil{'a} x0 = F) /\\ (!x0:'a. !x1:'a list. list.set1{'a} (Cons{'a} x0 x1) x0)\n\
        assume 0\n\
        conj_l 0\n\
        ",
        "(!x0:'a. list.set1{'a} Nil{'a} x0 = F) /\\ (!x0:'a. !x1:'a list. list.set1{'a} (Cons{'a} x0 x1) x0) |- !x0:'a. list.set1{'a} Nil{'a} x0 = F",
    ),
    (
        "\
        term (!x0:'a. list.set1{'a} Nil{'a} x0 = F) /\\ (!x0:'a. !x1:'a list. list.set1{'a} (Cons{'a} x0 x1) x0)\n\
        assume 0\n\
        conj_r 0\n\
        ",
        "(!x0:'a. list.set1{'a} Nil{'a} x0 = F) /\\ (!x0:'a. !x1:'a list. list.set1{'a} (Cons{'a} x0 x1) x0) |- !x0:'a. !x1:'a list. list.set1{'a} (Cons{'a} x0 x1) x0",
    ),
    (
        "\
        term (!x0:'a. list.set1{'a} Nil{'a} x0 = F)\n\
        assume 0\n\
        term (!x0:'a -> 'x1. list.map{'a,'x1} x0 Nil{'a} = Nil{'x1})\n\
        disj_l 0 1\n\
        ",
        "!x0:'a. list.set1{'a} Nil{'a} x0 = F |- (!x0:'a. list.set1{'a} Nil{'a} x0 = F) \\/ (!x0:'a -> 'x1. list.map{'a,'x1} x0 Nil{'a} = Nil{'x1})",
    ),
    (
        "\
        term (!x0:'a -> 'x1. list.map{'a,'x1} x0 Nil{'a} = Nil{'x1})\n\
        term (!x0:'a. !x1:'a list. list.set1{'a} (Cons{'a} x0 x1) x0)\n\
        assume 1\n\
        disj_r 0 0\n\
        ",
        "!x0:'a. !x1:'a list. list.set1{'a} (Cons{'a} x0 x1) x0 |- (!x0:'a -> 'x1. list.map{'a,'x1} x0 Nil{'a} = Nil{'x1}) \\/ (!x0:'a. !x1:'a list. list.set1{'a} (Cons{'a} x0 x1) x0)",
    ),
    (
        "\
        term (!x0:'a. list.set1{'a} Nil{'a} x0 = F) \\/ (!x0:'a. list.set1{'a} Nil{'a} x0 = F)\n\
        assume 0\n\
        term (!x0:'a. list.set1{'a} Nil{'a} x0 = F)\n\
        assume 1\n\
        disj_e 0 1 1\n\
        ",
        "(!x0:'a. list.set1{'a} Nil{'a} x0 = F) \\/ (!x0:'a. list.set1{'a} Nil{'a} x0 = F) |- !x0:'a. list.set1{'a} Nil{'a} x0 = F",
    ),
    (
        "\
        term (!x0:'a. !x1:'a list. list.set1{'a} (Cons{'a} x0 x1) x0) ==> F\n\
        assume 0\n\
        not_i 0\n\
        ",
        "(!x0:'a. !x1:'a list. list.set1{'a} (Cons{'a} x0 x1) x0) ==> F |- ~ (!x0:'a. !x1:'a list. list.set1{'a} (Cons{'a} x0 x1) x0)",
    ),
    (
        "\
        term ~ (!x0:'a. !x1:'a list. list.set1{'a} (Cons{'a} x0 x1) x0)\n\
        assume 0\n\
        not_e 0\n\
        ",
        "~ (!x0:'a. !x1:'a list. list.set1{'a} (Cons{'a} x0 x1) x0) |- (!x0:'a. !x1:'a list. list.set1{'a} (Cons{'a} x0 x1) x0) ==> F",
    ),
    (
        "\
        term (!x0:'a -> 'x1. list.map{'a,'x1} x0 Nil{'a} = Nil{'x1})\n\
        assume 0\n\
        disch 0 0\n\
        ",
        "|- (!x0:'a -> 'x1. list.map{'a,'x1} x0 Nil{'a} = Nil{'x1}) ==> (!x0:'a -> 'x1. list.map{'a,'x1} x0 Nil{'a} = Nil{'x1})",
    ),
    (
        "\
        term (!x0:'a. !x1:'a list. list.set1{'a} (Cons{'a} x0 x1) x0) ==> (!x0:'a. list.set1{'a} Nil{'a} x0 = F)\n\
        assume 0\n\
        term (!x0:'a. !x1:'a list. list.set1{'a} (Cons{'a} x0 x1) x0)\n\
        assume 1\n\
        mp 0 1\n\
        ",
        "!x0:'a. !x1:'a list. list.set1{'a} (Cons{'a} x0 x1) x0, (!x0:'a. !x1:'a list. list.set1{'a} (Cons{'a} x0 x1) x0) ==> (!x0:'a. list.set1{'a} Nil{'a} x0 = F) |- !x0:'a. list.set1{'a} Nil{'a} x0 = F",
    ),
    (
        "\
        term [l:'a list]\n\
        refl 0\n\
        gen 0 0\n\
        ",
        "|- !x0:'a list. x0 = x0",
    ),
    (
        "\
        term (!x0:'a. list.set1{'a} Nil{'a} x0 = F)\n\
        assume 0\n\
        term [y:'a]\n\
        spec 1 0\n\
        ",
        "!x0:'a. list.set1{'a} Nil{'a} x0 = F |- list.set1{'a} Nil{'a} [y:'a] = F",
    ),
    (
        "\
        term ?x0:'a list. x0 = Nil{'a}\n\
        term Nil{'a}\n\
        refl 1\n\
        ex_i 0 1 0\n\
        ",
        "|- ?x0:'a list. x0 = Nil{'a}",
    ),
    (
        "\
        term ?x0:'a. list.set1{'a} (Cons{'a} x0 Nil{'a}) x0\n\
        assume 0\n\
        term [y:'a]\n\
        term list.set1{'a} (Cons{'a} [y:'a] Nil{'a}) [y:'a]\n\
        assume 2\n\
        ex_i 0 1 1\n\
        choose 1 0 2\n\
        ",
        "?x0:'a. list.set1{'a} (Cons{'a} x0 Nil{'a}) x0 |- ?x0:'a. list.set1{'a} (Cons{'a} x0 Nil{'a}) x0",
    ),
    (
        "\
        term [v:'a list]\n\
        term list.set1{'a} [v:'a list] [y:'a]\n\
        term [l:'a list] = Nil{'a}\n\
        assume 2\n\
        term list.set1{'a} [l:'a list] [y:'a]\n\
        assume 3\n\
        subst 0 1 0 1\n\
        ",
        "[l:'a list] = Nil{'a}, list.set1{'a} [l:'a list] [y:'a] |- list.set1{'a} Nil{'a} [y:'a]",
    ),
    (
        "\
        term [l:'a list] = Nil{'a}\n\
        assume 0\n\
        sym 0\n\
        ",
        "[l:'a list] = Nil{'a} |- Nil{'a} = [l:'a list]",
    ),
    (
        "\
        term (!x0:'a. list.set1{'a} Nil{'a} x0 = F)\n\
        assume 0\n\
        eqt_i 0\n\
        ",
        "!x0:'a. list.set1{'a} Nil{'a} x0 = F |- (!x0:'a. list.set1{'a} Nil{'a} x0 = F) = T",
    ),
    (
        "\
        term (!x0:'a. list.set1{'a} Nil{'a} x0 = F) = T\n\
        assume 0\n\
        eqt_e 0\n\
        ",
        "(!x0:'a. list.set1{'a} Nil{'a} x0 = F) = T |- !x0:'a. list.set1{'a} Nil{'a} x0 = F",
    ),
    (
        "\
        term (\\x0:'a list. x0) Nil{'a}\n\
        beta_conv 0\n\
        ",
        "|- (\\x0:'a list. x0) Nil{'a} = Nil{'a}",
    ),
    (
        "\
        term \\x0:'a. list.set1{'a} Nil{'a} x0\n\
        eta_conv 0\n\
        ",
        "|- (\\x0:'a. list.set1{'a} Nil{'a} x0) = list.set1{'a} Nil{'a}",
    ),
    (
        "\
        term (\\x0:'a list. (\\x1:'a list. x1) x0) Nil{'a}\n\
        beta_norm 0\n\
        ",
        "|- (\\x0:'a list. (\\x1:'a list. x1) x0) Nil{'a} = Nil{'a}",
    ),
    (
        "\
        term [l:'a list] = Nil{'a}\n\
        assume 0\n\
        term Cons{'a} [y:'a] [l:'a list] = [l:'a list]\n\
        rewrite_all 1 0\n\
        ",
        "[l:'a list] = Nil{'a} |- (Cons{'a} [y:'a] [l:'a list] = [l:'a list]) = (Cons{'a} [y:'a] Nil{'a} = Nil{'a})",
    ),
    (
        "\
        term [l:'a list] = Nil{'a}\n\
        assume 0\n\
        term Cons{'a} [y:'a] [l:'a list] = [l:'a list]\n\
        rewrite_at 1 0 1\n\
        ",
        "[l:'a list] = Nil{'a} |- (Cons{'a} [y:'a] [l:'a list] = [l:'a list]) = (Cons{'a} [y:'a] [l:'a list] = Nil{'a})",
    ),
];

// The first table whose last theorem has another sequent, or a word where a definition may not be.
fn first_wrong_of_lists(alloc: Global) -> Result<Option<&'static str>, AllocError> {
    let Some(mut k) = list_kernel(alloc)? else {
        return Ok(Some("no definitions"));
    };
    first_wrong(alloc, &mut k, &CASES)
}

#[test]
fn each_line_gives_its_sequent_on_lists(rt: HostRuntime) -> Result<(), Fail> {
    let wrong = first_wrong_of_lists(rt.alloc())?;
    assert_eq!(rt; wrong, None);
    Ok(())
}
