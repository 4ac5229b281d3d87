//! Each rule of the kernel and each axiom, by the sequent that it gives.

ghost use Rattle.std.specs.Prelude.{[], IsSome, OnOk};
ghost use Rattle.hol_kernel.specs.Run.{axiom_at};
ghost use Rattle.kernel_lines.specs.Bases.{HasBase};
ghost use Rattle.kernel_lines.specs.Ready.{Fits};

use crate::tables::{
    ABS_BINDS, ABS_KEEPS, ASSUME, BETA, COMB, DEDUCT_DROPS, DEDUCT_JOINS, DEFINITION, EQ_MP, INST,
    INST_TYPE, REFL, TRANS,
};
use hol_kernel::{Kernel, Thm};
use hol_text::print::push_term;
use kernel_lines::{Line, run_lines, start};
use std::alloc::{AllocError, Global};
use std::test::Fail;

#[derive(Clone, Copy, Drop)]
enum Case {
    Refl,
    Trans,
    Comb,
    AbsKeeps,
    AbsBinds,
    Beta,
    Assume,
    EqMp,
    DeductJoins,
    DeductDrops,
    InstType,
    Inst,
    Definition,
    Extensionality,
    Selection,
    Infinity,
}

// The cases and their sequents: hypotheses with commas between them, and the conclusion.
static SEQUENTS: [(Case, &str); 16] = [
    (Case::Refl, "|- [p:bool] = [p:bool]"),
    (
        Case::Trans,
        "[p:bool] = [q:bool], [q:bool] = [r:bool] |- [p:bool] = [r:bool]",
    ),
    (
        Case::Comb,
        "[p:bool] = [q:bool], [f:bool -> bool] = [h:bool -> bool] |- [f:bool -> bool] [p:bool] = [h:bool -> bool] [q:bool]",
    ),
    (
        Case::AbsKeeps,
        "[p:bool] = [q:bool] |- (\\x0:bool. [p:bool]) = (\\x0:bool. [q:bool])",
    ),
    (
        Case::AbsBinds,
        "|- (\\x0:bool. (\\x1:bool. x1 = [q:bool]) x0) = (\\x0:bool. x0 = [q:bool])",
    ),
    (
        Case::Beta,
        "|- (\\x0:bool. x0 = [q:bool]) [p:bool] = ([p:bool] = [q:bool])",
    ),
    (Case::Assume, "[p:bool] |- [p:bool]"),
    (Case::EqMp, "[p:bool], [p:bool] = [q:bool] |- [q:bool]"),
    (
        Case::DeductJoins,
        "[p:bool], [q:bool] |- [q:bool] = [p:bool]",
    ),
    (
        Case::DeductDrops,
        "[p:bool], [p:bool] = [q:bool] |- [q:bool] = [q:bool]",
    ),
    (Case::InstType, "[x:bool] = [y:bool] |- [x:bool] = [y:bool]"),
    (Case::Inst, "[q:bool] = [p:bool] |- [q:bool] = [p:bool]"),
    (
        Case::Definition,
        "|- T = ((\\x0:bool. x0) = (\\x0:bool. x0))",
    ),
    (
        Case::Extensionality,
        "|- !x0:'a -> 'b. (\\x1:'a. x0 x1) = x0",
    ),
    (
        Case::Selection,
        "|- !x0:'a -> bool. !x1:'a. x0 x1 ==> x0 (some{'a} x0)",
    ),
    (
        Case::Infinity,
        "|- ?x0:ind -> ind. one_one{ind,ind} x0 /\\ (~ onto{ind,ind} x0)",
    ),
];

// The hypotheses, with commas between them, and the conclusion.
pub(crate) fn sequent_text(alloc: Global, th: &Thm) -> Result<String, AllocError> {
    let mut text = String::new(alloc);
    for h in th.hyps() {
        if !text.is_empty() {
            text.push_str(", ")?;
        }
        push_term(&mut text, h, 0)?;
    }
    text.push_str(if text.is_empty() { "|- " } else { " |- " })?;
    push_term(&mut text, th.concl(), 0)?;
    Ok(text)
}

// What a table gives that starts from nothing.
#[tactic(auto, using(kernel_lines::proofs::Given::given_lemmas))]
fn derived(alloc: Global, k: &mut Kernel, lines: &[Line]) -> Result<Thm, AllocError>
    requires base { HasBase k.old.defs }
    requires fits { Fits [] [] lines.now }
    ensures { OnOk result (HasBase k.new.defs) }
{
    let th = run_lines(alloc, k, &[], &[], lines)?;
    Ok(th)
}

fn axiom(alloc: Global, k: &mut Kernel, n: u32) -> Result<Thm, AllocError>
    requires base { HasBase k.old.defs }
    requires number { IsSome (axiom_at n) }
    ensures { OnOk result (HasBase k.new.defs) }
{
    let th = k.axiom(alloc, n)?;
    Ok(th)
}

fn theorem(alloc: Global, k: &mut Kernel, case: Case) -> Result<Thm, AllocError>
    requires { HasBase k.old.defs }
    ensures { OnOk result (HasBase k.new.defs) }
{
    match case {
        Case::Refl => derived(alloc, k, &REFL),
        Case::Trans => derived(alloc, k, &TRANS),
        Case::Comb => derived(alloc, k, &COMB),
        Case::AbsKeeps => derived(alloc, k, &ABS_KEEPS),
        Case::AbsBinds => derived(alloc, k, &ABS_BINDS),
        Case::Beta => derived(alloc, k, &BETA),
        Case::Assume => derived(alloc, k, &ASSUME),
        Case::EqMp => derived(alloc, k, &EQ_MP),
        Case::DeductJoins => derived(alloc, k, &DEDUCT_JOINS),
        Case::DeductDrops => derived(alloc, k, &DEDUCT_DROPS),
        Case::InstType => derived(alloc, k, &INST_TYPE),
        Case::Inst => derived(alloc, k, &INST),
        Case::Definition => derived(alloc, k, &DEFINITION),
        Case::Extensionality => axiom(alloc, k, 1),
        Case::Selection => axiom(alloc, k, 2),
        Case::Infinity => axiom(alloc, k, 3),
    }
}

fn text(alloc: Global, k: &mut Kernel, case: Case) -> Result<String, AllocError>
    requires { HasBase k.old.defs }
    ensures { OnOk result (HasBase k.new.defs) }
{
    let th = theorem(alloc, k, case)?;
    sequent_text(alloc, &th)
}

// The first sequent that is another one, as text.
fn first_wrong(alloc: Global, k: &mut Kernel) -> Result<Option<String>, AllocError>
    requires { HasBase k.old.defs }
{
    for (case, want) in &SEQUENTS {
        let text = text(alloc, k, *case)?;
        if text.as_str() != *want {
            return Ok(Some(text));
        }
    }
    Ok(None)
}

fn first_wrong_of_all(alloc: Global) -> Result<Option<String>, AllocError> {
    let mut k = start(alloc)?;
    first_wrong(alloc, &mut k)
}

#[test]
fn each_rule_gives_its_sequent(rt: HostRuntime) -> Result<(), Fail> {
    let wrong = first_wrong_of_all(rt.alloc())?;
    assert_eq!(rt; wrong, None);
    Ok(())
}
