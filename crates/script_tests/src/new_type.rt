//! What the definition of a type says, as lines of tables.

ghost use Rattle.std.specs.Prelude.{◌≡◌, None, OnOk, codes};
ghost use Rattle.hol_terms.specs.Base.{base};
ghost use Rattle.hol_kernel.specs.State.{Has};
ghost use Rattle.hol_kernel.specs.Fault.{type_fault};
ghost use Rattle.script_tests.specs.Closed.{HasType};

use crate::closed::{derived, first_wrong};
use hol_kernel::{Kernel, Thm};
use kernel_lines::start;
use std::alloc::{AllocError, Global};
use std::test::Fail;

// Tables behind that definition, and the sequents of their last theorems.
static CASES: [(&str, &str); 2] = [
    ("type_abs 10\n", "|- u.abs (u.rep [a:u]) = [a:u]"),
    (
        "type_rep 10\n",
        "|- (T = [r:bool]) = (u.rep (u.abs [r:bool]) = [r:bool])",
    ),
];

// Defines a type behind the base definitions.
fn define(alloc: Global, k: &mut Kernel, a: &Thm) -> Result<(), AllocError>
    requires base { k.old.defs ≡ base 10 }
    requires has { Has k.old a.now }
    requires fit { type_fault k.old.defs (codes "u") a.now.sequent ≡ None }
    ensures { OnOk result (HasType k.new.defs) }
{
    let _both = k.define_type(alloc, "u", a)?;
    Ok(())
}

// The first table whose last theorem has another sequent, or a word where the type may not be defined.
fn first_wrong_behind(alloc: Global) -> Result<Option<&'static str>, AllocError> {
    let mut k = start(alloc)?;
    let a = derived(alloc, &mut k, "def 0\n")?;
    if k.may_define_type("u", &a).is_some() {
        return Ok(Some("no definition"));
    }
    define(alloc, &mut k, &a)?;
    first_wrong(alloc, &mut k, &CASES)
}

#[test]
fn a_new_type_is_told(rt: HostRuntime) -> Result<(), Fail> {
    let wrong = first_wrong_behind(rt.alloc())?;
    assert_eq!(rt; wrong, None);
    Ok(())
}
