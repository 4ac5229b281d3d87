//! Normal forms after a number of contractions.

ghost use Rattle.std.specs.Prelude.{[]};
ghost use Rattle.hol_terms.specs.Definition.{signature_of};
ghost use Rattle.hol_terms.specs.Signature.{IsOver};

use crate::closed::says;
use crate::lists::side;
use hol_conv::beta::beta_norm;
use hol_kernel::Kernel;
use hol_terms::terms::Term;
use kernel_lines::start;
use std::alloc::{AllocError, Global};
use std::test::Fail;

// A redex under another's binder.
const UNDER: &str = "\
    term (\\x0:bool. (\\x1:bool. x1) x0) T\n\
    refl 0\n\
";

static AFTER: [(u64, &str); 4] = [
    (
        0,
        "|- (\\x0:bool. (\\x1:bool. x1) x0) T = (\\x0:bool. (\\x1:bool. x1) x0) T",
    ),
    (
        1,
        "|- (\\x0:bool. (\\x1:bool. x1) x0) T = (\\x0:bool. x0) T",
    ),
    (2, "|- (\\x0:bool. (\\x1:bool. x1) x0) T = T"),
    (9, "|- (\\x0:bool. (\\x1:bool. x1) x0) T = T"),
];

// A redex that another one takes.
const TAKEN: &str = "\
    term (\\x0:bool. x0) ((\\x0:bool. x0) T)\n\
    refl 0\n\
";

static AFTER_TAKEN: [(u64, &str); 2] = [
    (
        1,
        "|- (\\x0:bool. x0) ((\\x0:bool. x0) T) = (\\x0:bool. x0) T",
    ),
    (2, "|- (\\x0:bool. x0) ((\\x0:bool. x0) T) = T"),
];

// Whether so many contractions of the term give the sequent that the text is.
fn contracts(
    alloc: Global,
    k: &mut Kernel,
    t: &Term,
    contractions: u64,
    want: &str,
) -> Result<bool, AllocError>
    requires { IsOver (signature_of k.old.defs) [] t.now }
{
    let th = beta_norm(alloc, k, t, contractions)?;
    says(alloc, &th, want)
}

fn contracts_under(alloc: Global, contractions: u64, want: &str) -> Result<bool, AllocError> {
    let mut k = start(alloc)?;
    let t = side(alloc, &mut k, UNDER)?;
    contracts(alloc, &mut k, &t, contractions, want)
}

fn contracts_taken(alloc: Global, contractions: u64, want: &str) -> Result<bool, AllocError> {
    let mut k = start(alloc)?;
    let t = side(alloc, &mut k, TAKEN)?;
    contracts(alloc, &mut k, &t, contractions, want)
}

fn all_contract(alloc: Global) -> Result<bool, AllocError> {
    for (contractions, want) in &AFTER {
        if !contracts_under(alloc, *contractions, want)? {
            return Ok(false);
        }
    }
    for (contractions, want) in &AFTER_TAKEN {
        if !contracts_taken(alloc, *contractions, want)? {
            return Ok(false);
        }
    }
    Ok(true)
}

#[test]
fn redexes_are_contracted(rt: HostRuntime) -> Result<(), Fail> {
    let all = all_contract(rt.alloc())?;
    assert!(rt; all);
    Ok(())
}
