//! What no file of cases shows of `check`: what failing reads and writes come to, and which words are no mode's.

ghost use Rattle.std.specs.Prelude.{IsSome};
ghost use Rattle.hol_kernel.specs.Run.{axiom_at};

use hb_io::{MemSink, MemSource, Source};
use hb_top::{Status, hbnf};
use hol_text::print::theorem_line;
use kernel_lines::start;
use std::alloc::{AllocError, Global};
use std::process::Abort;
use std::test::Fail;

const IDENTITY: &str = "define ident : 'a -> 'a = \\y:'a. y;";

const IDENTITY_OUTPUT: &str =
    "base 33\ncommand 1 define ident\ndef ident : 'a -> 'a = \\x0:'a. x0\nthm ident.def : ident{'a} = (\\x0:'a. x0)\n";

fn owned(alloc: Global, words: &[&str]) -> Result<Vec<String>, AllocError> {
    let mut owned = Vec::new(alloc);
    for word in words {
        owned.push(String::from_str(alloc, word)?)?;
    }
    Ok(owned)
}

// A run on the identity's text, and what comes of it.
#[derive(Clone, Copy)]
struct Case {
    words: &'static [&'static str],
    // The numbers, from 1, of the read, of the write and of the write to the standard error that fail, or 0.
    failing_read: u64,
    failing_write: u64,
    failing_say: u64,
    // The bytes that the output has room for.
    room: usize,
    status: Status,
    // How many bytes of the output are kept.
    kept: usize,
    err: &'static str,
}

// A run in which nothing fails, in pieces of four bytes.
static WHOLE: Case = Case {
    words: &["hbnf", "check"],
    failing_read: 0,
    failing_write: 0,
    failing_say: 0,
    room: 4096,
    status: Status::Done,
    kept: 106,
    err: "",
};

fn expect_case(rt: &impl Abort, alloc: Global, case: &Case) -> Result<(), AllocError> {
    let failing = vec![in alloc; case.failing_read]?;
    let mut src = MemSource::new(IDENTITY.as_bytes().to_vec(alloc)?, 4, failing);
    let mut out = MemSink::new(alloc, case.room, 4, vec![in alloc; case.failing_write]?)?;
    let mut err = MemSink::new(alloc, 64, 4, vec![in alloc; case.failing_say]?)?;
    let words = owned(alloc, case.words)?;
    let status = hbnf(alloc, &words, &mut src, &mut out, &mut err);
    assert_eq!(rt; status, case.status);
    assert_eq!(rt; out.kept().len(), case.kept);
    assert!(rt; IDENTITY_OUTPUT.as_bytes().starts_with(out.kept()));
    assert_eq!(rt; err.kept(), case.err.as_bytes());
    if status == Status::Usage {
        let mut next = [0; 4];
        assert_eq!(rt; src.read(&mut next).ok(), Some(4));
        assert_eq!(rt; next, [b'd', b'e', b'f', b'i'], "the source is untouched");
    }
    Ok(())
}

#[test]
fn reads_and_writes_fail(rt: HostRuntime) -> Result<(), Fail> {
    let alloc = rt.alloc();
    expect_case(&rt, alloc, &WHOLE)?;
    for failing_read in 1..=10 {
        let (status, kept, err) = (Status::ReadFault, 0, "read fault\n");
        expect_case(
            &rt,
            alloc,
            &Case {
                failing_read,
                status,
                kept,
                err,
                ..WHOLE
            },
        )?;
    }
    for pieces in 0..27_u8 {
        let failing_write = u64::from(pieces) + 1;
        let (status, kept, err) = (Status::WriteFault, 4 * usize::from(pieces), "write fault\n");
        expect_case(
            &rt,
            alloc,
            &Case {
                failing_write,
                status,
                kept,
                err,
                ..WHOLE
            },
        )?;
    }
    expect_case(
        &rt,
        alloc,
        &Case {
            failing_read: 37,
            ..WHOLE
        },
    )?;
    expect_case(
        &rt,
        alloc,
        &Case {
            failing_write: 107,
            ..WHOLE
        },
    )?;
    let (status, kept, err) = (Status::WriteFault, 7, "write fault\n");
    expect_case(
        &rt,
        alloc,
        &Case {
            room: 7,
            status,
            kept,
            err,
            ..WHOLE
        },
    )?;
    let (status, kept) = (Status::Usage, 0);
    expect_case(
        &rt,
        alloc,
        &Case {
            words: &["hbnf", "what"],
            failing_say: 1,
            status,
            kept,
            ..WHOLE
        },
    )?;
    Ok(())
}

// Words that are no mode's.
static USAGE: [&[&str]; 15] = [
    &[],
    &["hbnf"],
    &["hbnf", "what"],
    &["hbnf", "bench"],
    &["hbnf", "Replay"],
    &["hbnf", "check", "check"],
    &["hbnf", "log", "check"],
    &["hbnf", "--log"],
    &["hbnf", "--help"],
    &["hbnf", "-h"],
    &["hbnf", "check", "--seed", "1"],
    &["hbnf", "check", "--plugin="],
    &["hbnf", "-"],
    &["hbnf", ""],
    &["hbnf", "--"],
];

#[test]
fn words(rt: HostRuntime) -> Result<(), Fail> {
    let alloc = rt.alloc();
    for words in &USAGE {
        let (status, kept, err) = (Status::Usage, 0, "usage: hbnf check|log|replay\n");
        expect_case(
            &rt,
            alloc,
            &Case {
                words,
                status,
                kept,
                err,
                ..WHOLE
            },
        )?;
    }
    expect_case(
        &rt,
        alloc,
        &Case {
            words: &["hbnf", "--", "check"],
            ..WHOLE
        },
    )?;
    expect_case(
        &rt,
        alloc,
        &Case {
            words: &["hbnf", "check", "--"],
            ..WHOLE
        },
    )?;
    Ok(())
}

// The line of an axiom, from a kernel with the base definitions.
fn axiom_line(alloc: Global, n: u32) -> Result<String, AllocError>
    requires { IsSome (axiom_at n) }
{
    let mut kernel = start(alloc)?;
    let th = kernel.axiom(alloc, n)?;
    theorem_line(alloc, "axiom", th.concl())
}

#[test]
fn axioms_are_added(rt: HostRuntime) -> Result<(), Fail> {
    let alloc = rt.alloc();
    assert_eq!(rt;
        axiom_line(alloc, 1)?.as_str(),
        "thm axiom : !x0:'a -> 'b. (\\x1:'a. x0 x1) = x0"
    );
    assert_eq!(rt;
        axiom_line(alloc, 2)?.as_str(),
        "thm axiom : !x0:'a -> bool. !x1:'a. x0 x1 ==> x0 (some{'a} x0)"
    );
    assert_eq!(rt;
        axiom_line(alloc, 3)?.as_str(),
        "thm axiom : ?x0:ind -> ind. one_one{ind,ind} x0 /\\ (~ onto{ind,ind} x0)"
    );
    Ok(())
}
