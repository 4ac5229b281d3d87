//! `hbnf`: reads a theory text from standard input, and writes its definitions and theorems, or its proof log, to standard output.
#![tactic(auto)]

use hb_io::{StdSink, StdSource};
use hb_top::{Status, hbnf};
use std::alloc::AllocError;
use std::env;
use std::io::ErrorKind;
use std::process::ExitCode;
use std::rt::Env;

/// The words of the command line, or none where one isn't UTF-8. The only error is want of memory.
fn words<R: Env + AllocGlobal>(rt: &R) -> Result<Vec<String>, AllocError> {
    match env::args(rt) {
        Ok(args) => args.collect(rt.alloc()),
        Err(error) if error.kind() == ErrorKind::OutOfMemory => Err(AllocError),
        Err(_) => Ok(Vec::new(rt.alloc())),
    }
}

fn main(rt: HostRuntime) -> ExitCode {
    let Ok(words) = words(&rt) else {
        return ExitCode::from(Status::Memory.code());
    };
    let mut src = StdSource::new(rt.stdin());
    let mut out = StdSink::new(rt.stdout());
    let mut err = StdSink::new(rt.stderr());
    let status = hbnf(rt.alloc(), &words, &mut src, &mut out, &mut err);
    ExitCode::from(status.code())
}
