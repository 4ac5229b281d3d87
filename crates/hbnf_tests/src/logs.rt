//! What failing reads and writes come to where a log is written.

use hb_io::{MemSink, MemSource};
use hb_top::{Status, hbnf};
use std::alloc::{AllocError, Global};
use std::test::Fail;

const IDENTITY: &[u8] = b"define ident : 'a -> 'a = \\y:'a. y;";

fn words(alloc: Global) -> Result<Vec<String>, AllocError> {
    let mut words = Vec::new(alloc);
    words.push(String::from_str(alloc, "hbnf")?)?;
    words.push(String::from_str(alloc, "log")?)?;
    Ok(words)
}

// The status of a run whose read, write and room are such, and what is kept.
fn run(
    alloc: Global,
    failing_read: u64,
    failing_write: u64,
    room: usize,
) -> Result<(Status, Vec<u8>), AllocError> {
    let input = IDENTITY.to_vec(alloc)?;
    let mut src = MemSource::new(input, 4, vec![in alloc; failing_read]?);
    let mut out = MemSink::new(alloc, room, 4, vec![in alloc; failing_write]?)?;
    let mut err = MemSink::new(alloc, 64, 4, vec![in alloc]?)?;
    let status = hbnf(alloc, &words(alloc)?, &mut src, &mut out, &mut err);
    Ok((status, out.kept().to_vec(alloc)?))
}

#[test]
fn reads_and_writes_fail(rt: HostRuntime) -> Result<(), Fail> {
    let alloc = rt.alloc();
    let front = "hbnf-log 1\n";
    for failing_read in [1, 5, 10] {
        let (status, kept) = run(alloc, failing_read, 0, 4096)?;
        assert_eq!(rt; status, Status::ReadFault);
        assert!(rt; kept.is_empty());
    }
    for (failing_write, count) in [(1, 0), (2, 4), (3, 8), (4, 11)] {
        let (status, kept) = run(alloc, 0, failing_write, 4096)?;
        assert_eq!(rt; status, Status::WriteFault);
        assert_eq!(rt; kept.len(), count);
        assert!(rt; front.as_bytes().starts_with(&kept));
    }
    let (status, kept) = run(alloc, 0, 0, 7)?;
    assert_eq!(rt; status, Status::WriteFault);
    assert_eq!(rt; kept.as_slice(), b"hbnf-lo".as_slice());
    Ok(())
}
