//! What failing reads and writes come to where a log is replayed, and a log that is read in pieces.

use hb_io::{MemSink, MemSource};
use hb_top::{Status, hbnf};
use std::alloc::{AllocError, Global};
use std::test::Fail;

// What a log has room for.
const ROOM: usize = 1 << 24;

const BAD: &[u8] = b"hbnf-log 1\nrefl [a:bool]\ntrans 0 1\n";

// What a run came to: its status, what stands on the output, and what was said.
#[derive(Drop)]
struct Ended {
    status: Status,
    kept: Vec<u8>,
    said: Vec<u8>,
}

// A run whose read and write of these numbers fail, from 1, or none for 0. A read gives three bytes, a write takes four.
fn run(
    alloc: Global,
    mode: &str,
    input: &[u8],
    failing_read: u64,
    failing_write: u64,
) -> Result<Ended, AllocError> {
    let mut words = Vec::new(alloc);
    words.push(String::from_str(alloc, "hbnf")?)?;
    words.push(String::from_str(alloc, mode)?)?;
    let mut src = MemSource::new(input.to_vec(alloc)?, 3, vec![in alloc; failing_read]?);
    let mut out = MemSink::new(alloc, ROOM, 4, vec![in alloc; failing_write]?)?;
    let mut err = MemSink::new(alloc, 64, 4, vec![in alloc]?)?;
    let status = hbnf(alloc, &words, &mut src, &mut out, &mut err);
    Ok(Ended {
        status,
        kept: out.kept().to_vec(alloc)?,
        said: err.kept().to_vec(alloc)?,
    })
}

#[test]
fn bad_log_in_pieces(rt: HostRuntime) -> Result<(), Fail> {
    let replay = run(rt.alloc(), "replay", BAD, 0, 0)?;
    assert_eq!(rt; replay.status, Status::BadLog);
    assert!(rt; replay.kept.is_empty());
    assert_eq!(rt; replay.said.as_slice(), b"badlog 3 number\n".as_slice());
    Ok(())
}

#[test]
fn reads_and_writes_fail(rt: HostRuntime) -> Result<(), Fail> {
    let alloc = rt.alloc();
    for failing_read in [1, 5, 12] {
        let replay = run(alloc, "replay", BAD, failing_read, 0)?;
        assert_eq!(rt; replay.status, Status::ReadFault);
        assert!(rt; replay.kept.is_empty());
        assert_eq!(rt; replay.said.as_slice(), b"read fault\n".as_slice());
    }
    let log = run(alloc, "log", b"", 0, 0)?.kept;
    for (failing_write, count) in [(1, 0), (2, 4)] {
        let replay = run(alloc, "replay", &log, 0, failing_write)?;
        assert_eq!(rt; replay.status, Status::WriteFault);
        assert_eq!(rt; replay.kept.len(), count);
        assert!(rt; b"base 33\n".starts_with(&replay.kept));
    }
    let whole = run(alloc, "replay", &log, 0, 0)?;
    assert_eq!(rt; whole.status, Status::Done);
    assert_eq!(rt; whole.kept.as_slice(), b"base 33\n".as_slice());
    Ok(())
}
