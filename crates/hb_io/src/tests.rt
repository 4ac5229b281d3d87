//! What no clause says: that calls succeed where there is memory, and what passes through std.
use crate::{Failed, MemSink, Sink, Source, StdSink, StdSource, write_all};
use std::io::{self, BufWriter, ErrorKind, Read, Write};
use std::test::Fail;

#[test]
fn keeps_what_is_written(rt: HostRuntime) -> Result<(), Fail> {
    let failing = vec![in rt.alloc(); 2]?;
    let mut sink = MemSink::new(rt.alloc(), 5, 3, failing)?;
    assert_eq!(rt; sink.write(b"hello").ok(), Some(3));
    assert!(rt; sink.write(b"lo").is_err(), "the second call is listed");
    write_all(&mut sink, b"lo")?;
    assert!(rt; sink.write(b"!").is_err(), "the room is used up");
    assert_eq!(rt; sink.kept(), b"hello".as_slice());
    Ok(())
}

// Fails once, and then gives its bytes.
#[derive(Drop)]
struct FailsFirst<'a> {
    has_failed: bool,
    bytes: &'a [u8],
}

impl Read for FailsFirst<'_> {
    fn read(&mut self, buf: &mut [u8]) -> io::Result<usize> {
        if !self.has_failed {
            self.has_failed = true;
            return Err(io::Error::from(ErrorKind::Other));
        }
        self.bytes.read(buf)
    }
}

#[test]
fn reads_on_after_an_error(rt: HostRuntime) -> Result<(), Fail> {
    let mut source = StdSource::new(FailsFirst {
        has_failed: false,
        bytes: b"abc",
    });
    let mut buf = [0; 2];
    assert!(rt; source.read(&mut buf).is_err());
    assert_eq!(rt; source.read(&mut buf).ok(), Some(2));
    assert_eq!(rt; buf, [b'a', b'b']);
    assert_eq!(rt; source.read(&mut buf).ok(), Some(1));
    assert_eq!(rt; source.read(&mut buf).ok(), Some(0));
    Ok(())
}

// Takes no byte at a first write, and fails at each later one.
#[derive(Drop)]
struct Broken {
    is_first: bool,
}

impl Write for Broken {
    fn write(&mut self, _bytes: &[u8]) -> io::Result<usize> {
        if self.is_first {
            self.is_first = false;
            return Ok(0);
        }
        Err(io::Error::from(ErrorKind::Other))
    }

    fn flush(&mut self) -> io::Result<()> {
        Ok(())
    }
}

#[test]
fn shows_what_a_writer_holds_back(rt: HostRuntime) -> Result<(), Fail> {
    let mut kept = Vec::new(rt.alloc());
    write_all(&mut StdSink::new(&mut kept), b"abc")?;
    assert_eq!(rt; kept.as_slice(), b"abc".as_slice());

    let mut sink = StdSink::new(Broken { is_first: true });
    assert!(rt; sink.write(b"a").is_err(), "no byte was taken");
    assert!(rt; sink.write(b"a").is_err(), "the writer failed");

    let buffered = BufWriter::new(rt.alloc(), Broken { is_first: false })?;
    let result: Result<(), Failed> = write_all(&mut StdSink::new(buffered), b"abc");
    assert!(rt; result.is_err(), "the error comes at the flush");
    Ok(())
}
