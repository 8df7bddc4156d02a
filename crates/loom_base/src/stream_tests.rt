use crate::{
    Failed, List, MemorySink, MemorySource, ReadStop, Sink, Source, StdSink, StdSource, SteadySink,
    SteadySource, read_all, write_all,
};
use std::alloc::Global;
use std::io::{Read, Write};
use std::test::Fail;

fn list_of(alloc: Global, bytes: &[u8]) -> Result<List<u8>, Fail> {
    Ok(List::from_slice(alloc, bytes).ok().ok_or("memory")?)
}

#[test]
fn all_is_read(rt: HostRuntime) -> Result<(), Fail> {
    let mut source = SteadySource::new(list_of(rt.alloc(), b"abc")?);
    let bytes = read_all(rt.alloc(), &mut source, 3).ok().ok_or("all")?;
    assert_eq!(rt; bytes.as_slice(), b"abc".as_slice());
    Ok(())
}

#[test]
fn too_much_is_not_read(rt: HostRuntime) -> Result<(), Fail> {
    let mut source = SteadySource::new(list_of(rt.alloc(), b"abc")?);
    assert!(rt; matches!(read_all(rt.alloc(), &mut source, 2), Err(ReadStop::TooLong)));
    Ok(())
}

#[test]
fn a_read_fails(rt: HostRuntime) -> Result<(), Fail> {
    let mut failing = List::new(rt.alloc());
    failing.push(1u64).ok().ok_or("memory")?;
    let mut source = MemorySource::new(list_of(rt.alloc(), b"abc")?, failing);
    assert!(rt; matches!(read_all(rt.alloc(), &mut source, 3), Err(ReadStop::Fault)));
    assert!(rt; read_all(rt.alloc(), &mut source, 3).is_ok());
    Ok(())
}

#[test]
fn a_sink_fills(rt: HostRuntime) -> Result<(), Fail> {
    let mut sink = SteadySink::new(rt.alloc(), 4).ok().ok_or("memory")?;
    assert!(rt; write_all(&mut sink, b"abc").is_ok());
    assert!(rt; write_all(&mut sink, b"def").is_err());
    assert_eq!(rt; sink.held(), b"abcd".as_slice());
    Ok(())
}

#[test]
fn a_write_fails(rt: HostRuntime) -> Result<(), Fail> {
    let mut failing = List::new(rt.alloc());
    failing.push(2u64).ok().ok_or("memory")?;
    let mut sink = MemorySink::new(rt.alloc(), 1_000, 16, failing)
        .ok()
        .ok_or("memory")?;
    assert!(rt; write_all(&mut sink, br#"{"outcomes":[],"plan":{}}"#).is_err());
    assert_eq!(rt; sink.held(), br#"{"outcomes":[],""#.as_slice());
    Ok(())
}

/// A stream of the system that takes and gives nothing, and can't flush.
#[derive(Drop)]
struct Closed;

impl Read for Closed {
    fn read(&mut self, _buf: &mut [u8]) -> std::io::Result<usize> {
        Err(std::io::Error::from(std::io::ErrorKind::BrokenPipe))
    }
}

impl Write for Closed {
    fn write(&mut self, _buf: &[u8]) -> std::io::Result<usize> {
        Ok(0)
    }

    fn flush(&mut self) -> std::io::Result<()> {
        Err(std::io::Error::from(std::io::ErrorKind::BrokenPipe))
    }
}

#[test]
fn the_system_gives(rt: HostRuntime) {
    let mut buf = [0; 2];
    let mut source = StdSource::new(b"abc".as_slice());
    assert_eq!(rt; source.read(&mut buf), Ok(2));
    assert_eq!(rt; buf, *b"ab");
    assert_eq!(rt; StdSource::new(Closed).read(&mut buf), Err(Failed));
}

/// A writer that remembers how much was written, and how much of it at its last flush.
#[derive(Drop)]
struct Flushed {
    written: usize,
    at_flush: usize,
}

impl Write for Flushed {
    fn write(&mut self, buf: &[u8]) -> std::io::Result<usize> {
        self.written = self.written.saturating_add(buf.len());
        Ok(buf.len())
    }

    fn flush(&mut self) -> std::io::Result<()> {
        self.at_flush = self.written;
        Ok(())
    }
}

#[test]
fn each_write_is_flushed(rt: HostRuntime) {
    let mut writer = Flushed {
        written: 0,
        at_flush: 0,
    };
    assert_eq!(rt; StdSink::new(&mut writer).write(b"abc"), Ok(3));
    assert_eq!(rt; writer.at_flush, 3);
    assert_eq!(rt; StdSink::new(&mut writer).write(b"de"), Ok(2));
    assert_eq!(rt; writer.at_flush, 5);
}

#[test]
fn the_system_takes(rt: HostRuntime) {
    let mut sink = StdSink::new(Vec::new(rt.alloc()));
    assert_eq!(rt; sink.write(b"abc"), Ok(3));
    assert_eq!(rt; StdSink::new(Closed).write(b"abc"), Err(Failed));
    assert_eq!(rt; StdSink::new(Closed).write(b""), Err(Failed));
}
