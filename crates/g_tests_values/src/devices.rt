//! Whole inputs and outputs, over the devices in memory and over std's readers and writers.

use g_io::{
    Failed, MemorySink, MemorySource, NeverFailsSource, Sink, Source, StdinSource, StdoutSink,
    read_all, write_all_of,
};
use g_types::{Bytes, CallList};
use std::alloc::AllocError;
use std::io::{self, ErrorKind, Read, Write};
use std::test::Fail;

fn bytes(rt: &HostRuntime, text: &[u8]) -> Result<Bytes, AllocError> {
    Bytes::from_slice(rt.alloc(), text)
}

#[test]
fn reads_all_of_a_source(rt: HostRuntime) -> Result<(), Fail> {
    let alloc = rt.alloc();
    let mut pieces = MemorySource::new(bytes(&rt, b"abcde")?, 2, CallList::new(alloc));
    match read_all(alloc, &mut pieces, 5) {
        Ok(all) => assert_eq!(rt; all.as_slice(), b"abcde".as_slice()),
        Err(_) => assert!(rt; false),
    }
    assert_eq!(rt; pieces.faults(), 0);
    let mut whole = NeverFailsSource::new(bytes(&rt, b"abcde")?);
    let all = read_all(alloc, &mut whole, 5);
    assert!(rt; all.is_ok_and(|all| all.len() == 5));
    Ok(())
}

#[test]
fn writes_all_to_a_sink(rt: HostRuntime) -> Result<(), Fail> {
    let mut sink = MemorySink::new(2, CallList::new(rt.alloc()), bytes(&rt, b"......")?);
    assert_eq!(rt; write_all_of(&mut sink, b"abcde"), Ok(()));
    assert_eq!(rt; sink.written(), b"abcde".as_slice());
    assert_eq!(rt; sink.faults(), 0);
    Ok(())
}

/// Fails at its first call, and then gives `x` or takes one byte a call.
#[derive(Drop)]
struct Flaky {
    used: bool,
}

impl Flaky {
    fn call(&mut self) -> io::Result<()> {
        if self.used {
            return Ok(());
        }
        self.used = true;
        Err(ErrorKind::BrokenPipe.into())
    }
}

impl Read for Flaky {
    fn read(&mut self, buf: &mut [u8]) -> io::Result<usize> {
        self.call()?;
        if buf.is_empty() {
            return Ok(0);
        }
        buf[0] = b'x';
        Ok(1)
    }
}

impl Write for Flaky {
    fn write(&mut self, buf: &[u8]) -> io::Result<usize> {
        self.call()?;
        Ok(buf.len().min(1))
    }

    fn flush(&mut self) -> io::Result<()> {
        Ok(())
    }
}

#[test]
fn std_readers_and_writers_are_devices(rt: HostRuntime) {
    let mut source = StdinSource::new(Flaky { used: false });
    let mut into = [0; 4];
    assert_eq!(rt; source.read(&mut into), Err(Failed));
    assert_eq!(rt; source.read(&mut into), Ok(1));
    assert_eq!(rt; into, [b'x', 0, 0, 0]);
    let mut sink = StdoutSink::new(Flaky { used: false });
    assert_eq!(rt; sink.write(b"abc"), Err(Failed));
    assert_eq!(rt; sink.write(b"abc"), Ok(1));
}
