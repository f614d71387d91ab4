//! Tests of what no clause states: std's readers and writers, and that a failed call isn't retried.

use cdma_io::{
    Failed, FileFault, MemorySink, MemorySource, ReaderSource, SampleReader, Sink, Source,
    WriterSink, fill, write_all,
};
use chip_core::Sample;
use std::alloc::{AllocError, Global};
use std::io;
use std::io::{ErrorKind, Read, Write};
use std::test::Fail;

/// A file of three samples, whose 16-bit checks are complemented.
const FILE: [u8; 28] = [
    0x49, 0x53, 0x39, 0x35, 0x00, 0x01, 0x00, 0x02, 0, 0, 0, 0, 0, 0, 0, 3, // header
    0x00, 0x01, 0xff, 0xff, 0x80, 0x00, 0x7f, 0xff, 0x12, 0x34, 0xab, 0xcd,
];

const NONE: Sample = Sample { i: 0, q: 0 };

/// Returns a source of these bytes, which returns at most 7 per call and fails at call `failing`.
fn source_of(alloc: Global, bytes: &[u8], failing: u64) -> Result<MemorySource, AllocError> {
    let bytes = bytes.to_vec(alloc)?;
    let failing = [failing].to_vec(alloc)?;
    Ok(MemorySource::new(bytes, 7, failing))
}

// In each of these exactly one call fails, so code that retried it would continue as if nothing had
// failed.
#[test]
fn the_first_failed_call_ends_fill(rt: HostRuntime) -> Result<(), Fail> {
    for call in 1..5 {
        let mut source = source_of(rt.alloc(), &FILE, call)?;
        assert_eq!(rt; fill(&mut source, &mut [0; 28]), Err(Failed), "{call}");
    }
    Ok(())
}

#[test]
fn the_first_failed_call_ends_open(rt: HostRuntime) -> Result<(), Fail> {
    for call in 1..4 {
        let mut source = source_of(rt.alloc(), &FILE, call)?;
        let opened = SampleReader::open(&mut source);
        assert!(rt; matches!(&opened, Err(FileFault::ReadFault)), "{call}");
    }
    Ok(())
}

#[test]
fn the_first_failed_call_ends_read(rt: HostRuntime) -> Result<(), Fail> {
    for call in 4..6 {
        let mut source = source_of(rt.alloc(), &FILE, call)?;
        let mut reader = SampleReader::open(&mut source)?;
        let read = reader.read(&mut source, &mut [NONE; 3]);
        assert_eq!(rt; read, Err(FileFault::ReadFault), "{call}");
    }
    Ok(())
}

#[test]
fn the_first_failed_call_ends_finish(rt: HostRuntime) -> Result<(), Fail> {
    let mut source = source_of(rt.alloc(), &FILE, 6)?;
    let mut reader = SampleReader::open(&mut source)?;
    assert_eq!(rt; reader.read(&mut source, &mut [NONE; 3])?, 3);
    assert_eq!(rt; reader.left(), 0);
    assert_eq!(rt; reader.finish(&mut source), Err(FileFault::ReadFault));
    Ok(())
}

#[test]
fn the_first_failed_call_ends_write_all(rt: HostRuntime) -> Result<(), Fail> {
    let alloc = rt.alloc();
    for (call, taken) in [(1, 0), (2, 3)] {
        let mut sink = MemorySink::new(alloc, 5, 3, [call].to_vec(alloc)?)?;
        assert_eq!(rt; write_all(&mut sink, b"pilot"), Err(Failed), "{call}");
        assert_eq!(rt; sink.bytes(), &b"pilot"[..taken], "{call}");
    }
    Ok(())
}

#[test]
fn reads_a_reader_of_std(rt: HostRuntime) -> Result<(), Fail> {
    let mut source = ReaderSource::new(FILE.as_slice());
    let mut reader = SampleReader::open(&mut source)?;
    let mut out = [NONE; 3];
    assert_eq!(rt; reader.read(&mut source, &mut out)?, 3);
    assert_eq!(rt; out[2], Sample { i: 4660, q: -21555 });
    assert_eq!(rt; reader.left(), 0);
    reader.finish(&mut source)?;
    Ok(())
}

#[test]
fn writes_to_a_writer_of_std(rt: HostRuntime) -> Result<(), Fail> {
    let mut written = Vec::new(rt.alloc());
    let mut sink = WriterSink::new(&mut written);
    assert_eq!(rt; write_all(&mut sink, b"pilot"), Ok(()));
    assert_eq!(rt; sink.flush(), Ok(()));
    assert_eq!(rt; written.as_slice(), b"pilot".as_slice());
    Ok(())
}

/// A broken device, which neither returns nor accepts a byte.
#[derive(Drop)]
struct Broken;

impl Read for Broken {
    fn read(&mut self, _buf: &mut [u8]) -> io::Result<usize> {
        Err(io::Error::from(ErrorKind::Other))
    }
}

impl Write for Broken {
    fn write(&mut self, _buf: &[u8]) -> io::Result<usize> {
        Ok(0)
    }

    fn flush(&mut self) -> io::Result<()> {
        Err(io::Error::from(ErrorKind::Other))
    }
}

#[test]
fn answers_faults_of_a_reader_of_std(rt: HostRuntime) {
    let mut source = ReaderSource::new(Broken);
    assert_eq!(rt; source.take(&mut [0]), Err(Failed));
    assert_eq!(rt;
        SampleReader::open(&mut source).err(),
        Some(FileFault::ReadFault)
    );
}

#[test]
fn answers_faults_of_a_writer_of_std(rt: HostRuntime) {
    let mut sink = WriterSink::new(Broken);
    assert_eq!(rt; sink.give(b""), Ok(0));
    assert_eq!(rt; sink.give(b"p"), Err(Failed));
    assert_eq!(rt; sink.flush(), Err(Failed));
}

/// A device of which only the first call fails, with this kind of error.
#[derive(Drop)]
struct FailsOnce {
    kind: ErrorKind,
    failed: bool,
}

impl FailsOnce {
    fn new(kind: ErrorKind) -> FailsOnce {
        FailsOnce {
            kind,
            failed: false,
        }
    }

    fn call(&mut self) -> io::Result<()> {
        if self.failed {
            return Ok(());
        }
        self.failed = true;
        Err(io::Error::from(self.kind))
    }
}

impl Read for FailsOnce {
    fn read(&mut self, _buf: &mut [u8]) -> io::Result<usize> {
        self.call()?;
        Ok(0)
    }
}

impl Write for FailsOnce {
    fn write(&mut self, buf: &[u8]) -> io::Result<usize> {
        self.call()?;
        Ok(buf.len())
    }

    fn flush(&mut self) -> io::Result<()> {
        self.call()
    }
}

/// Two kinds of error: an interrupted call is a failed call, too.
const KINDS: [ErrorKind; 2] = [ErrorKind::Other, ErrorKind::Interrupted];

#[test]
fn no_failed_take_is_tried_again(rt: HostRuntime) {
    for kind in KINDS {
        let mut source = ReaderSource::new(FailsOnce::new(kind));
        assert_eq!(rt; source.take(&mut [0]), Err(Failed));
        assert_eq!(rt; source.take(&mut [0]), Ok(0));
    }
}

#[test]
fn no_failed_give_is_tried_again(rt: HostRuntime) {
    for kind in KINDS {
        let mut sink = WriterSink::new(FailsOnce::new(kind));
        assert_eq!(rt; sink.give(b"p"), Err(Failed));
        assert_eq!(rt; sink.give(b"p"), Ok(1));
    }
}

#[test]
fn no_failed_flush_is_tried_again(rt: HostRuntime) {
    for kind in KINDS {
        let mut sink = WriterSink::new(FailsOnce::new(kind));
        assert_eq!(rt; sink.flush(), Err(Failed));
        assert_eq!(rt; sink.flush(), Ok(()));
    }
}

/// A device that records whether it was flushed after the last byte that it accepted.
#[derive(Drop)]
struct Flushed<'a> {
    flushed: &'a mut bool,
}

impl Write for Flushed<'_> {
    fn write(&mut self, buf: &[u8]) -> io::Result<usize> {
        *self.flushed = false;
        Ok(buf.len())
    }

    fn flush(&mut self) -> io::Result<()> {
        *self.flushed = true;
        Ok(())
    }
}

#[test]
fn a_flush_reaches_the_writer(rt: HostRuntime) {
    let mut flushed = false;
    let mut sink = WriterSink::new(Flushed {
        flushed: &mut flushed,
    });
    assert_eq!(rt; sink.give(b"p"), Ok(1));
    assert_eq!(rt; sink.flush(), Ok(()));
    assert!(rt; flushed);
}
