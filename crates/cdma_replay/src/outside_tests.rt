//! Tests of runs in which one call of a source or sink fails, and of runs with other taps than the
//! program's: how each ends, and what it has written. Only one call fails, so a run that retried it
//! would succeed. The cases of `conformance/` show the output of ordinary runs.

use crate::Status;
use crate::test_runs::{
    Ran, STEADY, TRIAL_LINE, UNBROKEN, ZERO_LINE, ZERO_RANK, run, run_tapped, zeros,
};
use cdma_io::{Failed, WriterSink};
use event_tap::{MessageTap, PilotTap, Tap};
use pilot_search::Open;
use run_replies::Output;
use std::io;
use std::io::{ErrorKind, Write};
use std::test::Fail;
use std::thread::Threads;

/// A command for a file of 80 samples, 336 bytes, whose 64th sample ends at byte 272.
const FIND: &str = "find --span 64";

/// A command that writes a line for each of 512 pilots.
const SURVEY: &str = "survey --span 64";

/// A command that reads nothing.
const TRIAL: &str = "trial --number 0";

/// A script of 93 bytes.
const SCRIPT: &[u8] = b"cell pn=0 time=1000 lc=20000000000 checks=0\n\
    link re=0 im=-3 start=0 samples=1\n\
    pilot gain=100\n";

/// The file that this script describes.
const MADE: &[u8] = b"IS95\x00\x01\x00\x00\x00\x00\x00\x00\x00\x00\x00\x01\xfe\xd4\x01\x2c";

/// The script of a cell whose first sync message is complete within 262,144 samples.
const CELL: &[u8] = b"cell pn=0 time=1000 lc=20000000000 checks=0\n\
    link re=1 im=1 start=0 samples=300000\n\
    pilot gain=100\n\
    sync gain=30 prev=3 min=1 sid=1 nid=2 lp=13 ltm=0 daylt=0 prat=0 rest=3:00\n";

/// The output of `follow` for that cell: a line of 34 bytes, and a second line.
const HEARD: &str = "pilot phase=0 energy=335544320000\n\
    sync at=262144 prev=3 min=1 sid=1 nid=2 pn=0 lc=102a1d2e508 time=1007 lp=13 ltm=0 daylt=0 \
        prat=0 rest=3:00\n";

/// The file of that cell.
fn cell<R: AllocGlobal + Threads + Sync>(rt: &R) -> Result<Vec<u8>, Fail> {
    let (_status, file) = run(rt, "make", CELL, UNBROKEN)?;
    Ok(file)
}

/// Fails unless a run of a command line ends with `status` and writes exactly the first `count`
/// bytes of a text.
fn expect<R: AllocGlobal>(
    rt: &R,
    line: &str,
    (status, written): &Ran,
    end: Status,
    text: &[u8],
    count: usize,
) -> Result<(), Fail> {
    if *status == end && written.as_slice() == text.get(..count).unwrap_or(text) {
        return Ok(());
    }
    let length = written.len();
    Err(Fail::from(format!(in rt.alloc(); "{line}: {status} after {length} bytes")?))
}

#[test]
fn ends_where_a_read_fails(rt: HostRuntime) -> Result<(), Fail> {
    let file = zeros(rt.alloc(), 80)?;
    // The file takes four calls for the header, 52 for the first 64 samples, 13 for the others, and
    // one for the end. The script takes fourteen for its bytes, and one for its end.
    for (line, input, piece, calls, silent, text) in [
        (FIND, file.as_slice(), 5, 70, 57, ZERO_LINE),
        ("make", SCRIPT, 7, 15, 16, MADE),
    ] {
        for call in 1..calls + 1 {
            let ran = run(&rt, line, input, ((piece, call), STEADY))?;
            let count = if call < silent { 0 } else { text.len() };
            expect(&rt, line, &ran, Status::ReadFault, text, count)?;
        }
        let ran = run(&rt, line, input, ((piece, calls + 1), STEADY))?;
        expect(&rt, line, &ran, Status::Done, text, text.len())?;
    }
    Ok(())
}

#[test]
fn ends_where_a_write_fails(rt: HostRuntime) -> Result<(), Fail> {
    let file = zeros(rt.alloc(), 80)?;
    let samples = file.as_slice();
    // Writes fail in the first line, between two lines, and in a file.
    for (line, input, writes, text, count) in [
        (FIND, samples, (5, 3), ZERO_LINE, 10),
        (SURVEY, samples, (65536, 1), ZERO_RANK, 0),
        (SURVEY, samples, (65536, 2), ZERO_RANK, 31),
        (TRIAL, samples, (10, 2), TRIAL_LINE, 10),
        ("make", SCRIPT, (7, 1), MADE, 0),
        ("make", SCRIPT, (7, 2), MADE, 7),
        ("make", SCRIPT, (7, 3), MADE, 14),
        ("make", SCRIPT, (7, 4), MADE, 16),
    ] {
        let ran = run(&rt, line, input, (STEADY, writes))?;
        expect(&rt, line, &ran, Status::WriteFault, text, count)?;
    }
    Ok(())
}

#[test]
fn ends_where_a_write_of_one_byte_fails(rt: HostRuntime) -> Result<(), Fail> {
    let file = zeros(rt.alloc(), 80)?;
    for count in 0..23usize {
        let ran = run(&rt, FIND, file.as_slice(), (STEADY, (1, count as u64 + 1)))?;
        expect(&rt, FIND, &ran, Status::WriteFault, ZERO_LINE, count)?;
    }
    let ran = run(&rt, FIND, file.as_slice(), (STEADY, (1, 24)))?;
    expect(&rt, FIND, &ran, Status::Done, ZERO_LINE, 23)
}

#[test]
fn ends_where_a_call_fails_while_a_cell_is_followed(rt: HostRuntime) -> Result<(), Fail> {
    let file = cell(&rt)?;
    let (line, text) = ("follow", HEARD.as_bytes());
    // Calls of 7 octets have read about 175,000 samples before the 100,000th call, and about
    // 280,000 before the 160,000th.
    for (reads, writes, end, count) in [
        ((65536, 1), STEADY, Status::ReadFault, 0),
        ((7, 100_000), STEADY, Status::ReadFault, 34),
        ((7, 160_000), STEADY, Status::ReadFault, text.len()),
        (STEADY, (65536, 1), Status::WriteFault, 0),
        (STEADY, (65536, 2), Status::WriteFault, 34),
    ] {
        let ran = run(&rt, line, file.as_slice(), (reads, writes))?;
        expect(&rt, line, &ran, end, text, count)?;
    }
    Ok(())
}

/// A writer that takes every byte and whose flush fails.
#[derive(Drop)]
struct Stuck;

impl Write for Stuck {
    fn write(&mut self, buf: &[u8]) -> io::Result<usize> {
        Ok(buf.len())
    }

    fn flush(&mut self) -> io::Result<()> {
        Err(io::Error::from(ErrorKind::Other))
    }
}

/// Flushes an output as the process does after a run.
fn flush<K: Output>(output: &mut K) -> Result<(), Failed> {
    output.flush()
}

#[test]
fn a_flush_of_the_output_reaches_its_writer(rt: HostRuntime) {
    assert_eq!(rt; flush(&mut WriterSink::new(Stuck)), Err(Failed));
}

#[test]
fn each_tap_handed_in_tells(rt: HostRuntime) -> Result<(), Fail> {
    let alloc = rt.alloc();
    let file = cell(&rt)?;
    let mut taps: Vec<Box<dyn Tap>> = Vec::new(alloc);
    for _time in 0..2 {
        taps.push(Box::new(alloc, PilotTap::new())?)?;
        taps.push(Box::new(alloc, MessageTap::new())?)?;
    }
    let mut twice = String::new(alloc);
    for line in HEARD.split_inclusive('\n') {
        twice.push_str(line)?;
        twice.push_str(line)?;
    }
    let (line, text) = ("follow", twice.as_bytes());
    let ran = run_tapped(&rt, line, file.as_slice(), UNBROKEN, taps, &Open)?;
    expect(&rt, line, &ran, Status::Done, text, text.len())
}

#[test]
fn no_tap_tells_nothing(rt: HostRuntime) -> Result<(), Fail> {
    let alloc = rt.alloc();
    let file = zeros(alloc, 2048)?;
    for (line, end, count) in [("follow", Status::NoSync, 0), ("find", Status::Done, 23)] {
        let taps = Vec::new(alloc);
        let ran = run_tapped(&rt, line, file.as_slice(), UNBROKEN, taps, &Open)?;
        expect(&rt, line, &ran, end, ZERO_LINE, count)?;
    }
    Ok(())
}
