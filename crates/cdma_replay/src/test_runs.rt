//! Whole runs in memory for the tests: their inputs, how they end, and what they write.

use crate::{Status, replay};
use cdma_io::{MemorySink, MemorySource};
use event_tap::{FrameTap, MessageTap, PilotTap, RawTap, Tap};
use pilot_search::{Gate, Open};
use std::alloc::Global;
use std::test::Fail;
use std::thread::Threads;

/// The most bytes that one call of a source or sink moves, and the number of the call that fails,
/// from 1 (0: none).
pub type Calls = (usize, u64);

/// Calls that never fail.
pub const STEADY: Calls = (65536, 0);

/// A source and a sink whose calls never fail.
pub const UNBROKEN: (Calls, Calls) = (STEADY, STEADY);

/// How a run ended, and what it wrote.
pub type Ran = (Status, Vec<u8>);

/// Room for the longest file of the tests.
const ROOM: usize = 2_000_000;

/// The pilot line for samples of zeros.
pub const ZERO_LINE: &[u8] = b"pilot phase=0 energy=0\n";

/// The first survey line for samples of zeros.
pub const ZERO_RANK: &[u8] = b"survey pn=0 delta=-10 energy=0\n";

/// The line of trial 0.
pub const TRIAL_LINE: &[u8] =
    b"trial number=0 samples=2457600 phase=8320 syncs=8 pagings=144 frames=72 good=72\n";

/// Returns a file of `count` samples of zeros.
pub fn zeros(alloc: Global, count: u64) -> Result<Vec<u8>, Fail> {
    let mut file = Vec::from_slice(alloc, b"IS95\x00\x01\x00\x00")?;
    file.extend_from_slice(&count.to_be_bytes())?;
    for _sample in 0..count {
        file.extend_from_slice(&[0; 4])?;
    }
    Ok(file)
}

/// Returns a tap of each form, as in the program.
pub fn each_tap(alloc: Global) -> Result<Vec<Box<dyn Tap>>, Fail> {
    let mut taps: Vec<Box<dyn Tap>> = Vec::new(alloc);
    taps.push(Box::new(alloc, PilotTap::new())?)?;
    taps.push(Box::new(alloc, MessageTap::new())?)?;
    taps.push(Box::new(alloc, FrameTap::new())?)?;
    taps.push(Box::new(alloc, RawTap::new())?)?;
    Ok(taps)
}

/// Splits a command line into arguments at blanks.
fn args_of(alloc: Global, line: &str) -> Result<Vec<String>, Fail> {
    let mut args = Vec::new(alloc);
    for arg in line.split_whitespace() {
        args.push(String::from_str(alloc, arg)?)?;
    }
    Ok(args)
}

/// Runs a command line over an input with these taps and this gate for its workers. Returns how it
/// ends and what it writes.
pub fn run_tapped<R: AllocGlobal + Threads + Sync, G: Gate + Sync>(
    rt: &R,
    line: &str,
    input: &[u8],
    (reads, writes): (Calls, Calls),
    taps: Vec<Box<dyn Tap>>,
    gate: &G,
) -> Result<Ran, Fail> {
    let alloc = rt.alloc();
    let args = args_of(alloc, line)?;
    let input = Vec::from_slice(alloc, input)?;
    let failing = Vec::from_slice(alloc, &[reads.1])?;
    let mut source = MemorySource::new(input, reads.0.max(1), failing);
    let failing = Vec::from_slice(alloc, &[writes.1])?;
    let mut sink = MemorySink::new(alloc, ROOM, writes.0.max(1), failing)?;
    let args = args.as_slice();
    let status = replay(rt, alloc, args, &mut source, &mut sink, taps, gate);
    Ok((status, Vec::from_slice(alloc, sink.bytes())?))
}

/// Runs a command line likewise, with a tap of each form and an open gate.
pub fn run<R: AllocGlobal + Threads + Sync>(
    rt: &R,
    line: &str,
    input: &[u8],
    calls: (Calls, Calls),
) -> Result<Ran, Fail> {
    run_tapped(rt, line, input, calls, each_tap(rt.alloc())?, &Open)
}
