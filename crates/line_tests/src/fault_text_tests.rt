//! The printed texts of all faults, which no clause specifies.

use cdma_io::{Failed, FileFault};
use cell_script::ScriptFault;
use chip_core::{Full, OutOfMemory, Short};
use pilot_sets::DirectionFault;
use quality_bits::{CapsuleFault, MessageFault};
use std::alloc::Global;
use std::fmt::Display;
use std::test::Fail;

/// The faults of a sample file, with their texts.
static FILE_FAULTS: [(FileFault, &'static str); 8] = [
    (FileFault::Magic, "magic"),
    (FileFault::Version, "version"),
    (FileFault::Flags, "flags"),
    (FileFault::Count, "count"),
    (FileFault::Short { at: 15 }, "short"),
    (FileFault::Extra { at: 8208 }, "extra"),
    (FileFault::ReadFault, "read fault"),
    (FileFault::TooFew { count: 2047 }, "too few"),
];

/// The faults of a script, with their texts.
static SCRIPT_FAULTS: [(ScriptFault, &'static str); 7] = [
    (ScriptFault::Line { n: 4294967295 }, "line 4294967295"),
    (ScriptFault::Walsh { row: 32 }, "walsh 32"),
    (ScriptFault::Gain { row: 0 }, "gain 0"),
    (ScriptFault::TooLoud { sum: 6226300 }, "too loud 6226300"),
    (ScriptFault::TooLong { n: 33554433 }, "too long 33554433"),
    (ScriptFault::OutOfMemory, "out of memory"),
    (ScriptFault::TooBig, "too big"),
];

/// The faults of a capsule, then those of a message and of a handoff direction.
static CAPSULE_FAULTS: [(CapsuleFault, &'static str); 2] = [
    (CapsuleFault::BadLength, "bad length"),
    (CapsuleFault::BadCheck, "bad check"),
];

static MESSAGE_FAULTS: [(MessageFault, &'static str); 3] = [
    (MessageFault::BadLength, "bad length"),
    (MessageFault::BadCheck, "bad check"),
    (MessageFault::BadBody, "bad body"),
];

static DIRECTION_FAULTS: [(DirectionFault, &'static str); 3] = [
    (DirectionFault::TooMany { count: 7 }, "7 records"),
    (DirectionFault::Unknown { row: 32 }, "row 32"),
    (DirectionFault::Twice { pilot: 6 }, "pilot 6 twice"),
];

/// Fails if the text of a fault differs from the text in its row.
fn have_texts<T: Copy + Display>(alloc: Global, rows: &[(T, &'static str)]) -> Result<(), Fail> {
    for (fault, text) in rows {
        if fault.to_string(alloc)?.as_str() != *text {
            return Err(Fail::from(*text));
        }
    }
    Ok(())
}

#[test]
fn faults_have_their_texts(rt: HostRuntime) -> Result<(), Fail> {
    let alloc = rt.alloc();
    have_texts(alloc, &FILE_FAULTS)?;
    have_texts(alloc, &SCRIPT_FAULTS)?;
    have_texts(alloc, &CAPSULE_FAULTS)?;
    have_texts(alloc, &MESSAGE_FAULTS)?;
    have_texts(alloc, &DIRECTION_FAULTS)?;
    have_texts(alloc, &[(Failed, "a call on the outside failed")])?;
    have_texts(alloc, &[(OutOfMemory, "out of memory")])?;
    have_texts(alloc, &[(Full, "full")])?;
    have_texts(alloc, &[(Short, "short")])
}
