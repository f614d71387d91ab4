//! The command `make`: writes the samples of a script's cell as a sample file.

ghost use Rattle.cdma_io.specs.Outside.{ConsumesAtMost, Rose};
ghost use Rattle.cdma_io.specs.declared.file_fault.FileFault.{FileFault};
ghost use Rattle.std.specs.Prelude.{◌≡◌, ◌≢◌, ◌<◌, ◌≤◌, ◌*◌, length, vec_len, Ok, Err, IsOk, IfOk};
ghost use Rattle.std.specs.Prelude.{IfErr, OnOk, IfSome};
ghost use Rattle.std.specs.Io.KnownBytes.{IsAtEnd};
ghost use Rattle.cell_script.specs.declared.script_fault.ScriptFault.{ScriptFault};
ghost use Rattle.cell_script.specs.Script.{plan_named};
ghost use Rattle.run_ends.specs.Flows.{flow_of};
ghost use Rattle.run_ends.specs.Make.{MakesFile};
ghost use Rattle.run_ends.specs.Status.{ended};

mod writing;

use crate::cell::Cell;
use cdma_io::{Failed, Sink, Source, Width, fill};
use cell_script::ScriptFault;
use chip_core::{OutOfMemory, Sample};
use run_ends::Status;
use std::alloc::Global;
use writing::write_cell;

/// The most bytes that are read: one more than the longest script, so that a longer input is
/// noticed.
const MOST_READ: usize = 1_048_577;

/// The most samples that are written at once.
const PIECE: usize = 4096;

/// The buffers for reading a script and writing its cell, allocated before anything is read.
#[derive(Drop)]
struct Workspace {
    script: Vec<u8>,
    samples: Vec<Sample>,
    bytes: Vec<u8>,
    ghost script_len: { vec_len script ≡ 1048577 },
    ghost samples_len: { vec_len samples ≡ 4096 },
    ghost bytes_len: { vec_len bytes ≡ 16384 },
}

impl Workspace {
    fn new(alloc: Global) -> Result<Workspace, OutOfMemory> {
        let script = vec![in alloc; 0; MOST_READ]?;
        let samples = vec![in alloc; Sample { i: 0, q: 0 }; PIECE]?;
        let bytes = vec![in alloc; 0; 4 * PIECE]?;
        Ok(Workspace {
            script,
            samples,
            bytes,
        })
    }
}

/// Reads a script into `script` and opens its cell.
fn open_cell<S: Source>(
    alloc: Global,
    width: Width,
    script: &mut [u8],
    source: &mut S,
) -> Result<Cell, Status>
    requires { length script.old ≡ MOST_READ }
    ensures named { IfOk result
        (λ cell. IfSome (S.rest source.old) (λ bytes. plan_named width bytes ≡ Ok cell.plan)) }
    ensures fresh { IfOk result (λ cell. (cell.width ≡ width) × (cell.given ≡ 0)) }
    ensures at_end { OnOk result (IsAtEnd (S.rest source.new)) }
    ensures failed { IfErr result (λ status. status ≢ Status.Done) }
    ensures others { (ended result ≢ Status.NoSync) × (ended result ≢ Status.BadWords) ×
        (ended result ≢ Status.WriteFault) ×
        ((fault : FileFault) → ended result ≢ Status.BadFile fault) }
    ensures bad_script { (fault : ScriptFault) → ended result ≡ Status.BadScript fault →
        (fault ≢ ScriptFault.OutOfMemory) ×
        IfSome (S.rest source.old) (λ bytes. plan_named width bytes ≡ Err fault) }
    ensures memory { ended result ≡ Status.NoMemory →
        IfSome (S.rest source.old) (λ bytes. IsOk (plan_named width bytes)) }
    ensures read_fault { ended result ≡ Status.ReadFault →
        Rose (S.faults source.old) (S.faults source.new) }
    ensures bound { ConsumesAtMost 1048577 (S.rest source.old) (S.rest source.new) }
    ensures later { S.faults source.old ≤ S.faults source.new }
{
    let Ok(count) = fill(source, script) else {
        return Err(Status::ReadFault);
    };
    Ok(Cell::new(alloc, &script[..count], width)?)
}

/// Reads a script and writes the file of its cell, using `samples` and `bytes` as buffers.
fn make_file<S: Source, K: Sink>(
    alloc: Global,
    width: Width,
    script: &mut [u8],
    samples: &mut [Sample],
    bytes: &mut [u8],
    source: &mut S,
    sink: &mut K,
) -> Result<(), Status>
    requires script { length script.old ≡ MOST_READ }
    requires samples { length samples.old ≡ PIECE }
    requires bytes { length bytes.old ≡ 4 * PIECE }
    ensures { MakesFile width (ended result)
        (flow_of S.rest S.faults source.old source.new)
        (flow_of K.written K.faults sink.old sink.new) }
{
    let mut cell = open_cell(alloc, width, script, source)?;
    match write_cell(&mut cell, width, samples, bytes, sink) {
        Ok(()) => Ok(()),
        Err(Failed) => Err(Status::WriteFault),
    }
}

/// Reads a script and writes the sample file of the cell that it names: the header, then the
/// samples of the cell's forward channels (TIA/EIA-95-B, 7.1.3.1) in this width.
///
/// At most 1,048,577 bytes are read, one more than the longest script has. Nothing is written if
/// the script is rejected.
///
/// Returns [`Status::ReadFault`] or [`Status::WriteFault`] only if the source's or the sink's count
/// of faults rose, [`Status::BadScript`] with the fault of a script that names no cell, and
/// [`Status::NoMemory`] only before anything is written.
// Not inlined: no other command should have this stack frame below its own.
#[inline(never)]
pub fn make<S: Source, K: Sink>(
    alloc: Global,
    width: Width,
    source: &mut S,
    sink: &mut K,
) -> Result<(), Status>
    ensures { MakesFile width (ended result)
        (flow_of S.rest S.faults source.old source.new)
        (flow_of K.written K.faults sink.old sink.new) }
{
    let Workspace {
        mut script,
        mut samples,
        mut bytes,
    } = Workspace::new(alloc)?;
    make_file(
        alloc,
        width,
        &mut script,
        &mut samples,
        &mut bytes,
        source,
        sink,
    )
}
