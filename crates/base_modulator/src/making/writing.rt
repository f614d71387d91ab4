//! Writes the file of a cell.

ghost use Rattle.cdma_io.specs.Outside.{AppendsPrefix, HasCause};
ghost use Rattle.cdma_io.specs.SampleFile.{sample_len};
ghost use Rattle.std.specs.Prelude.{◌≡◌, ◌≤◌, ◌+◌, ◌-◌, ◌*◌, min, length, take, OnOk, OnErr};
ghost use Rattle.std.specs.Io.KnownBytes.{Appends};
ghost use Rattle.run_ends.specs.Make.{made_file, piece_bytes};

use crate::cell::Cell;
use cdma_io::{Failed, Sink, Width, bytes_for, header_bytes, sample_bytes_into, write_all};
use chip_core::Sample;

/// Spells the cell's next samples, exactly as many as `samples` holds.
fn spell_next(cell: &mut Cell, width: Width, samples: &mut [Sample], bytes: &mut [u8])
    requires width { cell.old.width ≡ width }
    requires left { cell.old.given + length samples.old ≤ cell.old.plan.link.samples }
    requires room { length bytes.old ≡ sample_len width * length samples.old }
    ensures spelled { bytes.new ≡
        piece_bytes width cell.old.plan cell.old.given (length samples.old) }
    ensures state { cell.new ≡ record cell.old { given = cell.old.given + length samples.old } }
{
    cell.fill(samples);
    sample_bytes_into(width, samples, bytes);
}

/// Spells the cell's next samples, up to the length of `samples` or the end of the cell, and
/// returns how many bytes they take.
fn spell_piece(cell: &mut Cell, width: Width, samples: &mut [Sample], bytes: &mut [u8]) -> usize
    requires width { cell.old.width ≡ width }
    requires samples { length samples.old ≡ 4096 }
    requires bytes { length bytes.old ≡ 16384 }
    ensures most { result ≤ 16384 }
    ensures spelled { take result bytes.new ≡ piece_bytes width cell.old.plan cell.old.given
        (min 4096 (cell.old.plan.link.samples - cell.old.given)) }
    ensures state { cell.new ≡
        record cell.old
        { given = cell.old.given + min 4096 (cell.old.plan.link.samples - cell.old.given) } }
{
    let count = cell.left().min(samples.len() as u64) as usize;
    let len = bytes_for(width, count as u64) as usize;
    spell_next(cell, width, &mut samples[..count], &mut bytes[..len]);
    len
}

/// Writes the file of a cell from its first sample, using `samples` and `bytes` as buffers.
pub fn write_cell<K: Sink>(
    cell: &mut Cell,
    width: Width,
    samples: &mut [Sample],
    bytes: &mut [u8],
    sink: &mut K,
) -> Result<(), Failed>
    requires fresh { (cell.old.width ≡ width) × (cell.old.given ≡ 0) }
    requires samples { length samples.old ≡ 4096 }
    requires bytes { length bytes.old ≡ 16384 }
    ensures ok { OnOk result
        (Appends (K.written sink.old) (K.written sink.new) (made_file width cell.old.plan)) }
    ensures err { OnErr result
        (AppendsPrefix (K.written sink.old) (K.written sink.new) (made_file width cell.old.plan)) }
    ensures cause { HasCause (K.faults sink.old) (K.faults sink.new) result }
{
    write_all(sink, &header_bytes(&cell.header()))?;
    while cell.left() > 0 {
        let len = spell_piece(cell, width, samples, bytes);
        write_all(sink, &bytes[..len])?;
    }
    Ok(())
}
