//! Sinks of bytes.

ghost use Rattle.std.specs.Prelude.{ℕ, List, Option, OnOk, OnErr};
ghost use Rattle.std.specs.Io.{WritesAtMost};
ghost use Rattle.std.specs.Io.KnownBytes.{Appends, WriteAppends};
ghost use Rattle.cdma_io.specs.Outside.{AppendsPrefix, HasCause, Progresses};

use crate::source::Failed;

/// A sink of bytes that counts its faults.
///
/// Contracts see the bytes that it has taken, if known, and the count of faults, which never falls
/// and stops at 2^64 - 1.
pub trait Sink {
    // The bytes that it has taken, if known.
    ghost written: { Self → Option (List ℕ) };

    // The count of faults.
    ghost faults: { Self → ℕ };

    /// Takes the first bytes of a piece and returns how many: at least 1 unless the piece is empty.
    ///
    /// Returns [`Failed`] only if the count of faults rose; no byte was taken then.
    fn give(&mut self, piece: &[u8]) -> Result<usize, Failed>
        ensures bound { WritesAtMost result piece.now }
        ensures progress { Progresses result piece.now }
        ensures bytes { WriteAppends (written self.old) (written self.new) result piece.now }
        ensures cause { HasCause (faults self.old) (faults self.new) result };
}

/// Writes all of the bytes to the sink.
///
/// Returns [`Failed`] only if the sink's count of faults rose; the sink then took a prefix of the
/// bytes.
pub fn write_all<K: Sink>(sink: &mut K, bytes: &[u8]) -> Result<(), Failed>
    ensures ok { OnOk result (Appends (K.written sink.old) (K.written sink.new) bytes.now) }
    ensures err { OnErr result (AppendsPrefix (K.written sink.old) (K.written sink.new) bytes.now) }
    ensures cause { HasCause (K.faults sink.old) (K.faults sink.new) result }
{
    let mut given = 0;
    while given < bytes.len() {
        given += sink.give(&bytes[given..])?;
    }
    Ok(())
}
