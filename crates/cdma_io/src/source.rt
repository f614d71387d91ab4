//! Sources of bytes.

ghost use Rattle.std.specs.Prelude.{ℕ, List, Option};
ghost use Rattle.std.specs.Io.{ReadsAtMost};
ghost use Rattle.std.specs.Io.KnownBytes.{ReadConsumes};
ghost use Rattle.cdma_io.specs.Outside.{HasCause};

use thiserror::Error;

/// A call of the operating system failed.
#[derive(Clone, Copy, PartialEq, Eq, Debug, Error)]
#[error("a call on the outside failed")]
pub struct Failed;

/// A source of bytes that counts its faults.
///
/// Contracts see the remaining bytes, if known, and the count of faults, which never falls and
/// stops at 2^64 - 1.
pub trait Source {
    // The remaining bytes, if known.
    ghost rest: { Self → Option (List ℕ) };

    // The count of faults.
    ghost faults: { Self → ℕ };

    /// Moves the next bytes to the front of the buffer and returns how many. 0 means the end,
    /// unless the buffer is empty.
    ///
    /// Returns [`Failed`] only if the count of faults rose; no byte moved then.
    fn take(&mut self, buf: &mut [u8]) -> Result<usize, Failed>
        ensures bound { ReadsAtMost result buf.new }
        ensures bytes { ReadConsumes (rest self.old) (rest self.new) result buf.new }
        ensures cause { HasCause (faults self.old) (faults self.new) result };
}
