//! Fills a whole buffer from a source.

ghost use Rattle.std.specs.Prelude.{◌≤◌, ◌<◌, take, length, IfOk, OnErr};
ghost use Rattle.std.specs.Io.KnownBytes.{Consumes, IsAtEnd};
ghost use Rattle.cdma_io.specs.Outside.{ConsumesAtMost, ConsumesFewer, HasCause};

use crate::source::{Failed, Source};

/// Takes bytes into the front of the buffer until it is full or the source ends, and returns how
/// many. Fewer than the buffer's length means that the source is at its end.
///
/// Returns [`Failed`] at the first failed take; the bytes taken before it are lost.
pub fn fill<S: Source>(source: &mut S, buf: &mut [u8]) -> Result<usize, Failed>
    ensures bound { IfOk result (λ n. n ≤ length buf.new) }
    ensures bytes { IfOk result (λ n. Consumes (S.rest source.old) (S.rest source.new)
        (take n buf.new)) }
    ensures ends { IfOk result (λ n. n < length buf.new → IsAtEnd (S.rest source.new)) }
    ensures taken { ConsumesAtMost (length buf.old) (S.rest source.old) (S.rest source.new) }
    ensures fewer { OnErr result
        (ConsumesFewer (length buf.old) (S.rest source.old) (S.rest source.new)) }
    ensures cause { HasCause (S.faults source.old) (S.faults source.new) result }
{
    let mut filled = 0;
    while filled < buf.len() {
        let count = source.take(&mut buf[filled..])?;
        if count == 0 {
            return Ok(filled);
        }
        filled += count;
    }
    Ok(filled)
}
