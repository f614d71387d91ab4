//! A source over a reader of std.

ghost use Rattle.std.specs.Prelude.{◌≡◌};
ghost use Rattle.std.specs.Io.{ReadsAtMost};
ghost use Rattle.std.specs.Io.KnownBytes.{ReadConsumes};
ghost use Rattle.cdma_io.specs.Outside.{CountsFaults, HasCause};

use crate::source::{Failed, Source};
use std::io::Read;

/// A source over a reader. Contracts see the remaining bytes if the reader specifies them, which
/// standard input does not.
///
/// The count of faults starts at 0. Each error of the reader raises it, up to 2^64 - 1.
#[derive(Drop)]
pub struct ReaderSource<R: Read> {
    reader: R,
    faults: u64,
}

impl<R: Read> ReaderSource<R> {
    /// Makes a source over this reader.
    pub fn new(reader: R) -> ReaderSource<R>
        ensures rest { ⟦<ReaderSource<R> as Source>⟧.rest result ≡ R.remaining reader }
        ensures faults { ⟦<ReaderSource<R> as Source>⟧.faults result ≡ 0 }
    {
        ReaderSource { reader, faults: 0 }
    }
}

impl<R: Read> Source for ReaderSource<R> {
    ghost rest = { λ s. R.remaining s.reader };

    ghost faults = { λ s. s.faults };

    fn take(&mut self, buf: &mut [u8]) -> Result<usize, Failed>
        ensures bound { ReadsAtMost result buf.new }
        ensures bytes { ReadConsumes
            (⟦<ReaderSource<R> as Source>⟧.rest self.old)
            (⟦<ReaderSource<R> as Source>⟧.rest self.new) result buf.new }
        ensures cause { HasCause
            (⟦<ReaderSource<R> as Source>⟧.faults self.old)
            (⟦<ReaderSource<R> as Source>⟧.faults self.new) result }
        ensures counted { CountsFaults
            (⟦<ReaderSource<R> as Source>⟧.faults self.old)
            (⟦<ReaderSource<R> as Source>⟧.faults self.new) result }
    {
        match self.reader.read(buf) {
            Ok(count) => Ok(count),
            Err(_) => {
                self.faults = self.faults.saturating_add(1);
                Err(Failed)
            }
        }
    }
}
