//! A sink over a writer of std.

ghost use Rattle.std.specs.Prelude.{◌≡◌, ◌≤◌};
ghost use Rattle.std.specs.Io.{WritesAtMost};
ghost use Rattle.std.specs.Io.KnownBytes.{Keeps, WriteAppends};
ghost use Rattle.cdma_io.specs.Outside.{CountsFaults, HasCause, Progresses, next_count};

use crate::sink::Sink;
use crate::source::Failed;
use std::io::Write;

/// A sink over a writer. Contracts see the written bytes if the writer specifies them, which
/// standard output does not.
///
/// The count of faults starts at 0. Each error of the writer raises it, and so does each nonempty
/// piece of which the writer takes no byte, up to 2^64 - 1.
#[derive(Drop)]
pub struct WriterSink<W: Write> {
    writer: W,
    faults: u64,
}

impl<W: Write> WriterSink<W> {
    /// Makes a sink over this writer.
    pub fn new(writer: W) -> WriterSink<W>
        ensures written { ⟦<WriterSink<W> as Sink>⟧.written result ≡ W.contents writer }
        ensures faults { ⟦<WriterSink<W> as Sink>⟧.faults result ≡ 0 }
    {
        WriterSink { writer, faults: 0 }
    }

    /// Flushes what the writer has buffered.
    ///
    /// Returns [`Failed`] only if the count of faults rose.
    pub fn flush(&mut self) -> Result<(), Failed>
        ensures written { Keeps
            (⟦<WriterSink<W> as Sink>⟧.written self.old)
            (⟦<WriterSink<W> as Sink>⟧.written self.new) }
        ensures cause { HasCause
            (⟦<WriterSink<W> as Sink>⟧.faults self.old)
            (⟦<WriterSink<W> as Sink>⟧.faults self.new) result }
        ensures counted { CountsFaults
            (⟦<WriterSink<W> as Sink>⟧.faults self.old)
            (⟦<WriterSink<W> as Sink>⟧.faults self.new) result }
    {
        match self.writer.flush() {
            Ok(()) => Ok(()),
            Err(_) => Err(self.fault()),
        }
    }

    /// Counts a fault and returns the error.
    fn fault(&mut self) -> Failed
        ensures written { ⟦<WriterSink<W> as Sink>⟧.written self.new
            ≡ ⟦<WriterSink<W> as Sink>⟧.written self.old }
        ensures counted { ⟦<WriterSink<W> as Sink>⟧.faults self.new ≡ next_count
            (⟦<WriterSink<W> as Sink>⟧.faults self.old) }
        ensures later { ⟦<WriterSink<W> as Sink>⟧.faults self.old
            ≤ ⟦<WriterSink<W> as Sink>⟧.faults self.new }
    {
        self.faults = self.faults.saturating_add(1);
        Failed
    }
}

impl<W: Write> Sink for WriterSink<W> {
    ghost written = { λ k. W.contents k.writer };

    ghost faults = { λ k. k.faults };

    fn give(&mut self, piece: &[u8]) -> Result<usize, Failed>
        ensures bound { WritesAtMost result piece.now }
        ensures progress { Progresses result piece.now }
        ensures bytes { WriteAppends
            (⟦<WriterSink<W> as Sink>⟧.written self.old)
            (⟦<WriterSink<W> as Sink>⟧.written self.new) result piece.now }
        ensures cause { HasCause
            (⟦<WriterSink<W> as Sink>⟧.faults self.old)
            (⟦<WriterSink<W> as Sink>⟧.faults self.new) result }
        ensures counted { CountsFaults
            (⟦<WriterSink<W> as Sink>⟧.faults self.old)
            (⟦<WriterSink<W> as Sink>⟧.faults self.new) result }
    {
        match self.writer.write(piece) {
            Ok(count) if count > 0 || piece.is_empty() => Ok(count),
            _ => Err(self.fault()),
        }
    }
}
