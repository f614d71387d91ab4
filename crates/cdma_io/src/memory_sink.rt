//! A sink that keeps its bytes in memory.

ghost use Rattle.std.specs.Prelude.{◌≡◌, ◌≤◌, ◌<◌, ◌↔◌, ◌⊎◌, ℕ, Some, [], take, length, vec_len};
ghost use Rattle.std.specs.Prelude.{vec_capacity, IfOk, OnErr, IsErr, Contains};
ghost use Rattle.std.specs.Io.{WritesAtMost};
ghost use Rattle.std.specs.Io.KnownBytes.{WriteAppends};
ghost use Rattle.cdma_io.specs.Outside.{HasCause, Progresses, next_count};
ghost use Rattle.cdma_io.specs.Memory.{SinkState, sink_failed, taken, taken_count};

use crate::sink::Sink;
use crate::source::Failed;
use chip_core::OutOfMemory;
use std::alloc::Global;
use std::marker::Model;

/// A sink that keeps its bytes in memory, with a fixed room, a limit per call, and chosen calls
/// that fail.
///
/// Contracts always see the bytes that it has taken.
#[derive(Drop)]
pub struct MemorySink {
    bytes: Vec<u8>,
    room: usize,
    piece: usize,
    failing: Vec<u64>,
    calls: u64,
    faults: u64,
}

impl Model for MemorySink {
    ghost Value = { SinkState };

    ghost view = { λ k. record {
      bytes = k.bytes.items;
      room = k.room;
      piece = k.piece;
      failing = k.failing.items;
      calls = k.calls;
      faults = k.faults;
    } };

    ghost invariant = { λ k.
        (vec_len k.bytes ≤ k.room) × (k.room ≤ vec_capacity k.bytes) × (1 ≤ k.piece) };
}

impl MemorySink {
    /// Makes an empty sink with room for `room` bytes. It takes at most `piece` bytes per call and
    /// fails at the calls whose numbers, from 1, are in `failing`. The count of calls stops at
    /// 2^64 - 1.
    ///
    /// Allocates all of its memory; returns [`OutOfMemory`] if that fails.
    pub fn new(
        alloc: Global,
        room: usize,
        piece: usize,
        failing: Vec<u64>,
    ) -> Result<MemorySink, OutOfMemory>
        requires { 1 ≤ piece }
        ensures { IfOk result (λ k. k ≡ record {
          bytes = [];
          room = room;
          piece = piece;
          failing = failing.items;
          calls = 0;
          faults = 0;
        }) }
    {
        let bytes = Vec::with_capacity(alloc, room)?;
        Ok(MemorySink {
            bytes,
            room,
            piece,
            failing,
            calls: 0,
            faults: 0,
        })
    }

    /// Returns the bytes that it has taken, in order.
    pub fn bytes(&self) -> &[u8]
        ensures { result.now ≡ self.now.bytes }
    {
        self.bytes.as_slice()
    }
}

impl Sink for MemorySink {
    ghost written = { λ k. Some k.bytes };

    ghost faults = { λ k. k.faults };

    fn give(&mut self, piece: &[u8]) -> Result<usize, Failed>
        ensures bound { WritesAtMost result piece.now }
        ensures progress { Progresses result piece.now }
        ensures bytes { WriteAppends (Some self.old.bytes) (Some self.new.bytes) result piece.now }
        ensures cause { HasCause self.old.faults self.new.faults result }
        ensures fails { IsErr result ↔ (Contains self.old.failing (next_count self.old.calls)
            ⊎ ((0 < length piece.now) × (self.old.room ≤ length self.old.bytes))) }
        ensures count { IfOk result (λ n. n ≡ taken_count self.old (length piece.now)) }
        ensures ok { IfOk result (λ n. self.new ≡ taken self.old (take n piece.now)) }
        ensures err { OnErr result (self.new ≡ sink_failed self.old) }
    {
        self.calls = self.calls.saturating_add(1);
        let room = self.room - self.bytes.len();
        if self.failing.contains(&self.calls) || (room == 0 && !piece.is_empty()) {
            self.faults = self.faults.saturating_add(1);
            return Err(Failed);
        }
        let count = piece.len().min(self.piece).min(room);
        self.bytes.extend_from_slice(&piece[..count]).unwrap();
        Ok(count)
    }
}
