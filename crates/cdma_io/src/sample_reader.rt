//! Reads a sample file.

ghost use Rattle.std.specs.Prelude.{◌≡◌, ◌<◌, ◌≤◌, ◌+◌, ◌*◌, ◌-◌, min, length, take, drop, All};
ghost use Rattle.std.specs.Prelude.{IfOk, OnOk, IfErr, OnErr, IfSome, IsSome, IsNone, Err};
ghost use Rattle.std.specs.List.{flat_map};
ghost use Rattle.std.specs.Io.KnownBytes.{Consumes, IsAtEnd, Keeps};
ghost use Rattle.cdma_io.specs.Outside.{ConsumesAtMost, ConsumesFewer, Rose};
ghost use Rattle.cdma_io.specs.SampleFile.{header_spelling, sample_spelling, IsLawfulHeader, Opens};
ghost use Rattle.cdma_io.specs.SampleFile.{fresh_reading, next_place, sample_len, CutsShort};
ghost use Rattle.cdma_io.specs.SampleFile.{width_of, HasBits, Reading, faulted, opening, RunsOn};

use crate::file_fault::FileFault;
use crate::filling::fill;
use crate::header::{HEADER_LEN, Header, parse_header};
use crate::samples::read_samples;
use crate::source::Source;
use crate::width::bytes_for;
use chip_core::Sample;
use std::marker::Model;

/// A reader of a sample file: it has read the header and returns the samples in order.
///
/// Use it only with the source that it was opened on. After a fault it returns that fault from
/// every call and takes nothing more from the source.
#[derive(Drop)]
pub struct SampleReader {
    header: Header,
    left: u64,
    fault: Option<FileFault>,
}

impl Model for SampleReader {
    ghost Value = { Reading };

    ghost view = { λ r. record { header = r.header; left = r.left; fault = r.fault } };

    ghost invariant = { λ r. IsLawfulHeader r.header × (r.left ≤ r.header.count) };
}

impl SampleReader {
    /// Reads a file's header, 16 bytes.
    ///
    /// The fault is the first of these: [`FileFault::ReadFault`] if a take failed,
    /// [`FileFault::Short`] if the source ends before the 16 bytes, then [`FileFault::Magic`],
    /// [`FileFault::Version`], [`FileFault::Flags`] and [`FileFault::Count`] for invalid bytes.
    pub fn open<S: Source>(source: &mut S) -> Result<SampleReader, FileFault>
        ensures header { IfOk result (λ r. Consumes (S.rest source.old) (S.rest source.new)
            (header_spelling r.header)) }
        ensures lawful { IfOk result (λ r. IsLawfulHeader r.header) }
        ensures fresh { IfOk result (λ r. r ≡ fresh_reading r.header) }
        ensures told { IfSome (S.rest source.old) (λ bytes. Opens result (opening bytes)) }
        ensures taken { ConsumesAtMost 16 (S.rest source.old) (S.rest source.new) }
        ensures later { S.faults source.old ≤ S.faults source.new }
        ensures cause { result ≡ Err FileFault.ReadFault →
            Rose (S.faults source.old) (S.faults source.new) }
    {
        let mut bytes = [0; HEADER_LEN];
        let count = fill(source, &mut bytes)?;
        if count < HEADER_LEN {
            return Err(FileFault::Short { at: count as u64 });
        }
        let header = parse_header(&bytes)?;
        Ok(SampleReader {
            header,
            left: header.count,
            fault: None,
        })
    }

    /// Returns the file's header.
    pub fn header(&self) -> Header
        ensures value { result ≡ self.now.header }
        ensures lawful { IsLawfulHeader result }
    {
        self.header
    }

    /// Returns how many samples are not read yet.
    pub fn left(&self) -> u64
        ensures value { result ≡ self.now.left }
        ensures most { result ≤ self.now.header.count }
    {
        self.left
    }

    /// Reads the next samples, up to the length of `out` and the number left, and returns how many.
    ///
    /// Takes no byte after them, even on a fault. Returns [`FileFault::Short`] if the source ends
    /// before them, and [`FileFault::ReadFault`] as soon as a take fails. The content of `out`
    /// after a fault is unspecified.
    pub fn read<S: Source>(
        &mut self,
        source: &mut S,
        out: &mut [Sample],
    ) -> Result<usize, FileFault>
        ensures count { IfOk result (λ n. n ≡ min (length out.old) self.old.left) }
        ensures samples { IfOk result (λ n. Consumes (S.rest source.old) (S.rest source.new)
            (flat_map (sample_spelling (width_of self.old.header)) (take n out.new))) }
        ensures in_range { IfOk result (λ n. All (HasBits (width_of self.old.header))
            (take n out.new)) }
        ensures beyond { IfOk result (λ n. drop n out.new ≡ drop n out.old) }
        ensures ok { IfOk result (λ n. self.new ≡ record self.old { left = self.old.left - n }) }

        // A fault is kept, and returned by every later call.
        ensures err { IfErr result (λ e. self.new ≡ faulted self.old e) }
        ensures kept { IfSome self.old.fault (λ e. result ≡ Err e) }
        ensures untouched { IsSome self.old.fault → source.new ≡ source.old }
        ensures fault { IfErr result (λ e. IsNone self.old.fault →
            CutsShort e (sample_len (width_of self.old.header) * min (length out.old) self.old.left)
            (next_place self.old) (S.rest source.old) (S.rest source.new)) }
        ensures taken { ConsumesAtMost (sample_len (width_of self.old.header) * min (length out.old)
            self.old.left)
            (S.rest source.old) (S.rest source.new) }
        ensures fewer { OnErr result (IsNone self.old.fault →
            ConsumesFewer (sample_len (width_of self.old.header) * min (length out.old)
            self.old.left) (S.rest source.old) (S.rest source.new)) }

        ensures later { S.faults source.old ≤ S.faults source.new }
        ensures cause { IsNone self.old.fault → result ≡ Err FileFault.ReadFault →
            Rose (S.faults source.old) (S.faults source.new) }
    {
        if let Some(fault) = self.fault {
            return Err(fault);
        }
        let wanted = self.left.min(out.len() as u64) as usize;
        let width = self.header.width();
        let place = HEADER_LEN as u64 + bytes_for(width, self.header.count - self.left);
        match read_samples(source, width, place, &mut out[..wanted]) {
            Ok(()) => {
                self.left -= wanted as u64;
                Ok(wanted)
            }
            Err(fault) => {
                self.fault = Some(fault);
                Err(fault)
            }
        }
    }

    /// Checks that the file ends after its samples.
    ///
    /// Returns [`FileFault::Extra`] if another byte follows, and [`FileFault::ReadFault`] if the
    /// take fails.
    pub fn finish<S: Source>(&mut self, source: &mut S) -> Result<(), FileFault>
        requires { self.old.left ≡ 0 }
        ensures ends { OnOk result (IsAtEnd (S.rest source.new)) }
        ensures nothing_taken { OnOk result (Keeps (S.rest source.old) (S.rest source.new)) }
        ensures ok { OnOk result (self.new ≡ self.old) }

        // A fault is kept, and returned by every later call.
        ensures err { IfErr result (λ e. self.new ≡ faulted self.old e) }
        ensures kept { IfSome self.old.fault (λ e. result ≡ Err e) }
        ensures untouched { IsSome self.old.fault → source.new ≡ source.old }
        ensures fault { IfErr result (λ e. IsNone self.old.fault →
            RunsOn e (16 + sample_len (width_of self.old.header) * self.old.header.count)
            (S.rest source.old)) }
        ensures taken { ConsumesAtMost 1 (S.rest source.old) (S.rest source.new) }

        ensures later { S.faults source.old ≤ S.faults source.new }
        ensures cause { IsNone self.old.fault → result ≡ Err FileFault.ReadFault →
            Rose (S.faults source.old) (S.faults source.new) }
    {
        if let Some(fault) = self.fault {
            return Err(fault);
        }
        let end = HEADER_LEN as u64 + bytes_for(self.header.width(), self.header.count);
        match expect_end(source, end) {
            Ok(()) => Ok(()),
            Err(fault) => {
                self.fault = Some(fault);
                Err(fault)
            }
        }
    }
}

/// Checks that the file ends at offset `end`, by trying to take a byte.
fn expect_end<S: Source>(source: &mut S, end: u64) -> Result<(), FileFault>
    ensures ends { OnOk result (IsAtEnd (S.rest source.new)) }
    ensures nothing_taken { OnOk result (Keeps (S.rest source.old) (S.rest source.new)) }
    ensures fault { IfErr result (λ e. RunsOn e end (S.rest source.old)) }
    ensures taken { ConsumesAtMost 1 (S.rest source.old) (S.rest source.new) }
    ensures later { S.faults source.old ≤ S.faults source.new }
    ensures cause { result ≡ Err FileFault.ReadFault →
        Rose (S.faults source.old) (S.faults source.new) }
{
    let mut byte = [0];
    let count = source.take(&mut byte)?;
    if count > 0 {
        return Err(FileFault::Extra { at: end });
    }
    Ok(())
}
