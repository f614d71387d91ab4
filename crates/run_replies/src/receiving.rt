//! Receives a sample file: first its span, then all of its samples.

ghost use Rattle.event_tap.specs.Taps.{IsKept};
ghost use Rattle.run_replies.specs.Broken.{HearsFirst, IsCut, IsLong, IsUnopened, TakesFew};
ghost use Rattle.run_replies.specs.Common.{ConsumesAtMost, FileFault, Job, Rose};
ghost use Rattle.run_replies.specs.Common.{Sample as TheSample, sample_len, width_of};
ghost use Rattle.run_replies.specs.Find.{IsEnd, IsFault, IsFaultIn, IsHeaderFault, IsRestFault};
ghost use Rattle.run_replies.specs.Find.{IsSearchable, TakesNoMore, TakesSpan};
ghost use Rattle.run_ends.specs.Status.{ended};
ghost use Rattle.run_ends.specs.Flows.{flow, flow_of};
ghost use Rattle.run_replies.specs.Hearing.{Listening, LosesSamples, end_when, listening, span_of};
ghost use Rattle.run_replies.specs.JobRuns.{ReceivesFile};
ghost use Rattle.run_replies.specs.Listeners.{HearsRest};
ghost use Rattle.run_ends.specs.Status.{file_status};
ghost use Rattle.std.specs.Io.KnownBytes.{IsAtEnd};
ghost use Rattle.std.specs.Prelude.{◌≡◌, ◌≢◌, ◌≤◌, ◌+◌, ◌*◌, ℕ, List, length, All, Option, Err, None};
ghost use Rattle.std.specs.Prelude.{IfErr, IfOk, IfSome, OnErr, OnOk};

use crate::listener::FileListener;
use cdma_io::{Failed, FileFault, SampleReader, Sink, Source};
use chip_core::Sample;
use event_tap::KeepsTaps;
use run_ends::Status;

/// Opens a sample file and reads its first samples into `span`, up to its length.
pub fn open_span<S: Source>(source: &mut S, span: &mut [Sample]) -> Result<SampleReader, FileFault>
    ensures taken { IfOk result (λ r. TakesSpan (length span.old) r.header span.new r.left
        (S.rest source.old) (S.rest source.new)) }
    ensures good { IfOk result (λ r. r.fault ≡ None) }
    ensures fault { IfErr result (λ e. e ≢ FileFault.ReadFault →
        IfSome (S.rest source.old) (λ bytes. ¬ (IsSearchable bytes (length span.old)))) }
    ensures place { IfErr result (λ e. e ≢ FileFault.ReadFault →
        IfSome (S.rest source.old) (λ bytes. IsFaultIn (length span.old) bytes e)) }
    ensures header_alone { IfErr result (λ e. IsHeaderFault e →
        ConsumesAtMost 16 (S.rest source.old) (S.rest source.new)) }
    ensures few { OnErr result
        (TakesFew (length span.old) (S.rest source.old) (S.rest source.new)) }
    ensures bound { OnErr result (TakesNoMore (S.rest source.old) (S.rest source.new)) }
    ensures no_longer { IfErr result (λ e. IsLong (file_status e) →
        IsUnopened (S.rest source.old)) }
    ensures later { S.faults source.old ≤ S.faults source.new }
    ensures cause { result ≡ Err FileFault.ReadFault →
        Rose (S.faults source.old) (S.faults source.new) }
{
    let mut reader = SampleReader::open(source)?;
    let count = reader.header().count;
    if count < span.len() as u64 {
        return Err(FileFault::TooFew { count });
    }
    reader.read(source, span)?;
    Ok(reader)
}

/// Returns how a run over a valid file ends: `NoSync` if no sync message was received.
fn end_when(told: bool) -> Result<(), Status>
    ensures value { ended result ≡ end_when told }
    ensures ends { IsEnd (ended result) }
{
    if told { Ok(()) } else { Err(Status::NoSync) }
}

/// Reads the remaining samples in pieces, passes them to the listener, and checks that the file
/// ends after them.
fn hear_rest<S: Source, L: FileListener, T: KeepsTaps, K: Sink>(
    reader: &mut SampleReader,
    source: &mut S,
    piece: &mut [Sample],
    listener: &mut L,
    taps: &mut T,
    sink: &mut K,
) -> Result<(), Status>
    requires piece { length piece.old ≡ 4096 }
    requires good { reader.old.fault ≡ None }
    requires counted { reader.old.left ≤ reader.old.header.count }
    requires room { L.has_room listener.old reader.old.left }
    requires kept { All IsKept (T.kept taps.old) }
    ensures ends { OnOk result (IsAtEnd (S.rest source.new)) }
    ensures ok { OnOk result ((l : Listening) (heard : List TheSample) →
        L.hearing l listener.old (T.kept taps.old) heard →
        HearsRest L.hearing l (width_of reader.old.header) reader.old.left listener.new
        (T.kept taps.new) heard (S.rest source.old) (S.rest source.new)
        (K.written sink.old) (K.written sink.new)) }
    ensures written { (l : Listening) (heard : List TheSample) →
        L.hearing l listener.old (T.kept taps.old) heard →
        LosesSamples l (width_of reader.old.header) reader.old.left heard (S.rest source.old)
        (S.rest source.new) (K.written sink.old) (K.written sink.new) }
    ensures cut { IsCut (ended result) → (l : Listening) (heard : List TheSample) →
        L.hearing l listener.old (T.kept taps.old) heard →
        HearsFirst l (width_of reader.old.header) (λ k. k ≤ reader.old.left)
        (sample_len (width_of reader.old.header) * 4096) heard (S.rest source.old)
        (S.rest source.new) (K.written sink.old) (K.written sink.new) }
    ensures long { IsLong (ended result) → (l : Listening) (heard : List TheSample) →
        L.hearing l listener.old (T.kept taps.old) heard →
        HearsFirst l (width_of reader.old.header) (λ k. k ≡ reader.old.left) 1 heard
        (S.rest source.old) (S.rest source.new) (K.written sink.old) (K.written sink.new) }
    ensures fault { (fault : FileFault) → ended result ≡ Status.BadFile fault →
        (fault ≢ FileFault.ReadFault) ×
        IfSome (S.rest source.old)
        (λ bytes. length bytes ≢ sample_len (width_of reader.old.header) * reader.old.left) }
    ensures place { (fault : FileFault) → ended result ≡ Status.BadFile fault →
        IfSome (S.rest source.old) (λ bytes. IsRestFault reader.old (length bytes) fault) }
    ensures sample_fault { (fault : FileFault) → ended result ≡ Status.BadFile fault →
        ¬ (IsHeaderFault fault) }
    ensures bound { ConsumesAtMost
        (sample_len (width_of reader.old.header) * reader.old.left + 1)
        (S.rest source.old) (S.rest source.new) }
    ensures others { IfErr result IsFault }
    ensures read_fault { ended result ≡ Status.ReadFault →
        Rose (S.faults source.old) (S.faults source.new) }
    ensures write_fault { ended result ≡ Status.WriteFault →
        Rose (K.faults sink.old) (K.faults sink.new) }
    ensures later_source { S.faults source.old ≤ S.faults source.new }
    ensures later_sink { K.faults sink.old ≤ K.faults sink.new }
{
    while reader.left() > 0 {
        let count = reader.read(source, piece)?;
        match listener.hear(&piece[..count], taps, sink) {
            Ok(()) => {}
            Err(Failed) => return Err(Status::WriteFault),
        }
    }
    reader.finish(source)?;
    Ok(())
}

/// Passes a file's samples to a listener: `first`, read by [`open_span`], and then the remaining
/// ones, read in pieces into `piece`. Checks that the file ends after them.
///
/// Returns [`Status::NoSync`] if no sync message was received, and [`Status::WriteFault`] if the
/// text could not be written.
pub fn hear_file<S: Source, L: FileListener, T: KeepsTaps, K: Sink>(
    reader: SampleReader,
    first: &[Sample],
    piece: &mut [Sample],
    source: &mut S,
    listener: &mut L,
    taps: &mut T,
    sink: &mut K,
) -> Result<(), Status>
    requires piece { length piece.old ≡ 4096 }
    requires good { reader.fault ≡ None }
    requires counted { reader.left + length first.now ≡ reader.header.count }
    requires room { L.has_room listener.old reader.header.count }
    requires tellable { L.can_begin listener.old }
    requires kept { All IsKept (T.kept taps.old) }
    // For any bytes of the file before its span was read, and any earlier count of faults.
    ensures { (job : Job) (before : Option (List ℕ)) (faults : ℕ) →
        TakesSpan (span_of job) reader.header first.now reader.left before (S.rest source.old) →
        L.fresh (listening (T.kept taps.old) job reader.header first.now) listener.old
        (T.kept taps.old) → faults ≤ S.faults source.old →
        ReceivesFile (T.kept taps.old) job (ended result)
        (flow before (S.rest source.new) faults (S.faults source.new) ⊥)
        (flow_of K.written K.faults sink.old sink.new) }
{
    let mut reader = reader;
    match listener.begin(taps, sink) {
        Ok(()) => {}
        Err(Failed) => return Err(Status::WriteFault),
    }
    match listener.hear(first, taps, sink) {
        Ok(()) => {}
        Err(Failed) => return Err(Status::WriteFault),
    }
    hear_rest(&mut reader, source, piece, listener, taps, sink)?;
    end_when(listener.is_told())
}
