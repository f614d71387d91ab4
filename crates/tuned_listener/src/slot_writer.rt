//! Decodes the slots of a sleeping handset and writes their text.

ghost use Rattle.tuned_listener.specs.Common.{frame_most, IsSoundMark, SoftFrame as TheFrame};
ghost use Rattle.tuned_listener.specs.Common.{slot_more, slot_text};
ghost use Rattle.std.specs.Prelude.{◌≡◌, ◌≤◌, ◌⊎◌, ◌↔◌, ◌+◌, ◌*◌, ◌/◌, ◌%◌, ℕ, Bool, List, [], ◌∷◌};
ghost use Rattle.std.specs.Prelude.{◌++◌, length, IfOk, OnOk, OnErr, sum_by, unsigned_abs, IsTrue};
ghost use Rattle.std.specs.List.{flat_map};
ghost use Rattle.std.specs.Io.KnownBytes.{Appends};
ghost use Rattle.cdma_io.specs.Outside.{AppendsPrefix, HasCause};
ghost use Rattle.event_tap.specs.PagingLines.{paging_line};
ghost use Rattle.paging_message.specs.HalfFrames.{IsPagingRate, HalfFramesStandFor};
ghost use Rattle.event_tap.specs.SlotLines.{slot_lines, slot_pages};
ghost use Rattle.tuned_listener.specs.SlotWriting.{HoldsSlot, IsReadyForSlots, page_list};
ghost use Rattle.tuned_listener.specs.SlotWriting.{pages_ending};

use cdma_io::{Failed, Sink};
use chip_core::air::{DATA_SYMBOLS, SLOT_FRAMES, SPAN_BITS};
use chip_core::{Bits, CheckForm, OutOfMemory};
use event_tap::{write_event, write_slot};
use heard_events::{Event, Mark, SoftFrame};
use paging_message::{HalfBits, HalfFramer, PagingMessage};
use slot_mode::{Wake, slot_bits};
use std::alloc::Global;
use symbol_path::Rate;
use viterbi::Decoder;

/// Decodes the slots of a sleeping handset and writes their text.
#[derive(Drop)]
pub(crate) struct SlotWriter {
    decoder: Decoder,
    /// The handset's key.
    key: u32,
    /// The index of its cycle, 0 to 7.
    cycle: u8,
    /// The form of the capsules' checks.
    check: CheckForm,
    /// The descrambled soft values of the frames that are kept of a slot, 384 per frame.
    softs: [i64; 4 * DATA_SYMBOLS],
    /// The number of frames that are kept, from the slot's first on.
    kept: u8,
}

/// Returns the place of a frame in its slot, 0 to 3, from its number counted from the mark on.
fn place_in_slot(number: u64) -> u8
    ensures { result ≡ number % 4 }
{
    (number % u64::from(SLOT_FRAMES)) as u8
}

/// Returns whether a frame at `place` of a slot continues the slot's `kept` frames. The first frame
/// always does.
fn goes_on(place: u8, kept: u8) -> bool
    ensures { IsTrue result ↔ ((place ≡ 0) ⊎ (place ≡ kept)) }
{
    place == 0 || place == kept
}

/// Returns the system time of the slot of a frame after a mark, in units of 80 ms.
fn slot_time(mark: &Mark, number: u64) -> u64
    requires { IsSoundMark mark.now }
    ensures { result ≡ mark.now.time + number / 4 }
{
    mark.time + number / u64::from(SLOT_FRAMES)
}

/// A message of a paging channel, with its capsule.
#[derive(Clone, Copy)]
struct Page {
    capsule: Bits,
    message: PagingMessage,
}

/// Passes the next bit of a slot to the framer, and returns the message that the bit completes;
/// `None` if it completes none, or one with a fault.
fn page_after(framer: &mut HalfFramer, bit: bool, check: CheckForm) -> Option<Page>
    ensures size { framer.new.size ≡ framer.old.size }
    ensures stands { (bits : List Bool) → HalfFramesStandFor framer.old bits →
        HalfFramesStandFor framer.new (bits ++ bit ∷ []) }
    ensures page { (bits : List Bool) → HalfFramesStandFor framer.old bits →
        page_list result ≡ pages_ending check framer.old.size (bits ++ bit ∷ []) }
{
    let capsule = framer.push(bit)?;
    match PagingMessage::decode(&capsule, check) {
        Ok(message) => Some(Page { capsule, message }),
        Err(_) => None,
    }
}

/// Returns the number of messages in the bits of a slot.
fn count_pages(bits: &HalfBits, rate: Rate, check: CheckForm) -> u16
    requires rate { IsPagingRate rate }
    ensures { result ≡ length (slot_pages check rate bits.now) }
{
    let mut framer = HalfFramer::new(rate);
    let mut count = 0;
    for i in 0..bits.len() {
        let page = page_after(&mut framer, bits.get(i), check);
        count += u16::from(page.is_some());
    }
    count
}

/// Writes the line of a message of a slot, if there is one.
///
/// `at` is the number of samples taken when the slot ends.
#[tactic(auto, unfolding(event_tap::specs::EventLines::event_line))]
fn write_page<K: Sink>(at: u64, page: &Option<Page>, sink: &mut K) -> Result<(), Failed>
    ensures ok { OnOk result (Appends (K.written sink.old) (K.written sink.new)
        (flat_map (paging_line at) (page_list page.now))) }
    ensures err { OnErr result (AppendsPrefix (K.written sink.old) (K.written sink.new)
        (flat_map (paging_line at) (page_list page.now))) }
    ensures cause { HasCause (K.faults sink.old) (K.faults sink.new) result }
{
    let Some(page) = page else {
        return Ok(());
    };
    let event = Event::Paging {
        at,
        capsule: page.capsule,
        message: page.message,
    };
    write_event(&event, sink)
}

/// Writes the lines of the messages in the bits of a slot.
///
/// `at` is the number of samples taken when the slot ends.
fn write_pages<K: Sink>(
    at: u64,
    bits: &HalfBits,
    rate: Rate,
    check: CheckForm,
    sink: &mut K,
) -> Result<(), Failed>
    requires rate { IsPagingRate rate }
    ensures ok { OnOk result (Appends (K.written sink.old) (K.written sink.new)
        (flat_map (paging_line at) (slot_pages check rate bits.now))) }
    ensures err { OnErr result (AppendsPrefix (K.written sink.old) (K.written sink.new)
        (flat_map (paging_line at) (slot_pages check rate bits.now))) }
    ensures cause { HasCause (K.faults sink.old) (K.faults sink.new) result }
{
    let mut framer = HalfFramer::new(rate);
    for i in 0..bits.len() {
        let page = page_after(&mut framer, bits.get(i), check);
        write_page(at, &page, sink)?;
    }
    Ok(())
}

/// Writes the lines of a slot, given its bits.
///
/// `at` is the number of samples taken when it ends, `time` its system time in units of 80 ms.
fn write_lines<K: Sink>(
    at: u64,
    time: u64,
    bits: &HalfBits,
    rate: Rate,
    check: CheckForm,
    sink: &mut K,
) -> Result<(), Failed>
    requires rate { IsPagingRate rate }
    ensures ok { OnOk result (Appends (K.written sink.old) (K.written sink.new)
        (slot_lines at time (slot_pages check rate bits.now))) }
    ensures err { OnErr result (AppendsPrefix (K.written sink.old) (K.written sink.new)
        (slot_lines at time (slot_pages check rate bits.now))) }
    ensures cause { HasCause (K.faults sink.old) (K.faults sink.new) result }
{
    write_slot(at, time, count_pages(bits, rate, check), sink)?;
    write_pages(at, bits, rate, check, sink)
}

impl SlotWriter {
    /// Opens the writer of the slots that a handset monitors, by its key and the index of its
    /// cycle, 0 to 7. Only the allocation of a decoder can fail.
    pub(crate) fn open(
        alloc: Global,
        key: u32,
        cycle: u8,
        check: CheckForm,
    ) -> Result<SlotWriter, OutOfMemory>
        requires { cycle ≤ 7 }
        ensures ready { IfOk result IsReadyForSlots }
        ensures key { IfOk result (λ w. w.key ≡ key) }
        ensures cycle { IfOk result (λ w. w.cycle ≡ cycle) }
        ensures check { IfOk result (λ w. w.check ≡ check) }
        ensures holds { IfOk result (λ w. HoldsSlot w []) }
    {
        Ok(SlotWriter {
            decoder: Decoder::new(alloc, SPAN_BITS)?,
            key,
            cycle,
            check,
            softs: [0; 4 * DATA_SYMBOLS],
            kept: 0,
        })
    }

    /// Keeps the next frame, if it continues its slot.
    fn keep(&mut self, frame: &SoftFrame)
        requires ready { IsReadyForSlots self.old }
        requires small { sum_by unsigned_abs frame.now.descrambled ≤ frame_most }
        ensures ready { IsReadyForSlots self.new }
        ensures key { self.new.key ≡ self.old.key }
        ensures cycle { self.new.cycle ≡ self.old.cycle }
        ensures check { self.new.check ≡ self.old.check }
        ensures holds { (slot : List TheFrame) → HoldsSlot self.old slot →
            HoldsSlot self.new (slot_more slot frame.now) }
    {
        let place = place_in_slot(frame.number);
        if !goes_on(place, self.kept) {
            self.kept = 0;
            return;
        }
        let from = DATA_SYMBOLS * usize::from(place);
        self.softs[from..from + DATA_SYMBOLS].copy_from_slice(&frame.descrambled);
        self.kept = place + 1;
    }

    /// Writes the lines of the slot whose four frames are kept, if it is monitored and the mark's
    /// data rate is not reserved. `frame` is its last frame.
    fn write_slot<K: Sink>(
        &mut self,
        mark: &Mark,
        frame: &SoftFrame,
        sink: &mut K,
    ) -> Result<(), Failed>
        requires ready { IsReadyForSlots self.old }
        requires whole { self.old.kept ≡ 4 }
        requires mark { IsSoundMark mark.now }
        ensures same { self.new ≡ self.old }
        ensures ok { OnOk result ((slot : List TheFrame) → HoldsSlot self.old slot →
            Appends (K.written sink.old) (K.written sink.new)
            (slot_text self.old.key self.old.cycle self.old.check mark.now slot frame.now)) }
        ensures err { OnErr result ((slot : List TheFrame) → HoldsSlot self.old slot →
            AppendsPrefix (K.written sink.old) (K.written sink.new)
            (slot_text self.old.key self.old.cycle self.old.check mark.now slot frame.now)) }
        ensures cause { HasCause (K.faults sink.old) (K.faults sink.new) result }
    {
        let time = slot_time(mark, frame.number);
        let SlotWriter {
            decoder,
            key,
            cycle,
            check,
            softs,
            ..
        } = self;
        let (Some(wake), Some(rate)) = (Wake::new(time, *key, *cycle), mark.paging_rate()) else {
            return Ok(());
        };
        let bits = slot_bits(&wake, decoder, rate, softs);
        write_lines(frame.end, time, &bits, rate, *check, sink)
    }

    /// Takes the next frame after `mark`, and writes the lines of the slot that it ends, if that is
    /// monitored.
    ///
    /// Returns [`Failed`] only if the sink's count of faults rose. The sink then took a beginning
    /// of the lines.
    pub(crate) fn write<K: Sink>(
        &mut self,
        mark: &Mark,
        frame: &SoftFrame,
        sink: &mut K,
    ) -> Result<(), Failed>
        requires ready { IsReadyForSlots self.old }
        requires mark { IsSoundMark mark.now }
        requires small { sum_by unsigned_abs frame.now.descrambled ≤ frame_most }
        ensures ready { IsReadyForSlots self.new }
        ensures key { self.new.key ≡ self.old.key }
        ensures cycle { self.new.cycle ≡ self.old.cycle }
        ensures check { self.new.check ≡ self.old.check }
        ensures holds { (slot : List TheFrame) → HoldsSlot self.old slot →
            HoldsSlot self.new (slot_more slot frame.now) }
        ensures ok { OnOk result ((slot : List TheFrame) → HoldsSlot self.old slot →
            Appends (K.written sink.old) (K.written sink.new)
            (slot_text self.old.key self.old.cycle self.old.check mark.now
            (slot_more slot frame.now) frame.now)) }
        ensures err { OnErr result ((slot : List TheFrame) → HoldsSlot self.old slot →
            AppendsPrefix (K.written sink.old) (K.written sink.new)
            (slot_text self.old.key self.old.cycle self.old.check mark.now
            (slot_more slot frame.now) frame.now)) }
        ensures cause { HasCause (K.faults sink.old) (K.faults sink.new) result }
    {
        self.keep(frame);
        if self.kept < SLOT_FRAMES {
            return Ok(());
        }
        self.write_slot(mark, frame, sink)
    }
}
