//! Makes events of the pilot, of capsules and of traffic frames.

ghost use Rattle.heard_events.specs.Common.{Event as TheEvent, CapsuleStandsFor};
ghost use Rattle.std.specs.Prelude.{◌≡◌, ◌≤◌, [], ◌∷◌, ◌++◌, Some, false, Bool, List, length, map};
ghost use Rattle.std.specs.Prelude.{IfSome};
ghost use Rattle.std.specs.List.{list_any};
ghost use Rattle.std.specs.Option.{option_to_list};
ghost use Rattle.heard_events.specs.Given.{at_of, event_list};
ghost use Rattle.heard_events.specs.Marks.{sets_mark};
ghost use Rattle.heard_events.specs.PagingEvents.{page_event, page_in};
ghost use Rattle.heard_events.specs.Signaling.{capsule_with, message_events, signal_in, signal_of};
ghost use Rattle.heard_events.specs.SyncEvents.{events_of, heard_in};
ghost use Rattle.heard_events.specs.TrafficEvents.{frame_event};
ghost use Rattle.quality_bits.specs.TrafficCodewords.{information_of};

use crate::event::Event;
use crate::spelled::Spelled;
use chip_core::{Bits, CheckForm, PowerBits};
use frame_decoder::Decoded;
use paging_message::PagingMessage;
use pilot_search::Best;
use sync_message::SyncMessage;
use traffic_message::{SignalFramer, TrafficMessage, split_frame};

/// Returns a capsule of the sync channel with the message that it spells; `None` if there is no
/// capsule, or it has a fault.
pub fn message_in(check: CheckForm, capsule: Option<Bits>) -> Option<Spelled<SyncMessage>>
    ensures { result ≡ heard_in check capsule }
{
    let capsule = capsule?;
    match SyncMessage::decode(&capsule, check) {
        Ok(message) => Some(Spelled { capsule, message }),
        Err(_) => None,
    }
}

/// Returns a capsule of a paging channel with the message that it spells; `None` if there is no
/// capsule, or it has a fault.
pub fn page_in(check: CheckForm, capsule: Option<Bits>) -> Option<Spelled<PagingMessage>>
    ensures { result ≡ page_in check capsule }
{
    let capsule = capsule?;
    match PagingMessage::decode(&capsule, check) {
        Ok(message) => Some(Spelled { capsule, message }),
        Err(_) => None,
    }
}

/// Returns a capsule of a traffic channel with the message that it spells; `None` if there is no
/// capsule, or it has a fault.
fn signal_in(check: CheckForm, capsule: Option<Bits>) -> Option<Spelled<TrafficMessage>>
    ensures { result ≡ signal_in check capsule }
{
    let capsule = capsule?;
    match TrafficMessage::decode(&capsule, check) {
        Ok(message) => Some(Spelled { capsule, message }),
        Err(_) => None,
    }
}

/// Returns a frame's signaling, if the frame is good and has any.
fn signal_of(frame: &Decoded) -> Option<Bits>
    requires { length frame.now.bits ≡ information_of frame.now.rate }
    ensures value { result ≡ signal_of frame.now }
    ensures long { IfSome result (λ signal. 2 ≤ length signal) }
{
    if !frame.good {
        return None;
    }
    split_frame(frame.rate, &frame.bits).signal
}

/// Passes a frame's signaling to the framer, if the frame is good and has any, and returns the
/// message that this completes, if any.
// Not inlined: its stack frame holds several messages.
#[inline(never)]
pub fn hear_signal(
    framer: &mut SignalFramer,
    frame: &Decoded,
    check: CheckForm,
) -> Option<Spelled<TrafficMessage>>
    requires { length frame.now.bits ≡ information_of frame.now.rate }
    ensures framed { (signals : List (List Bool)) → CapsuleStandsFor framer.old signals →
        CapsuleStandsFor framer.new (signals ++ option_to_list (signal_of frame.now)) }
    ensures message { (signals : List (List Bool)) → CapsuleStandsFor framer.old signals →
        result ≡ signal_in check (capsule_with signals (signal_of frame.now)) }
{
    let signal = signal_of(frame)?;
    let capsule = framer.push(&signal);
    signal_in(check, capsule)
}

/// Returns the event of the pilot that the search found.
pub fn pilot_event(best: &Best) -> Event
    ensures { result ≡ TheEvent.Pilot best.now.phase best.now.energy }
{
    Event::Pilot {
        phase: best.phase,
        energy: best.energy,
    }
}

/// Returns the event of a sync message that is complete after `at` samples.
pub fn event_of(told: &Spelled<SyncMessage>, at: u64) -> Event
    ensures value { result ∷ [] ≡ events_of at (Some told.now) }
    ensures ends { at_of result ≡ at }
{
    Event::Sync {
        at,
        capsule: told.capsule,
        message: told.message,
    }
}

/// Returns the event of a paging message that is complete after `at` samples, if there is one.
pub fn event_of_page(page: Option<Spelled<PagingMessage>>, at: u64) -> Option<Event>
    ensures value { event_list result ≡ map (page_event at) (option_to_list page) }
    ensures ends { IfSome result (λ event. at_of event ≡ at) }
    ensures unset { list_any sets_mark (event_list result) ≡ false }
{
    let page = page?;
    Some(Event::Paging {
        at,
        capsule: page.capsule,
        message: page.message,
    })
}

/// Returns the event of a traffic frame that ends after `at` samples, with its power control bits.
pub fn frame_event(frame: &Decoded, power_bits: PowerBits, at: u64) -> Event
    ensures value { result ≡ frame_event at frame.now power_bits }
    ensures ends { at_of result ≡ at }
    ensures unset { sets_mark result ≡ false }
{
    Event::Frame {
        at,
        rate: frame.rate,
        good: frame.good,
        bits: frame.bits,
        commands: power_bits,
    }
}

/// Returns the event of a traffic message that is complete after `at` samples.
pub fn message_event(heard: &Spelled<TrafficMessage>, at: u64) -> Event
    ensures value { result ∷ [] ≡ message_events at (Some heard.now) }
    ensures ends { at_of result ≡ at }
    ensures unset { sets_mark result ≡ false }
{
    Event::Traffic {
        at,
        capsule: heard.capsule,
        message: heard.message,
    }
}
