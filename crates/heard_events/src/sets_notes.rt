//! Updates the pilot sets by received messages.

ghost use Rattle.heard_events.specs.Common.{with_neighbors};
ghost use Rattle.std.specs.Prelude.{◌≡◌, ◌<◌, ◌^◌};
ghost use Rattle.heard_events.specs.Noted.{body_noted, noted_with, page_noted, system_thresholds};
ghost use Rattle.heard_events.specs.Noted.{in_traffic_thresholds};
ghost use Rattle.paging_message.specs.Neighbors.{IsNeighborList};

use crate::event::Event;
use paging_message::{NeighborFields, PagingMessage, SystemFields};
use pilot_sets::{Sets, Thresholds};
use traffic_message::{InTrafficFields, TrafficBody};

/// Returns the thresholds of a System Parameters Message (TIA/EIA-95-B, 7.7.2.3.2.1).
fn system_thresholds(fields: &SystemFields) -> Thresholds
    ensures { result ≡ system_thresholds fields.now }
{
    Thresholds {
        win_a: fields.wina,
        win_n: fields.winn,
        t_add: fields.tadd,
        t_drop: fields.tdrop,
        t_comp: fields.tcomp,
        t_tdrop: fields.ttdrop,
    }
}

/// Returns the thresholds of an In-Traffic System Parameters Message (TIA/EIA-95-B, 7.7.3.3.2.7).
fn in_traffic_thresholds(fields: &InTrafficFields) -> Thresholds
    ensures { result ≡ in_traffic_thresholds fields.now }
{
    Thresholds {
        win_a: fields.wina,
        win_n: fields.winn,
        t_add: fields.tadd,
        t_drop: fields.tdrop,
        t_comp: fields.tcomp,
        t_tdrop: fields.ttdrop,
    }
}

/// Replaces the neighbors by a list's pilots (TIA/EIA-95-B, 7.7.2.3.2.3).
fn note_neighbors(sets: &mut Sets, fields: &NeighborFields)
    requires { IsNeighborList fields.now }
    ensures { sets.new ≡ with_neighbors fields.now.pns sets.old }
{
    sets.neighbors(&fields.pns);
}

/// Updates the sets by a paging message, if it comes from the reference's pilot.
fn note_page(sets: &mut Sets, pn: u16, message: &PagingMessage)
    ensures { sets.new ≡ page_noted pn message.now sets.old }
{
    match message {
        PagingMessage::System(system) => {
            let fields = system.fields();
            if fields.pn == pn {
                sets.parameters(&system_thresholds(&fields));
            }
        }
        PagingMessage::Neighbors(list) => {
            let fields = list.fields();
            if fields.pn == pn {
                note_neighbors(sets, &fields);
            }
        }
        _ => {}
    }
}

/// Updates the sets by a traffic message; `first` is the time of the first moment at or after its
/// end. A refused direction changes nothing.
fn note_body(sets: &mut Sets, first: u64, body: &TrafficBody)
    requires { first < 2 ^ 40 }
    ensures { sets.new ≡ body_noted first body.now sets.old }
{
    match body {
        TrafficBody::System(system) => {
            sets.parameters(&in_traffic_thresholds(&system.fields()));
        }
        TrafficBody::Neighbors(update) => {
            sets.neighbors(&update.fields().pns);
        }
        TrafficBody::Handoff(direction) => {
            let _accepted = sets.direct(direction, first);
        }
        _ => {}
    }
}

/// Updates the sets by an event, given the offset of the reference's pilot and the time of the
/// first moment at or after the event's end.
pub(crate) fn note_event(sets: &mut Sets, pn: u16, first: u64, event: &Event)
    requires { first < 2 ^ 40 }
    ensures { sets.new ≡ noted_with pn first event.now sets.old }
{
    match event {
        Event::Paging { message, .. } => note_page(sets, pn, message),
        Event::Traffic { message, .. } => note_body(sets, first, &message.body()),
        _ => {}
    }
}
