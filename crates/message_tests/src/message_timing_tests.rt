//! The work that `tools/bench` times: a message of each kind, read and written many times.

use chip_core::{Bits, CheckForm};
use paging_message::PagingMessage;
use std::process::Abort;
use std::test::Fail;
use sync_message::{SyncFields, SyncMessage};
use traffic_message::TrafficMessage;

/// The number of times that each test reads or writes its message.
const TURNS: u32 = 10_000;

/// Counts the turns in which the expression is true; in it, `$turn` is the number of the turn.
macro_rules! turns_with {
    ($turn:ident, $is_done:expr) => {{
        let mut done: u32 = 0;
        for $turn in 0..TURNS {
            let is_done = $is_done;
            done = done.saturating_add(u32::from(is_done));
        }
        done
    }};
}

/// Whether a capsule is read as this message.
macro_rules! is_read_as {
    ($type:ident, $message:expr, $capsule:expr) => {
        match $type::decode(&$capsule, CheckForm::Plain) {
            Ok(read) => read == $message,
            Err(_) => false,
        }
    };
}

/// Counts the turns in which a message is read. Two capsules are read alternately, and the results
/// are compared, so that the compiler moves no reading out of the loop and removes none.
macro_rules! turns_reading {
    ($type:ident, $made:expr) => {{
        let message = $made;
        let first = message.encode(CheckForm::Plain);
        let second = message.encode(CheckForm::Plain);
        turns_with!(
            turn,
            if turn % 2 == 0 {
                is_read_as!($type, message, first)
            } else {
                is_read_as!($type, message, second)
            }
        )
    }};
}

/// A body of `count` bits: a message type, and zeros after it.
fn body_of(kind: u8, count: u16) -> Bits {
    let mut body = Bits::empty();
    for i in 0..count {
        let _ = body.push(i < 8 && kind << i & 128 == 128);
    }
    body
}

/// A sync message of 26 octets.
fn sync_message(rt: &impl Abort) -> SyncMessage {
    SyncMessage::new(SyncFields {
        prev: 3,
        min: 1,
        sid: 1,
        nid: 2,
        pn: 3,
        lc: 1 << 41,
        time: 5,
        lp: 13,
        ltm: 0,
        daylt: 0,
        prat: 0,
        freq: Some(283),
        rest: Bits::empty(),
    })
    .expect(rt, "fields that fit")
}

/// A paging message of 40 octets.
fn paging_message(rt: &impl Abort, kind: u8) -> PagingMessage {
    PagingMessage::from_body(&body_of(kind, 282)).expect(rt, "a body")
}

/// A message of a traffic channel, of 39 octets.
fn traffic_message(rt: &impl Abort, kind: u8) -> TrafficMessage {
    TrafficMessage::from_body(&body_of(kind, 288)).expect(rt, "a body")
}

/// Reads a paging message.
fn read_paging(rt: &impl Abort, kind: u8) {
    let read = turns_reading!(PagingMessage, paging_message(rt, kind));
    assert_eq!(rt; read, TURNS);
}

/// Writes a paging message.
fn write_paging(rt: &impl Abort, kind: u8) {
    let message = paging_message(rt, kind);
    let written = turns_with!(_turn, message.encode(CheckForm::Plain).len() == 320);
    assert_eq!(rt; written, TURNS);
}

/// Reads a message of a traffic channel.
fn read_traffic(rt: &impl Abort, kind: u8) {
    let read = turns_reading!(TrafficMessage, traffic_message(rt, kind));
    assert_eq!(rt; read, TURNS);
}

/// Writes a message of a traffic channel.
fn write_traffic(rt: &impl Abort, kind: u8) {
    let message = traffic_message(rt, kind);
    let written = turns_with!(_turn, message.encode(CheckForm::Plain).len() == 312);
    assert_eq!(rt; written, TURNS);
}

// `tools/bench` subtracts the time of this test from those of the others.
#[test]
fn a_message_is_written(rt: HostRuntime) {
    assert_eq!(rt; sync_message(&rt).encode(CheckForm::Plain).len(), 208);
}

#[test]
fn sync_is_read(rt: HostRuntime) {
    let read = turns_reading!(SyncMessage, sync_message(&rt));
    assert_eq!(rt; read, TURNS);
}

#[test]
fn sync_is_written(rt: HostRuntime) {
    let message = sync_message(&rt);
    let written = turns_with!(_turn, message.encode(CheckForm::Plain).len() == 208);
    assert_eq!(rt; written, TURNS);
}

#[test]
fn system_parameters_are_read(rt: HostRuntime) {
    read_paging(&rt, 1);
}

#[test]
fn system_parameters_are_written(rt: HostRuntime) {
    write_paging(&rt, 1);
}

#[test]
fn neighbor_list_is_read(rt: HostRuntime) {
    read_paging(&rt, 3);
}

#[test]
fn neighbor_list_is_written(rt: HostRuntime) {
    write_paging(&rt, 3);
}

#[test]
fn channel_list_is_read(rt: HostRuntime) {
    read_paging(&rt, 4);
}

#[test]
fn channel_list_is_written(rt: HostRuntime) {
    write_paging(&rt, 4);
}

#[test]
fn other_paging_is_read(rt: HostRuntime) {
    read_paging(&rt, 2);
}

#[test]
fn other_paging_is_written(rt: HostRuntime) {
    write_paging(&rt, 2);
}

#[test]
fn in_traffic_is_read(rt: HostRuntime) {
    read_traffic(&rt, 7);
}

#[test]
fn in_traffic_is_written(rt: HostRuntime) {
    write_traffic(&rt, 7);
}

#[test]
fn neighbor_update_is_read(rt: HostRuntime) {
    read_traffic(&rt, 8);
}

#[test]
fn neighbor_update_is_written(rt: HostRuntime) {
    write_traffic(&rt, 8);
}

#[test]
fn handoff_direction_is_read(rt: HostRuntime) {
    read_traffic(&rt, 17);
}

#[test]
fn handoff_direction_is_written(rt: HostRuntime) {
    write_traffic(&rt, 17);
}

#[test]
fn other_traffic_is_read(rt: HostRuntime) {
    read_traffic(&rt, 1);
}

#[test]
fn other_traffic_is_written(rt: HostRuntime) {
    write_traffic(&rt, 1);
}
