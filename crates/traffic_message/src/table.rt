//! The fields of the messages by name and width.

ghost use Rattle.std.specs.Prelude.{◌≡◌, ◌<◌, [], get_or};
ghost use Rattle.traffic_message.specs.Widths.{head_names, in_traffic_names, search_names};
ghost use Rattle.traffic_message.specs.Widths.{time_names};

use message_layout::{field_rows, name_in};

/// The names of the fields after the type of each message, in the order of transmission, each with
/// its number of bits: ACK_SEQ, MSG_SEQ, ACK_REQ and ENCRYPTION.
///
/// TIA/EIA-95-B, 7.7.3.2.1. All code that spells, reads or prints a message uses these tables.
pub const HEAD_FIELDS: [(&str, u8); 4] = [("ack", 3), ("seq", 3), ("req", 1), ("enc", 2)];

/// Passes to a macro the fields of the In-Traffic System Parameters Message after the head, in the
/// order of transmission: the place, the name and the number of bits of each.
macro_rules! in_traffic_fields {
    ($made:ident $(, $($with:tt)+)?) => {
        $made! {
            [$($($with)+)?]
            0 sid 15, 1 nid 16, 2 wina 4, 3 winn 4, 4 winr 4, 5 tadd 6,
            6 tdrop 6, 7 tcomp 4, 8 ttdrop 4, 9 age 4
        }
    };
}

pub(crate) use in_traffic_fields;

/// The names of the fields of the In-Traffic System Parameters Message after the head, each with
/// its number of bits.
///
/// TIA/EIA-95-B, 7.7.3.3.2.7.
pub const IN_TRAFFIC_FIELDS: [(&str, u8); 10] = in_traffic_fields!(field_rows);

/// The name of the field of the Neighbor List Update Message before its neighbors, PILOT_INC, with
/// its number of bits.
///
/// TIA/EIA-95-B, 7.7.3.3.2.8.
pub const UPDATE_FIELDS: [(&str, u8); 1] = [("inc", 4)];

/// The names of the first fields of the Extended Handoff Direction Message after the head, each
/// with its number of bits: USE_TIME, ACTION_TIME and HDM_SEQ.
///
/// TIA/EIA-95-B, 7.7.3.3.2.17.
pub const TIME_FIELDS: [(&str, u8); 3] = [("use", 1), ("action", 6), ("hdm", 2)];

/// The names of the search parameters that such a message may have, each with its number of bits.
pub const SEARCH_FIELDS: [(&str, u8); 5] = [
    ("wina", 4),
    ("tadd", 6),
    ("tdrop", 6),
    ("tcomp", 4),
    ("ttdrop", 4),
];

/// The name of field `i` of the head, counted from 0.
pub fn head_name(i: usize) -> &'static str
    requires { i < 4 }
    ensures { result.now ≡ get_or head_names i [] }
{
    name_in(&HEAD_FIELDS, i)
}

/// The name of field `i` of the In-Traffic System Parameters Message, counted from 0.
pub fn in_traffic_name(i: usize) -> &'static str
    requires { i < 10 }
    ensures { result.now ≡ get_or in_traffic_names i [] }
{
    name_in(&IN_TRAFFIC_FIELDS, i)
}

/// The name of field `i` of `TIME_FIELDS`, counted from 0.
pub fn time_name(i: usize) -> &'static str
    requires { i < 3 }
    ensures { result.now ≡ get_or time_names i [] }
{
    name_in(&TIME_FIELDS, i)
}

/// The name of search parameter `i`, counted from 0.
pub fn search_name(i: usize) -> &'static str
    requires { i < 5 }
    ensures { result.now ≡ get_or search_names i [] }
{
    name_in(&SEARCH_FIELDS, i)
}
