//! The layouts of the type with the head, and of the content after them.

ghost use Rattle.traffic_message.specs.Common.{line_names, shape};
ghost use Rattle.std.specs.Prelude.{◌≡◌, ◌≤◌, drop, length};
ghost use Rattle.traffic_message.specs.Layouts.{form_at, traffic_names_of, traffic_shape_of};

use crate::handoff::is_hard_handoff;
use crate::table::{HEAD_FIELDS, IN_TRAFFIC_FIELDS, SEARCH_FIELDS, TIME_FIELDS, UPDATE_FIELDS};
use message_layout::{
    ALL_BITS, BitSlice, Group, MessageLayout, NO_GROUP, NO_OCTETS, NO_RECORDS, Octets, Presence,
    Records,
};

/// The form of the content after a head.
#[derive(Clone, Copy)]
pub(crate) enum BodyForm {
    /// As an In-Traffic System Parameters Message.
    Parameters,
    /// As a Neighbor List Update Message.
    Update,
    /// As an Extended Handoff Direction Message without a hard handoff.
    Direction,
    /// As bits that are passed on unchanged.
    Plain,
}

/// Returns the form of the content after a head, by the type if it is not encrypted.
pub(crate) fn form_of(kind: u8, encryption: u8, bits: &BitSlice<'_>, from: u16) -> BodyForm
    requires { from ≤ length bits.now }
    ensures { result ≡ form_at kind encryption (drop from bits.now) }
{
    if encryption == 0 && kind == 7 {
        return BodyForm::Parameters;
    }
    if encryption == 0 && kind == 8 {
        return BodyForm::Update;
    }
    if encryption == 0 && kind == 17 && !is_hard_handoff(bits, from) {
        return BodyForm::Direction;
    }
    BodyForm::Plain
}

/// The layout of a form.
pub(crate) fn layout_of(form: BodyForm) -> MessageLayout
    ensures shape { shape result ≡ traffic_shape_of form }
    ensures names { line_names result ≡ traffic_names_of form }
{
    match form {
        BodyForm::Parameters => IN_TRAFFIC,
        BodyForm::Update => NEIGHBOR_UPDATE,
        BodyForm::Direction => HANDOFF_DIRECTION,
        BodyForm::Plain => ALL_BITS,
    }
}

/// The message type, the head, and all bits after them.
pub(crate) const HEAD: MessageLayout = MessageLayout {
    name: "",
    fixed: &[
        ("type", 8),
        ("ack", HEAD_FIELDS[0].1),
        ("seq", HEAD_FIELDS[1].1),
        ("req", HEAD_FIELDS[2].1),
        ("enc", HEAD_FIELDS[3].1),
    ],
    group: NO_GROUP,
    octets: NO_OCTETS,
    records: NO_RECORDS,
    most: None,
};

/// The In-Traffic System Parameters Message: its fields, and all bits after them.
const IN_TRAFFIC: MessageLayout = MessageLayout {
    name: "system",
    fixed: &IN_TRAFFIC_FIELDS,
    group: NO_GROUP,
    octets: NO_OCTETS,
    records: NO_RECORDS,
    most: None,
};

/// The Neighbor List Update Message: PILOT_INC, and NGHBR_PN of each neighbor.
const NEIGHBOR_UPDATE: MessageLayout = MessageLayout {
    name: "neighbors",
    fixed: &UPDATE_FIELDS,
    group: NO_GROUP,
    octets: NO_OCTETS,
    records: Records {
        name: "pilots",
        fields: &[("pn", 9)],
        least: 1,
    },
    most: Some(7),
};

/// The Extended Handoff Direction Message: its first fields; SEARCH_INCLUDED and the search
/// parameters; HARD_INCLUDED, which is 0, ADD_LENGTH and the additional fields; and PILOT_PN,
/// PWR_COMB_IND and CODE_CHAN of each record.
const HANDOFF_DIRECTION: MessageLayout = MessageLayout {
    name: "handoff",
    fixed: &TIME_FIELDS,
    group: Group {
        presence: Presence::Flagged,
        fields: &SEARCH_FIELDS,
    },
    octets: Octets { zeros: 1, width: 3 },
    records: Records {
        name: "records",
        fields: &[("pn", 9), ("comb", 1), ("row", 8)],
        least: 1,
    },
    most: Some(7),
};
