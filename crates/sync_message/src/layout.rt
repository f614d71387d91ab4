//! The layout of the fields after the message type, and messages as contents of that layout.

ghost use Rattle.sync_message.specs.Common.{in_widths, FieldsFit, IsOf};
ghost use Rattle.std.specs.Prelude.{◌≡◌, ◌<◌, ◌≤◌, ◌^◌, drop, length, IfSome};
ghost use Rattle.message_layout.specs.Reading.{reading};
ghost use Rattle.sync_message.specs.Layouts.{sync_body_reading, freq_from, freq_group, sync_from};
ghost use Rattle.sync_message.specs.Layouts.{sync_contents, sync_message_shape};
ghost use Rattle.sync_message.specs.Rows.{sync_values, sync_widths};

use crate::fields::SyncFields;
use crate::table::{FREQ_FIELD, SYNC_FIELDS, sync_fields};
use chip_core::{Bits, Numbers};
use message_layout::{
    ALL_BITS, BitSlice, Contents, FieldValues, Group, MessageLayout, Presence, fields_of_values,
    read_from, read_kind, values_of_fields,
};

/// The fields that each message has, and the frequency unless 3 bits are left, as at 25 octets.
pub(crate) const SYNC_CHANNEL: MessageLayout = MessageLayout {
    fixed: &SYNC_FIELDS,
    group: Group {
        presence: Presence::UnlessLeft(3),
        fields: &[FREQ_FIELD],
    },
    ..ALL_BITS
};

/// Reads the fields after the type of a body; the type must be 1.
#[tactic(auto, unfolding(crate::specs::Layouts::sync_body_reading))]
pub(crate) fn read_body(body: &BitSlice<'_>) -> Option<SyncFields>
    ensures { result ≡ sync_body_reading body.now }
{
    let (kind, from) = read_kind(body)?;
    if kind != 1 {
        return None;
    }
    let contents = read_contents(body, from)?;
    Some(fields_from(&contents))
}

/// Reads the bits from place `from` on by the layout.
fn read_contents(body: &BitSlice<'_>, from: u16) -> Option<Contents>
    requires { from ≤ length body.now }
    ensures found { IfSome result (λ c. IsOf sync_message_shape c) }
    ensures reading { result ≡ reading sync_message_shape (drop from body.now) }
{
    read_from(&SYNC_CHANNEL, body, from)
}

/// Returns the fields as contents of the layout.
pub(crate) fn contents_of(fields: &SyncFields) -> Contents
    ensures { result ≡ sync_contents fields.now }
{
    Contents {
        fixed: FieldValues::of(&values_of(fields)),
        group: group_of(fields.freq),
        octets: Bits::empty(),
        columns: [Numbers::empty(), Numbers::empty(), Numbers::empty()],
        rest: fields.rest,
    }
}

/// Returns the values of the fields that each message has, in the table's order.
pub(crate) fn values_of(fields: &SyncFields) -> [u64; 11]
    ensures { result ≡ sync_values fields.now }
{
    sync_fields!(values_of_fields, fields)
}

/// Returns the frequency as the optional group of the layout.
fn group_of(freq: Option<u16>) -> Option<FieldValues>
    ensures { result ≡ freq_group freq }
{
    match freq {
        None => None,
        Some(freq) => Some(FieldValues::of(&[u64::from(freq)])),
    }
}

/// Returns the fields that were read.
#[tactic(auto, unfolding(crate::specs::Layouts::sync_of))]
fn fields_from(contents: &Contents) -> SyncFields
    requires fixed { FieldsFit (in_widths sync_widths (sync_values (sync_from contents.now))) }
    requires freq { IfSome (freq_from contents.now.group) (λ n. n < 2 ^ 11) }
    ensures { result ≡ sync_from contents.now }
{
    let freq = freq_in(&contents.group);
    let rest = contents.rest;
    sync_fields!(fields_of_values, SyncFields, contents.fixed, freq, rest)
}

/// Returns the frequency that was read, if there is one.
fn freq_in(group: &Option<FieldValues>) -> Option<u16>
    requires { IfSome (freq_from group.now) (λ n. n < 2 ^ 11) }
    ensures { result ≡ freq_from group.now }
{
    match group {
        None => None,
        Some(values) => Some(values.get(0) as u16),
    }
}
