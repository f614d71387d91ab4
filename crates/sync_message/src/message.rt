//! Converts the message to and from its capsule.

ghost use Rattle.sync_message.specs.Common.{FillsCapsule, M30, SyncFields as TheFields};
ghost use Rattle.std.specs.Prelude.{◌≡◌, ◌↔◌, IsTrue, SomeIff};
ghost use Rattle.quality_bits.specs.Faults.{Decodes};
ghost use Rattle.sync_message.specs.Reading.{sync_reading};
ghost use Rattle.sync_message.specs.Rows.{sync_values};
ghost use Rattle.sync_message.specs.SyncMessage.{IsSyncMessage, sync_body, sync_capsule};
ghost use Rattle.sync_message.specs.Tails.{IsTail};

use crate::fields::SyncFields;
use crate::layout::{SYNC_CHANNEL, contents_of, read_body, values_of};
use crate::table::{FREQ_FIELD, SYNC_FIELDS};
use chip_core::{Bits, CheckForm};
use message_layout::{BitSlice, FieldValues, append};
use quality_bits::{Kind, MessageFault, body_count, capsule_of};
use std::marker::Model;

/// A Sync Channel Message: fields that have a spelling. Contracts see the fields.
///
/// Only [`SyncMessage::new`] and [`SyncMessage::decode`] make one, so every value has a capsule.
/// [`SyncMessage::fields`] returns its content as a [`SyncFields`], which has the same fields
/// without that guarantee.
#[derive(Clone, Copy, PartialEq, Eq, Debug)]
pub struct SyncMessage {
    fields: SyncFields,
}

impl Model for SyncMessage {
    ghost use Rattle.sync_message.specs.SyncMessage.{IsSyncMessage};
    ghost use Rattle.sync_message.specs.declared.fields.SyncFields.{SyncFields as TheFields};

    ghost Value = { TheFields };

    ghost view = { λ m. m.fields };

    ghost invariant = { λ m. IsSyncMessage m.fields };

    ghost inverse = { λ f. record { fields = f } };
}

impl SyncMessage {
    /// Makes the message with these fields. Returns `None` exactly if a value does not fit its
    /// width, or the length of the rest is not allowed: 3 bits without a frequency, 0 to 976 in
    /// steps of 8 with one.
    pub fn new(fields: SyncFields) -> Option<SyncMessage>
        ensures { SomeIff result (IsSyncMessage fields) fields }
    {
        if has_spelling(&fields) {
            Some(SyncMessage { fields })
        } else {
            None
        }
    }

    /// Returns the content of the message.
    pub fn fields(&self) -> SyncFields
        ensures value { result ≡ self.now }
        ensures spelled { IsSyncMessage result }
    {
        self.fields
    }

    /// Returns the values of the fields that each message has, in the order of `SYNC_FIELDS`.
    pub fn values(&self) -> [u64; 11]
        ensures { result ≡ sync_values self.now }
    {
        values_of(&self.fields)
    }

    /// Returns the capsule that spells the message.
    pub fn encode(&self, form: CheckForm) -> Bits
        ensures { result ≡ sync_capsule form self.now }
    {
        capsule_of(Kind::M30, form, &self.body())
    }

    /// Returns the message that a capsule spells, as `sync_reading` defines it.
    ///
    /// Returns `BadLength` exactly if the list's length differs from its MSG_LENGTH, or if that is
    /// outside 5 to 148 octets; otherwise `BadCheck` exactly if the check differs; otherwise
    /// `BadBody` exactly if the body is not that of a message.
    pub fn decode(capsule: &Bits, form: CheckForm) -> Result<SyncMessage, MessageFault>
        ensures { Decodes M30 form IsSyncMessage (sync_capsule form) (sync_reading form)
            capsule.now result }
    {
        let count = body_count(Kind::M30, form, capsule)?;
        let body = BitSlice::of(capsule, 8, count);
        match read_body(&body) {
            Some(fields) => Ok(SyncMessage { fields }),
            None => Err(MessageFault::BadBody),
        }
    }

    /// Returns the body that spells the message.
    fn body(&self) -> Bits
        ensures value { result ≡ sync_body self.now }
        ensures fills { FillsCapsule M30 result }
    {
        let mut body = Bits::empty();
        body.append_number(8, 1);
        append(&SYNC_CHANNEL, &contents_of(&self.fields), &mut body);
        body
    }
}

/// Whether fields have a spelling.
fn has_spelling(fields: &SyncFields) -> bool
    ensures { IsTrue result ↔ IsSyncMessage fields.now }
{
    FieldValues::of(&values_of(fields)).fit(&SYNC_FIELDS) && has_tail(fields.freq, &fields.rest)
}

/// Whether a frequency and the bits after it make whole octets, 25 without a frequency and 26 to
/// 148 with one.
fn has_tail(freq: Option<u16>, rest: &Bits) -> bool
    ensures { IsTrue result ↔ IsTail freq rest.now }
{
    match freq {
        None => rest.len() == 3,
        Some(freq) => freq < 1 << FREQ_FIELD.1 && rest.len() % 8 == 0 && rest.len() <= 976,
    }
}
