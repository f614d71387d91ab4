//! Conversion of messages to and from their bodies and capsules.

ghost use Rattle.traffic_message.specs.Common.{FieldsFit, FillsCapsule, M16};
ghost use Rattle.std.specs.Prelude.{◌≡◌, IfSome, Some};
ghost use Rattle.quality_bits.specs.Faults.{Decodes};
ghost use Rattle.traffic_message.specs.Layouts.{head_contents, head_in};
ghost use Rattle.traffic_message.specs.Messages.{head_fields, head_values, traffic_message_body};
ghost use Rattle.traffic_message.specs.Messages.{traffic_capsule, IsTrafficMessage, Message};
ghost use Rattle.traffic_message.specs.Reading.{traffic_body_reading, is_traffic_body};
ghost use Rattle.traffic_message.specs.Reading.{traffic_reading};

use crate::body::TrafficBody;
use crate::fields::Head;
use crate::layouts::HEAD;
use chip_core::{Bits, CheckForm, Numbers};
use message_layout::{BitSlice, Contents, FieldValues, append, read_fields};
use quality_bits::{Kind, MessageFault, body_count, capsule_of, fills_capsule};
use std::marker::Model;

/// A signaling message of the traffic channel that has a spelling: its head and its content.
/// Contracts see both.
///
/// TIA/EIA-95-B, 7.7.3.
#[derive(Clone, Copy, PartialEq, Eq, Debug)]
pub struct TrafficMessage {
    head: Head,
    body: TrafficBody,
}

impl Model for TrafficMessage {
    ghost use Rattle.traffic_message.specs.Messages.{IsTrafficMessage, Message};

    ghost Value = { Message };

    ghost view = { λ m. record { head = m.head; body = m.body } };

    ghost invariant = { λ m. IsTrafficMessage (record { head = m.head; body = m.body }) };

    ghost inverse = { λ m. record { head = m.head; body = m.body } };
}

impl TrafficMessage {
    /// Returns the head, which follows the type.
    pub fn head(&self) -> Head
        ensures value { result ≡ self.now.head }
        ensures spelled { IsTrafficMessage self.now }
    {
        self.head
    }

    /// Returns the content after its head.
    pub fn body(&self) -> TrafficBody
        ensures value { result ≡ self.now.body }
        ensures spelled { IsTrafficMessage self.now }
    {
        self.body
    }

    /// The message that a body spells, as `traffic_body_reading` defines it; `None` exactly if no
    /// message has this body.
    pub fn from_body(body: &Bits) -> Option<TrafficMessage>
        ensures found { IfSome result
            (λ m. IsTrafficMessage m × (body.now ≡ traffic_message_body m)) }
        ensures only { (m : Message) → IsTrafficMessage m → body.now ≡ traffic_message_body m →
            result ≡ Some m }
        ensures reading { result ≡ traffic_body_reading body.now }
    {
        TrafficMessage::read(&BitSlice::whole(body))
    }

    /// The capsule that spells the message.
    pub fn encode(&self, form: CheckForm) -> Bits
        ensures { result ≡ traffic_capsule form self.now }
    {
        capsule_of(Kind::M16, form, &self.spelled_body())
    }

    /// The message that a capsule spells, as `traffic_reading` defines it.
    ///
    /// Returns `BadLength` exactly if the list's length differs from its MSG_LENGTH, or if that is
    /// outside 5 to 148 octets; otherwise `BadCheck` exactly if the check of 16 bits differs;
    /// otherwise `BadBody` exactly if the body is not that of a message.
    pub fn decode(capsule: &Bits, form: CheckForm) -> Result<TrafficMessage, MessageFault>
        ensures { Decodes M16 form IsTrafficMessage (traffic_capsule form) (traffic_reading form)
            capsule.now result }
    {
        let count = body_count(Kind::M16, form, capsule)?;
        let body = BitSlice::of(capsule, 8, count);
        TrafficMessage::read(&body).ok_or(MessageFault::BadBody)
    }

    /// The message that a body spells.
    fn read(body: &BitSlice<'_>) -> Option<TrafficMessage>
        ensures { result ≡ traffic_body_reading body.now }
    {
        if !has_head(body) {
            return None;
        }
        let (values, from) = read_fields(HEAD.fixed, body, 0)?;
        let head = head_from(&values);
        let body = TrafficBody::read(values.get(0) as u8, head.encryption, body, from)?;
        Some(TrafficMessage { head, body })
    }

    /// The body that spells the message.
    fn spelled_body(&self) -> Bits
        ensures value { result ≡ traffic_message_body self.now }
        ensures fills { FillsCapsule M16 result }
    {
        let mut body = Bits::empty();
        append(&HEAD, &self.head.contents(self.body.kind()), &mut body);
        self.body.append_to(&mut body);
        body
    }
}

/// Whether a body fits a capsule, and has at least a type and a head.
fn has_head(body: &BitSlice<'_>) -> bool
    ensures { result ≡ is_traffic_body body.now }
{
    body.len() >= 17 && fills_capsule(Kind::M16, body.len())
}

/// The head with these values; the first value is the type.
fn head_from(values: &FieldValues) -> Head
    requires { FieldsFit (head_fields (head_in values.now)) }
    ensures { result ≡ head_in values.now }
{
    Head {
        ack_seq: values.get(1) as u8,
        msg_seq: values.get(2) as u8,
        ack_req: values.get(3) == 1,
        encryption: values.get(4) as u8,
    }
}

impl Head {
    /// The values of the fields, in the order of `HEAD_FIELDS`.
    pub fn values(&self) -> [u64; 4]
        ensures { result ≡ head_values self.now }
    {
        [
            u64::from(self.ack_seq),
            u64::from(self.msg_seq),
            u64::from(self.ack_req),
            u64::from(self.encryption),
        ]
    }

    /// The contents of the type and the head, in the form of their layout.
    fn contents(&self, kind: u8) -> Contents
        ensures { result ≡ head_contents kind self.now }
    {
        let [ack_seq, msg_seq, ack_req, encryption] = self.values();
        let values = [u64::from(kind), ack_seq, msg_seq, ack_req, encryption];
        let columns = [Numbers::empty(), Numbers::empty(), Numbers::empty()];
        Contents::plain(&values, columns, Bits::empty())
    }
}
