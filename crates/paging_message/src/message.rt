//! Converts messages to and from their bodies and capsules.

ghost use Rattle.paging_message.specs.Common.{line_names, shape, FillsCapsule, M30};
ghost use Rattle.std.specs.Prelude.{◌≡◌, IfSome, Some};
ghost use Rattle.quality_bits.specs.Faults.{Decodes};
ghost use Rattle.paging_message.specs.Layouts.{paging_names_of, paging_shape_of};

use crate::channels::{CHANNEL_LIST, ChannelList};
use crate::neighbors::{NEIGHBOR_LIST, NeighborList};
use crate::other::OtherMessage;
use crate::system::{SYSTEM_PARAMETERS, SystemParameters};
use chip_core::{Bits, CheckForm};
use message_layout::{ALL_BITS, BitSlice, Contents, MessageLayout, append, read_from, read_kind};
use quality_bits::{Kind, MessageFault, body_count, capsule_of, fills_capsule};

/// A message of the paging channel that has a spelling.
///
/// TIA/EIA-95-B, 7.7.2.3.
#[derive(Clone, Copy, PartialEq, Eq, Debug)]
pub enum PagingMessage {
    /// Type 1.
    System(SystemParameters),
    /// Type 3.
    Neighbors(NeighborList),
    /// Type 4.
    Channels(ChannelList),
    /// Any other type.
    Other(OtherMessage),
}

impl PagingMessage {
    ghost use Rattle.paging_message.specs.Messages.{contents_of, message_from, paging_kind_of};
    ghost use Rattle.paging_message.specs.Messages.{message_body, paging_capsule, IsPagingMessage};
    ghost use Rattle.paging_message.specs.Reading.{body_reading, paging_reading};
    ghost use Rattle.paging_message.specs.declared.message.PagingMessage.{
      PagingMessage as TheMessage,
    };

    /// Returns the message that a body spells; `None` exactly if no message has this body.
    pub fn from_body(body: &Bits) -> Option<PagingMessage>
        ensures found { IfSome result (λ m. IsPagingMessage m × (body.now ≡ message_body m)) }
        ensures only { (m : TheMessage) → IsPagingMessage m → body.now ≡ message_body m →
            result ≡ Some m }
    {
        PagingMessage::read(&BitSlice::whole(body))
    }

    /// Returns the capsule that spells the message.
    pub fn encode(&self, form: CheckForm) -> Bits
        ensures { result ≡ paging_capsule form self.now }
    {
        capsule_of(Kind::M30, form, &self.body())
    }

    /// Returns the message that a capsule spells, as `paging_reading` defines it.
    ///
    /// Returns `BadLength` exactly if the list's length differs from its MSG_LENGTH, or if that is
    /// outside 5 to 148 octets; otherwise `BadCheck` exactly if the check differs; otherwise
    /// `BadBody` exactly if the body is not that of a message.
    pub fn decode(capsule: &Bits, form: CheckForm) -> Result<PagingMessage, MessageFault>
        ensures { Decodes M30 form IsPagingMessage (paging_capsule form) (paging_reading form)
            capsule.now result }
    {
        let count = body_count(Kind::M30, form, capsule)?;
        let body = BitSlice::of(capsule, 8, count);
        PagingMessage::read(&body).ok_or(MessageFault::BadBody)
    }

    /// Returns the message that a body spells, if any.
    fn read(body: &BitSlice<'_>) -> Option<PagingMessage>
        ensures { result ≡ body_reading body.now }
    {
        if !fills_capsule(Kind::M30, body.len()) {
            return None;
        }
        let (kind, from) = read_kind(body)?;
        let contents = read_from(&layout_of(kind), body, from)?;
        Some(PagingMessage::of(kind, &contents))
    }

    /// Makes the message of this type with these contents.
    fn of(kind: u8, contents: &Contents) -> PagingMessage
        requires { IsPagingMessage (message_from kind contents.now) }
        ensures { result ≡ message_from kind contents.now }
    {
        match kind {
            1 => PagingMessage::System(SystemParameters::of(contents)),
            3 => PagingMessage::Neighbors(NeighborList::of(contents)),
            4 => PagingMessage::Channels(ChannelList::of(contents)),
            _ => PagingMessage::Other(OtherMessage::of(kind, contents)),
        }
    }

    /// Returns the body that spells the message.
    fn body(&self) -> Bits
        ensures value { result ≡ message_body self.now }
        ensures fills { FillsCapsule M30 result }
    {
        let kind = self.kind();
        let mut body = Bits::empty();
        body.append_number(8, u64::from(kind));
        append(&layout_of(kind), &self.contents(), &mut body);
        body
    }

    /// The message type.
    pub fn kind(&self) -> u8
        ensures { result ≡ paging_kind_of self.now }
    {
        match self {
            PagingMessage::System(_) => 1,
            PagingMessage::Neighbors(_) => 3,
            PagingMessage::Channels(_) => 4,
            PagingMessage::Other(message) => message.fields().kind,
        }
    }

    /// Returns the layout of its content after the type.
    pub fn layout(&self) -> MessageLayout
        ensures shape { shape result ≡ paging_shape_of (paging_kind_of self.now) }
        ensures names { line_names result ≡ paging_names_of (paging_kind_of self.now) }
    {
        layout_of(self.kind())
    }

    /// Returns the content after the type, in the form of its layout.
    pub fn contents(&self) -> Contents
        ensures value { result ≡ contents_of self.now }
        ensures spelled { IsPagingMessage self.now }
    {
        match self {
            PagingMessage::System(message) => message.contents(),
            PagingMessage::Neighbors(message) => message.contents(),
            PagingMessage::Channels(message) => message.contents(),
            PagingMessage::Other(message) => message.contents(),
        }
    }
}

/// Returns the layout of the content after a message type.
fn layout_of(kind: u8) -> MessageLayout
    ensures shape { shape result ≡ paging_shape_of kind }
    ensures names { line_names result ≡ paging_names_of kind }
{
    match kind {
        1 => SYSTEM_PARAMETERS,
        3 => NEIGHBOR_LIST,
        4 => CHANNEL_LIST,
        _ => ALL_BITS,
    }
}
