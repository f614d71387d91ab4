//! Messages of types without fields of their own.

ghost use Rattle.std.specs.Prelude.{◌≡◌};
ghost use Rattle.paging_message.specs.Layouts.{IsOther};
ghost use Rattle.paging_message.specs.Others.{other_contents, other_from};

use chip_core::{Bits, Numbers};
use message_layout::Contents;
use std::marker::Model;

/// The content of a message of another type.
#[derive(Clone, Copy, PartialEq, Eq, Debug)]
pub struct OtherFields {
    /// The message type, 8 bits: not 1, 3 or 4, which have fields of their own.
    pub kind: u8,
    /// All bits after the type.
    pub bits: Bits,
}

/// A message of any type but 1, 3 and 4: its type and its bits. Contracts see both.
#[derive(Clone, Copy, PartialEq, Eq, Debug)]
pub struct OtherMessage {
    fields: OtherFields,
}

impl Model for OtherMessage {
    ghost use Rattle.paging_message.specs.Layouts.{IsOther};
    ghost use Rattle.paging_message.specs.declared.other.OtherFields.{OtherFields as TheFields};

    ghost Value = { TheFields };

    ghost view = { λ m. m.fields };

    ghost invariant = { λ m. IsOther m.fields };

    ghost inverse = { λ f. record { fields = f } };
}

impl OtherMessage {
    /// Returns the content of the message.
    pub fn fields(&self) -> OtherFields
        ensures value { result ≡ self.now }
        ensures spelled { IsOther result }
    {
        self.fields
    }

    /// Makes the message of this type with these contents.
    pub(crate) fn of(kind: u8, contents: &Contents) -> OtherMessage
        requires { IsOther (other_from kind contents.now) }
        ensures { result ≡ other_from kind contents.now }
    {
        OtherMessage {
            fields: OtherFields {
                kind,
                bits: contents.rest,
            },
        }
    }

    /// Returns the content after the type, in the form of its layout.
    pub(crate) fn contents(&self) -> Contents
        ensures value { result ≡ other_contents self.now }
        ensures spelled { IsOther self.now }
    {
        let columns = [Numbers::empty(), Numbers::empty(), Numbers::empty()];
        Contents::plain(&[], columns, self.fields.bits)
    }
}
