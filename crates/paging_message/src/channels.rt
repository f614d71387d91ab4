//! The CDMA Channel List Message.

ghost use Rattle.std.specs.Prelude.{◌≡◌};
ghost use Rattle.paging_message.specs.Channels.{channel_contents, channel_values, channels_from};
ghost use Rattle.paging_message.specs.Channels.{IsChannelList};

use chip_core::{Bits, Numbers};
use message_layout::{ALL_BITS, Contents, MessageLayout, Records};
use std::marker::Model;

/// The names of the fields of the CDMA Channel List Message before its frequencies, each with its
/// number of bits.
///
/// TIA/EIA-95-B, 7.7.2.3.2.4.
pub const CHANNEL_FIELDS: [(&str, u8); 2] = [("pn", 9), ("seq", 6)];

/// The layout after the type: the fields, and CDMA_FREQ of each channel.
pub(crate) const CHANNEL_LIST: MessageLayout = MessageLayout {
    name: "channels",
    fixed: &CHANNEL_FIELDS,
    records: Records {
        name: "freqs",
        fields: &[("freq", 11)],
        least: 0,
    },
    most: Some(7),
    ..ALL_BITS
};

/// The content of a CDMA Channel List Message. It has as many frequencies as fit.
///
/// TIA/EIA-95-B, 7.7.2.3.2.4.
#[derive(Clone, Copy, PartialEq, Eq, Debug)]
pub struct ChannelFields {
    /// PILOT_PN, 9 bits: the offset of the pilot code, in units of 64 chips.
    pub pn: u16,
    /// CONFIG_MSG_SEQ, 6 bits: the number of this configuration.
    pub seq: u8,
    /// CDMA_FREQ of each channel, 11 bits.
    pub freqs: Numbers,
    /// The bits after the last frequency, at most 7.
    pub rest: Bits,
}

/// A CDMA Channel List Message: fields that have a spelling. Contracts see the fields.
///
/// TIA/EIA-95-B, 7.7.2.3.2.4.
#[derive(Clone, Copy, PartialEq, Eq, Debug)]
pub struct ChannelList {
    fields: ChannelFields,
}

impl Model for ChannelList {
    ghost use Rattle.paging_message.specs.Channels.{IsChannelList};
    ghost use Rattle.paging_message.specs.declared.channels.ChannelFields.{
      ChannelFields as TheFields,
    };

    ghost Value = { TheFields };

    ghost view = { λ m. m.fields };

    ghost invariant = { λ m. IsChannelList m.fields };

    ghost inverse = { λ f. record { fields = f } };
}

impl ChannelList {
    /// Returns the content of the message.
    pub fn fields(&self) -> ChannelFields
        ensures value { result ≡ self.now }
        ensures spelled { IsChannelList result }
    {
        self.fields
    }

    /// The values of the first fields, in the order of `CHANNEL_FIELDS`.
    pub fn values(&self) -> [u64; 2]
        ensures { result ≡ channel_values self.now }
    {
        [u64::from(self.fields.pn), u64::from(self.fields.seq)]
    }

    /// Makes the message with these contents.
    pub(crate) fn of(contents: &Contents) -> ChannelList
        requires { IsChannelList (channels_from contents.now) }
        ensures { result ≡ channels_from contents.now }
    {
        ChannelList {
            fields: ChannelFields {
                pn: contents.fixed.get(0) as u16,
                seq: contents.fixed.get(1) as u8,
                freqs: contents.columns[0],
                rest: contents.rest,
            },
        }
    }

    /// Returns the content after the type, in the form of its layout.
    pub(crate) fn contents(&self) -> Contents
        ensures value { result ≡ channel_contents self.now }
        ensures spelled { IsChannelList self.now }
    {
        let columns = [self.fields.freqs, Numbers::empty(), Numbers::empty()];
        Contents::plain(&self.values(), columns, self.fields.rest)
    }
}
