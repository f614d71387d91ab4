//! The Neighbor List Message.

ghost use Rattle.std.specs.Prelude.{◌≡◌};
ghost use Rattle.paging_message.specs.Neighbors.{neighbor_contents, neighbor_values};
ghost use Rattle.paging_message.specs.Neighbors.{neighbors_from, IsNeighborList};

use chip_core::{Bits, Numbers};
use message_layout::{ALL_BITS, Contents, MessageLayout, Records};
use std::marker::Model;

/// The names of the fields of the Neighbor List Message before its neighbors, each with its number
/// of bits.
///
/// TIA/EIA-95-B, 7.7.2.3.2.3.
pub const NEIGHBOR_FIELDS: [(&str, u8); 3] = [("pn", 9), ("seq", 6), ("inc", 4)];

/// The layout after the type: the fields, and NGHBR_CONFIG and NGHBR_PN of each neighbor.
pub(crate) const NEIGHBOR_LIST: MessageLayout = MessageLayout {
    name: "neighbors",
    fixed: &NEIGHBOR_FIELDS,
    records: Records {
        name: "pilots",
        fields: &[("config", 3), ("pn", 9)],
        least: 0,
    },
    most: Some(7),
    ..ALL_BITS
};

/// The content of a Neighbor List Message. It has as many neighbors as fit.
///
/// TIA/EIA-95-B, 7.7.2.3.2.3.
#[derive(Clone, Copy, PartialEq, Eq, Debug)]
pub struct NeighborFields {
    /// PILOT_PN, 9 bits: the offset of the pilot code, in units of 64 chips.
    pub pn: u16,
    /// CONFIG_MSG_SEQ, 6 bits: the number of this configuration.
    pub seq: u8,
    /// PILOT_INC, 4 bits: the step between the offsets of pilots.
    pub inc: u8,
    /// NGHBR_CONFIG of each neighbor, 3 bits.
    pub configs: Numbers,
    /// NGHBR_PN of each neighbor, 9 bits: as many as `configs` has.
    pub pns: Numbers,
    /// The bits after the last neighbor, at most 7.
    pub rest: Bits,
}

/// A Neighbor List Message: fields that have a spelling. Contracts see the fields.
///
/// TIA/EIA-95-B, 7.7.2.3.2.3.
#[derive(Clone, Copy, PartialEq, Eq, Debug)]
pub struct NeighborList {
    fields: NeighborFields,
}

impl Model for NeighborList {
    ghost use Rattle.paging_message.specs.Neighbors.{IsNeighborList};
    ghost use Rattle.paging_message.specs.declared.neighbors.NeighborFields.{
      NeighborFields as TheFields,
    };

    ghost Value = { TheFields };

    ghost view = { λ m. m.fields };

    ghost invariant = { λ m. IsNeighborList m.fields };

    ghost inverse = { λ f. record { fields = f } };
}

impl NeighborList {
    /// Returns the content of the message.
    pub fn fields(&self) -> NeighborFields
        ensures value { result ≡ self.now }
        ensures spelled { IsNeighborList result }
    {
        self.fields
    }

    /// The values of the first fields, in the order of `NEIGHBOR_FIELDS`.
    pub fn values(&self) -> [u64; 3]
        ensures { result ≡ neighbor_values self.now }
    {
        let fields = &self.fields;
        [
            u64::from(fields.pn),
            u64::from(fields.seq),
            u64::from(fields.inc),
        ]
    }

    /// Makes the message with these contents.
    pub(crate) fn of(contents: &Contents) -> NeighborList
        requires { IsNeighborList (neighbors_from contents.now) }
        ensures { result ≡ neighbors_from contents.now }
    {
        NeighborList {
            fields: NeighborFields {
                pn: contents.fixed.get(0) as u16,
                seq: contents.fixed.get(1) as u8,
                inc: contents.fixed.get(2) as u8,
                configs: contents.columns[0],
                pns: contents.columns[1],
                rest: contents.rest,
            },
        }
    }

    /// Returns the content after the type, in the form of its layout.
    pub(crate) fn contents(&self) -> Contents
        ensures value { result ≡ neighbor_contents self.now }
        ensures spelled { IsNeighborList self.now }
    {
        let columns = [self.fields.configs, self.fields.pns, Numbers::empty()];
        Contents::plain(&self.values(), columns, self.fields.rest)
    }
}
