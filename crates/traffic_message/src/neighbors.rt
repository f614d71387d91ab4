//! The Neighbor List Update Message.

ghost use Rattle.std.specs.Prelude.{◌≡◌, ◌<◌, ◌≤◌, length};
ghost use Rattle.std.specs.List.{All};
ghost use Rattle.traffic_message.specs.Neighbors.{update_contents, update_from, update_values};
ghost use Rattle.traffic_message.specs.Neighbors.{IsNeighborUpdate};

use crate::fields::UpdateFields;
use chip_core::Numbers;
use message_layout::Contents;
use std::marker::Model;

/// The content of a Neighbor List Update Message after its head: fields that fit, and at least one
/// neighbor. Contracts see the fields.
///
/// TIA/EIA-95-B, 7.7.3.3.2.8.
#[derive(Clone, Copy, PartialEq, Eq, Debug)]
pub struct NeighborUpdate {
    fields: UpdateFields,
}

impl Model for NeighborUpdate {
    ghost use Rattle.traffic_message.specs.Neighbors.{IsNeighborUpdate};
    ghost use Rattle.traffic_message.specs.declared.fields.UpdateFields.{UpdateFields as TheFields};

    ghost Value = { TheFields };

    ghost view = { λ m. m.fields };

    ghost invariant = { λ m. IsNeighborUpdate m.fields };

    ghost inverse = { λ f. record { fields = f } };
}

impl NeighborUpdate {
    /// Returns the content of the message.
    pub fn fields(&self) -> UpdateFields
        ensures value { result ≡ self.now }
        ensures spelled { IsNeighborUpdate result }
        ensures some { 1 ≤ length result.pns }
        ensures pilots { All (λ pn. pn < 512) result.pns }
    {
        self.fields
    }

    /// The value of the field of `UPDATE_FIELDS`.
    pub fn values(&self) -> [u64; 1]
        ensures { result ≡ update_values self.now }
    {
        [u64::from(self.fields.inc)]
    }

    /// Makes the message with these contents.
    pub(crate) fn of(contents: &Contents) -> NeighborUpdate
        requires { IsNeighborUpdate (update_from contents.now) }
        ensures { result ≡ update_from contents.now }
    {
        NeighborUpdate {
            fields: UpdateFields {
                inc: contents.fixed.get(0) as u8,
                pns: contents.columns[0],
                rest: contents.rest,
            },
        }
    }

    /// Returns the content after the head, in the form of its layout.
    pub(crate) fn contents(&self) -> Contents
        ensures value { result ≡ update_contents self.now }
        ensures spelled { IsNeighborUpdate self.now }
    {
        let columns = [self.fields.pns, Numbers::empty(), Numbers::empty()];
        Contents::plain(&self.values(), columns, self.fields.rest)
    }
}
