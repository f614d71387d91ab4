//! The In-Traffic System Parameters Message.

ghost use Rattle.traffic_message.specs.Common.{in_widths, FieldsFit};
ghost use Rattle.std.specs.Prelude.{◌≡◌};
ghost use Rattle.traffic_message.specs.InTraffic.{in_traffic_contents, in_traffic_from};
ghost use Rattle.traffic_message.specs.InTraffic.{in_traffic_of, in_traffic_values, IsInTraffic};
ghost use Rattle.traffic_message.specs.Widths.{in_traffic_widths};

use crate::fields::InTrafficFields;
use crate::table::in_traffic_fields;
use chip_core::{Bits, Numbers};
use message_layout::{Contents, FieldValues, fields_of_values, values_of_fields};
use std::marker::Model;

/// The content of an In-Traffic System Parameters Message after its head: fields that fit.
/// Contracts see the fields.
///
/// TIA/EIA-95-B, 7.7.3.3.2.7.
#[derive(Clone, Copy, PartialEq, Eq, Debug)]
pub struct InTraffic {
    fields: InTrafficFields,
}

impl Model for InTraffic {
    ghost use Rattle.traffic_message.specs.InTraffic.{IsInTraffic};
    ghost use Rattle.traffic_message.specs.declared.fields.InTrafficFields.{
      InTrafficFields as TheFields,
    };

    ghost Value = { TheFields };

    ghost view = { λ m. m.fields };

    ghost invariant = { λ m. IsInTraffic m.fields };

    ghost inverse = { λ f. record { fields = f } };
}

impl InTraffic {
    /// Returns the content of the message.
    pub fn fields(&self) -> InTrafficFields
        ensures value { result ≡ self.now }
        ensures spelled { IsInTraffic result }
    {
        self.fields
    }

    /// The values of the fields, in the order of `IN_TRAFFIC_FIELDS`.
    pub fn values(&self) -> [u64; 10]
        ensures { result ≡ in_traffic_values self.now }
    {
        in_traffic_fields!(values_of_fields, self.fields)
    }

    /// Makes the message with these contents.
    pub(crate) fn of(contents: &Contents) -> InTraffic
        requires { IsInTraffic (in_traffic_from contents.now) }
        ensures { result ≡ in_traffic_from contents.now }
    {
        let fields = fields_of(&contents.fixed, contents.rest);
        InTraffic { fields }
    }

    /// Returns the content after the head, in the form of its layout.
    pub(crate) fn contents(&self) -> Contents
        ensures value { result ≡ in_traffic_contents self.now }
        ensures spelled { IsInTraffic self.now }
    {
        let columns = [Numbers::empty(), Numbers::empty(), Numbers::empty()];
        Contents::plain(&self.values(), columns, self.fields.rest)
    }
}

/// The fields with these values.
#[tactic(auto, unfolding(crate::specs::InTraffic::in_traffic_of))]
fn fields_of(values: &FieldValues, rest: Bits) -> InTrafficFields
    requires { FieldsFit (in_widths in_traffic_widths
        (in_traffic_values (in_traffic_of values.now rest))) }
    ensures { result ≡ in_traffic_of values.now rest }
{
    in_traffic_fields!(fields_of_values, InTrafficFields, values, rest)
}
