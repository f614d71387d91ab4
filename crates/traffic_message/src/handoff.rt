//! The Extended Handoff Direction Message.

ghost use Rattle.traffic_message.specs.Common.{in_widths, FieldsFit, number_at};
ghost use Rattle.std.specs.Prelude.{◌≡◌, ◌<◌, ◌≤◌, ◌==◌, drop, length};
ghost use Rattle.std.specs.List.{All};
ghost use Rattle.traffic_message.specs.Handoff.{direction_contents, direction_from, hard_place};
ghost use Rattle.traffic_message.specs.Handoff.{is_hard, search_from, search_group, search_of};
ghost use Rattle.traffic_message.specs.Handoff.{search_values, time_values, IsHandoffDirection};
ghost use Rattle.traffic_message.specs.Handoff.{SearchFits};
ghost use Rattle.traffic_message.specs.Widths.{search_widths, time_widths};

use crate::fields::{DirectionFields, Search};
use message_layout::{BitSlice, Contents, FieldValues};
use std::marker::Model;

/// The content of an Extended Handoff Direction Message after its head: fields that fit, and at
/// least one record. Contracts see the fields.
///
/// TIA/EIA-95-B, 7.7.3.3.2.17.
#[derive(Clone, Copy, PartialEq, Eq, Debug)]
pub struct HandoffDirection {
    fields: DirectionFields,
}

impl Model for HandoffDirection {
    ghost use Rattle.traffic_message.specs.Handoff.{IsHandoffDirection};
    ghost use Rattle.traffic_message.specs.declared.fields.DirectionFields.{
      DirectionFields as TheFields,
    };

    ghost Value = { TheFields };

    ghost view = { λ m. m.fields };

    ghost invariant = { λ m. IsHandoffDirection m.fields };

    ghost inverse = { λ f. record { fields = f } };
}

impl HandoffDirection {
    /// Returns the content of the message: each record has a pilot, a combination indicator and a
    /// row, so the three lists have the same length.
    pub fn fields(&self) -> DirectionFields
        ensures value { result ≡ self.now }
        ensures spelled { IsHandoffDirection result }
        ensures action { result.action < 64 }
        ensures some { 1 ≤ length result.pns }
        ensures combs { length result.combs ≡ length result.pns }
        ensures rows { length result.rows ≡ length result.pns }
        ensures pilots { All (λ pn. pn < 512) result.pns }
        ensures channels { All (λ row. row < 256) result.rows }
    {
        self.fields
    }

    /// The values of the first fields, in the order of `TIME_FIELDS`.
    pub fn times(&self) -> [u64; 3]
        ensures { result ≡ time_values self.now }
    {
        [
            u64::from(self.fields.use_time),
            u64::from(self.fields.action),
            u64::from(self.fields.hdm),
        ]
    }

    /// Makes the message with these contents.
    #[tactic(auto, unfolding(crate::specs::Handoff::direction_of))]
    pub(crate) fn of(contents: &Contents) -> HandoffDirection
        requires { IsHandoffDirection (direction_from contents.now) }
        ensures { result ≡ direction_from contents.now }
    {
        HandoffDirection {
            fields: fields_from(contents),
        }
    }

    /// Returns the content after the head, in the form of its layout.
    pub(crate) fn contents(&self) -> Contents
        ensures value { result ≡ direction_contents self.now }
        ensures spelled { IsHandoffDirection self.now }
    {
        let fields = &self.fields;
        Contents {
            fixed: FieldValues::of(&self.times()),
            group: group_of(fields.search),
            octets: fields.extra,
            columns: [fields.pns, fields.combs, fields.rows],
            rest: fields.rest,
        }
    }
}

/// Whether the fields from place `from` on contain HARD_INCLUDED, and it is set.
#[tactic(auto, unfolding(crate::specs::Handoff::is_hard))]
pub(crate) fn is_hard_handoff(bits: &BitSlice<'_>, from: u16) -> bool
    requires { from ≤ length bits.now }
    ensures { result ≡ is_hard (drop from bits.now) }
{
    is_set(bits, from, hard_at(bits, from))
}

/// Whether bit `place` of those from place `from` on is present and set.
fn is_set(bits: &BitSlice<'_>, from: u16, place: u16) -> bool
    requires { from ≤ length bits.now }
    ensures { result ≡ (number_at place 1 (drop from bits.now) == 1) }
{
    place < bits.len() - from && bits.get(from + place)
}

/// Returns the place of HARD_INCLUDED: after the search parameters if SEARCH_INCLUDED is set.
#[tactic(auto, unfolding(crate::specs::Handoff::hard_place))]
fn hard_at(bits: &BitSlice<'_>, from: u16) -> u16
    requires { from ≤ length bits.now }
    ensures value { result ≡ hard_place (drop from bits.now) }
    ensures least { 10 ≤ result }
    ensures most { result ≤ 34 }
{
    if is_set(bits, from, 9) { 34 } else { 10 }
}

/// The fields with these contents.
#[tactic(auto, unfolding(crate::specs::Handoff::direction_of))]
fn fields_from(contents: &Contents) -> DirectionFields
    requires times { FieldsFit (in_widths time_widths (time_values (direction_from contents.now))) }
    requires search { SearchFits (search_from contents.now.group) }
    ensures { result ≡ direction_from contents.now }
{
    DirectionFields {
        use_time: contents.fixed.get(0) as u8,
        action: contents.fixed.get(1) as u8,
        hdm: contents.fixed.get(2) as u8,
        search: search_in(&contents.group),
        extra: contents.octets,
        pns: contents.columns[0],
        combs: contents.columns[1],
        rows: contents.columns[2],
        rest: contents.rest,
    }
}

/// The search parameters with the values of `group`, if there are any.
fn search_in(group: &Option<FieldValues>) -> Option<Search>
    requires { SearchFits (search_from group.now) }
    ensures { result ≡ search_from group.now }
{
    match group {
        None => None,
        Some(values) => Some(search_from_values(values)),
    }
}

/// The values of the search parameters, in the form of the layout.
fn group_of(search: Option<Search>) -> Option<FieldValues>
    ensures { result ≡ search_group search }
{
    match search {
        None => None,
        Some(search) => Some(FieldValues::of(&search.values())),
    }
}

impl Search {
    /// The values of the parameters, in the order of `SEARCH_FIELDS`.
    pub fn values(&self) -> [u64; 5]
        ensures { result ≡ search_values self.now }
    {
        [
            u64::from(self.wina),
            u64::from(self.tadd),
            u64::from(self.tdrop),
            u64::from(self.tcomp),
            u64::from(self.ttdrop),
        ]
    }
}

/// The search parameters with these values.
#[tactic(auto, unfolding(crate::specs::Handoff::search_of))]
fn search_from_values(values: &FieldValues) -> Search
    requires { FieldsFit (in_widths search_widths (search_values (search_of values.now))) }
    ensures { result ≡ search_of values.now }
{
    Search {
        wina: values.get(0) as u8,
        tadd: values.get(1) as u8,
        tdrop: values.get(2) as u8,
        tcomp: values.get(3) as u8,
        ttdrop: values.get(4) as u8,
    }
}
