//! The content of a message after its head.

ghost use Rattle.traffic_message.specs.Common.{line_names, shape};
ghost use Rattle.std.specs.Prelude.{◌≡◌, ◌+◌, ◌≤◌, ◌++◌, drop, length};
ghost use Rattle.traffic_message.specs.Layouts.{bits_of, body_from, traffic_contents_of, form_in};
ghost use Rattle.traffic_message.specs.Layouts.{traffic_names_of, traffic_shape_of, HasFields};
ghost use Rattle.traffic_message.specs.Messages.{kind_of as type_of};
ghost use Rattle.traffic_message.specs.Reading.{part_reading};

use crate::handoff::HandoffDirection;
use crate::in_traffic::InTraffic;
use crate::layouts::{BodyForm, form_of, layout_of};
use crate::neighbors::NeighborUpdate;
use chip_core::{Bits, Numbers};
use message_layout::{BitSlice, Contents, MessageLayout, append, read_from};

/// The content of a message of the traffic channel after its head.
///
/// TIA/EIA-95-B, 7.7.3.3.
#[derive(Clone, Copy, PartialEq, Eq, Debug)]
pub enum TrafficBody {
    /// Type 7.
    System(InTraffic),
    /// Type 8.
    Neighbors(NeighborUpdate),
    /// Type 17 without a hard handoff.
    Handoff(HandoffDirection),
    /// Any other type, any hard handoff, and any encrypted message.
    Other {
        /// The message type, 8 bits.
        kind: u8,
        /// All bits after the head.
        bits: Bits,
    },
}

impl TrafficBody {
    /// The message type.
    pub fn kind(&self) -> u8
        ensures { result ≡ type_of self.now }
    {
        match self {
            TrafficBody::System(_) => 7,
            TrafficBody::Neighbors(_) => 8,
            TrafficBody::Handoff(_) => 17,
            TrafficBody::Other { kind, .. } => *kind,
        }
    }

    /// Reads the content after the head, from place `from` on, by the type if it is not encrypted;
    /// `None` if the fields of the type don't fit.
    pub(crate) fn read(
        kind: u8,
        encryption: u8,
        bits: &BitSlice<'_>,
        from: u16,
    ) -> Option<TrafficBody>
        requires within { from ≤ length bits.now }
        requires room { length (drop from bits.now) ≤ 1143 }
        ensures { result ≡ part_reading kind encryption (drop from bits.now) }
    {
        let form = form_of(kind, encryption, bits, from);
        let contents = read_from(&layout_of(form), bits, from)?;
        Some(TrafficBody::of(form, kind, &contents))
    }

    /// Makes the content of this form.
    fn of(form: BodyForm, kind: u8, contents: &Contents) -> TrafficBody
        requires { HasFields (body_from form kind contents.now) }
        ensures { result ≡ body_from form kind contents.now }
    {
        match form {
            BodyForm::Parameters => TrafficBody::System(InTraffic::of(contents)),
            BodyForm::Update => TrafficBody::Neighbors(NeighborUpdate::of(contents)),
            BodyForm::Direction => TrafficBody::Handoff(HandoffDirection::of(contents)),
            BodyForm::Plain => TrafficBody::Other {
                kind,
                bits: contents.rest,
            },
        }
    }

    /// Appends the content after the head to `body`.
    pub(crate) fn append_to(&self, body: &mut Bits)
        requires { length body.old + length (bits_of self.now) ≤ 1184 }
        ensures { body.new ≡ body.old ++ bits_of self.now }
    {
        append(&self.layout(), &self.contents(), body);
    }

    /// Returns the form of the content after the head.
    fn form(&self) -> BodyForm
        ensures { result ≡ form_in self.now }
    {
        match self {
            TrafficBody::System(_) => BodyForm::Parameters,
            TrafficBody::Neighbors(_) => BodyForm::Update,
            TrafficBody::Handoff(_) => BodyForm::Direction,
            TrafficBody::Other { .. } => BodyForm::Plain,
        }
    }

    /// Returns the layout of the content after the head.
    pub fn layout(&self) -> MessageLayout
        ensures shape { shape result ≡ traffic_shape_of (form_in self.now) }
        ensures names { line_names result ≡ traffic_names_of (form_in self.now) }
    {
        layout_of(self.form())
    }

    /// Returns the content after the head, in the form of its layout.
    pub fn contents(&self) -> Contents
        ensures value { result ≡ traffic_contents_of self.now }
        ensures fields { HasFields self.now }
    {
        match self {
            TrafficBody::System(message) => message.contents(),
            TrafficBody::Neighbors(message) => message.contents(),
            TrafficBody::Handoff(message) => message.contents(),
            TrafficBody::Other { bits, .. } => {
                let columns = [Numbers::empty(), Numbers::empty(), Numbers::empty()];
                Contents::plain(&[], columns, *bits)
            }
        }
    }
}
