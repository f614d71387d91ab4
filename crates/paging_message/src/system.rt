//! The System Parameters Message.

ghost use Rattle.std.specs.Prelude.{◌≡◌, ◌<◌, [], get_or};
ghost use Rattle.chip_core.specs.Fields.{in_widths, FieldsFit};
ghost use Rattle.paging_message.specs.System.{system_contents, system_from, system_names, IsSystem};
ghost use Rattle.paging_message.specs.System.{system_of, system_values, system_widths};

use chip_core::{Bits, Numbers};
use message_layout::{
    ALL_BITS, Contents, FieldValues, MessageLayout, field_rows, fields_of_values, name_in,
    values_of_fields,
};
use std::marker::Model;

/// Passes the fields of the System Parameters Message to a macro in the order of transmission, each
/// with its place, its name and its number of bits.
macro_rules! system_fields {
    ($made:ident $(, $($with:tt)+)?) => {
        $made! {
            [$($($with)+)?]
            0 pn 9, 1 seq 6, 2 sid 15, 3 nid 16, 4 zone 12, 5 zones 3, 6 ztimer 3,
            7 msids 1, 8 mnids 1, 9 base 16, 10 bclass 4, 11 pages 3, 12 cycle 3,
            13 home 1, 14 fsid 1, 15 fnid 1, 16 up 1, 17 down 1, 18 param 1,
            19 prd 7, 20 lat 22, 21 long 23, 22 dist 11, 23 wina 4, 24 winn 4,
            25 winr 4, 26 age 4, 27 pthresh 5, 28 pframes 4, 29 pthen 1,
            30 pperen 1, 31 pdelay 5, 32 rescan 1, 33 tadd 6, 34 tdrop 6,
            35 tcomp 4, 36 ttdrop 4
        }
    };
}

/// The names of the fields of the System Parameters Message in the order of transmission, each with
/// its number of bits. The message type, 8 bits, comes before them.
///
/// TIA/EIA-95-B, 7.7.2.3.2.1. All code that spells, reads or prints the message uses this table.
pub const SYSTEM_FIELDS: [(&str, u8); 37] = system_fields!(field_rows);

/// The name of field `i` of the System Parameters Message, counted from 0.
pub fn system_name(i: usize) -> &'static str
    requires { i < 37 }
    ensures { result.now ≡ get_or system_names i [] }
{
    name_in(&SYSTEM_FIELDS, i)
}

/// The layout after the type: the fields, and all bits after them.
pub(crate) const SYSTEM_PARAMETERS: MessageLayout = MessageLayout {
    name: "system",
    fixed: &SYSTEM_FIELDS,
    ..ALL_BITS
};

/// The content of a System Parameters Message. `SYSTEM_FIELDS` has the widths of the fields.
///
/// TIA/EIA-95-B, 7.7.2.3.2.1.
#[derive(Clone, Copy, PartialEq, Eq, Debug)]
pub struct SystemFields {
    /// PILOT_PN: the offset of the pilot code, in units of 64 chips.
    pub pn: u16,
    /// CONFIG_MSG_SEQ: the number of this configuration.
    pub seq: u8,
    /// SID: the system's number.
    pub sid: u16,
    /// NID: the network's number.
    pub nid: u16,
    /// REG_ZONE: the registration zone.
    pub zone: u16,
    /// TOTAL_ZONES: how many registration zones a mobile station keeps.
    pub zones: u8,
    /// ZONE_TIMER: how long a mobile station keeps a registration zone.
    pub ztimer: u8,
    /// MULT_SIDS: whether a mobile station keeps several systems.
    pub msids: u8,
    /// MULT_NIDS: whether a mobile station keeps several networks.
    pub mnids: u8,
    /// BASE_ID: the base station's number.
    pub base: u16,
    /// BASE_CLASS: the class of the base station.
    pub bclass: u8,
    /// PAGE_CHAN: how many paging channels there are.
    pub pages: u8,
    /// MAX_SLOT_CYCLE_INDEX: the longest slot cycle.
    pub cycle: u8,
    /// HOME_REG: whether a mobile station at home registers.
    pub home: u8,
    /// FOR_SID_REG: whether one that roams from another system registers.
    pub fsid: u8,
    /// FOR_NID_REG: whether one that roams from another network registers.
    pub fnid: u8,
    /// POWER_UP_REG: whether a mobile station registers at power up.
    pub up: u8,
    /// POWER_DOWN_REG: whether a mobile station registers at power down.
    pub down: u8,
    /// PARAMETER_REG: whether a mobile station registers when its parameters change.
    pub param: u8,
    /// REG_PRD: the period of registrations.
    pub prd: u8,
    /// BASE_LAT: the latitude, in quarters of a second, as a two's complement number of 22 bits.
    pub lat: u32,
    /// BASE_LONG: the longitude, in quarters of a second, as a two's complement number of 23 bits.
    pub long: u32,
    /// REG_DIST: the distance at which a mobile station registers again.
    pub dist: u16,
    /// SRCH_WIN_A: the search window of active and candidate pilots.
    pub wina: u8,
    /// SRCH_WIN_N: the search window of neighbors.
    pub winn: u8,
    /// SRCH_WIN_R: the search window of the remaining pilots.
    pub winr: u8,
    /// NGHBR_MAX_AGE: how long a pilot stays a neighbor.
    pub age: u8,
    /// PWR_REP_THRESH: the number of bad frames at which power is reported.
    pub pthresh: u8,
    /// PWR_REP_FRAMES: the frames over which bad ones are counted.
    pub pframes: u8,
    /// PWR_THRESH_ENABLE: whether power is reported at a threshold.
    pub pthen: u8,
    /// PWR_PERIOD_ENABLE: whether power is reported at intervals.
    pub pperen: u8,
    /// PWR_REP_DELAY: the frames after a report that are not counted.
    pub pdelay: u8,
    /// RESCAN: whether a mobile station starts again with the choice of a system.
    pub rescan: u8,
    /// T_ADD: the strength at which a pilot becomes a candidate.
    pub tadd: u8,
    /// T_DROP: the strength below which a pilot's timer runs.
    pub tdrop: u8,
    /// T_COMP: the amount by which a candidate has to exceed an active pilot.
    pub tcomp: u8,
    /// T_TDROP: how long a pilot's timer runs.
    pub ttdrop: u8,
    /// The bits after the fields.
    pub rest: Bits,
}

/// A System Parameters Message: fields that have a spelling. Contracts see the fields.
///
/// TIA/EIA-95-B, 7.7.2.3.2.1.
#[derive(Clone, Copy, PartialEq, Eq, Debug)]
pub struct SystemParameters {
    fields: SystemFields,
}

impl Model for SystemParameters {
    ghost use Rattle.paging_message.specs.System.{IsSystem};
    ghost use Rattle.paging_message.specs.declared.system.SystemFields.{SystemFields as TheFields};

    ghost Value = { TheFields };

    ghost view = { λ m. m.fields };

    ghost invariant = { λ m. IsSystem m.fields };

    ghost inverse = { λ f. record { fields = f } };
}

impl SystemParameters {
    /// Returns the content of the message.
    pub fn fields(&self) -> SystemFields
        ensures value { result ≡ self.now }
        ensures spelled { IsSystem result }
    {
        self.fields
    }

    /// The values of the fields, in the order of `SYSTEM_FIELDS`.
    pub fn values(&self) -> [u64; 37]
        ensures { result ≡ system_values self.now }
    {
        system_fields!(values_of_fields, self.fields)
    }

    /// Makes the message with these contents.
    pub(crate) fn of(contents: &Contents) -> SystemParameters
        requires { IsSystem (system_from contents.now) }
        ensures { result ≡ system_from contents.now }
    {
        let fields = fields_of(&contents.fixed, contents.rest);
        SystemParameters { fields }
    }

    /// Returns the content after the type, in the form of its layout.
    pub(crate) fn contents(&self) -> Contents
        ensures value { result ≡ system_contents self.now }
        ensures spelled { IsSystem self.now }
    {
        let columns = [Numbers::empty(), Numbers::empty(), Numbers::empty()];
        Contents::plain(&self.values(), columns, self.fields.rest)
    }
}

/// Returns the fields with these values.
#[tactic(auto, unfolding(crate::specs::System::system_of))]
fn fields_of(values: &FieldValues, rest: Bits) -> SystemFields
    requires { FieldsFit (in_widths system_widths (system_values (system_of values.now rest))) }
    ensures { result ≡ system_of values.now rest }
{
    system_fields!(fields_of_values, SystemFields, values, rest)
}
