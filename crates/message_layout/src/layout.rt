//! Layouts as tables.
//!
//! A [`MessageLayout`] has five parts, one after another, each of which may be empty:
//!
//! - fixed fields, which every body has;
//! - a group of fields, which is present if a bit before it is 1, or unless exactly a stated number
//!   of bits is left;
//! - zero bits, a count of octets, and that number of octets;
//! - records of the same fields, as many as fit, with a lower bound on their number;
//! - the remaining bits, with an upper bound on their number.
//!
//! The message type, which selects the layout, precedes them all. The bodies of the messages of
//! sync, paging and traffic channels have these layouts after their types:
//!
//! | Message | Fixed | Group | Octets | Records | Rest |
//! |---|---|---|---|---|---|
//! | Sync Channel | 11 fields | the frequency, unless 3 bits are left | | | all |
//! | System Parameters | 37 fields | | | | all |
//! | Neighbor List | 3 fields | | | of 3 and 9 bits | at most 7 |
//! | CDMA Channel List | 2 fields | | | of 11 bits | at most 7 |
//! | Head of a traffic message | 4 fields | | | | all, by the type |
//! | In-Traffic System Parameters | 10 fields | | | | all |
//! | Neighbor List Update | 1 field | | | of 9 bits, one or more | at most 7 |
//! | Extended Handoff Direction | 3 fields | 5 fields | a count | of 9, 1 and 8 bits | at most 7 |
//! | Of any other type | | | | | all |
//!
//! In an Extended Handoff Direction, the group follows SEARCH_INCLUDED, one zero bit and a count of
//! 3 bits precede the octets, and there is at least one record.

ghost use Rattle.std.specs.Prelude.{◌≡◌, ◌<◌, [], length, map, get_or};

/// A field of a message: its name in lines of text, and the number of bits in which it is sent.
pub type FieldRow = (&'static str, u8);

/// The fields of a body after its message type, in the order of transmission.
///
/// A layout has at most 48 fixed fields and 48 fields in its group, of 1 to 64 bits each, at most
/// three fields in a record, of 1 to 32 bits each, and a rest that is shorter than a record.
#[derive(Clone, Copy)]
pub struct MessageLayout {
    /// The name of such a message in lines of text; empty if the line has another.
    pub name: &'static str,
    /// The fields that each body has.
    pub fixed: &'static [FieldRow],
    /// The fields that may be present.
    pub group: Group,
    /// The counted octets.
    pub octets: Octets,
    /// The records to the end.
    pub records: Records,
    /// The greatest number of bits left after all of these; `None` if any number may be left.
    pub most: Option<u16>,
}

/// Fields that are in a body together or not at all.
#[derive(Clone, Copy)]
pub struct Group {
    /// When they are present.
    pub presence: Presence,
    /// The fields.
    pub fields: &'static [FieldRow],
}

/// When a group is present.
#[derive(Clone, Copy)]
pub enum Presence {
    /// Never.
    Never,
    /// After a bit that is 1; if that bit is 0, the group is absent.
    Flagged,
    /// Unless exactly this many bits are left, fewer than the group has.
    UnlessLeft(u16),
}

/// Octets, preceded by their count.
#[derive(Clone, Copy)]
pub struct Octets {
    /// The number of zero bits before the count, at most 64.
    pub zeros: u8,
    /// The number of bits of the count, at most 8; 0 if there are no octets.
    pub width: u8,
}

/// Records of the same fields, as many as fit.
#[derive(Clone, Copy)]
pub struct Records {
    /// The name of the list of records in lines of text.
    pub name: &'static str,
    /// The fields of a record; none if there are no records.
    pub fields: &'static [FieldRow],
    /// The least number of records.
    pub least: u8,
}

/// The `group` of a layout without a group.
pub const NO_GROUP: Group = Group {
    presence: Presence::Never,
    fields: &[],
};

/// The `octets` of a layout without counted octets.
pub const NO_OCTETS: Octets = Octets { zeros: 0, width: 0 };

/// The `records` of a layout without records.
pub const NO_RECORDS: Records = Records {
    name: "",
    fields: &[],
    least: 0,
};

/// The layout without fields: all bits, as they are.
pub const ALL_BITS: MessageLayout = MessageLayout {
    name: "",
    fixed: &[],
    group: NO_GROUP,
    octets: NO_OCTETS,
    records: NO_RECORDS,
    most: None,
};

/// The name in row `i` of a table, counted from 0.
pub fn name_in(rows: &[FieldRow], i: usize) -> &'static str
    requires { i < length rows.now }
    ensures { result.now ≡ get_or (map (λ row. row.0.now) rows.now) i [] }
{
    rows[i].0
}

/// The number of bits in row `i` of a table, counted from 0.
pub fn width_in(rows: &[FieldRow], i: usize) -> u8
    requires { i < length rows.now }
    ensures { result ≡ get_or (map (λ row. row.1) rows.now) i 0 }
{
    rows[i].1
}
