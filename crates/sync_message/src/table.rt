//! The fields of the Sync Channel Message by name and width.

ghost use Rattle.std.specs.Prelude.{◌≡◌, ◌<◌, [], get_or};
ghost use Rattle.sync_message.specs.Rows.{sync_names, sync_widths};

use message_layout::{FieldRow, field_rows, name_in, width_in};

/// Passes a macro the fields that each Sync Channel Message has, in the order of transmission: the
/// place, the name and the number of bits of each.
macro_rules! sync_fields {
    ($made:ident $(, $($with:tt)+)?) => {
        $made! {
            [$($($with)+)?]
            0 prev 8, 1 min 8, 2 sid 15, 3 nid 16, 4 pn 9, 5 lc 42,
            6 time 36, 7 lp 8, 8 ltm 6, 9 daylt 1, 10 prat 2
        }
    };
}

pub(crate) use sync_fields;

/// The names of the fields that each Sync Channel Message has, in the order of transmission, each
/// with its number of bits. The message type, 8 bits, precedes them.
///
/// TIA/EIA-95-B, 7.7.1.3. Everything that spells, reads or prints the message uses this table.
pub const SYNC_FIELDS: [FieldRow; 11] = sync_fields!(field_rows);

/// CDMA_FREQ, which follows those fields in a message of more than 25 octets.
pub const FREQ_FIELD: FieldRow = ("freq", 11);

/// Returns the name of field `i` of the table, counted from 0.
pub fn sync_name(i: usize) -> &'static str
    requires { i < 11 }
    ensures { result.now ≡ get_or sync_names i [] }
{
    name_in(&SYNC_FIELDS, i)
}

/// Returns the number of bits of field `i` of the table, counted from 0.
pub fn sync_width(i: usize) -> u8
    requires { i < 11 }
    ensures { result ≡ get_or sync_widths i 0 }
{
    width_in(&SYNC_FIELDS, i)
}
