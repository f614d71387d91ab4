//! Appending the contents of a layout to a body.

ghost use Rattle.message_layout.specs.Common.{in_widths, spelled, AreWidths, FieldsFit};
ghost use Rattle.std.specs.Prelude.{◌≡◌, ◌≤◌, ◌<◌, ◌+◌, ◌/◌, ◌^◌, ◌++◌, true, length, map, IfSome};
ghost use Rattle.chip_core.specs.Bits.{binary};
ghost use Rattle.message_layout.specs.Contents.{height, record_at, record_fields, shares};
ghost use Rattle.message_layout.specs.Shapes.{is_lawful, shape};
ghost use Rattle.message_layout.specs.Spelling.{group_fields, octet_bits, spelling, HaveValues};
ghost use Rattle.message_layout.specs.Spelling.{IsOf};

use crate::contents::Contents;
use crate::layout::{FieldRow, Group, MessageLayout, Octets, Presence, width_in};
use crate::values::FieldValues;
use chip_core::{Bits, Numbers};

/// Appends the spelling of a layout's contents to a body that is known to have room.
pub fn append(layout: &MessageLayout, contents: &Contents, body: &mut Bits)
    requires lawful { is_lawful (shape layout.now) ≡ true }
    requires contents { IsOf (shape layout.now) contents.now }
    requires room { length body.old + length (spelling (shape layout.now) contents.now) ≤ 1184 }
    ensures { body.new ≡ body.old ++ spelling (shape layout.now) contents.now }
{
    append_values(body, layout.fixed, &contents.fixed);
    append_group(body, &layout.group, &contents.group);
    append_octets(body, layout.octets, &contents.octets);
    append_records(body, layout.records.fields, &contents.columns);
    body.append_all(&contents.rest);
}

/// Adds the values of fields at the end.
fn append_values(body: &mut Bits, rows: &[FieldRow], values: &FieldValues)
    requires widths { AreWidths (map (λ row. row.1) rows.now) }
    requires few { length rows.now ≤ 48 }
    requires values { HaveValues (map (λ row. row.1) rows.now) values.now }
    requires room { length body.old
        + length (spelled (in_widths (map (λ row. row.1) rows.now) values.now)) ≤ 1184 }
    ensures { body.new ≡ body.old
        ++ spelled (in_widths (map (λ row. row.1) rows.now) values.now) }
{
    for i in 0..rows.len() {
        body.append_number(width_in(rows, i), values.get(i as u8));
    }
}

/// Appends a group, with the bit before it if the layout has one.
fn append_group(body: &mut Bits, group: &Group, values: &Option<FieldValues>)
    requires widths { AreWidths (map (λ row. row.1) group.now.fields.now) }
    requires few { length group.now.fields.now ≤ 48 }
    requires values { IfSome values.now (λ vs.
        HaveValues (map (λ row. row.1) group.now.fields.now) vs) }
    requires room { length body.old + length (spelled (group_fields group.now.presence
        (map (λ row. row.1) group.now.fields.now) values.now)) ≤ 1184 }
    ensures { body.new ≡ body.old ++ spelled (group_fields group.now.presence
        (map (λ row. row.1) group.now.fields.now) values.now) }
{
    match (group.presence, values) {
        (Presence::Never, _) => {}
        (Presence::Flagged, None) => body.append_number(1, 0),
        (Presence::Flagged, Some(values)) => {
            body.append_number(1, 1);
            append_values(body, group.fields, values);
        }
        (Presence::UnlessLeft(_), None) => {}
        (Presence::UnlessLeft(_), Some(values)) => append_values(body, group.fields, values),
    }
}

/// Appends the zero bits, the count of octets and the octets.
fn append_octets(body: &mut Bits, layout: Octets, octets: &Bits)
    requires zeros { layout.zeros ≤ 64 }
    requires width { layout.width ≤ 8 }
    requires counted { length octets.now / 8 < 2 ^ layout.width }
    requires room { length body.old + length (octet_bits layout.zeros layout.width octets.now) ≤
        1184 }
    ensures { body.new ≡ body.old ++ octet_bits layout.zeros layout.width octets.now }
{
    append_number(body, layout.zeros, 0);
    append_number(body, layout.width, u64::from(octets.len() / 8));
    body.append_all(octets);
}

/// Appends a number in `width` bits; `width` may be 0.
#[tactic(auto, unfolding(chip_core::specs::Bits::binary))]
fn append_number(body: &mut Bits, width: u8, value: u64)
    requires width { width ≤ 64 }
    requires fits { value < 2 ^ width }
    requires room { length body.old + width ≤ 1184 }
    ensures { body.new ≡ body.old ++ binary width value }
{
    if width > 0 {
        body.append_number(width, value);
    }
}

/// Adds the records at the end.
fn append_records(body: &mut Bits, fields: &[FieldRow], columns: &[Numbers; 3])
    requires widths { AreWidths (map (λ row. row.1) fields.now) }
    requires few { length fields.now ≤ 3 }
    requires columns { map length columns.now ≡ shares (map (λ row. row.1) fields.now)
        (height columns.now) }
    requires fit { FieldsFit (record_fields (map (λ row. row.1) fields.now) (height columns.now)
        columns.now) }
    requires room { length body.old + length (spelled
        (record_fields (map (λ row. row.1) fields.now) (height columns.now) columns.now)) ≤ 1184 }
    ensures { body.new ≡ body.old ++ spelled
        (record_fields (map (λ row. row.1) fields.now) (height columns.now) columns.now) }
{
    for i in 0..columns[0].len() {
        append_record(body, fields, columns, i);
    }
}

/// Adds record `i` at the end, counted from 0.
fn append_record(body: &mut Bits, fields: &[FieldRow], columns: &[Numbers; 3], i: u8)
    requires widths { AreWidths (map (λ row. row.1) fields.now) }
    requires few { length fields.now ≤ 3 }
    requires columns { map length columns.now ≡ shares (map (λ row. row.1) fields.now)
        (height columns.now) }
    requires within { i < height columns.now }
    requires fit { FieldsFit (in_widths (map (λ row. row.1) fields.now) (record_at i columns.now)) }
    requires room { length body.old
        + length (spelled (in_widths (map (λ row. row.1) fields.now)
        (record_at i columns.now))) ≤ 1184 }
    ensures { body.new ≡ body.old
        ++ spelled (in_widths (map (λ row. row.1) fields.now) (record_at i columns.now)) }
{
    for j in 0..fields.len() {
        body.append_number(width_in(fields, j), u64::from(columns[j].get(i)));
    }
}
