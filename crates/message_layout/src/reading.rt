//! Bits read by a layout.
//!
//! Each function reads from a place of one slice, counted from 0, and returns the place after what
//! it read, so only octets and the remaining bits are copied.
//!
//! The larger functions are inlined: a layout known at the call needs no table, and what was read
//! is not copied from call to call.

ghost use Rattle.message_layout.specs.Common.{total_width, AreWidths, column_at, number_at};
ghost use Rattle.message_layout.specs.Common.{Contents as TheContents};
ghost use Rattle.std.specs.Prelude.{◌≡◌, ◌≤◌, ◌<◌, ◌+◌, ◌*◌, ◌^◌, ◌++◌, ◌∷◌, [], true, length, map};
ghost use Rattle.std.specs.Prelude.{drop, IfSome, Some};
ghost use Rattle.message_layout.specs.Contents.{column_in, count_in};
ghost use Rattle.message_layout.specs.Reading.{following, fields_at, group_at, is_rest, octets_at};
ghost use Rattle.message_layout.specs.Reading.{number_part, part_at, presence_at, reading};
ghost use Rattle.message_layout.specs.Reading.{records_at};
ghost use Rattle.message_layout.specs.Shapes.{is_lawful, shape, AreNarrow};
ghost use Rattle.message_layout.specs.Spelling.{spelling, IsOf};

use crate::contents::Contents;
use crate::layout::{FieldRow, Group, MessageLayout, Octets, Presence, Records, width_in};
use crate::slice::BitSlice;
use crate::values::FieldValues;
use chip_core::{Bits, Numbers};

/// Returns the contents that bits spell by a layout, with at most 128 records; `None` exactly if
/// they spell no contents.
pub fn read(layout: &MessageLayout, bits: &Bits) -> Option<Contents>
    requires lawful { is_lawful (shape layout.now) ≡ true }
    requires room { count_in (shape layout.now).records (length bits.now) ≤ 128 }
    ensures found { IfSome result (λ c.
        IsOf (shape layout.now) c × (bits.now ≡ spelling (shape layout.now) c)) }
    ensures only { (c : TheContents) → IsOf (shape layout.now) c →
        bits.now ≡ spelling (shape layout.now) c → result ≡ Some c }
    ensures reading { result ≡ reading (shape layout.now) bits.now }
{
    read_from(layout, &BitSlice::whole(bits), 0)
}

/// Returns the contents that the bits from a place on spell by a layout, with at most 128 records;
/// `None` exactly if they spell no contents.
#[inline(always)]
pub fn read_from(layout: &MessageLayout, bits: &BitSlice<'_>, from: u16) -> Option<Contents>
    requires lawful { is_lawful (shape layout.now) ≡ true }
    requires within { from ≤ length bits.now }
    requires room { count_in (shape layout.now).records (length (drop from bits.now)) ≤ 128 }
    ensures found { IfSome result (λ c.
        IsOf (shape layout.now) c × (drop from bits.now ≡ spelling (shape layout.now) c)) }
    ensures only { (c : TheContents) → IsOf (shape layout.now) c →
        drop from bits.now ≡ spelling (shape layout.now) c → result ≡ Some c }
    ensures reading { result ≡ reading (shape layout.now) (drop from bits.now) }
{
    read_parts(layout, bits, from)
}

/// The message type, 8 bits, and the place after it; `None` exactly if there are fewer bits.
pub fn read_kind(bits: &BitSlice<'_>) -> Option<(u8, u16)>
    ensures kind { following bits.now result ≡ number_part 8 bits.now }
    ensures within { IfSome result (λ x. x.1 ≤ length bits.now) }
{
    let (kind, from) = read_number(8, bits, 0)?;
    Some((kind as u8, from))
}

/// Reads the bits from a place on, part by part.
#[tactic(auto, unfolding(crate::specs::Reading::reading))]
#[inline(always)]
fn read_parts(layout: &MessageLayout, bits: &BitSlice<'_>, from: u16) -> Option<Contents>
    requires lawful { is_lawful (shape layout.now) ≡ true }
    requires within { from ≤ length bits.now }
    requires room { count_in (shape layout.now).records (length (drop from bits.now)) ≤ 128 }
    ensures { result ≡ reading (shape layout.now) (drop from bits.now) }
{
    let (fixed, from) = read_fields(layout.fixed, bits, from)?;
    let (group, from) = read_group(&layout.group, bits, from)?;
    let (octets, from) = read_octets(layout.octets, bits, from)?;
    let (columns, from) = read_records(&layout.records, bits, from)?;
    if !is_rest_of(layout.most, bits, from) {
        return None;
    }
    Some(Contents {
        fixed,
        group,
        octets,
        columns,
        rest: rest_of(bits, from),
    })
}

/// Whether at most `most` bits are left; true if there is no bound.
fn is_rest_of(most: Option<u16>, bits: &BitSlice<'_>, from: u16) -> bool
    requires { from ≤ length bits.now }
    ensures { result ≡ is_rest most (drop from bits.now) }
{
    match most {
        None => true,
        Some(most) => bits.len() - from <= most,
    }
}

/// The remaining bits.
fn rest_of(bits: &BitSlice<'_>, from: u16) -> Bits
    requires { from ≤ length bits.now }
    ensures { result ≡ drop from bits.now }
{
    bits.part(from, bits.len() - from)
}

/// The values of the fields of a table, at most 48, from place `from` on, and the place after them;
/// `None` exactly if there are too few bits.
#[inline(always)]
pub fn read_fields(rows: &[FieldRow], bits: &BitSlice<'_>, from: u16) -> Option<(FieldValues, u16)>
    requires widths { AreWidths (map (λ row. row.1) rows.now) }
    requires room { length rows.now ≤ 48 }
    requires within { from ≤ length bits.now }
    ensures values { following bits.now result ≡ fields_at (map (λ row. row.1) rows.now)
        (drop from bits.now) }
    ensures within { IfSome result (λ x. x.1 ≤ length bits.now) }
{
    let mut place = from;
    let mut values = FieldValues::empty();
    for i in 0..rows.len() {
        let (value, next) = read_number(width_in(rows, i), bits, place)?;
        values.append(value);
        place = next;
    }
    Some((values, place))
}

/// Reads the values of a group, if it is present.
#[tactic(auto, unfolding(crate::specs::Reading::group_at))]
#[inline(always)]
fn read_group(group: &Group, bits: &BitSlice<'_>, from: u16) -> Option<(Option<FieldValues>, u16)>
    requires widths { AreWidths (map (λ row. row.1) group.now.fields.now) }
    requires room { length group.now.fields.now ≤ 48 }
    requires within { from ≤ length bits.now }
    ensures group { following bits.now result ≡ group_at group.now.presence
        (map (λ row. row.1) group.now.fields.now) (drop from bits.now) }
    ensures within { IfSome result (λ x. x.1 ≤ length bits.now) }
{
    let (is_there, from) = read_presence(group.presence, bits, from)?;
    if !is_there {
        return Some((None, from));
    }
    let (values, from) = read_fields(group.fields, bits, from)?;
    Some((Some(values), from))
}

/// Reads whether a group is present.
#[tactic(auto, unfolding(crate::specs::Reading::presence_at))]
fn read_presence(presence: Presence, bits: &BitSlice<'_>, from: u16) -> Option<(bool, u16)>
    requires { from ≤ length bits.now }
    ensures presence { following bits.now result ≡ presence_at presence (drop from bits.now) }
    ensures within { IfSome result (λ x. x.1 ≤ length bits.now) }
{
    match presence {
        Presence::Never => Some((false, from)),
        Presence::Flagged => {
            let (flag, from) = read_number(1, bits, from)?;
            Some((flag == 1, from))
        }
        Presence::UnlessLeft(count) => Some((bits.len() - from != count, from)),
    }
}

/// Reads the zero bits, the count of octets and the octets.
#[tactic(auto, unfolding(crate::specs::Reading::octets_at))]
#[inline(always)]
fn read_octets(octets: Octets, bits: &BitSlice<'_>, from: u16) -> Option<(Bits, u16)>
    requires zeros { octets.zeros ≤ 64 }
    requires width { octets.width ≤ 8 }
    requires within { from ≤ length bits.now }
    ensures octets { following bits.now result ≡ octets_at octets.zeros octets.width
        (drop from bits.now) }
    ensures within { IfSome result (λ x. x.1 ≤ length bits.now) }
{
    let (zeros, from) = read_number(octets.zeros, bits, from)?;
    let (count, from) = read_number(octets.width, bits, from)?;
    if zeros != 0 {
        return None;
    }
    read_part(8 * count, bits, from)
}

/// Reads a number of `width` bits, which is 0 if `width` is 0, and returns it with the place after
/// it.
#[tactic(auto, unfolding(crate::specs::Reading::number_part))]
fn read_number(width: u8, bits: &BitSlice<'_>, from: u16) -> Option<(u64, u16)>
    requires width { width ≤ 64 }
    requires within { from ≤ length bits.now }
    ensures value { following bits.now result ≡ number_part width (drop from bits.now) }
    ensures fits { IfSome result (λ x. x.0 < 2 ^ width) }
    ensures within { IfSome result (λ x. x.1 ≤ length bits.now) }
{
    if bits.len() - from < u16::from(width) {
        return None;
    }
    Some((number_from(bits, from, width), from + u16::from(width)))
}

/// The number that the `width` bits from place `from` on spell.
fn number_from(bits: &BitSlice<'_>, from: u16, width: u8) -> u64
    requires width { width ≤ 64 }
    requires within { from + width ≤ length bits.now }
    ensures value { result ≡ number_at from width bits.now }
    ensures fits { result < 2 ^ width }
{
    let _most = bits.len();
    let mut number = 0u64;
    for k in 0..width {
        let bit = bits.get(from + u16::from(k));
        number = 2 * number + u64::from(bit);
    }
    number
}

/// Returns the next `count` bits and the place after them.
#[tactic(auto, unfolding(crate::specs::Reading::part_at))]
fn read_part(count: u64, bits: &BitSlice<'_>, from: u16) -> Option<(Bits, u16)>
    requires { from ≤ length bits.now }
    ensures part { following bits.now result ≡ part_at count (drop from bits.now) }
    ensures within { IfSome result (λ x. x.1 ≤ length bits.now) }
{
    if count > u64::from(bits.len() - from) {
        return None;
    }
    let count = count as u16;
    Some((bits.part(from, count), from + count))
}

/// Reads the numbers of as many records as fit, column by column.
#[tactic(auto, unfolding(crate::specs::Reading::records_at))]
#[inline(always)]
fn read_records(records: &Records, bits: &BitSlice<'_>, from: u16) -> Option<([Numbers; 3], u16)>
    requires widths { AreWidths (map (λ row. row.1) records.now.fields.now) }
    requires narrow { AreNarrow (map (λ row. row.1) records.now.fields.now) }
    requires few { length records.now.fields.now ≤ 3 }
    requires within { from ≤ length bits.now }
    requires room { count_in (map (λ row. row.1) records.now.fields.now)
        (length (drop from bits.now)) ≤ 128 }
    ensures records { following bits.now result ≡ records_at
        (map (λ row. row.1) records.now.fields.now) records.now.least (drop from bits.now) }
    ensures within { IfSome result (λ x. x.1 ≤ length bits.now) }
{
    let fields = records.fields;
    let count = records_within(fields, bits.len() - from);
    if count < u16::from(records.least) {
        return None;
    }
    let fitting = count as u8;
    let columns = [
        read_column(fields, 0, fitting, bits, from),
        read_column(fields, 1, fitting, bits, from),
        read_column(fields, 2, fitting, bits, from),
    ];
    Some((columns, from + count * size_of(fields)))
}

/// Returns how many records of these fields fit into `count` bits.
fn records_within(fields: &[FieldRow], count: u16) -> u16
    requires widths { AreWidths (map (λ row. row.1) fields.now) }
    requires few { length fields.now ≤ 3 }
    ensures { result ≡ count_in (map (λ row. row.1) fields.now) count }
{
    let size = size_of(fields);
    if size == 0 { 0 } else { count / size }
}

/// Returns the number of bits of these fields.
pub(crate) fn size_of(fields: &[FieldRow]) -> u16
    requires widths { AreWidths (map (λ row. row.1) fields.now) }
    requires few { length fields.now ≤ 3 }
    ensures value { result ≡ total_width (map (λ row. row.1) fields.now) }
    ensures most { result ≤ 192 }
{
    let mut size = 0;
    for i in 0..fields.len() {
        size += u16::from(width_in(fields, i));
    }
    size
}

/// Reads the numbers of field `j` of the first `count` records from bit `from` on; no numbers past
/// the last field.
fn read_column(fields: &[FieldRow], j: usize, count: u8, bits: &BitSlice<'_>, from: u16) -> Numbers
    requires widths { AreWidths (map (λ row. row.1) fields.now) }
    requires narrow { AreNarrow (map (λ row. row.1) fields.now) }
    requires few { length fields.now ≤ 3 }
    requires most { count ≤ 128 }
    requires within { from + count * total_width (map (λ row. row.1) fields.now) ≤ length bits.now }
    ensures { result ≡ column_in (map (λ row. row.1) fields.now) count j (drop from bits.now) }
{
    if j >= fields.len() {
        return Numbers::empty();
    }
    let _most = bits.len();
    let first = from + size_of(&fields[..j]);
    read_places(bits, first, width_in(fields, j), size_of(fields), count)
}

/// Reads `count` numbers of `width` bits: the first at bit `first`, each of the others `size` bits
/// after the one before.
fn read_places(bits: &BitSlice<'_>, first: u16, width: u8, size: u16, count: u8) -> Numbers
    requires width { (1 ≤ width) × (width ≤ 32) }
    requires size { size ≤ 192 }
    requires most { count ≤ 128 }
    requires within { first + width + count * size ≤ length bits.now + size }
    ensures { result ≡ column_at size first width count bits.now }
{
    let _most = bits.len();
    let mut numbers = Numbers::empty();
    let mut place = first;
    for _i in 0..count {
        push_number(&mut numbers, number_from(bits, place, width) as u32);
        place += size;
    }
    numbers
}

/// Adds a number at the end of a list that is known to have room.
fn push_number(numbers: &mut Numbers, number: u32)
    requires { length numbers.old < 128 }
    ensures { numbers.new ≡ numbers.old ++ number ∷ [] }
{
    let _pushed = numbers.push(number);
}
