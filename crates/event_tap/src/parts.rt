//! Parts that the lines of messages share.

ghost use Rattle.event_tap.specs.Common.{FieldsFit, in_widths, bit_text, spaced_key};
ghost use Rattle.std.specs.Prelude.{◌≡◌, ◌<◌, ◌≤◌, ◌+◌, ◌*◌, ◌^◌, [], true, ◌++◌, length, map};
ghost use Rattle.std.specs.Prelude.{decimal, IsAscii};
ghost use Rattle.event_tap.specs.Parts.{are_short, capsule_line, named_values, rest_text};

use chip_core::Bits;
use line_text::Text;
use message_layout::{FieldRow, name_in};

/// Adds the values of a message's fields, each after its name in the table.
pub(crate) fn append_values(text: &mut Text, table: &[FieldRow], values: &[u64])
    requires all { length values.now ≡ length table.now }
    requires short { are_short (map (λ row. row.0.now) table.now) (map (λ row. row.1) table.now)
        ≡ true }
    requires fit { FieldsFit (in_widths (map (λ row. row.1) table.now) values.now) }
    requires room { length text.old + 16 * length table.now + 13 ≤ 1024 }
    ensures value { text.new ≡ text.old ++ named_values (map (λ row. row.0.now) table.now)
        values.now }
    ensures len { length text.new ≤ length text.old + 16 * length table.now }
{
    for i in 0..table.len() {
        append_value(text, name_in(table, i), values[i]);
    }
}

/// Adds a value of at most seven digits after a name of at most seven bytes.
fn append_value(text: &mut Text, name: &str, value: u64)
    requires ascii { IsAscii name.now }
    requires short { length name.now ≤ 7 }
    requires few { value < 10 ^ 7 }
    requires room { length text.old + 29 ≤ 1024 }
    ensures value { text.new ≡ text.old ++ (spaced_key name.now ++ decimal value) }
    ensures len { length text.new ≤ length text.old + 16 }
{
    text.append_name(name.as_bytes());
    text.append_short(value);
}

/// Adds the bits that follow a message's fields, and ends the line.
pub(crate) fn append_rest(text: &mut Text, rest: &Bits)
    requires room { length text.old + 309 ≤ 1024 }
    ensures value { text.new ≡ text.old ++ rest_text rest.now }
    ensures len { length text.new ≤ length text.old + 309 }
{
    text.append_str(" rest=");
    text.append_bits(rest);
    text.append_str("\n");
}

/// Adds the bits, at most seven, that follow a message's fields, and ends the line.
pub(crate) fn append_few_rest(text: &mut Text, rest: &Bits)
    requires few { length rest.now ≤ 7 }
    requires room { length text.old + 24 ≤ 1024 }
    ensures value { text.new ≡ text.old ++ rest_text rest.now }
    ensures len { length text.new ≤ length text.old + 24 }
{
    text.append_str(" rest=");
    append_few_bits(text, rest);
    text.append_str("\n");
}

/// Adds the text of at most 56 bits, which has at most 17 bytes.
#[tactic(auto, using(crate::proofs::PartTexts::few_alone))]
pub(crate) fn append_few_bits(text: &mut Text, bits: &Bits)
    requires few { length bits.now ≤ 56 }
    requires room { length text.old + 17 ≤ 1024 }
    ensures value { text.new ≡ text.old ++ bit_text bits.now }
    ensures len { length text.new ≤ length text.old + 17 }
{
    let mut alone = Text::empty();
    alone.append_bits(bits);
    text.append(alone.bytes());
}

/// Adds the line of a message's capsule, as received, to the empty text. `channel` is the name of
/// its channel, with a space before and after it.
pub(crate) fn append_raw(text: &mut Text, channel: &str, at: u64, capsule: &Bits)
    requires empty { text.old ≡ [] }
    requires ascii { IsAscii channel.now }
    requires short { length channel.now ≤ 9 }
    ensures value { text.new ≡ capsule_line channel.now at capsule.now }
    ensures most { length text.new ≤ 1024 }
{
    text.append_named("raw at=", at);
    text.append_str(channel);
    text.append_bits(capsule);
    text.append_str("\n");
}
