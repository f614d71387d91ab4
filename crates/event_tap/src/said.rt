//! Writes the contents of messages by the names of their layouts.

ghost use Rattle.std.specs.Prelude.{◌≡◌, ◌≢◌, ◌≤◌, ◌+◌, ◌++◌, true, length, map, IsAscii};
ghost use Rattle.message_layout.specs.Shapes.{line_names, shape};
ghost use Rattle.message_layout.specs.Spelling.{IsOf, IsRest};
ghost use Rattle.event_tap.specs.Parts.{rest_text};
ghost use Rattle.event_tap.specs.SaidTexts.{end_bytes, has_line, is_short_end, kind_text, IsShown};
ghost use Rattle.event_tap.specs.SaidTexts.{list_bytes, list_text, message_text, said_text};
ghost use Rattle.event_tap.specs.SaidTexts.{FillColumns};

use crate::items::{Listed, append_items};
use crate::parts::{append_few_rest, append_rest, append_values};
use chip_core::{Bits, Numbers};
use line_text::Text;
use message_layout::{Contents, MessageLayout, Records};

/// Adds the content of a message by the names of its layout, or its type and bits if the layout has
/// no name, and ends the line.
#[tactic(auto, unfolding(crate::specs::SaidTexts::message_text))]
pub(crate) fn append_message(text: &mut Text, kind: u8, layout: &MessageLayout, contents: &Contents)
    requires start { length text.old ≤ 95 }
    requires said { IsOf (shape layout.now) contents.now }
    requires line { has_line (line_names layout.now) (shape layout.now) ≡ true }
    ensures value { text.new ≡ text.old ++ message_text kind (line_names layout.now)
        (shape layout.now).records contents.now }
    ensures most { length text.new ≤ 1024 }
{
    if layout.name.is_empty() {
        append_kind(text, kind, &contents.rest);
    } else {
        append_said(text, layout, contents);
    }
}

/// Adds the type of a message and its bits, and ends the line.
#[tactic(auto, unfolding(crate::specs::SaidTexts::kind_text))]
fn append_kind(text: &mut Text, kind: u8, bits: &Bits)
    requires { length text.old ≤ 95 }
    ensures value { text.new ≡ text.old ++ kind_text kind bits.now }
    ensures most { length text.new ≤ 1024 }
{
    text.append_named(" other type=", kind);
    text.append_str(" bits=");
    text.append_bits(bits);
    text.append_str("\n");
}

/// Adds the content of a message by the names of its layout, and ends the line.
fn append_said(text: &mut Text, layout: &MessageLayout, contents: &Contents)
    requires start { length text.old ≤ 95 }
    requires shown { IsShown layout.now contents.now }
    ensures value { text.new ≡ text.old ++ said_text (line_names layout.now)
        (shape layout.now).records contents.now }
    ensures most { length text.new ≤ 1024 }
{
    text.append_str(" ");
    text.append_str(layout.name);
    append_values(text, layout.fixed, contents.fixed.as_slice());
    append_list(text, &layout.records, &contents.columns);
    append_end(text, layout.most, &contents.rest);
}

/// Adds the records of a list after its name, if the layout has any.
fn append_list(text: &mut Text, records: &Records, columns: &[Numbers; 3])
    requires ascii { IsAscii records.now.name.now }
    requires listed { length records.now.fields.now ≢ 0 →
        FillColumns (map (λ row. row.1) records.now.fields.now) columns.now }
    requires room { length text.old + list_bytes records.now.name.now
        (map (λ row. row.1) records.now.fields.now) + 44 ≤ 1024 }
    ensures value { text.new ≡ text.old ++ list_text records.now.name.now
        (map (λ row. row.1) records.now.fields.now) columns.now }
    ensures len { length text.new ≤ length text.old + list_bytes records.now.name.now
        (map (λ row. row.1) records.now.fields.now) }
{
    if records.fields.is_empty() {
        return;
    }
    let count = columns[0].len();
    prove!(count <= 128);
    text.append_name(records.name.as_bytes());
    append_items(
        text,
        &Listed {
            fields: records.fields,
            columns,
        },
    );
}

/// Adds the bits that follow the fields of a layout, and ends the line.
fn append_end(text: &mut Text, most: Option<u16>, rest: &Bits)
    requires left { IsRest most rest.now }
    requires short { is_short_end most ≡ true }
    requires room { length text.old + end_bytes most ≤ 1024 }
    ensures value { text.new ≡ text.old ++ rest_text rest.now }
    ensures most { length text.new ≤ 1024 }
{
    match most {
        None => append_rest(text, rest),
        Some(_) => append_few_rest(text, rest),
    }
}
