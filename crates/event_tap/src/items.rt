//! Lists in lines, with their items joined by commas.

ghost use Rattle.std.specs.Prelude.{ℕ, ◌≡◌, ◌<◌, ◌≤◌, ◌+◌, ◌*◌, List, [], ◌++◌, length, get_or, ⊤};
ghost use Rattle.std.specs.Prelude.{map, decimal};
ghost use Rattle.event_tap.specs.Parts.{comma_before, commas};
ghost use Rattle.event_tap.specs.SaidTexts.{columns_texts, record_bytes, slash_text, FillColumns};
ghost use Rattle.event_tap.specs.SetsLines.{active_text};
ghost use Rattle.message_layout.specs.Contents.{height};

use chip_core::Numbers;
use line_text::Text;
use message_layout::FieldRow;
use pilot_sets::{Active, ActiveList, PilotList};

/// A list in a line, with its items joined by commas.
pub(crate) trait Items {
    /// The invariant of the list.
    ghost fit: { Self → Type 0 };

    /// The number of items.
    ghost size: { Self → ℕ };

    /// The texts of the items, in order.
    ghost texts: { Self → List (List ℕ) };

    /// The most bytes that an item takes, including the comma before it.
    ghost width: { Self → ℕ };

    /// Returns the number of items.
    fn count(&self) -> u8
        requires { fit self.now }
        ensures value { result ≡ size self.now }
        ensures all { length (texts self.now) ≡ size self.now };

    /// Adds the text of item `i`, counted from 0.
    fn append_item(&self, i: u8, text: &mut Text)
        requires fit { fit self.now }
        requires within { i < size self.now }
        requires room { length text.old + width self.now + 42 ≤ 1024 }
        ensures value { text.new ≡ text.old ++ get_or (texts self.now) i [] }
        ensures len { length text.new < length text.old + width self.now };
}

/// Adds the items of a list, joined by commas.
pub(crate) fn append_items<L: Items>(text: &mut Text, items: &L)
    requires fit { L.fit items.now }
    requires room { length text.old + L.width items.now * L.size items.now + 43 ≤ 1024 }
    ensures value { text.new ≡ text.old ++ commas (L.texts items.now) }
    ensures len { length text.new ≤ length text.old + L.width items.now * L.size items.now }
{
    for i in 0..items.count() {
        append_comma(text, i);
        items.append_item(i, text);
    }
}

/// Adds the comma before item `i` of a list, counted from 0; the first has none.
fn append_comma(text: &mut Text, i: u8)
    requires room { length text.old + 1 ≤ 1024 }
    ensures value { text.new ≡ text.old ++ comma_before i }
    ensures len { length text.new ≤ length text.old + 1 }
{
    if i > 0 {
        text.append_str(",");
    }
}

// The offsets of pilots.
impl Items for PilotList {
    ghost fit = { λ _. ⊤ };

    ghost size = { λ pilots. length pilots };

    ghost texts = { λ pilots. map decimal pilots };

    ghost width = { λ _. 6 };

    fn count(&self) -> u8 {
        self.len()
    }

    fn append_item(&self, i: u8, text: &mut Text) {
        text.append_short(u64::from(self.get(i)));
    }
}

// Pilots of the active set, each with its row and its subchannel.
impl Items for ActiveList {
    ghost fit = { λ _. ⊤ };

    ghost size = { λ active. length active };

    ghost texts = { λ active. map active_text active };

    ghost width = { λ _. 14 };

    fn count(&self) -> u8 {
        self.len()
    }

    fn append_item(&self, i: u8, text: &mut Text) {
        append_active(text, self.get(i));
    }
}

/// The records of a list, column by column, and the fields of a record.
#[derive(Clone, Copy)]
pub(crate) struct Listed<'a> {
    pub fields: &'a [FieldRow],
    pub columns: &'a [Numbers; 3],
}

impl<'a> Items for Listed<'a> {
    ghost fit = { λ l. FillColumns (map (λ row. row.1) l.fields.now) l.columns.now };

    ghost size = { λ l. height l.columns.now };

    ghost texts = { λ l. columns_texts l.columns.now };

    ghost width = { λ l. record_bytes (map (λ row. row.1) l.fields.now) };

    fn count(&self) -> u8 {
        self.columns[0].len()
    }

    fn append_item(&self, i: u8, text: &mut Text) {
        text.append_number(self.columns[0].get(i));
        append_slash(text, i, &self.columns[1]);
        append_slash(text, i, &self.columns[2]);
    }
}

/// Adds the number of record `i` in another column after a slash, if records have that column.
fn append_slash(text: &mut Text, i: u8, column: &Numbers)
    requires room { length text.old + 21 ≤ 1024 }
    ensures value { text.new ≡ text.old ++ slash_text i column.now }
    ensures len { length text.new ≤ length text.old + 11 }
{
    if i < column.len() {
        text.append_named("/", column.get(i));
    }
}

/// Adds a pilot of the active set: its offset, its row and its subchannel.
fn append_active(text: &mut Text, active: Active)
    requires room { length text.old + 42 ≤ 1024 }
    ensures value { text.new ≡ text.old ++ active_text active }
    ensures len { length text.new ≤ length text.old + 13 }
{
    text.append_number(active.pilot);
    text.append_named("/", active.row);
    text.append_named("/", active.subchannel);
}
