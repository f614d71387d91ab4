//! The fields of a line, read one after another.

ghost use Rattle.std.specs.Prelude.{◌≡◌, ◌<◌, ◌≤◌, ℕ, Bool, List, true, false, length, IfSome, ◌↔◌};
ghost use Rattle.std.specs.Prelude.{OnSome, MatchOption, IsTrue, unsigned_abs, [], None, Some, ◌^◌};
ghost use Rattle.std.specs.Prelude.{drop, take, ◌-◌};
ghost use Rattle.line_text.specs.StatedValues.{begins_with, bits_in_text, length_before};
ghost use Rattle.line_text.specs.StatedValues.{number_up_to, power_bits_in};
ghost use Rattle.cell_script.specs.Rows.{key_of, sync_row};
ghost use Rattle.cell_script.specs.ScriptFields.{IsOfForm, script_field, past, signed_of, value_of};
ghost use Rattle.cell_script.specs.ScriptFields.{unsigned_of, AreOfForms, unsigned_line};

use crate::tables::{FieldForm, StatementField};
use chip_core::{Bits, PowerBits};
use line_text::{
    bits_in, length_before, number_up_to, power_bits_in, serial_number_in, signed_in, state_in,
};
use std::marker::Model;
use sync_message::{FieldRow, sync_name, sync_width};

/// Reads the fields of a line in order. A key is the text before a value: ` name=`, preceded by the
/// statement's word for the first field. Contracts see the remaining text.
#[derive(Drop)]
pub(crate) struct Fields<'a> {
    text: &'a [u8],
}

impl<'a> Model for Fields<'a> {
    ghost use Rattle.std.specs.Prelude.{List, ℕ};

    ghost Value = { List ℕ };

    ghost view = { λ f. f.text.now };
}

impl<'a> Fields<'a> {
    /// Makes a reader of the fields of this text.
    pub(crate) fn new(text: &'a [u8]) -> Fields<'a>
        ensures { result ≡ text.now }
    {
        Fields { text }
    }

    /// Whether the whole text was read.
    pub(crate) fn at_end(&self) -> bool
        ensures { IsTrue result ↔ (self.now ≡ []) }
    {
        self.text.is_empty()
    }

    /// Reads this key and returns the text of the value after it.
    #[tactic(auto, unfolding(crate::specs::ScriptFields::past))]
    fn value(&mut self, key: &[u8]) -> Option<&'a [u8]>
        ensures value { MatchOption result (begins_with self.old key.now ≡ false)
            (λ value. (begins_with self.old key.now ≡ true) ×
            (value.now ≡ value_of key.now self.old)) }
        ensures rest { OnSome result (self.new ≡ past key.now self.old) }
    {
        let text = self.text.strip_prefix(key)?;
        Some(self.value_from(text))
    }

    /// Returns the value at the beginning of `text`; the remaining text begins after it.
    fn value_from(&mut self, text: &'a [u8]) -> &'a [u8]
        ensures value { result.now ≡ take (length_before 32 text.now) text.now }
        ensures rest { self.new ≡ drop (length_before 32 text.now) text.now }
    {
        let end = length_before(text, b' ');
        self.text = &text[end..];
        &text[..end]
    }

    /// Whether the next field is this field of a message.
    pub(crate) fn begin_with(&self, row: FieldRow) -> bool
        ensures { result ≡ begins_with self.now (key_of row.entry.0.now) }
    {
        after_name(self.text, row.0).is_some()
    }

    /// Returns the number of this field of a message; it must fit the field's width.
    #[tactic(auto, unfolding(crate::specs::ScriptFields::script_field, crate::specs::ScriptFields::past))]
    pub(crate) fn number(&mut self, row: FieldRow) -> Option<u64>
        requires { row.1 ≤ 63 }
        ensures value { result ≡ script_field (key_of row.entry.0.now)
            (number_up_to (2 ^ row.entry.1 - 1)) self.old }
        ensures range { IfSome result (λ n. n < 2 ^ row.entry.1) }
        ensures rest { OnSome result (self.new ≡ past (key_of row.entry.0.now) self.old) }
    {
        let text = after_name(self.text, row.0)?;
        number_up_to(self.value_from(text), (1 << row.1) - 1)
    }

    /// Reads the number of the field at this place of the sync message's table.
    pub(crate) fn sync_number(&mut self, place: usize) -> Option<u64>
        requires { place < 11 }
        ensures value { result ≡ script_field (sync_row place).key
            (number_up_to (sync_row place).most) self.old }
        ensures range { IfSome result (λ n. n ≤ (sync_row place).most) }
        ensures rest { OnSome result (self.new ≡ past (sync_row place).key self.old) }
    {
        self.number((sync_name(place), sync_width(place)))
    }

    /// Returns the value of a field of an unsigned form; `None` for a signed form.
    #[tactic(auto, unfolding(crate::specs::ScriptFields::script_field))]
    pub(crate) fn unsigned(&mut self, row: StatementField) -> Option<u64>
        ensures value { result ≡ script_field row.key.now (unsigned_of row.form) self.old }
        ensures range { IfSome result (IsOfForm row.form) }
        ensures rest { OnSome result (self.new ≡ past row.key.now self.old) }
    {
        unsigned_of(row.form, self.value(row.key)?)
    }

    /// Returns the value of a field of a signed form; `None` for an unsigned form.
    #[tactic(auto, unfolding(crate::specs::ScriptFields::script_field))]
    pub(crate) fn signed(&mut self, row: StatementField) -> Option<i64>
        ensures value { result ≡ script_field row.key.now (signed_of row.form) self.old }
        ensures range { IfSome result (λ n. unsigned_abs n ≤ 32768) }
        ensures rest { OnSome result (self.new ≡ past row.key.now self.old) }
    {
        signed_of(row.form, self.value(row.key)?)
    }

    /// Reads a list of bits.
    #[tactic(auto, unfolding(crate::specs::ScriptFields::script_field))]
    pub(crate) fn bits(&mut self, key: &[u8]) -> Option<Bits>
        ensures value { result ≡ script_field key.now bits_in_text self.old }
        ensures rest { OnSome result (self.new ≡ past key.now self.old) }
    {
        bits_in(self.value(key)?)
    }

    /// Reads the power control bits of a frame.
    #[tactic(auto, unfolding(crate::specs::ScriptFields::script_field))]
    pub(crate) fn power_bits(&mut self, key: &[u8]) -> Option<PowerBits>
        ensures value { result ≡ script_field key.now power_bits_in self.old }
        ensures rest { OnSome result (self.new ≡ past key.now self.old) }
    {
        power_bits_in(self.value(key)?)
    }
}

/// Up to four values of the fields of a line, in their order, and zeros after them.
pub(crate) type LineValues = [u64; 4];

/// Returns the values of a line of at most four unsigned fields; `None` if a field is missing or if
/// text follows the last.
pub(crate) fn unsigned_line(text: &[u8], rows: &[StatementField]) -> Option<LineValues>
    requires { length rows.now ≤ 4 }
    ensures value { result ≡ unsigned_line rows.now text.now }
    ensures range { IfSome result (AreOfForms rows.now (length rows.now)) }
{
    let mut fields = Fields::new(text);
    let mut values = [0; 4];
    for (k, &row) in rows.iter().enumerate() {
        values[k] = fields.unsigned(row)?;
    }
    if !fields.at_end() {
        return None;
    }
    Some(values)
}

/// Returns the text after an initial ` name=`.
#[tactic(auto, using(crate::proofs::ScriptKeys::key_told, crate::proofs::ScriptKeys::key_after))]
fn after_name<'a>(text: &'a [u8], name: &str) -> Option<&'a [u8]>
    ensures { MatchOption result (begins_with text.now (key_of name.now) ≡ false)
        (λ rest. (begins_with text.now (key_of name.now) ≡ true)
        × (rest.now ≡ drop (length (key_of name.now)) text.now)) }
{
    let text = text.strip_prefix(b" ")?;
    let text = text.strip_prefix(name.as_bytes())?;
    text.strip_prefix(b"=")
}

/// Returns the value that a text spells in an unsigned form; `None` for a signed form.
fn unsigned_of(form: FieldForm, text: &[u8]) -> Option<u64>
    ensures value { result ≡ unsigned_of form text.now }
    ensures range { IfSome result (IsOfForm form) }
{
    match form {
        FieldForm::UpTo(most) => number_up_to(text, most),
        FieldForm::State => state_in(text),
        FieldForm::SerialNumber => serial_number_in(text),
        FieldForm::Signed => None,
    }
}

/// Returns the value that a text spells in a signed form; `None` for an unsigned form.
fn signed_of(form: FieldForm, text: &[u8]) -> Option<i64>
    ensures value { result ≡ signed_of form text.now }
    ensures range { IfSome result (λ n. unsigned_abs n ≤ 32768) }
{
    match form {
        FieldForm::Signed => signed_in(text),
        FieldForm::UpTo(_) | FieldForm::State | FieldForm::SerialNumber => None,
    }
}
