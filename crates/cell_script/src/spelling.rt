//! Writes the statements of a script, without their LF.

ghost use Rattle.std.specs.Prelude.{◌≡◌, ◌<◌, ◌≤◌, ◌+◌, ◌++◌, [], length, get_or, IsAscii, decimal};
ghost use Rattle.std.specs.Fmt.{signed_decimal};
ghost use Rattle.sync_message.specs.Rows.{sync_names};
ghost use Rattle.cell_script.specs.Rows.{key_of, local_rows, network_rows, sync_row};
ghost use Rattle.cell_script.specs.ScriptLines.{form_bit};
ghost use Rattle.cell_script.specs.Spelling.{HasDigits, local_values, network_values, numbers_text};
ghost use Rattle.cell_script.specs.Spelling.{statement_text, value_text, written_cell};
ghost use Rattle.cell_script.specs.Spelling.{written_frame, written_freq, written_link};
ghost use Rattle.cell_script.specs.Spelling.{written_page, written_paging, written_pilot};
ghost use Rattle.cell_script.specs.Spelling.{written_sync, written_traffic};

use crate::statements::{PagingLine, Statement, TrafficLine, frame_key, page_key};
use crate::tables::{
    CELL_FIELDS, FieldForm, LINK_FIELDS, PAGING_FIELDS, PILOT_FIELDS, SYNC_GAIN, StatementField,
    TRAFFIC_FIELDS,
};
use cell_plan::{CellIdentity, LinkPlan, Page, PilotPlan, SyncPlan, TrafficFrame};
use chip_core::CheckForm;
use line_text::Text;
use sync_message::{FREQ_FIELD, FieldRow, SyncFields, sync_name, sync_width};

/// Adds a value of an unsigned form.
fn append_value(text: &mut Text, form: FieldForm, value: u64)
    requires digits { HasDigits form value }
    requires room { length text.old + 20 ≤ 1024 }
    ensures value { text.new ≡ text.old ++ value_text form value }
    ensures len { length text.new ≤ length text.old + 20 }
{
    match form {
        FieldForm::UpTo(_) | FieldForm::Signed => text.append_number(value),
        FieldForm::State => text.append_state(value),
        FieldForm::SerialNumber => text.append_serial_number(value as u32),
    }
}

/// Adds a field: its key, then a value of an unsigned form.
fn append_field(text: &mut Text, field: StatementField, value: u64)
    requires ascii { IsAscii field.key.now }
    requires digits { HasDigits field.form value }
    requires room { length text.old + length field.key.now + 20 ≤ 1024 }
    ensures value { text.new ≡ text.old ++ (field.key.now ++ value_text field.form value) }
    ensures len { length text.new ≤ length text.old + length field.key.now + 20 }
{
    text.append(field.key);
    append_value(text, field.form, value);
}

/// Adds a field: its key, then a value of a signed form.
fn append_signed_field(text: &mut Text, field: StatementField, value: i64)
    requires ascii { IsAscii field.key.now }
    requires room { length text.old + length field.key.now + 20 ≤ 1024 }
    ensures value { text.new ≡ text.old ++ (field.key.now ++ signed_decimal value) }
    ensures len { length text.new ≤ length text.old + length field.key.now + 20 }
{
    text.append(field.key);
    text.append_number(value);
}

/// Adds a numeric field of a message.
fn append_number(text: &mut Text, row: FieldRow, value: u64)
    requires ascii { IsAscii row.0.now }
    requires room { length text.old + length (key_of row.0.now) + 20 ≤ 1024 }
    ensures value { text.new ≡ text.old ++ (key_of row.entry.0.now ++ decimal value) }
    ensures len { length text.new ≤ length text.old + length (key_of row.entry.0.now) + 20 }
{
    text.append_name(row.0.as_bytes());
    text.append_number(value);
}

/// Adds the numeric field at this place of the sync message's table.
fn append_sync_number(text: &mut Text, place: usize, value: u64)
    requires place { place < 11 }
    requires ascii { IsAscii (get_or sync_names place []) }
    requires room { length text.old + length (sync_row place).key + 20 ≤ 1024 }
    ensures value { text.new ≡ text.old ++ ((sync_row place).key ++ decimal value) }
    ensures len { length text.new ≤ length text.old + length (sync_row place).key + 20 }
{
    append_number(text, (sync_name(place), sync_width(place)), value);
}

/// Returns the bit of a form of checks: 1 if they are complemented.
fn form_bit(form: CheckForm) -> u64
    ensures value { result ≡ form_bit form }
    ensures most { result ≤ 1 }
{
    match form {
        CheckForm::Plain => 0,
        CheckForm::Complemented => 1,
    }
}

/// Adds the text of a statement to the empty text.
pub(crate) fn append_statement(text: &mut Text, statement: &Statement)
    requires { text.old ≡ [] }
    ensures { text.new ≡ statement_text statement.now }
{
    match statement {
        Statement::Cell(cell) => append_cell(text, cell),
        Statement::Link(link) => append_link(text, link),
        Statement::Pilot(pilot) => append_pilot(text, pilot),
        Statement::Sync(sync) => append_sync(text, sync),
        Statement::Paging(line) => append_paging(text, line),
        Statement::Page(page) => append_page(text, page),
        Statement::Traffic(line) => append_traffic(text, line),
        Statement::Frame(frame) => append_frame(text, frame),
    }
}

/// Adds the text of a cell to the empty text.
#[tactic(auto, unfolding(crate::specs::Spelling::written_cell))]
fn append_cell(text: &mut Text, cell: &CellIdentity)
    requires { text.old ≡ [] }
    ensures { text.new ≡ written_cell cell.now }
{
    let [pn, time, lc, checks] = CELL_FIELDS;
    append_field(text, pn, u64::from(cell.pn));
    append_field(text, time, cell.time);
    append_field(text, lc, cell.lc);
    let forms = form_bit(cell.check30) + 2 * form_bit(cell.check16);
    append_field(text, checks, forms);
}

/// Adds the text of a link to the empty text.
#[tactic(auto, unfolding(crate::specs::Spelling::written_link))]
fn append_link(text: &mut Text, link: &LinkPlan)
    requires { text.old ≡ [] }
    ensures { text.new ≡ written_link link.now }
{
    let [re, im, start, samples] = LINK_FIELDS;
    append_signed_field(text, re, link.factor.i);
    append_signed_field(text, im, link.factor.q);
    append_field(text, start, link.start);
    append_field(text, samples, link.samples);
}

/// Adds the text of a pilot channel to the empty text.
#[tactic(auto, unfolding(crate::specs::Spelling::written_pilot))]
fn append_pilot(text: &mut Text, pilot: &PilotPlan)
    requires { text.old ≡ [] }
    ensures { text.new ≡ written_pilot pilot.now }
{
    append_field(text, PILOT_FIELDS[0], u64::from(pilot.gain));
}

/// Adds the text of a sync channel to the empty text.
#[tactic(auto, unfolding(crate::specs::Spelling::written_sync))]
fn append_sync(text: &mut Text, sync: &SyncPlan)
    requires { text.old ≡ [] }
    ensures { text.new ≡ written_sync sync.now }
{
    append_field(text, SYNC_GAIN, u64::from(sync.gain));
    append_network(text, &sync.message);
    append_local(text, &sync.message);
    append_freq(text, sync.message.freq);
    text.append_str(" rest=");
    text.append_bits(&sync.message.rest);
}

/// Adds a message's fields on the protocol and the network.
fn append_network(text: &mut Text, message: &SyncFields)
    requires { length text.old ≤ 200 }
    ensures value { text.new ≡ text.old
        ++ numbers_text network_rows (network_values message.now) }
    ensures len { length text.new ≤ length text.old + 120 }
{
    append_sync_number(text, 0, u64::from(message.prev));
    append_sync_number(text, 1, u64::from(message.min));
    append_sync_number(text, 2, u64::from(message.sid));
    append_sync_number(text, 3, u64::from(message.nid));
}

/// Adds a message's fields on local time and the paging channel.
fn append_local(text: &mut Text, message: &SyncFields)
    requires { length text.old ≤ 400 }
    ensures value { text.new ≡ text.old ++ numbers_text local_rows (local_values message.now) }
    ensures len { length text.new ≤ length text.old + 120 }
{
    append_sync_number(text, 7, u64::from(message.lp));
    append_sync_number(text, 8, u64::from(message.ltm));
    append_sync_number(text, 9, u64::from(message.daylt));
    append_sync_number(text, 10, u64::from(message.prat));
}

/// Adds the frequency of a message, if it has one.
fn append_freq(text: &mut Text, freq: Option<u16>)
    requires { length text.old ≤ 600 }
    ensures value { text.new ≡ text.old ++ written_freq freq }
    ensures len { length text.new ≤ length text.old + 40 }
{
    if let Some(freq) = freq {
        append_number(text, FREQ_FIELD, u64::from(freq));
    }
}

/// Adds the text of a paging channel to the empty text.
#[tactic(auto, unfolding(crate::specs::Spelling::written_paging))]
fn append_paging(text: &mut Text, line: &PagingLine)
    requires { text.old ≡ [] }
    ensures { text.new ≡ written_paging line.now }
{
    let [number, gain] = PAGING_FIELDS;
    append_field(text, number, u64::from(line.number));
    append_field(text, gain, u64::from(line.gain));
}

/// Adds the text of a page to the empty text.
#[tactic(auto, unfolding(crate::specs::Spelling::written_page))]
fn append_page(text: &mut Text, page: &Page)
    requires { text.old ≡ [] }
    ensures { text.new ≡ written_page page.now }
{
    text.append(page_key(page.follows));
    text.append_bits(&page.body);
}

/// Adds the text of a traffic channel to the empty text.
#[tactic(auto, unfolding(crate::specs::Spelling::written_traffic))]
fn append_traffic(text: &mut Text, line: &TrafficLine)
    requires { text.old ≡ [] }
    ensures { text.new ≡ written_traffic line.now }
{
    let [row, esn, offset, gain] = TRAFFIC_FIELDS;
    append_field(text, row, u64::from(line.row));
    append_field(text, esn, u64::from(line.esn));
    append_field(text, offset, u64::from(line.offset));
    append_field(text, gain, u64::from(line.gain));
}

/// Adds the text of a frame to the empty text.
#[tactic(auto, unfolding(crate::specs::Spelling::written_frame))]
fn append_frame(text: &mut Text, frame: &TrafficFrame)
    requires { text.old ≡ [] }
    ensures { text.new ≡ written_frame frame.now }
{
    text.append(frame_key(frame.rate));
    text.append_bits(&frame.information);
    text.append_str(" ");
    text.append_digits(&frame.power_bits);
}
