//! The statements of a script, each on a line.

ghost use Rattle.std.specs.Prelude.{◌≡◌, ◌≤◌, ◌<◌, ◌^◌, IfSome, IsAscii, OnSome, length};
ghost use Rattle.std.specs.Prelude.{unsigned_abs};
ghost use Rattle.cell_script.specs.ScriptLines.{cell_in, channel_statement_in, check_form, freq_in};
ghost use Rattle.cell_script.specs.ScriptLines.{is_link, link_in, stated_page_in, page_key};
ghost use Rattle.cell_script.specs.ScriptLines.{page_statement, paging_in, past_freq, pilot_in};
ghost use Rattle.cell_script.specs.ScriptLines.{sync_after, sync_fields, statement_in, sync_in};
ghost use Rattle.cell_script.specs.ScriptLines.{lawful_message, traffic_frame_in, frame_key};
ghost use Rattle.cell_script.specs.ScriptLines.{frame_rate, frame_statement, rate_by, traffic_in};
ghost use Rattle.cell_script.specs.LineForms.{read_as};
ghost use Rattle.cell_script.specs.Rows.{AreUpTo, local_rows, network_rows, numbers_in, rows_from};
ghost use Rattle.cell_script.specs.Rows.{past_numbers};
ghost use Rattle.cell_script.specs.ScriptPlans.{HasRow};
ghost use Rattle.cell_plan.specs.Stated.{IsStatedCell, IsStatedLink};
ghost use Rattle.paging_message.specs.Reading.{is_body};
ghost use Rattle.sync_message.specs.SyncMessage.{IsSyncMessage, fixed_fields};
ghost use Rattle.chip_core.specs.Fields.{FieldsFit};

use crate::fields::{Fields, unsigned_line};
use crate::tables::{
    CELL_FIELDS, LINK_FIELDS, PAGING_FIELDS, PILOT_FIELDS, SYNC_GAIN, TRAFFIC_FIELDS,
};
use cell_plan::{CellIdentity, FrameRate, LinkPlan, Page, PilotPlan, SyncPlan, TrafficFrame};
use chip_core::{Bits, CheckForm, Pair};
use line_text::begins_with;
use paging_message::PagingMessage;
use symbol_path::{Rate, Rate2};
use sync_message::{FREQ_FIELD, SyncFields, SyncMessage};

/// The rates that a `frame` or `frame2` line can begin with.
const FRAME_RATES: [FrameRate; 8] = [
    FrameRate::SetOne(Rate::R9600),
    FrameRate::SetOne(Rate::R4800),
    FrameRate::SetOne(Rate::R2400),
    FrameRate::SetOne(Rate::R1200),
    FrameRate::SetTwo(Rate2::R14400),
    FrameRate::SetTwo(Rate2::R7200),
    FrameRate::SetTwo(Rate2::R3600),
    FrameRate::SetTwo(Rate2::R1800),
];

/// The content of a line of a script.
#[derive(Clone, Copy)]
pub enum Statement {
    /// The identity of the cell.
    Cell(CellIdentity),
    /// The link to the cell.
    Link(LinkPlan),
    /// Its pilot channel.
    Pilot(PilotPlan),
    /// Its sync channel.
    Sync(SyncPlan),
    /// Another paging channel; the lines after it state its pages.
    Paging(PagingLine),
    /// Another page of that channel.
    Page(Page),
    /// Another traffic channel; the lines after it state its frames.
    Traffic(TrafficLine),
    /// Another frame of that channel.
    Frame(TrafficFrame),
}

/// A paging channel without its pages.
#[derive(Clone, Copy)]
pub struct PagingLine {
    /// The number of the channel, which is its Walsh row: 1 to 7.
    pub number: u8,
    /// The gain of the channel.
    pub gain: u16,
}

/// A traffic channel without its frames.
#[derive(Clone, Copy)]
pub struct TrafficLine {
    /// The Walsh row: 0 to 63.
    pub row: u8,
    /// The handset's electronic serial number.
    pub esn: u32,
    /// FRAME_OFFSET: 0 to 15.
    pub offset: u8,
    /// The gain of the channel.
    pub gain: u16,
}

/// Returns the statement on the line `text`, without its LF; the lines before it do not matter.
#[tactic(auto, unfolding(crate::specs::ScriptLines::statement_in))]
pub fn statement_in(text: &[u8]) -> Option<Statement>
    ensures value { result ≡ statement_in text.now }
    ensures row { IfSome result HasRow }
{
    if begins_with(text, b"cell ") {
        return Some(Statement::Cell(cell_in(text)?));
    }
    if begins_with(text, b"link ") {
        return Some(Statement::Link(link_in(text)?));
    }
    if begins_with(text, b"pilot ") {
        return Some(Statement::Pilot(pilot_in(text)?));
    }
    if begins_with(text, b"sync ") {
        return Some(Statement::Sync(sync_in(text)?));
    }
    channel_statement_in(text)
}

/// Returns the statement on a line about a paging or traffic channel.
fn channel_statement_in(text: &[u8]) -> Option<Statement>
    ensures value { result ≡ channel_statement_in text.now }
    ensures row { IfSome result HasRow }
{
    if begins_with(text, b"paging ") {
        return Some(Statement::Paging(paging_in(text)?));
    }
    if begins_with(text, b"page ") {
        return Some(Statement::Page(page_in(text)?));
    }
    if begins_with(text, b"traffic ") {
        return Some(Statement::Traffic(traffic_in(text)?));
    }
    if begins_with(text, b"frame ") || begins_with(text, b"frame2 ") {
        return Some(Statement::Frame(frame_in(text)?));
    }
    None
}

/// Returns the form of checks: complemented if the bit is 1.
fn check_form(bit: u64) -> CheckForm
    ensures { result ≡ check_form bit }
{
    if bit == 1 {
        CheckForm::Complemented
    } else {
        CheckForm::Plain
    }
}

/// Reads a `cell` line.
#[tactic(auto, unfolding(crate::specs::ScriptLines::cell_in))]
fn cell_in(text: &[u8]) -> Option<CellIdentity>
    ensures value { result ≡ cell_in text.now }
    ensures lawful { IfSome result IsStatedCell }
{
    let [pn, time, lc, checks] = unsigned_line(text, &CELL_FIELDS)?;
    Some(CellIdentity {
        pn: pn as u16,
        time,
        lc,
        check30: check_form(checks % 2),
        check16: check_form(checks / 2),
    })
}

/// Reads a `link` line.
#[tactic(auto, unfolding(crate::specs::ScriptLines::link_in))]
fn link_in(text: &[u8]) -> Option<LinkPlan>
    ensures value { result ≡ link_in text.now }
    ensures lawful { IfSome result IsStatedLink }
{
    let [re, im, start, samples] = LINK_FIELDS;
    let mut fields = Fields::new(text);
    let re = fields.signed(re)?;
    let im = fields.signed(im)?;
    let start = fields.unsigned(start)?;
    let samples = fields.unsigned(samples)?;
    if !is_link(re, im, samples) {
        return None;
    }
    if !fields.at_end() {
        return None;
    }
    Some(LinkPlan {
        factor: Pair { i: re, q: im },
        start,
        samples,
    })
}

/// Whether these are the numbers of a link: neither the factor nor the number of samples is 0.
fn is_link(re: i64, im: i64, samples: u64) -> bool
    requires in_phase { unsigned_abs re ≤ 32768 }
    requires quadrature { unsigned_abs im ≤ 32768 }
    ensures { result ≡ is_link re im samples }
{
    re.unsigned_abs() + im.unsigned_abs() > 0 && samples > 0
}

/// Reads a `pilot` line.
#[tactic(auto, unfolding(crate::specs::ScriptLines::pilot_in))]
fn pilot_in(text: &[u8]) -> Option<PilotPlan>
    ensures { result ≡ pilot_in text.now }
{
    let [gain, ..] = unsigned_line(text, &PILOT_FIELDS)?;
    Some(PilotPlan { gain: gain as u16 })
}

/// Reads a `sync` line: its gain and the fields of the message. PILOT_PN, SYS_TIME and LC_STATE are
/// zeros here; each transmission fills them in (TIA/EIA-95-B, 7.7.1.3).
#[tactic(auto, unfolding(crate::specs::ScriptLines::sync_in))]
fn sync_in(text: &[u8]) -> Option<SyncPlan>
    ensures value { result ≡ sync_in text.now }
    ensures lawful { IfSome result (λ sync. IsSyncMessage sync.message) }
{
    let mut fields = Fields::new(text);
    let gain = fields.unsigned(SYNC_GAIN)?;
    let network = numbers_from(&mut fields, 0)?;
    let local = numbers_from(&mut fields, 7)?;
    sync_after(gain as u16, &network, &local, fields)
}

/// Four numbers of a `sync` line that are adjacent in the message's table, in its order.
type TableNumbers = [u64; 4];

/// Returns four numbers of a `sync` line: fields `first` to `first + 3` of the message's table.
#[tactic(auto, unfolding(crate::specs::Rows::numbers_in, crate::specs::Rows::past_numbers))]
fn numbers_from(fields: &mut Fields<'_>, first: usize) -> Option<TableNumbers>
    requires { first ≤ 7 }
    ensures value { result ≡ numbers_in (rows_from first) fields.old }
    ensures rest { OnSome result (fields.new ≡ past_numbers (rows_from first) fields.old) }
{
    Some([
        fields.sync_number(first)?,
        fields.sync_number(first + 1)?,
        fields.sync_number(first + 2)?,
        fields.sync_number(first + 3)?,
    ])
}

/// Makes the plan of a `sync` line from its gain, its numbers and the fields after them.
#[tactic(auto, unfolding(crate::specs::ScriptLines::sync_after))]
fn sync_after(
    gain: u16,
    network: &TableNumbers,
    local: &TableNumbers,
    mut fields: Fields<'_>,
) -> Option<SyncPlan>
    requires network { AreUpTo network_rows network.now }
    requires local { AreUpTo local_rows local.now }
    ensures value { result ≡ sync_after gain network.now local.now fields.entry }
    ensures lawful { IfSome result (λ sync. IsSyncMessage sync.message) }
{
    let freq = freq_in(&mut fields)?;
    let rest = fields.bits(b" rest=")?;
    let message = message_with(sync_fields(network, local, freq, rest))?;
    if !fields.at_end() {
        return None;
    }
    Some(SyncPlan { gain, message })
}

/// Makes the message fields from the numbers of a `sync` line.
fn sync_fields(
    network: &TableNumbers,
    local: &TableNumbers,
    freq: Option<u16>,
    rest: Bits,
) -> SyncFields
    requires network { AreUpTo network_rows network.now }
    requires local { AreUpTo local_rows local.now }
    ensures value { result ≡ sync_fields network.now local.now freq rest }
    ensures fixed { FieldsFit (fixed_fields result) }
{
    SyncFields {
        prev: network[0] as u8,
        min: network[1] as u8,
        sid: network[2] as u16,
        nid: network[3] as u16,
        pn: 0,
        lc: 0,
        time: 0,
        lp: local[0] as u8,
        ltm: local[1] as u8,
        daylt: local[2] as u8,
        prat: local[3] as u8,
        freq,
        rest,
    }
}

/// Returns the frequency of a `sync` line, which is optional.
#[tactic(auto, unfolding(crate::specs::ScriptLines::freq_in, crate::specs::ScriptLines::past_freq))]
fn freq_in(fields: &mut Fields<'_>) -> Option<Option<u16>>
    ensures value { result ≡ freq_in fields.old }
    ensures range { IfSome result (λ freq. IfSome freq (λ n. n < 2 ^ 11)) }
    ensures rest { OnSome result (fields.new ≡ past_freq fields.old) }
{
    if !fields.begin_with(FREQ_FIELD) {
        return Some(None);
    }
    Some(Some(fields.number(FREQ_FIELD)? as u16))
}

/// Returns the message of these fields if its rest has an admitted length.
fn message_with(fields: SyncFields) -> Option<SyncFields>
    requires fixed { FieldsFit (fixed_fields fields) }
    requires freq { IfSome fields.freq (λ n. n < 2 ^ 11) }
    ensures value { result ≡ lawful_message fields }
    ensures lawful { IfSome result IsSyncMessage }
{
    Some(SyncMessage::new(fields)?.fields())
}

/// Reads a `paging` line.
#[tactic(auto, unfolding(crate::specs::ScriptLines::paging_in))]
fn paging_in(text: &[u8]) -> Option<PagingLine>
    ensures value { result ≡ paging_in text.now }
    ensures row { IfSome result (λ line. line.number < 64) }
{
    let [number, gain, ..] = unsigned_line(text, &PAGING_FIELDS)?;
    if number == 0 {
        return None;
    }
    Some(PagingLine {
        number: number as u8,
        gain: gain as u16,
    })
}

/// Reads a `page` line: where its capsule begins, and the body of a message.
#[tactic(auto, unfolding(crate::specs::ScriptLines::stated_page_in))]
fn page_in(text: &[u8]) -> Option<Page>
    ensures { result ≡ stated_page_in text.now }
{
    page_with(begins_with(text, b"page next "), Fields::new(text))
}

/// Reads a `page` line; `follows` says whether its capsule follows the previous one at once.
fn page_with(follows: bool, mut fields: Fields<'_>) -> Option<Page>
    ensures { result ≡ read_as (page_statement follows) fields.entry }
{
    let body = fields.bits(page_key(follows))?;
    if !is_body(&body) || !fields.at_end() {
        return None;
    }
    Some(Page { follows, body })
}

/// Returns the text before the bits of a `page` line.
pub fn page_key(follows: bool) -> &'static [u8]
    ensures value { result.now ≡ page_key follows }
    ensures ascii { IsAscii result.now }
    ensures most { length result.now ≤ 11 }
{
    if follows {
        b"page next "
    } else {
        b"page half "
    }
}

/// Whether bits are the body of a paging message.
fn is_body(body: &Bits) -> bool
    ensures { result ≡ is_body body.now }
{
    PagingMessage::from_body(body).is_some()
}

/// Reads a `traffic` line.
#[tactic(auto, unfolding(crate::specs::ScriptLines::traffic_in))]
fn traffic_in(text: &[u8]) -> Option<TrafficLine>
    ensures value { result ≡ traffic_in text.now }
    ensures row { IfSome result (λ line. line.row < 64) }
{
    let [row, esn, offset, gain] = unsigned_line(text, &TRAFFIC_FIELDS)?;
    Some(TrafficLine {
        row: row as u8,
        esn: esn as u32,
        offset: offset as u8,
        gain: gain as u16,
    })
}

/// Reads a `frame` or `frame2` line: a rate of rate set 1 or 2, the information bits of such a
/// frame, and sixteen power control bits.
#[tactic(auto, unfolding(crate::specs::ScriptLines::traffic_frame_in))]
fn frame_in(text: &[u8]) -> Option<TrafficFrame>
    ensures { result ≡ traffic_frame_in text.now }
{
    frame_with(frame_rate(text)?, Fields::new(text))
}

/// Returns the rate that a `frame` or `frame2` line begins with.
fn frame_rate(text: &[u8]) -> Option<FrameRate>
    ensures { result ≡ frame_rate text.now }
{
    first_rate(&FRAME_RATES, text)
}

/// Returns the first of `rates` whose key the line `text` begins with.
fn first_rate(rates: &[FrameRate], text: &[u8]) -> Option<FrameRate>
    ensures { result ≡ rate_by rates.now text.now }
{
    for &rate in rates {
        if begins_with(text, frame_key(rate)) {
            return Some(rate);
        }
    }
    None
}

/// Reads the line of a frame of this rate.
fn frame_with(rate: FrameRate, mut fields: Fields<'_>) -> Option<TrafficFrame>
    ensures { result ≡ read_as (frame_statement rate) fields.entry }
{
    let information = fields.bits(frame_key(rate))?;
    let power_bits = fields.power_bits(b" ")?;
    if information.len() != rate.information_bits() || !fields.at_end() {
        return None;
    }
    Some(TrafficFrame {
        rate,
        information,
        power_bits,
    })
}

/// Returns the text before the bits of a frame of this rate.
pub fn frame_key(rate: FrameRate) -> &'static [u8]
    ensures value { result.now ≡ frame_key rate }
    ensures ascii { IsAscii result.now }
    ensures most { length result.now ≤ 13 }
{
    match rate {
        FrameRate::SetOne(Rate::R9600) => b"frame 9600 ",
        FrameRate::SetOne(Rate::R4800) => b"frame 4800 ",
        FrameRate::SetOne(Rate::R2400) => b"frame 2400 ",
        FrameRate::SetOne(Rate::R1200) => b"frame 1200 ",
        FrameRate::SetTwo(Rate2::R14400) => b"frame2 14400 ",
        FrameRate::SetTwo(Rate2::R7200) => b"frame2 7200 ",
        FrameRate::SetTwo(Rate2::R3600) => b"frame2 3600 ",
        FrameRate::SetTwo(Rate2::R1800) => b"frame2 1800 ",
    }
}
