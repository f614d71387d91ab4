//! The script of a trial: a whole link, drawn from a number by a generator.

ghost use Rattle.std.specs.Prelude.{◌≡◌, ◌≤◌, ◌<◌, ◌%◌, ◌==◌, [], ◌∷◌, IfOk, OnOk, length};
ghost use Rattle.cell_plan.specs.Stated.{IsStatedCell};
ghost use Rattle.trial_link.specs.Trial as trial;

use cell_plan::{
    CellIdentity, CellPlan, FrameRate, LinkPlan, Page, PagingPlan, PilotPlan, Series, SyncPlan,
    TrafficFrame, TrafficPlan,
};
use cell_script::script_text;
use chip_core::{Bits, CheckForm, OutOfMemory, Pair, PowerBits};
use std::alloc::Global;
use symbol_path::Rate;
use sync_message::SyncFields;

/// The number of frames of the followed traffic channel.
const FRAMES: u8 = 100;

/// A linear congruential generator with 64 bits of state; each draw returns their upper half.
#[derive(Clone, Copy)]
struct Draws {
    state: u64,
}

impl Draws {
    /// The next number.
    fn draw(&mut self) -> u32
        ensures value { result ≡ trial.drawn self.old.state }
        ensures state { self.new.state ≡ trial.past_draw self.old.state }
    {
        self.state = self
            .state
            .wrapping_mul(6_364_136_223_846_793_005)
            .wrapping_add(1_442_695_040_888_963_407);
        (self.state >> 32) as u32
    }

    /// The next bit: the lowest of a draw.
    fn bit(&mut self) -> bool
        ensures value { result ≡ (trial.drawn self.old.state % 2 == 1) }
        ensures state { self.new.state ≡ trial.past_draw self.old.state }
    {
        self.draw() % 2 == 1
    }

    /// Returns the next `count` bits.
    fn bits(&mut self, count: u16) -> Bits
        requires { count ≤ 1184 }
        ensures value { result ≡ trial.bits_drawn self.old.state count }
        ensures count { length result ≡ count }
        ensures state { self.new.state ≡ trial.past_draws self.old.state count }
    {
        let mut bits = Bits::empty();
        for _bit in 0..count {
            bits.append(self.bit());
        }
        bits
    }

    /// The next 16 power control bits.
    fn power_bits(&mut self) -> PowerBits
        ensures value { result ≡ trial.bits_drawn self.old.state 16 }
        ensures state { self.new.state ≡ trial.past_draws self.old.state 16 }
    {
        sixteen(&self.bits(16))
    }

    /// The next rate.
    fn rate(&mut self) -> Rate
        ensures value { result ≡ trial.rate_drawn self.old.state }
        ensures state { self.new.state ≡ trial.past_draw self.old.state }
    {
        match self.draw() % 4 {
            0 => Rate::R9600,
            1 => Rate::R4800,
            2 => Rate::R2400,
            _ => Rate::R1200,
        }
    }

    /// The next frame: its rate, its information bits and its power control bits.
    fn frame(&mut self) -> TrafficFrame
        ensures value { result ≡ trial.frame_drawn self.old.state }
        ensures state { self.new.state ≡ trial.past_frame self.old.state }
    {
        let rate = self.rate();
        let information = self.bits(rate.information_bits());
        let power_bits = self.power_bits();
        TrafficFrame {
            rate: FrameRate::SetOne(rate),
            information,
            power_bits,
        }
    }

    /// The next state of the long code: of 42 bits, and not 0.
    fn state(&mut self) -> u64
        ensures value { result ≡ trial.state_of_draws (trial.drawn self.old.state)
            (trial.drawn (trial.past_draw self.old.state)) }
        ensures state { self.new.state ≡ trial.past_draw (trial.past_draw self.old.state) }
    {
        let high = u64::from(self.draw());
        let state = high * 1024 + u64::from(self.draw() % 1024);
        if state == 0 { 1 } else { state }
    }

    /// The cell, which takes the first draws.
    #[tactic(auto, unfolding(crate::specs::Trial::trial_cell, crate::specs::Trial::past_draws))]
    fn cell(&mut self) -> CellIdentity
        ensures value { result ≡ trial.trial_cell self.old.state }
        ensures lawful { IsStatedCell result }
        ensures state { self.new.state ≡ trial.past_draws self.old.state 4 }
    {
        CellIdentity {
            pn: (self.draw() % 512) as u16,
            time: u64::from(self.draw()),
            lc: self.state(),
            check30: CheckForm::Complemented,
            check16: CheckForm::Complemented,
        }
    }
}

/// Sixteen bits, one for each power control group.
fn sixteen(bits: &Bits) -> PowerBits
    requires { length bits.now ≡ 16 }
    ensures { result ≡ bits.now }
{
    let mut groups = [false; 16];
    for group in 0..16usize {
        groups[group] = bits.get(group as u16);
    }
    groups
}

/// The electronic serial number of the handset that follows the link of a number's script, on Walsh
/// row 8 with FRAME_OFFSET 0.
#[tactic(auto, unfolding(crate::specs::Trial::trial_serial_number))]
pub fn trial_serial_number(number: u64) -> u32
    ensures { result ≡ trial.trial_serial_number number }
{
    let mut draws = Draws { state: number };
    draws.cell();
    draws.draw()
}

/// Returns the script of a number: two seconds of a cell with a pilot, a sync and a paging channel,
/// and three traffic channels. The first of these has a hundred frames of all rates. The values are
/// drawn from the number, so the same number gives the same script. For every number it names a
/// lawful plan: see [`crate::laws::trial_scripts_are_lawful`].
///
/// Returns [`OutOfMemory`] if allocation fails.
#[tactic(auto, unfolding(crate::specs::Trial::trial_text))]
pub fn trial_script(alloc: Global, number: u64) -> Result<Vec<u8>, OutOfMemory>
    ensures { IfOk result (λ script. script.items ≡ trial.trial_text number) }
{
    let plan = trial_plan(alloc, number)?;
    script_text(alloc, &plan)
}

/// The plan of a number.
#[tactic(auto, unfolding(crate::specs::Trial::trial_plan))]
fn trial_plan(alloc: Global, number: u64) -> Result<CellPlan, OutOfMemory>
    ensures { IfOk result (λ plan. plan ≡ trial.trial_plan number) }
{
    let mut draws = Draws { state: number };
    let cell = draws.cell();
    let esn = draws.draw();
    let frames = drawn_frames(alloc, &mut draws)?;
    Ok(CellPlan {
        cell,
        link: LinkPlan {
            factor: Pair { i: 1, q: 0 },
            start: 0,
            samples: 2_457_600,
        },
        pilot: PilotPlan { gain: 100 },
        sync: Some(sync_channel()),
        paging: paging_channels(alloc, cell.pn)?,
        traffic: traffic_channels(alloc, esn, frames)?,
    })
}

/// The sync channel (TIA/EIA-95-B, 7.7.1.3).
#[tactic(auto, unfolding(crate::specs::Trial::trial_sync))]
fn sync_channel() -> SyncPlan
    ensures { result ≡ trial.trial_sync }
{
    let mut rest = Bits::empty();
    rest.append_number(3, 0);
    SyncPlan {
        gain: 30,
        message: SyncFields {
            prev: 3,
            min: 1,
            sid: 1,
            nid: 2,
            pn: 0,
            lc: 0,
            time: 0,
            lp: 13,
            ltm: 0,
            daylt: 0,
            prat: 0,
            freq: None,
            rest,
        },
    }
}

/// The paging channel of a cell, with one page.
fn paging_channels(alloc: Global, pn: u16) -> Result<Series<PagingPlan>, OutOfMemory>
    requires { pn < 512 }
    ensures { IfOk result (λ paging. paging ≡ trial.trial_paging pn ∷ []) }
{
    let mut pages = Series::new(alloc);
    pages.push(channel_list(pn))?;
    let mut paging = Series::new(alloc);
    paging.push(PagingPlan {
        number: 1,
        gain: 60,
        pages,
    })?;
    Ok(paging)
}

/// A hundred frames, which are drawn one after another.
fn drawn_frames(alloc: Global, draws: &mut Draws) -> Result<Series<TrafficFrame>, OutOfMemory>
    ensures { IfOk result (λ frames. frames ≡ trial.frames_drawn draws.old.state 100) }
{
    let mut frames = Series::new(alloc);
    for _frame in 0..FRAMES {
        frames.push(draws.frame())?;
    }
    Ok(frames)
}

/// The channel that the handset follows, with these frames, and the two others.
fn traffic_channels(
    alloc: Global,
    esn: u32,
    frames: Series<TrafficFrame>,
) -> Result<Series<TrafficPlan>, OutOfMemory>
    ensures { IfOk result (λ traffic. traffic ≡ trial.trial_traffic esn frames) }
{
    let mut traffic = Series::new(alloc);
    traffic.push(traffic_channel(8, esn, 0, frames))?;
    traffic.push(traffic_channel(9, 9, 0, other_frames(alloc)?))?;
    traffic.push(traffic_channel(10, 10, 5, other_frames(alloc)?))?;
    Ok(traffic)
}

/// A traffic channel with the gain of all three.
fn traffic_channel(row: u8, esn: u32, offset: u8, frames: Series<TrafficFrame>) -> TrafficPlan
    ensures { result ≡
        record { row = row; esn = esn; offset = offset; gain = 40; frames = frames } }
{
    TrafficPlan {
        row,
        esn,
        offset,
        gain: 40,
        frames,
    }
}

/// The frame of each of the two other channels.
fn other_frames(alloc: Global) -> Result<Series<TrafficFrame>, OutOfMemory>
    ensures { IfOk result (λ frames. frames ≡ trial.other_frame ∷ []) }
{
    let mut frames = Series::new(alloc);
    frames.push(other_frame())?;
    Ok(frames)
}

/// The page of a cell: a CDMA Channel List message with one channel (TIA/EIA-95-B, 7.7.2.3.2.4).
#[tactic(auto, unfolding(crate::specs::Trial::trial_page))]
fn channel_list(pn: u16) -> Page
    requires { pn < 512 }
    ensures { result ≡ trial.trial_page pn }
{
    let mut body = Bits::empty();
    body.append_number(8, 4);
    body.append_number(9, u64::from(pn));
    body.append_number(6, 0);
    body.append_number(11, 283);
    Page {
        follows: false,
        body,
    }
}

/// The frame of the two other channels.
#[tactic(auto, unfolding(crate::specs::Trial::other_frame))]
fn other_frame() -> TrafficFrame
    ensures { result ≡ trial.other_frame }
{
    let mut information = Bits::empty();
    information.append_number(16, 0xffff);
    let mut power_bits = Bits::empty();
    power_bits.append_number(16, 0x5555);
    TrafficFrame {
        rate: FrameRate::SetOne(Rate::R1200),
        information,
        power_bits: sixteen(&power_bits),
    }
}
