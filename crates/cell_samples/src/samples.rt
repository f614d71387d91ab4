//! A cell's samples.

ghost use Rattle.std.specs.Prelude.{◌≡◌, ◌<◌, ◌≤◌, ◌+◌, ◌++◌, ◌%◌, ◌^◌, length, map, take, drop};
ghost use Rattle.std.specs.Prelude.{All, Ok, IfOk};
ghost use Rattle.chip_core.specs.Complex.{of_sample};
ghost use Rattle.cdma_io.specs.SampleFile.{HasBits, IsLawfulHeader};
ghost use Rattle.cell_samples.specs.Channels.{carrier_of};
ghost use Rattle.long_code.specs.LongCode.{IsState};
ghost use Rattle.paging_message.specs.HalfFrames.{IsPagingRate};
ghost use Rattle.cell_plan.specs.Pages.{sent_paging_rate};
ghost use Rattle.cell_plan.specs.Plan.{IsLawfulPlan, IsPagingPlan, IsTrafficPlan};
ghost use Rattle.cell_plan.specs.Signal.{carriers, paging_carrier, samples_of, traffic_carrier};
ghost use Rattle.cell_plan.specs.Transmitter.{IsSendableSync, header_of, phase_at, version_of};

use crate::block::{BLOCK, Block};
use crate::channel::CellChannel;
use crate::continued::ContinuedEncoder;
use crate::frame_source::FrameSource;
use crate::page_cycle::PageCycle;
use crate::sendings::Sendings;
use crate::symbol_source::SymbolSource;
use crate::traffic_cycle::TrafficCycle;
use cdma_io::{Header, Width};
use cell_plan::{CellPlan, PagingPlan, Series, SyncPlan, TrafficPlan};
use chip_core::air::{CODE_CHIPS, OFFSET_CHIPS, PILOT_ROW, SYNC_ROW};
use chip_core::{OutOfMemory, Sample};
use long_code::{paging_mask, traffic_mask};
use short_code::Codes;
use std::alloc::Global;
use std::marker::Model;
use symbol_path::Rate;

/// The number of channels for which there is room at first: the pilot, the sync channel, and seven
/// paging channels.
const FIRST_ROOM: usize = 9;

/// A cell that returns its samples in order, as a handset receives them over the cell's link.
///
/// Contracts see the width of the samples, the plan, and how many samples it has returned.
///
/// TIA/EIA-95-B, 7.1.3.1.8 and 7.1.3.1.9: each channel is spread by its Walsh row, and their sum by
/// the pilot's codes.
#[derive(Drop)]
pub struct CellSamples {
    width: Width,
    plan: CellPlan,
    codes: Codes,
    block: Block,
    given: u64,
}

impl Model for CellSamples {
    ghost use Rattle.cell_plan.specs.Transmitter.{CellState};

    ghost Value = { CellState };

    ghost use Rattle.cell_samples.specs.Running.{IsRunning};

    ghost view = { λ c. record { width = c.width; plan = c.plan; given = c.given } };

    ghost invariant = { λ c. IsRunning c.width c.plan c.block c.given };
}

/// Returns the version of a file whose samples have this width.
fn version_for(width: Width) -> u16
    ensures { result ≡ version_of width }
{
    match width {
        Width::Sixteen => 1,
        Width::Eight => 2,
    }
}

/// Returns the phase of the codes at a local chip. The codes begin 64 chips later for each step of
/// the pilot's offset (TIA/EIA-95-B, 7.1.3.2.1).
fn phase_for(plan: &CellPlan, chip: u64) -> u16
    requires pilot { plan.now.cell.pn < 512 }
    requires chip { chip < 2 ^ 34 }
    ensures value { result ≡ phase_at plan.now chip }
    ensures below { result < 32768 }
{
    ((chip + CODE_CHIPS - OFFSET_CHIPS * u64::from(plan.cell.pn)) % CODE_CHIPS) as u16
}

/// Returns the rate of the paging channels, from the sync message (TIA/EIA-95-B, 7.7.1.3).
fn paging_rate(sync: Option<SyncPlan>) -> Rate
    ensures value { result ≡ sent_paging_rate sync }
    ensures paging { IsPagingRate result }
{
    match sync {
        Some(sync) if sync.message.prat == 1 => Rate::R4800,
        _ => Rate::R9600,
    }
}

/// Makes a paging channel, whose frames begin with local chip 0 (TIA/EIA-95-B, 7.1.3.4).
fn paging_channel(plan: &CellPlan, paging: &PagingPlan) -> CellChannel
    requires pn { plan.now.cell.pn < 512 }
    requires lc { IsState plan.now.cell.lc }
    requires paging { IsPagingPlan (sent_paging_rate plan.now.sync) paging.now }
    ensures { carrier_of result ≡ paging_carrier plan.now paging.now }
{
    let mask = paging_mask(paging.number, plan.cell.pn);
    let rate = paging_rate(plan.sync);
    let cycle = PageCycle::new(&plan.cell, mask, rate, paging.pages.as_slice());
    let encoder = ContinuedEncoder::new(FrameSource::Paging(cycle));
    CellChannel::open(
        paging.gain,
        paging.number,
        0,
        SymbolSource::Continued(encoder),
    )
}

/// Returns these channels followed by the paging channels of a cell.
fn with_paging(
    mut channels: Vec<CellChannel>,
    plan: &CellPlan,
    paging: &[PagingPlan],
) -> Result<Vec<CellChannel>, OutOfMemory>
    requires pn { plan.now.cell.pn < 512 }
    requires lc { IsState plan.now.cell.lc }
    requires paging { All (IsPagingPlan (sent_paging_rate plan.now.sync)) paging.now }
    ensures { IfOk result (λ all. map carrier_of all.items ≡
        map carrier_of channels.items ++ map (paging_carrier plan.now) paging.now) }
{
    for channel in paging {
        channels.push(paging_channel(plan, channel))?;
    }
    Ok(channels)
}

/// Makes a traffic channel of a cell, whose frames begin later by its FRAME_OFFSET (TIA/EIA-95-B,
/// 7.1.3.5).
fn traffic_channel(
    alloc: Global,
    plan: &CellPlan,
    traffic: &TrafficPlan,
) -> Result<CellChannel, OutOfMemory>
    requires lc { IsState plan.now.cell.lc }
    requires traffic { IsTrafficPlan traffic.now }
    ensures { IfOk result (λ channel. carrier_of channel ≡ traffic_carrier plan.now traffic.now) }
{
    let frames = Series::copied(alloc, traffic.frames.as_slice())?;
    let mask = traffic_mask(traffic.esn);
    let cycle = TrafficCycle::new(&plan.cell, mask, traffic.offset, frames);
    let first = cycle.first_chip(0);
    let source = SymbolSource::Traffic(cycle);
    Ok(CellChannel::open(traffic.gain, traffic.row, first, source))
}

/// Returns these channels followed by the traffic channels of a cell.
fn with_traffic(
    alloc: Global,
    mut channels: Vec<CellChannel>,
    plan: &CellPlan,
    traffic: &[TrafficPlan],
) -> Result<Vec<CellChannel>, OutOfMemory>
    requires lc { IsState plan.now.cell.lc }
    requires traffic { All IsTrafficPlan traffic.now }
    ensures { IfOk result (λ all. map carrier_of all.items ≡
        map carrier_of channels.items ++ map (traffic_carrier plan.now) traffic.now) }
{
    for channel in traffic {
        channels.push(traffic_channel(alloc, plan, channel)?)?;
    }
    Ok(channels)
}

/// Returns the channels of a plan: the pilot, the sync channel if there is one, whose frames begin
/// with the cell's code, the paging channels and the traffic channels (TIA/EIA-95-B, 7.1.3.2 to
/// 7.1.3.5).
#[tactic(auto, unfolding(cell_plan::specs::Signal::carriers))]
fn channels_for(alloc: Global, plan: &CellPlan) -> Result<Vec<CellChannel>, OutOfMemory>
    requires sync { IsSendableSync plan.now plan.now.sync }
    requires pn { plan.now.cell.pn < 512 }
    requires lc { IsState plan.now.cell.lc }
    requires paging { All (IsPagingPlan (sent_paging_rate plan.now.sync)) plan.now.paging }
    requires traffic { All IsTrafficPlan plan.now.traffic }
    ensures { IfOk result (λ channels. map carrier_of channels.items ≡ carriers plan.now) }
{
    let mut channels = Vec::with_capacity(alloc, FIRST_ROOM)?;
    let pilot = CellChannel::open(plan.pilot.gain, PILOT_ROW, 0, SymbolSource::Pilot);
    channels.push(pilot)?;
    if let Some(sync) = plan.sync {
        let sendings = FrameSource::Sync(Sendings::new(&plan.cell, &sync.message));
        let source = SymbolSource::Continued(ContinuedEncoder::new(sendings));
        let first = OFFSET_CHIPS * u64::from(plan.cell.pn);
        channels.push(CellChannel::open(sync.gain, SYNC_ROW, first, source))?;
    }
    let continued = with_paging(channels, plan, plan.paging.as_slice())?;
    with_traffic(alloc, continued, plan, plan.traffic.as_slice())
}

impl CellSamples {
    /// Makes the cell of a plan, before its first sample.
    ///
    /// Only allocating the codes' table and the channels can fail. Nothing is allocated later.
    pub fn of_plan(alloc: Global, width: Width, plan: CellPlan) -> Result<CellSamples, OutOfMemory>
        requires { IsLawfulPlan width plan }
        ensures { IfOk result (λ cell. cell ≡ record { width = width; plan = plan; given = 0 }) }
    {
        let codes = Codes::new(alloc)?;
        let channels = channels_for(alloc, &plan)?;
        let block = Block::new(channels, plan.link.factor);
        Ok(CellSamples {
            width,
            plan,
            codes,
            block,
            given: 0,
        })
    }

    /// Returns the header of the cell's file: version 1 for samples of 16 bits, 2 for those of 8,
    /// the forms of the checks, and the total number of samples.
    pub fn header(&self) -> Header
        ensures value { result ≡ header_of self.now.width self.now.plan }
        ensures lawful { IsLawfulHeader result }
    {
        Header {
            version: version_for(self.width),
            check30: self.plan.cell.check30,
            check16: self.plan.cell.check16,
            count: self.plan.link.samples,
        }
    }

    /// Returns how many samples of the cell are left.
    pub fn left(&self) -> u64
        ensures { result + self.now.given ≡ self.now.plan.link.samples }
    {
        self.plan.link.samples - self.given
    }

    /// Returns the number of samples from the next one to the end of its block.
    fn left_in_block(&self) -> usize
        ensures { (self.now.plan.link.start + self.now.given) % 64 + result ≡ 64 }
    {
        let chip = self.plan.link.start + self.given;
        BLOCK - (chip % BLOCK as u64) as usize
    }

    /// Fills `out` with the next samples of the cell, all of one block.
    fn fill_in_block(&mut self, out: &mut [Sample])
        requires left { self.old.given + length out.old ≤ self.old.plan.link.samples }
        requires within { (self.old.plan.link.start + self.old.given) % 64 + length out.old ≤ 64 }
        ensures samples { map of_sample out.new ≡
            take (length out.old) (drop self.old.given (samples_of self.old.plan)) }
        ensures fit { All (HasBits self.old.width) out.new }
        ensures state { self.new ≡ record self.old { given = self.old.given + length out.old } }
    {
        let chip = self.plan.link.start + self.given;
        let phase = phase_for(&self.plan, chip);
        let (_, signs) = self.codes.table().split_at(usize::from(phase));
        self.block.spread(chip, signs, out);
        self.given += out.len() as u64;
    }

    /// Fills `out` with the next samples of the cell, in order.
    ///
    /// However the samples are divided into pieces, the pieces together are the defined samples.
    pub fn fill(&mut self, out: &mut [Sample])
        requires { self.old.given + length out.old ≤ self.old.plan.link.samples }
        ensures samples { map of_sample out.new ≡
            take (length out.old) (drop self.old.given (samples_of self.old.plan)) }
        ensures fit { All (HasBits self.old.width) out.new }
        ensures state { self.new ≡ record self.old { given = self.old.given + length out.old } }
    {
        let mut done = 0;
        while done < out.len() {
            let count = self.left_in_block().min(out.len() - done);
            self.fill_in_block(&mut out[done..done + count]);
            done += count;
        }
    }
}
