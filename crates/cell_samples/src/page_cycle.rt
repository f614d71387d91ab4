//! The half-frames of a paging channel.

ghost use Rattle.std.specs.Prelude.{◌≡◌, ◌+◌, ◌*◌, ◌<◌, ◌≤◌, ◌%◌, ◌^◌, false, length, get_or, ◌++◌};
ghost use Rattle.std.specs.Prelude.{replicate};
ghost use Rattle.long_code.specs.LongCode.{IsState};
ghost use Rattle.paging_message.specs.HalfFrames.{half_frame_body, IsPagingRate};
ghost use Rattle.paging_message.specs.Laying.{fill, framed};
ghost use Rattle.cell_plan.specs.Pages.{laid_pages, page_cycle, AreSendable};
ghost use Rattle.cell_plan.specs.PageCycles.{cycle_frame_bits, frame_scrambling, paging_frame_size};
ghost use Rattle.cell_plan.specs.PageCycles.{scrambled};

use cell_plan::{CellIdentity, Page, scrambled};
use chip_core::air::DATA_FRAME_CHIPS;
use chip_core::{Bits, CheckForm};
use long_code::State;
use paging_message::{HalfBits, Layout};
use quality_bits::{Kind, capsule_of};
use std::marker::Model;
use symbol_path::Rate;

/// The half-frames of a cycle of pages, which a cell sends repeatedly. Contracts see the cell, the
/// long code's mask, the rate, and the bits of the cycle.
///
/// TIA/EIA-95-B, 7.7.2.1: a frame of 20 ms has two half-frames.
#[derive(Drop)]
pub struct PageCycle {
    cell: CellIdentity,
    mask: u64,
    rate: Rate,
    bits: HalfBits,
}

impl Model for PageCycle {
    ghost use Rattle.cell_plan.specs.PageCycles.{Cycle, IsCycle};

    ghost Value = { Cycle };

    ghost view = { λ c. record { cell = c.cell; mask = c.mask; rate = c.rate; bits = c.bits } };

    ghost invariant = { λ c.
        IsCycle (record { cell = c.cell; mask = c.mask; rate = c.rate; bits = c.bits }) };
}

/// Pads with zeros to whole half-frames of `half_frame` bits, their SCI bits included.
fn fill_up(half_frame: u16, bits: &mut HalfBits)
    requires some { 1 ≤ half_frame }
    requires few { half_frame ≤ 96 }
    requires room { length bits.old ≤ 8192 }
    ensures { bits.new ≡ bits.old ++ replicate (fill half_frame (length bits.old)) false }
{
    let zeros = (half_frame - bits.len() % half_frame) % half_frame;
    for _zero in 0..zeros {
        bits.append(false);
    }
}

/// Lays pages into half-frames, the last of which ends with the last page.
fn laid(rate: Rate, form: CheckForm, pages: &[Page]) -> HalfBits
    requires rate { IsPagingRate rate }
    requires pages { AreSendable (half_frame_body rate) 0 pages.now }
    ensures value { result ≡
        framed (half_frame_body rate) (laid_pages (half_frame_body rate) form pages.now) }
    ensures some { length pages.now ≤ length result }
    ensures most { length result ≤ 8192 }
{
    let mut layout = Layout::new(rate);
    let mut bits = HalfBits::empty();
    for page in pages {
        let capsule = capsule_of(Kind::M30, form, &page.body);
        layout.put(page.follows, &capsule, &mut bits);
    }
    bits
}

impl PageCycle {
    /// Makes the half-frames of pages that a cell sends at a rate under a mask of the long code.
    pub fn new(cell: &CellIdentity, mask: u64, rate: Rate, pages: &[Page]) -> PageCycle
        requires lc { IsState cell.now.lc }
        requires mask { mask < 2 ^ 42 }
        requires rate { IsPagingRate rate }
        requires some { 1 ≤ length pages.now }
        requires pages { AreSendable (half_frame_body rate) 0 pages.now }
        ensures { result ≡ record {
          cell = cell.now;
          mask = mask;
          rate = rate;
          bits = page_cycle rate cell.now.check30 pages.now;
        } }
    {
        let mut bits = laid(rate, cell.check30, pages);
        fill_up(rate.frame_bits() / 2, &mut bits);
        PageCycle {
            cell: *cell,
            mask,
            rate,
            bits,
        }
    }

    /// Returns the rate at which the cycle is sent.
    pub fn rate(&self) -> Rate
        ensures { result ≡ self.now.rate }
    {
        self.rate
    }

    /// Returns the bit at a place, which is counted through all repetitions of the cycle.
    fn bit(&self, place: u64) -> bool
        ensures { result ≡ get_or self.now.bits (place % length self.now.bits) false }
    {
        let count = u64::from(self.bits.len());
        self.bits.get((place % count) as u16)
    }

    /// Returns the bits of a frame, which follow those of the frames before it.
    pub fn frame_bits(&self, frame: u64) -> Bits
        requires { frame < 2 ^ 20 }
        ensures value { result ≡ cycle_frame_bits self.now frame }
        ensures count { length result ≡ paging_frame_size self.now.rate }
    {
        let size = self.rate.frame_bits();
        let mut bits = Bits::empty();
        for k in 0..size {
            bits.append(self.bit(u64::from(size) * frame + u64::from(k)));
        }
        bits
    }

    /// Returns the 384 symbols of a frame, scrambled by the long code from the frame's first chip
    /// on (7.1.3.1.6).
    pub fn scrambled(&self, frame: u64, symbols: &Bits) -> Bits
        requires frame { frame < 2 ^ 20 }
        requires symbols { length symbols.now ≡ 384 }
        ensures value { result ≡ scrambled (frame_scrambling self.now frame) symbols.now }
        ensures count { length result ≡ 384 }
    {
        let mut state = State::new(self.cell.lc).unwrap();
        state.jump(DATA_FRAME_CHIPS * frame);
        scrambled(&state, self.mask, symbols)
    }
}
