//! Which statements of a script may follow one another.

ghost use Rattle.cell_script.specs.Common.{bits_left, half_frame_body, fill};
ghost use Rattle.std.specs.Prelude.{◌≡◌, ◌<◌, ◌≤◌, true};
ghost use Rattle.cell_script.specs.ScriptStages.{stage_after_sync, count_after, frames_stage};
ghost use Rattle.cell_script.specs.ScriptStages.{is_complete, is_cycle, may_follow, next_stage};
ghost use Rattle.cell_script.specs.ScriptStages.{page_stage};

use crate::statements::Statement;
use cell_plan::{FrameRate, Page, RateSet, SyncPlan};
use symbol_path::Rate;

/// The largest number of bits of a cycle up to the end of its last capsule, including SCI bits.
const MOST_CYCLE_BITS: u32 = 8192;

/// The number of bits that a capsule has besides its body: those of its length and its check
/// (TIA/EIA-95-B, 7.7.2).
const CAPSULE_BITS: u32 = 38;

/// How many body bits of a half-frame must be left for a capsule to follow another at once
/// (TIA/EIA-95-B, 7.7.2.1).
const LEAST_LEFT: u32 = 8;

/// The kind of statement that may come next.
#[derive(Clone, Copy)]
pub enum Stage {
    /// `cell`, the first one.
    Cell,
    /// `link`.
    Link,
    /// `pilot`.
    Pilot,
    /// `sync`, or the end of the script.
    Sync,
    /// `paging`, `traffic`, or the end. Paging channels have this rate.
    Paging(Rate),
    /// `page`, the first one of a channel with this rate.
    FirstPage(Rate),
    /// `page`, `paging`, `traffic`, or the end.
    Pages {
        /// The rate of paging channels.
        rate: Rate,
        /// The number of body bits that the pages of the channel fill so far.
        count: u16,
    },
    /// `traffic`, or the end.
    Traffic,
    /// `frame` or `frame2`, the first one of a channel.
    FirstFrame,
    /// `frame` for rate set 1 or `frame2` for rate set 2, `traffic`, or the end.
    Frames(RateSet),
}

/// Returns how many body bits a half-frame has: 95 at 9600 bits per second, 47 at 4800
/// (TIA/EIA-95-B, 7.7.2.1).
fn half_frame_body(rate: Rate) -> u32
    ensures value { result ≡ half_frame_body rate }
    ensures some { 1 ≤ result }
    ensures most { result ≤ 95 }
{
    match rate {
        Rate::R9600 => 95,
        Rate::R4800 => 47,
        Rate::R2400 => 23,
        Rate::R1200 => 11,
    }
}

/// Returns how many body bits of the current half-frame are left after `count` body bits.
fn bits_left(size: u32, count: u16) -> u32
    requires some { 1 ≤ size }
    requires most { size ≤ 95 }
    ensures left { result ≡ bits_left size count }
    ensures fill { result ≡ fill size count }
    ensures below { result < size }
{
    (size - u32::from(count) % size) % size
}

/// Returns how many body bits a cycle has after another page. The page begins a half-frame unless
/// it follows at once.
fn count_after(rate: Rate, count: u16, page: &Page) -> u32
    ensures value { result ≡ count_after rate count page.now }
    ensures most { result ≤ 70000 }
{
    let capsule = CAPSULE_BITS + u32::from(page.body.len());
    if page.follows {
        return u32::from(count) + capsule;
    }
    u32::from(count) + bits_left(half_frame_body(rate), count) + capsule
}

/// Whether a page may come after `count` body bits: one that follows at once needs room for its
/// capsule's length in the half-frame.
fn may_follow(rate: Rate, count: u16, follows: bool) -> bool
    ensures { result ≡ may_follow rate count follows }
{
    if !follows {
        return true;
    }
    bits_left(half_frame_body(rate), count) >= LEAST_LEFT
}

/// Whether a cycle of `count` body bits is not too long.
fn is_cycle(rate: Rate, count: u32) -> bool
    requires { count ≤ 70000 }
    ensures value { result ≡ is_cycle rate count }
    ensures few { result ≡ true → count ≤ 8192 }
{
    let size = half_frame_body(rate);
    count + (count + size - 1) / size <= MOST_CYCLE_BITS
}

/// Returns the stage after a page that comes after `count` body bits of its cycle.
#[tactic(auto, unfolding(crate::specs::ScriptStages::page_stage))]
fn stage_after_page(rate: Rate, count: u16, page: &Page) -> Option<Stage>
    ensures { result ≡ page_stage rate count page.now }
{
    if !may_follow(rate, count, page.follows) {
        return None;
    }
    let following = count_after(rate, count, page);
    if !is_cycle(rate, following) {
        return None;
    }
    Some(Stage::Pages {
        rate,
        count: following as u16,
    })
}

/// Returns the stage after a `sync` line: traffic channels, preceded by paging channels if the rate
/// in its message is 9600 or 4800 bits per second (TIA/EIA-95-B, 7.7.1.3).
fn stage_after_sync(sync: &SyncPlan) -> Stage
    ensures { result ≡ stage_after_sync sync.now }
{
    match sync.message.prat {
        0 => Stage::Paging(Rate::R9600),
        1 => Stage::Paging(Rate::R4800),
        _ => Stage::Traffic,
    }
}

/// Returns the stage after another frame of a channel of this rate set; `None` if the frame is of
/// the other rate set.
fn frames_stage(set: RateSet, rate: FrameRate) -> Option<Stage>
    ensures { result ≡ frames_stage set rate }
{
    match (set, rate) {
        (RateSet::One, FrameRate::SetOne(_)) | (RateSet::Two, FrameRate::SetTwo(_)) => {
            Some(Stage::Frames(set))
        }
        _ => None,
    }
}

impl Stage {
    /// Returns the stage after a statement; `None` if the statement is misplaced.
    pub fn after(self, statement: &Statement) -> Option<Stage>
        ensures { result ≡ next_stage self statement.now }
    {
        match (self, statement) {
            (Stage::Cell, Statement::Cell(_)) => Some(Stage::Link),
            (Stage::Link, Statement::Link(_)) => Some(Stage::Pilot),
            (Stage::Pilot, Statement::Pilot(_)) => Some(Stage::Sync),
            (Stage::Sync, Statement::Sync(sync)) => Some(stage_after_sync(sync)),
            (Stage::Paging(rate) | Stage::Pages { rate, .. }, Statement::Paging(_)) => {
                Some(Stage::FirstPage(rate))
            }
            (Stage::FirstPage(rate), Statement::Page(page)) => stage_after_page(rate, 0, page),
            (Stage::Pages { rate, count }, Statement::Page(page)) => stage_after_page(
                rate, count, page,
            ),
            (Stage::Paging(_) | Stage::Pages { .. } | Stage::Traffic, Statement::Traffic(_)) => {
                Some(Stage::FirstFrame)
            }
            (Stage::Frames(_), Statement::Traffic(_)) => Some(Stage::FirstFrame),
            (Stage::FirstFrame, Statement::Frame(frame)) => Some(Stage::Frames(frame.rate.set())),
            (Stage::Frames(set), Statement::Frame(frame)) => frames_stage(set, frame.rate),
            _ => None,
        }
    }

    /// Whether a script may end.
    pub fn is_complete(self) -> bool
        ensures { result ≡ is_complete self }
    {
        match self {
            Stage::Cell | Stage::Link | Stage::Pilot => false,
            Stage::FirstPage(_) | Stage::FirstFrame => false,
            Stage::Sync | Stage::Paging(_) | Stage::Pages { .. } => true,
            Stage::Traffic | Stage::Frames(_) => true,
        }
    }
}
