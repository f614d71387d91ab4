//! What is known of a script's plan while its lines are read: what its faults depend on, in memory
//! of a fixed size.

ghost use Rattle.cell_script.specs.Common.{CellPlan as ThePlan, most_part, sync_gain, IsStatedLink};
ghost use Rattle.std.specs.Prelude.{◌≡◌, ◌≢◌, ◌<◌, ◌≤◌, ◌+◌, ◌∷◌, ◌++◌, ◌^◌, [], List, Some, None};
ghost use Rattle.std.specs.Prelude.{IfSome, if◌then◌else◌, option_map};
ghost use Rattle.std.specs.Option.{option_or};
ghost use Rattle.cdma_io.specs.SampleFile.{most_samples};
ghost use Rattle.cell_script.specs.declared.script_fault.ScriptFault.TheVariants.{Gain};
ghost use Rattle.cell_script.specs.Script.{ChannelLine, channel, gain_fault};
ghost use Rattle.cell_script.specs.ScriptDrafts.{empty_plan, with_statement};
ghost use Rattle.cell_script.specs.ScriptJudged.{judged_fault, judged_loudness, HasJudged, HasSeen};
ghost use Rattle.cell_script.specs.ScriptJudged.{IsInOrder};
ghost use Rattle.cell_script.specs.ScriptPlans.{HasRow};

use crate::script_fault::ScriptFault;
use crate::statements::Statement;
use cdma_io::Width;
use cell_plan::{LinkPlan, PilotPlan, SyncPlan};
use chip_core::Pair;
use chip_core::air::{PILOT_ROW, SYNC_ROW};

/// What is known of the plan after the statements so far. Parts that are not stated yet have
/// defaults: a link of 1, one sample, a pilot of gain 1.
#[derive(Clone, Copy)]
pub(crate) struct Judge {
    link: LinkPlan,
    pilot: PilotPlan,
    sync: Option<SyncPlan>,
    channels: ChannelRows,
}

/// The Walsh rows and the gains of the paging and traffic channels so far.
#[derive(Clone, Copy)]
pub(crate) struct ChannelRows {
    // Whether a channel, the pilot and the sync channel included, has the row.
    used: [bool; 64],
    // The row of the first channel that has the row of an earlier one.
    repeated: Option<u8>,
    // The row of the first channel whose gain is 0.
    silent: Option<u8>,
    // The sum of the gains.
    gains: u64,
}

/// Returns the first row that satisfies a condition: the one found before, otherwise `row` if it
/// satisfies the condition.
fn first_row(before: Option<u8>, is: bool, row: u8) -> Option<u8>
    ensures { result ≡ option_or before (if is then Some row else None) }
{
    match before {
        Some(_) => before,
        None if is => Some(row),
        None => None,
    }
}

impl ChannelRows {
    /// Returns only the rows of the pilot and the sync channel.
    fn none() -> ChannelRows
        ensures seen { HasSeen result [] }
        ensures gains { result.gains ≡ 0 }
    {
        let pilot = usize::from(PILOT_ROW);
        let sync = usize::from(SYNC_ROW);
        let mut used = [false; 64];
        used[pilot] = true;
        used[sync] = true;
        ChannelRows {
            used,
            repeated: None,
            silent: None,
            gains: 0,
        }
    }

    /// Returns these channels and another one.
    fn with(mut self, row: u8, gain: u16) -> ChannelRows
        requires row { row < 64 }
        requires room { self.gains < 2 ^ 40 }
        ensures seen { (ls : List ChannelLine) →
            HasSeen self ls → HasSeen result (ls ++ channel row gain ∷ []) }
        ensures gains { result.gains ≤ self.gains + 65535 }
    {
        let place = usize::from(row);
        self.repeated = first_row(self.repeated, self.used[place], row);
        self.silent = first_row(self.silent, gain == 0, row);
        self.used[place] = true;
        self.gains += u64::from(gain);
        self
    }
}

impl Judge {
    /// Returns what is known before the first statement.
    pub(crate) fn new() -> Judge
        ensures judged { HasJudged result empty_plan }
        ensures gains { result.channels.gains ≡ 0 }
    {
        Judge {
            link: LinkPlan {
                factor: Pair { i: 1, q: 0 },
                start: 0,
                samples: 1,
            },
            pilot: PilotPlan { gain: 1 },
            sync: None,
            channels: ChannelRows::none(),
        }
    }

    /// Returns what is known after another statement.
    pub(crate) fn with(self, statement: &Statement) -> Judge
        requires row { HasRow statement.now }
        requires room { self.channels.gains < 2 ^ 40 }
        ensures judged { (plan : ThePlan) → IsInOrder plan statement.now → HasJudged self plan →
            HasJudged result (with_statement plan statement.now) }
        ensures gains { result.channels.gains ≤ self.channels.gains + 65535 }
    {
        match statement {
            Statement::Cell(_) => self,
            Statement::Link(link) => Judge {
                link: *link,
                ..self
            },
            Statement::Pilot(pilot) => Judge {
                pilot: *pilot,
                ..self
            },
            Statement::Sync(sync) => Judge {
                sync: Some(*sync),
                ..self
            },
            Statement::Paging(line) => Judge {
                channels: self.channels.with(line.number, line.gain),
                ..self
            },
            Statement::Traffic(line) => Judge {
                channels: self.channels.with(line.row, line.gain),
                ..self
            },
            Statement::Page(_) => self,
            Statement::Frame(_) => self,
        }
    }

    /// Returns the first fault of the plan.
    pub(crate) fn fault(&self, width: Width) -> Option<ScriptFault>
        requires link { IsStatedLink self.now.link }
        requires few { self.now.channels.gains < 2 ^ 40 }
        ensures value { result ≡ judged_fault width self.now }
        ensures of_script { IfSome result (λ fault. fault ≢ ScriptFault.OutOfMemory) }
    {
        if let Some(row) = self.channels.repeated {
            return Some(ScriptFault::Walsh { row });
        }
        if let Some(row) = self.silent_row() {
            return Some(ScriptFault::Gain { row });
        }
        let sum = self.loudness();
        if sum > most_part(width) {
            return Some(ScriptFault::TooLoud { sum });
        }
        if self.link.samples > most_samples(width) {
            return Some(ScriptFault::TooLong {
                n: self.link.samples,
            });
        }
        None
    }

    /// The row of the first channel whose gain is 0.
    fn silent_row(&self) -> Option<u8>
        ensures { option_map Gain result ≡
            gain_fault self.now.pilot self.now.sync self.now.channels.silent }
    {
        if self.pilot.gain == 0 {
            return Some(PILOT_ROW);
        }
        match self.sync {
            Some(sync) if sync.gain == 0 => Some(SYNC_ROW),
            _ => self.channels.silent,
        }
    }

    /// Returns a bound on the parts of the samples: the sum of the absolute values of the link's
    /// parts, times the sum of the gains.
    fn loudness(&self) -> u64
        requires link { IsStatedLink self.now.link }
        requires few { self.now.channels.gains < 2 ^ 40 }
        ensures { result ≡ judged_loudness self.now }
    {
        let gains = u64::from(self.pilot.gain)
            + u64::from(sync_gain(self.sync))
            + self.channels.gains;
        (self.link.factor.i.unsigned_abs() + self.link.factor.q.unsigned_abs()) * gains
    }
}

/// Returns the gain of the sync channel, or 0 if the plan has none.
fn sync_gain(sync: Option<SyncPlan>) -> u16
    ensures { result ≡ sync_gain sync }
{
    match sync {
        Some(sync) => sync.gain,
        None => 0,
    }
}

/// Returns the largest absolute value of a part of a sample.
fn most_part(width: Width) -> u64
    ensures { result ≡ most_part width }
{
    match width {
        Width::Sixteen => 32_767,
        Width::Eight => 127,
    }
}

/// Returns the largest number of samples in a file.
fn most_samples(width: Width) -> u64
    ensures { result ≡ most_samples width }
{
    match width {
        Width::Sixteen => 33_554_432,
        Width::Eight => 67_108_864,
    }
}
