//! The job that the command-line arguments ask for.

ghost use Rattle.std.specs.Prelude.{◌≡◌, ◌↔◌, IfOk, map, string_bytes, Some, None, Err};
ghost use Rattle.command_line.specs.Args.{IsLawfulJob, command_entry, job_after, job_by, job_named};
ghost use Rattle.command_line.specs.Args.{IsLawfulSearch, job_limits, job_search};

use crate::commands::Command;
use crate::matching::matches_by;
use crate::testing::are_lawful;
use crate::texts::Args;
use cdma_io::Width;
use chip_core::{EventLimits, Traffic};
use std::alloc::Global;

/// What the command-line arguments ask for.
#[derive(Clone, Copy, PartialEq, Eq, Debug)]
pub enum Job {
    /// `find`: the phase of the strongest pilot.
    Find {
        /// How many samples the search uses, 64 to 32,768.
        span: u16,
        /// How many workers search, 1 to 64.
        workers: u8,
    },
    /// `follow`: the pilot, and what a handset receives.
    Follow {
        /// How many samples the pilot search uses, 64 to 32,768.
        span: u16,
        /// How many workers search the pilot, 1 to 64.
        workers: u8,
        /// How many paths of the signal are followed, 1 to 3.
        fingers: u8,
        /// The number of the paging channel that is followed, 1 to 7.
        paging: u8,
        /// The traffic channel that is followed, if any. Its Walsh row is neither that of the sync
        /// channel nor that of the paging channel.
        traffic: Option<Traffic>,
        /// How many lines of each kind are written: pilots, messages, frames and raw capsules.
        limits: EventLimits,
    },
    /// `rate2`: the frames of a traffic channel of rate set 2.
    Rate2 {
        /// How many samples the pilot search uses, 64 to 32,768.
        span: u16,
        /// How many workers search the pilot, 1 to 64.
        workers: u8,
        /// How many paths of the signal are followed, 1 to 3.
        fingers: u8,
        /// FRAME_OFFSET of the traffic channel, 0 to 15.
        offset: u8,
        /// The handset's electronic serial number.
        esn: u32,
        /// The channel's Walsh row, 1 to 63 but not 32.
        row: u8,
    },
    /// `list`: the frames of a traffic channel, each chosen from several codewords per rate.
    List {
        /// How many samples the pilot search uses, 64 to 32,768.
        span: u16,
        /// How many workers search the pilot, 1 to 64.
        workers: u8,
        /// How many paths of the signal are followed, 1 to 3.
        fingers: u8,
        /// FRAME_OFFSET of the traffic channel, 0 to 15.
        offset: u8,
        /// The handset's electronic serial number.
        esn: u32,
        /// The channel's Walsh row, 1 to 63 but not 32.
        row: u8,
        /// How many of the best codewords of a rate are listed, 1 to 16.
        k: u8,
    },
    /// `idle`: what a handset in slotted mode receives on a paging channel.
    Idle {
        /// How many samples the pilot search uses, 64 to 32,768.
        span: u16,
        /// How many workers search the pilot, 1 to 64.
        workers: u8,
        /// How many paths of the signal are followed, 1 to 3.
        fingers: u8,
        /// The number of the paging channel, 1 to 7.
        paging: u8,
        /// The key from which its slots are computed.
        key: u32,
        /// The index of its slot cycle, 0 to 7: it has 16 times 2^cycle slots of 80 ms.
        cycle: u8,
    },
    /// `survey`: the strength of each pilot.
    Survey {
        /// How many samples the measurement uses, 64 to 32,768.
        span: u16,
        /// How many workers measure, 1 to 64.
        workers: u8,
        /// The phase of the pilot of offset 0, below 32,768.
        base: u16,
        /// How many chips on each side of its phase a pilot is measured, at most 31.
        width: u8,
        /// How many ranks are written, 1 to 512.
        top: u16,
    },
    /// `make`: the samples of a script's cell.
    Make {
        /// The width of each part of a sample.
        width: Width,
    },
    /// `trial`: makes the link that a number determines, follows it, and counts what was received.
    Trial {
        /// The number of the link.
        number: u64,
        /// How many workers search the pilot, 1 to 64.
        workers: u8,
    },
}

/// The search of a job in the first samples.
#[derive(Clone, Copy)]
pub struct JobSearch {
    /// How many of the first samples are searched or measured, at most 32,768.
    pub span: u16,
    /// How many workers search or measure, 1 to 64. The result doesn't depend on it.
    pub workers: u8,
}

impl Job {
    /// Returns the search of this job. `make` searches no samples, `trial` the first 2,048 of its
    /// link.
    pub fn search(self) -> JobSearch
        ensures value { result ≡ job_search self }
        ensures lawful { IsLawfulJob self → IsLawfulSearch result }
    {
        let (span, workers) = match self {
            Job::Find { span, workers }
            | Job::Follow { span, workers, .. }
            | Job::Rate2 { span, workers, .. }
            | Job::List { span, workers, .. }
            | Job::Idle { span, workers, .. }
            | Job::Survey { span, workers, .. } => (span, workers),
            Job::Make { .. } => (0, 1),
            Job::Trial { workers, .. } => (2048, workers),
        };
        JobSearch { span, workers }
    }

    /// Returns how many lines of each kind the taps write. Only `follow` has taps.
    pub fn limits(self) -> EventLimits
        ensures { result ≡ job_limits self }
    {
        match self {
            Job::Follow { limits, .. } => limits,
            _ => [0; 4],
        }
    }
}

/// The reason why arguments yield no job.
#[derive(Clone, Copy, PartialEq, Eq, Debug)]
pub enum WordFault {
    /// The arguments are invalid.
    Bad,
    /// Out of memory while reading them.
    OutOfMemory,
}

/// Returns the job that the arguments name: a command and then its options in any order, each at
/// most once, as `--name VALUE` or `--name=VALUE`. A value is a number of 1 to 20 decimal digits;
/// values of `--esn` and `--key` have exactly eight hex digits of either case.
///
/// `find` takes `--span`, 64 to 32,768 (default 2,048), and `--workers`, 1 to 64 (default 4).
/// `follow` takes these, `--fingers`, 1 to 3 (default 1), `--paging`, 1 to 7 (default 1), and four
/// limits of 0 to 4,294,967,295: `--pilots`, `--messages` and `--frames` (default: the largest),
/// and `--raw` (default 0). For a traffic channel it also takes `--esn` and `--row`, 1 to 63, both
/// or neither, and with them `--offset`, 0 to 15 (default 0). The row is neither 32 nor the paging
/// channel's number. `rate2` takes `--span`, `--workers`, `--fingers` and the same options of a
/// traffic channel; `--esn` and `--row` are required, and the row isn't 32. `list` takes these and
/// `--k`, 1 to 16, which is required. `idle` takes `--span`, `--workers`, `--fingers`, `--paging`,
/// `--key`, which is required, and `--cycle`, 0 to 7 (default 0). `survey` takes `--span`,
/// `--workers`, `--base`, 0 to 32,767 (default 0), `--width`, 0 to 31 (default 10), and `--top`, 1
/// to 512 (default 512). `make` takes `--bits`, 8 or 16 (default 16). `trial` takes `--number`, 0
/// to 2^64 - 1, which is required, and `--workers`.
///
/// All other arguments are rejected as [`WordFault::Bad`], even when out of memory.
pub fn words_of(alloc: Global, args: &[String]) -> Result<Job, WordFault>
    ensures job { IfOk result (λ job. job_named args.now ≡ Some job) }
    ensures bad { (result ≡ Err WordFault.Bad) ↔ (job_named args.now ≡ None) }
    ensures lawful { IfOk result IsLawfulJob }
{
    let Some((command, options)) = args.split_first() else {
        return Err(WordFault::Bad);
    };
    command_of(alloc, command.as_str(), options)
}

/// Returns the job of the command with this name and these options.
fn command_of(alloc: Global, name: &str, options: &[String]) -> Result<Job, WordFault>
    ensures job { IfOk result (λ job.
        job_after name.now (map string_bytes options.now) ≡ Some job) }
    ensures bad { (result ≡ Err WordFault.Bad) ↔
        (job_after name.now (map string_bytes options.now) ≡ None) }
    ensures lawful { IfOk result IsLawfulJob }
{
    let Some(command) = Command::named(name) else {
        return Err(WordFault::Bad);
    };
    job_by(alloc, command, options)
}

/// Returns the job of a command with these options.
fn job_by(alloc: Global, command: Command, options: &[String]) -> Result<Job, WordFault>
    ensures job { IfOk result (λ job.
        job_by (command_entry command) (map string_bytes options.now) ≡ Some job) }
    ensures bad { (result ≡ Err WordFault.Bad) ↔
        (job_by (command_entry command) (map string_bytes options.now) ≡ None) }
    ensures lawful { IfOk result IsLawfulJob }
{
    // Clap allocates, but arguments that name no job must be rejected even when out of memory. So
    // they are checked first, without allocating.
    let rules = command.options();
    if !are_lawful(rules, options) {
        return Err(WordFault::Bad);
    }
    if command.job(&Args { args: options }).is_none() {
        return Err(WordFault::Bad);
    }
    let Ok(matches) = matches_by(alloc, command.name(), rules, options) else {
        return Err(WordFault::OutOfMemory);
    };
    let job = command.job(&matches);
    job.ok_or(WordFault::Bad)
}
