//! The commands, with the options of each and the job that it makes of their values.

ghost use Rattle.std.specs.Prelude.{◌≡◌, IfSome, find, map, nat_eq, option_map};
ghost use Rattle.std.specs.Cmp.Lexicographic.{pointwise};
ghost use Rattle.command_line.specs.Args.{command_entry, limit_entries, width_of_bits, IsLawfulJob};
ghost use Rattle.command_line.specs.Args.{follow_entry, survey_entry, limits_with, rate2_entry};
ghost use Rattle.command_line.specs.Args.{trial_entry, find_entry, idle_entry, list_entry};
ghost use Rattle.command_line.specs.Args.{make_entry, numbers_by, commands, job_with, entry_of};

use crate::grammar::{
    BASE, BITS, CYCLE, FINGERS, FRAMES, KEY, LIST_LENGTH, MESSAGES, NUMBER, OFFSET, OptionRule,
    PAGING, PILOTS, RAW, ROW, SERIAL_NUMBER, SPAN, TOP, WIDTH, WORKERS,
};
use crate::job::Job;
use crate::receiving::{channel_with, reception_with, traffic_with};
use crate::texts::{Texts, number_by};
use cdma_io::Width;
use chip_core::{EventLimits, Traffic};

/// A command.
#[derive(Clone, Copy)]
pub enum Command {
    /// `find`.
    Find,
    /// `follow`.
    Follow,
    /// `rate2`.
    Rate2,
    /// `list`.
    List,
    /// `idle`.
    Idle,
    /// `survey`.
    Survey,
    /// `make`.
    Make,
    /// `trial`.
    Trial,
}

/// The options of `find`.
static FIND_OPTIONS: [OptionRule; 2] = [SPAN, WORKERS];

/// The options of `follow`.
static FOLLOW_OPTIONS: [OptionRule; 11] = [
    SPAN,
    WORKERS,
    FINGERS,
    PAGING,
    SERIAL_NUMBER,
    ROW,
    OFFSET,
    PILOTS,
    MESSAGES,
    FRAMES,
    RAW,
];

/// The options of `rate2`.
static RATE2_OPTIONS: [OptionRule; 6] = [SPAN, WORKERS, FINGERS, SERIAL_NUMBER, ROW, OFFSET];

/// The options of `list`.
static LIST_OPTIONS: [OptionRule; 7] = [
    SPAN,
    WORKERS,
    FINGERS,
    SERIAL_NUMBER,
    ROW,
    OFFSET,
    LIST_LENGTH,
];

/// The options of `idle`.
static IDLE_OPTIONS: [OptionRule; 6] = [SPAN, WORKERS, FINGERS, PAGING, KEY, CYCLE];

/// The options of `survey`.
static SURVEY_OPTIONS: [OptionRule; 5] = [SPAN, WORKERS, BASE, WIDTH, TOP];

/// The options of `make`.
static MAKE_OPTIONS: [OptionRule; 1] = [BITS];

/// The options of `trial`.
static TRIAL_OPTIONS: [OptionRule; 2] = [NUMBER, WORKERS];

impl Command {
    /// Returns the command with this name.
    pub fn named(name: &str) -> Option<Command>
        ensures { option_map command_entry result ≡
            find (λ entry. pointwise nat_eq name.now entry.name) commands }
    {
        match name {
            "find" => Some(Command::Find),
            "follow" => Some(Command::Follow),
            "rate2" => Some(Command::Rate2),
            "list" => Some(Command::List),
            "idle" => Some(Command::Idle),
            "survey" => Some(Command::Survey),
            "make" => Some(Command::Make),
            "trial" => Some(Command::Trial),
            _ => None,
        }
    }

    /// Returns its name.
    pub fn name(self) -> &'static str
        ensures { result.now ≡ (command_entry self).name }
    {
        match self {
            Command::Find => "find",
            Command::Follow => "follow",
            Command::Rate2 => "rate2",
            Command::List => "list",
            Command::Idle => "idle",
            Command::Survey => "survey",
            Command::Make => "make",
            Command::Trial => "trial",
        }
    }

    /// Returns its options.
    pub fn options(self) -> &'static [OptionRule]
        ensures { map entry_of result.now ≡ (command_entry self).options }
    {
        match self {
            Command::Find => &FIND_OPTIONS,
            Command::Follow => &FOLLOW_OPTIONS,
            Command::Rate2 => &RATE2_OPTIONS,
            Command::List => &LIST_OPTIONS,
            Command::Idle => &IDLE_OPTIONS,
            Command::Survey => &SURVEY_OPTIONS,
            Command::Make => &MAKE_OPTIONS,
            Command::Trial => &TRIAL_OPTIONS,
        }
    }

    /// Returns the job for the values of its options; `None` if a required one is missing or if
    /// they don't go together.
    pub fn job<T: Texts>(self, texts: &T) -> Option<Job>
        ensures value { result ≡ job_with (command_entry self) (T.text_at texts.now) }
        ensures lawful { IfSome result IsLawfulJob }
    {
        match self {
            Command::Find => find_with(texts),
            Command::Follow => follow_with(texts),
            Command::Rate2 => rate2_with(texts),
            Command::List => list_with(texts),
            Command::Idle => idle_with(texts),
            Command::Survey => survey_with(texts),
            Command::Make => make_with(texts),
            Command::Trial => trial_with(texts),
        }
    }
}

/// Returns the job of `find`.
fn find_with<T: Texts>(texts: &T) -> Option<Job>
    ensures value { result ≡ job_with find_entry (T.text_at texts.now) }
    ensures lawful { IfSome result IsLawfulJob }
{
    let span = number_by(texts, &SPAN)?;
    let workers = number_by(texts, &WORKERS)?;
    Some(Job::Find {
        span: span as u16,
        workers: workers as u8,
    })
}

/// Returns the job of `follow`.
fn follow_with<T: Texts>(texts: &T) -> Option<Job>
    ensures value { result ≡ job_with follow_entry (T.text_at texts.now) }
    ensures lawful { IfSome result IsLawfulJob }
{
    let paging = number_by(texts, &PAGING)?;
    let reception = reception_with(texts)?;
    let traffic = traffic_with(texts, paging)?;
    let limits = limits_with(texts)?;
    Some(Job::Follow {
        span: reception.span,
        workers: reception.workers,
        fingers: reception.fingers,
        paging: paging as u8,
        traffic,
        limits,
    })
}

/// Returns the job of `rate2`.
fn rate2_with<T: Texts>(texts: &T) -> Option<Job>
    ensures value { result ≡ job_with rate2_entry (T.text_at texts.now) }
    ensures lawful { IfSome result IsLawfulJob }
{
    let reception = reception_with(texts)?;
    let Traffic { esn, row, offset } = channel_with(texts)?;
    Some(Job::Rate2 {
        span: reception.span,
        workers: reception.workers,
        fingers: reception.fingers,
        offset,
        esn,
        row,
    })
}

/// Returns the job of `list`.
fn list_with<T: Texts>(texts: &T) -> Option<Job>
    ensures value { result ≡ job_with list_entry (T.text_at texts.now) }
    ensures lawful { IfSome result IsLawfulJob }
{
    let k = number_by(texts, &LIST_LENGTH)?;
    let reception = reception_with(texts)?;
    let Traffic { esn, row, offset } = channel_with(texts)?;
    Some(Job::List {
        k: k as u8,
        span: reception.span,
        workers: reception.workers,
        fingers: reception.fingers,
        offset,
        esn,
        row,
    })
}

/// Returns the job of `idle`.
fn idle_with<T: Texts>(texts: &T) -> Option<Job>
    ensures value { result ≡ job_with idle_entry (T.text_at texts.now) }
    ensures lawful { IfSome result IsLawfulJob }
{
    let paging = number_by(texts, &PAGING)?;
    let key = number_by(texts, &KEY)?;
    let cycle = number_by(texts, &CYCLE)?;
    let reception = reception_with(texts)?;
    Some(Job::Idle {
        span: reception.span,
        workers: reception.workers,
        fingers: reception.fingers,
        paging: paging as u8,
        key: key as u32,
        cycle: cycle as u8,
    })
}

/// Returns how many lines of each kind are written: pilots, messages, frames and raw capsules.
fn limits_with<T: Texts>(texts: &T) -> Option<EventLimits>
    ensures { result ≡ limits_with (numbers_by limit_entries (T.text_at texts.now)) }
{
    let pilots = number_by(texts, &PILOTS)?;
    let messages = number_by(texts, &MESSAGES)?;
    let frames = number_by(texts, &FRAMES)?;
    let raw = number_by(texts, &RAW)?;
    Some([pilots as u32, messages as u32, frames as u32, raw as u32])
}

/// Returns the job of `survey`.
fn survey_with<T: Texts>(texts: &T) -> Option<Job>
    ensures value { result ≡ job_with survey_entry (T.text_at texts.now) }
    ensures lawful { IfSome result IsLawfulJob }
{
    let span = number_by(texts, &SPAN)?;
    let workers = number_by(texts, &WORKERS)?;
    let base = number_by(texts, &BASE)?;
    let width = number_by(texts, &WIDTH)?;
    let top = number_by(texts, &TOP)?;
    Some(Job::Survey {
        span: span as u16,
        workers: workers as u8,
        base: base as u16,
        width: width as u8,
        top: top as u16,
    })
}

/// Returns the job of `make`.
fn make_with<T: Texts>(texts: &T) -> Option<Job>
    ensures value { result ≡ job_with make_entry (T.text_at texts.now) }
    ensures lawful { IfSome result IsLawfulJob }
{
    let bits = number_by(texts, &BITS)?;
    Some(Job::Make {
        width: width_of(bits),
    })
}

/// Returns the job of `trial`.
fn trial_with<T: Texts>(texts: &T) -> Option<Job>
    ensures value { result ≡ job_with trial_entry (T.text_at texts.now) }
    ensures lawful { IfSome result IsLawfulJob }
{
    let number = number_by(texts, &NUMBER)?;
    let workers = number_by(texts, &WORKERS)?;
    Some(Job::Trial {
        number: number as u64,
        workers: workers as u8,
    })
}

/// Returns the sample width for `bits` bits per part.
fn width_of(bits: u128) -> Width
    ensures { result ≡ width_of_bits bits }
{
    if bits == 8 {
        Width::Eight
    } else {
        Width::Sixteen
    }
}
