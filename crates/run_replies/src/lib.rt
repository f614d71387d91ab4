//! The required output for a job and its input: the text for a sample file or the file for a
//! script, and how a run ends (`run_ends::Status`).
//!
//! The definitions specify it without any code: the listener of each command and the text of a file
//! (`Hearing`), the texts of ranks (`Ranks`) and of a trial (`Trials`), and the replies
//! (`Replies`). `Find` and `Broken` specify the guarantees if the input breaks off or a call on the
//! outside fails. The records of `Runs` and `JobRuns` are the contracts of a run and of its
//! process. Their clauses about a clean link follow from the laws of `clean_link`.
//!
//! The code is the part of a run that is the same for all listeners. It opens a file
//! ([`open_span`]) and a handset for it ([`open_handset`]), and passes the samples to a listener
//! ([`hear_file`], [`FileListener`]). It writes the findings in a file's first samples
//! ([`Findings`]) and the events of a handset ([`tell_events`]), and counts those of a trial
//! ([`Counts`]). It flushes the output ([`pass_on`]) and reports how a run ended ([`report`]).
#![tactic(auto)]

mod counts;
mod findings;
mod handset;
mod handset_events;
mod listener;
mod process;
mod ranks;
mod receiving;
mod workspace;

pub use counts::{Counts, count_events};
pub use findings::{Findings, find_pilot, rank_pilots};
pub use handset::{boxed_handset, open_handset, settings_for, trial_settings};
pub use handset_events::{tell_events, tell_pilot};
pub use listener::FileListener;
pub use process::{Output, args_after_name, pass_on, report, without_taps};
pub use receiving::{hear_file, open_span};
pub use workspace::{PIECE, Workspace};
