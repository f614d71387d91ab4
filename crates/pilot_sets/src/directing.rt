//! Reads a handoff direction, or finds why it is refused.

ghost use Rattle.std.specs.Prelude.{◌≡◌, ◌<◌, ◌≤◌, ◌^◌, ◌+◌, [], length};
ghost use Rattle.std.specs.List.{All, find};
ghost use Rattle.pilot_sets.specs.Directions.{IsDirection, is_unknown_row, first_repeated};
ghost use Rattle.pilot_sets.specs.Directions.{direction_fault as fault_of_direction, accepted_of};
ghost use Rattle.pilot_sets.specs.Directions.{direction_time as time_of_direction};
ghost use Rattle.pilot_sets.specs.Directions.{named_pilots as pilots_named};

use crate::fault::DirectionFault;
use crate::few::Few;
use crate::pilots::has;
use crate::standing::{Accepted, NamedPilot};
use chip_core::Numbers;
use traffic_message::DirectionFields;

/// Whether no traffic channel can have this row.
fn is_unknown(row: u32) -> bool
    ensures { result ≡ is_unknown_row row }
{
    row == 0 || row == 32 || row > 63
}

/// Returns the first row that no traffic channel can have.
fn unknown_row(rows: &Numbers) -> Option<u8>
    requires { All (λ r. r < 256) rows.now }
    ensures { result ≡ find is_unknown_row rows.now }
{
    for i in 0..rows.len() {
        let row = rows.get(i);
        if is_unknown(row) {
            return Some(row as u8);
        }
    }
    None
}

/// Returns the first pilot that occurs a second time.
fn repeated(pilots: &Numbers) -> Option<u16>
    requires few { length pilots.now ≤ 6 }
    requires fit { All (λ p. p < 512) pilots.now }
    ensures { result ≡ first_repeated [] pilots.now }
{
    let mut seen: Few<u16, 6> = Few::empty();
    for i in 0..pilots.len() {
        let pilot = pilots.get(i) as u16;
        if has(seen.all(), pilot) {
            return Some(pilot);
        }
        seen.push(pilot);
    }
    None
}

/// Returns why a direction is refused, or `None` if it isn't.
pub(crate) fn direction_fault(d: &DirectionFields) -> Option<DirectionFault>
    requires { IsDirection d.now }
    ensures { result ≡ fault_of_direction d.now }
{
    let count = d.pns.len();
    if count > 6 {
        return Some(DirectionFault::TooMany { count });
    }
    if let Some(row) = unknown_row(&d.rows) {
        return Some(DirectionFault::Unknown { row });
    }
    match repeated(&d.pns) {
        None => None,
        Some(pilot) => Some(DirectionFault::Twice { pilot }),
    }
}

/// Returns the time at which a direction takes effect, in moments; `first` is the time of the first
/// moment at or after the end of its message.
pub(crate) fn direction_time(first: u64, d: &DirectionFields) -> u64
    requires first { first < 2 ^ 40 }
    requires action { d.now.action < 64 }
    ensures value { result ≡ time_of_direction first d.now }
    ensures bound { result < first + 64 }
{
    if d.use_time == 0 {
        return first + 1;
    }
    first + (u64::from(d.action) + 64 - first % 64) % 64
}

/// The pilots of a direction's records.
fn named_pilots(pns: &Numbers, combs: &Numbers, rows: &Numbers) -> Few<NamedPilot, 6>
    requires few { length pns.now ≤ 6 }
    requires combs_long { length combs.now ≡ length pns.now }
    requires rows_long { length rows.now ≡ length pns.now }
    requires pilots_fit { All (λ p. p < 512) pns.now }
    requires rows_fit { All (λ r. r < 256) rows.now }
    ensures { result ≡ pilots_named pns.now combs.now rows.now }
{
    let mut named = Few::empty();
    for i in 0..pns.len() {
        named.push(NamedPilot {
            pilot: pns.get(i) as u16,
            row: rows.get(i) as u8,
            combined: combs.get(i) == 1,
        });
    }
    named
}

/// Returns the content of a direction and its time.
pub(crate) fn accept(first: u64, d: &DirectionFields) -> Accepted
    requires first { first < 2 ^ 40 }
    requires direction { IsDirection d.now }
    requires few { length d.now.pns ≤ 6 }
    ensures { result ≡ accepted_of first d.now }
{
    Accepted {
        time: direction_time(first, d),
        search: d.search,
        named: named_pilots(&d.pns, &d.combs, &d.rows),
    }
}
