//! A new list of neighbors.

ghost use Rattle.std.specs.Prelude.{◌≡◌, ◌<◌, ◌≤◌, [], length, take};
ghost use Rattle.std.specs.List.{All};
ghost use Rattle.pilot_sets.specs.Pilots.{firsts as firsts_of, without};
ghost use Rattle.pilot_sets.specs.PilotSets.{neighbors_heard, timed_pilots};

use crate::few::Few;
use crate::pilots::{has, has_timer};
use crate::standing::PilotSets;
use chip_core::Numbers;

/// The pilots without their repeats, in the order of their first occurrences.
fn firsts(pilots: &Numbers) -> Few<u16, 128>
    requires { All (λ p. p < 512) pilots.now }
    ensures { result ≡ firsts_of [] pilots.now }
{
    let mut seen: Few<u16, 128> = Few::empty();
    for i in 0..pilots.len() {
        let pilot = pilots.get(i) as u16;
        if !has(seen.all(), pilot) {
            seen.push(pilot);
        }
    }
    seen
}

/// The first 20 pilots that are neither active nor candidates.
fn free_pilots(sets: &PilotSets, pilots: &[u16]) -> Few<u16, 20>
    ensures { result ≡ take 20 (without (timed_pilots sets.now) pilots.now) }
{
    let mut free = Few::empty();
    for p in pilots {
        if !has_timer(sets, *p) {
            free.push_within(20, *p);
        }
    }
    free
}

/// Replaces the neighbors with the first 20 distinct pilots of a new list that are neither active
/// nor candidates.
pub(crate) fn hear_neighbors(sets: &mut PilotSets, pilots: &Numbers)
    requires { All (λ p. p < 512) pilots.now }
    ensures { sets.new ≡ neighbors_heard pilots.now sets.old }
{
    let heard = firsts(pilots);
    sets.neighbors = free_pilots(sets, heard.all());
}
