//! The choice of a live window: the least sum, and of several the least rank from the centre,
//! compared as one key.

ghost use Rattle.std.specs.Prelude.{◌≡◌, ◌<◌, length, if◌then◌else◌};
ghost use Rattle.std.specs.List.{find};
ghost use Rattle.cycle.specs.Silence.{is_heard, first_heard};
ghost use Rattle.sums.specs.Memory.{no_sum, lowest};
ghost use Rattle.median.specs.Median.{phase_of};
ghost use Rattle.live.specs.Passes.{IsSearchable, HasSums, middle_of, centre_in};
ghost use Rattle.live.specs.Passes.{tick_or_silent, key_of, key_at, phase_in};

use cycle::SILENT;
use median::{phase_by, rank_of};
use sums::{NO_SUM, lower};

// The first heard reading of a window, if there is one.
#[tactic(auto, unfolding(cycle::specs::Silence::is_heard))]
fn find_heard(readings: &[u16]) -> Option<u16>
    ensures { result ≡ find is_heard readings.now }
{
    readings.iter().copied().find(|q| *q != SILENT)
}

// The first heard reading of a window; silent if there is none.
#[tactic(auto, using(crate::proofs::Passes::first_found))]
fn first_heard(readings: &[u16]) -> u16
    ensures { result ≡ first_heard readings.now }
{
    find_heard(readings).unwrap_or(SILENT)
}

// The middle reading, or the first heard one where the middle one is silent.
fn centre_of(readings: &[u16]) -> u16
    requires { 0 < length readings.now }
    ensures { result ≡ centre_in readings.now }
{
    let middle = readings[readings.len() / 2];
    if middle == SILENT {
        return first_heard(readings);
    }
    middle
}

// A tick as it is; silent in place of a number that is none.
#[tactic(auto, unfolding(crate::specs::Passes::tick_or_silent))]
fn tick_or_silent(cycle: u32, q: u16) -> u16
    ensures { result ≡ tick_or_silent cycle q }
{
    if (q as u32) < cycle { q } else { SILENT }
}

// The key of a heard reading; `NO_SUM` of a silent one.
#[tactic(auto, unfolding(cycle::specs::Silence::is_heard))]
fn key_unless_silent(q: u16, key: u32) -> u32
    ensures { result ≡ (if is_heard q then key else no_sum) }
{
    if q == SILENT { NO_SUM } else { key }
}

// The key of a reading: its sum above and its rank below in one number, so that a pass compares
// both at once.
#[tactic(auto, unfolding(crate::specs::Passes::key_of))]
fn key_of(cycle: u16, centre: u16, q: u16, sum: u16) -> u32
    ensures { result ≡ key_of cycle centre q sum }
{
    let rank = rank_of(cycle, centre, q);
    key_unless_silent(q, (sum % 32768) as u32 * 65536 + rank as u32)
}

// The least key of a window. One pass without a branch.
fn least_key(cycle: u16, centre: u16, readings: &[u16], sums: &[u16]) -> u32
    requires { length sums.now ≡ length readings.now }
    ensures { result ≡ lowest (key_at cycle centre readings.now sums.now) (length readings.now) }
{
    let mut least = NO_SUM;
    for (k, q) in readings.iter().enumerate() {
        least = lower(key_of(cycle, centre, *q, sums[k]), least);
    }
    least
}

/// The chosen phase of a window, with the middle reading as the centre, where its sums are those of
/// its readings: a tick, or 65,535 where nothing is heard. Of any other numbers the phase by the
/// least key.
#[tactic(auto, using(crate::proofs::Passes::reads), unfolding(crate::specs::Passes::phase_from))]
pub fn phase_in(cycle: u32, readings: &[u16], sums: &[u16]) -> u16
    requires { IsSearchable cycle readings.now sums.now }
    ensures by_least_key { result ≡ phase_in cycle readings.now sums.now }
    ensures median { HasSums cycle readings.now sums.now
        → result ≡ phase_of cycle (middle_of readings.now) readings.now }
{
    let centre = tick_or_silent(cycle, centre_of(readings));
    let key = least_key(cycle as u16, centre, readings, sums);
    phase_by(cycle, centre, (key % 65536).min(cycle))
}
