//! The live window in two lent arrays, as programs in C have it; its cycle, its length and its
//! count stand beside them. Readings and sums stay apart, so that the passes over each are packed.

ghost use Rattle.std.specs.Prelude.{◌≡◌, length};
ghost use Rattle.median.specs.Median.{phase_of};
ghost use Rattle.live.specs.Passes.{IsSearchable, HasSums, middle_of};
ghost use Rattle.live.specs.Window.{window_of, result_of, result_by};
ghost use Rattle.live.specs.Calls.{FreshCall, PushCall};

use crate::checks::{check_push, check_window};
use crate::choice::phase_in;
use crate::running_sums::slide;
use crate::{Live, PLACES};
use cycle::SILENT;
use refusal::Refusal;

/// Makes two arrays those of a fresh window of a cycle in ticks and a length in readings.
///
/// Refuses the cycle (1: 0 or above 512), then the length (3: even, 0 or above 63), at place 0.
/// Accepted: all readings are silent (65,535) and all sums are 0. Refused: both arrays are as
/// before.
#[tactic(auto, using(crate::proofs::Calls::empty_window), unfolding(crate::specs::Calls::fresh_due))]
pub fn fresh_in(
    cycle: u32,
    length: u32,
    readings: &mut [u16; PLACES],
    sums: &mut [u16; PLACES],
) -> Result<(), Refusal>
    ensures { FreshCall cycle length (window_of cycle length 0 readings.old sums.old) result
        (window_of cycle length 0 readings.new sums.new) }
{
    check_window(cycle, length)?;
    readings.fill(SILENT);
    sums.fill(0);
    Ok(())
}

impl From<u16> for Live {
    ghost from_gives = { λ phase live. live ≡ result_of phase };

    #[tactic(auto, unfolding(crate::specs::Window::result_of, cycle::specs::Silence::is_heard))]
    fn from(phase: u16) -> Live {
        if phase == SILENT {
            Live::Silent
        } else {
            Live::Phase(phase)
        }
    }
}

// The answer of a window in which so many readings are. No phase is looked for while it fills.
fn answer_by(cycle: u32, filled: u32, readings: &[u16], sums: &[u16]) -> Live
    requires { IsSearchable cycle readings.now sums.now }
    ensures { HasSums cycle readings.now sums.now
        → result ≡ result_by (length readings.now) filled
        (phase_of cycle (middle_of readings.now) readings.now) }
{
    if (filled as usize) < readings.len() {
        return Live::Filling;
    }
    phase_in(cycle, readings, sums).into()
}

/// Pushes a reading into the arrays of a window of which `filled` readings have come: answers and
/// refuses as `LiveWindow::push`.
///
/// Accepted: `filled` is how many have come now; the first `length` places of the arrays are those
/// of the window with the new reading, and the rest are as before. Refused: all three are as
/// before.
pub fn push_in(
    cycle: u32,
    length: u32,
    filled: &mut u32,
    reading: u16,
    readings: &mut [u16; PLACES],
    sums: &mut [u16; PLACES],
) -> Result<Live, Refusal>
    ensures { PushCall (window_of cycle length filled.old readings.old sums.old) reading result
        (window_of cycle length filled.new readings.new sums.new) }
{
    check_push(cycle, length, reading)?;
    let readings = &mut readings[..length as usize];
    let sums = &mut sums[..length as usize];
    slide(cycle as u16, reading, readings, sums);
    *filled = filled.saturating_add(1).min(length);
    Ok(answer_by(cycle, *filled, readings, sums))
}
