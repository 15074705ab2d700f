//! The tests of the live window's calls.

ghost use Rattle.std.specs.Prelude.{◌≡◌};
ghost use Rattle.refusal.specs.Outcome.{first_due, outcome};
ghost use Rattle.live.specs.Calls.{window_rules, push_rules};

use cycle::{check_cycle, check_reading};
use refusal::Refusal;
use refusal::limits::{LIVE_CYCLE, LIVE_LENGTH};
use shape::check_side;

/// Tests 1 and 3 of a window: its cycle in ticks, then its length in readings.
#[tactic(auto, using(crate::proofs::Groups::window_in_row))]
pub fn check_window(cycle: u32, length: u32) -> Result<(), Refusal>
    ensures { outcome result ≡ first_due (window_rules cycle length) tt }
{
    check_cycle(LIVE_CYCLE, cycle)?;
    check_side(length, LIVE_LENGTH)
}

/// The tests of a push: 1 and 3 of the window, then 9 of the reading.
#[tactic(auto, using(crate::proofs::Groups::push_in_row))]
pub fn check_push(cycle: u32, length: u32, reading: u16) -> Result<(), Refusal>
    ensures { outcome result ≡ first_due (push_rules cycle length reading) tt }
{
    check_window(cycle, length)?;
    check_reading(cycle, reading, 0)
}
