//! The live window: the median filter of one label, one wake at a time, with no image in memory. A
//! window holds the last readings, oldest first, each with its sum of distances; a push takes the
//! oldest off and answers with the chosen phase of those that are there.
//! SPECIFICATION, "Live window".
//!
//! A window is a value (`LiveWindow`), or two lent arrays with three numbers beside them
//! (`fresh_in`, `push_in`), as programs in C have it. Each call answers or refuses on every window,
//! also on one that no call made.
#![tactic(auto)]

mod checks;
mod choice;
mod lent;
mod running_sums;

ghost use Rattle.std.specs.Prelude.{◌≡◌, []};
ghost use Rattle.live.specs.Window.{live_after};
ghost use Rattle.live.specs.Calls.{no_window, FreshCall, PushCall};

use checks::check_window;
use cycle::SILENT;
pub use lent::{fresh_in, push_in};
use refusal::Refusal;
use refusal::limits::LIVE_LENGTH;

/// Places of a window's arrays: the readings of the longest window.
pub const PLACES: usize = LIVE_LENGTH as usize;

/// A live window. It begins with `fresh`; its members are for the calls here. A copy is a window by
/// itself.
#[derive(Clone, Copy, Debug, PartialEq, Eq)]
pub struct LiveWindow {
    /// Ticks of the cycle, 1 to 512.
    pub cycle: u32,
    /// How many of the last readings count, an odd number from 1 to 63.
    pub length: u32,
    /// How many of these have come.
    pub filled: u32,
    /// The last `length` readings, oldest first: ticks, or 65,535 for a silent one. Silent too are
    /// the places of readings that have not come, and those behind `length`.
    pub readings: [u16; PLACES],
    /// The sum of the distances in ticks from each reading to all of the window; 0 at a silent one.
    pub sums: [u16; PLACES],
}

/// What an accepted reading is answered.
#[derive(Clone, Copy, Debug, PartialEq, Eq)]
pub enum Live {
    /// Fewer than `length` readings have come.
    Filling,
    /// The chosen phase, a tick.
    Phase(u16),
    /// None of the last `length` readings was heard.
    Silent,
}

/// What the creation of a window is answered, and the window.
#[derive(Clone, Copy, Debug, PartialEq, Eq)]
pub struct NewWindow {
    /// Nothing, or the refusal.
    pub result: Result<(), Refusal>,
    /// The fresh window; if refused, one of cycle 0, which every push refuses by 1.
    pub window: LiveWindow,
}

impl LiveWindow {
    // A window with nothing pushed.
    #[tactic(auto, using(crate::proofs::Calls::empty_window))]
    fn empty(cycle: u32, length: u32) -> LiveWindow
        ensures { result ≡ live_after cycle length [] }
    {
        LiveWindow {
            cycle,
            length,
            filled: 0,
            readings: [SILENT; PLACES],
            sums: [0; PLACES],
        }
    }

    /// A fresh window of a cycle in ticks and a length in readings.
    ///
    /// Refuses the cycle (1: 0 or above 512), then the length (3: even, 0 or above 63), at place 0.
    /// The window is then one of cycle 0 and length 0.
    #[tactic(auto, unfolding(crate::specs::Calls::fresh_due))]
    pub fn fresh(cycle: u32, length: u32) -> NewWindow
        ensures { FreshCall cycle length no_window result.result result.window }
    {
        let result = check_window(cycle, length);
        let window = match result {
            Ok(()) => LiveWindow::empty(cycle, length),
            Err(_) => LiveWindow::empty(0, 0),
        };
        NewWindow { result, window }
    }

    /// Makes the window fresh, of the same cycle and length.
    ///
    /// Refuses the cycle (1), then the length (3), at place 0: neither of a window that `fresh`
    /// accepted. After a refusal the window is as before.
    #[tactic(auto, unfolding(crate::specs::Calls::fresh_due))]
    pub fn reset(&mut self) -> Result<(), Refusal>
        ensures { FreshCall self.old.cycle self.old.length self.old result self.new }
    {
        check_window(self.cycle, self.length)?;
        *self = LiveWindow::empty(self.cycle, self.length);
        Ok(())
    }

    /// Pushes a reading into the window: a tick, or 65,535 for a silent wake. Where the window is
    /// full, its oldest reading leaves.
    ///
    /// Answers `Filling` while fewer than `length` readings have come; then the chosen phase of the
    /// last `length` readings, of which the middle one is the centre, or `Silent` if none of them
    /// was heard. Silent readings count among them.
    ///
    /// Refuses the cycle (1), the length (3), then a reading that is neither a tick nor silent (9),
    /// at place 0: 1 and 3 only of a window that `fresh` did not accept. After a refusal the window
    /// is as before.
    pub fn push(&mut self, reading: u16) -> Result<Live, Refusal>
        ensures { PushCall self.old reading result self.new }
    {
        let LiveWindow {
            cycle,
            length,
            filled,
            readings,
            sums,
        } = self;
        push_in(*cycle, *length, filled, reading, readings, sums)
    }
}
