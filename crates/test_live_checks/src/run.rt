//! A window with readings and resets, one after the other: each call by value and in place, and the
//! answer printed.
//!
//! The word `kept` after a refusal says that the window is as it was in each of its members. Words
//! in capitals are differences.

ghost use Rattle.std.specs.Prelude.{◌≡◌, IfOk, IsTrue};

use crate::report::Report;
use crate::windows::{Call, garbage};
use live::LiveWindow;
use std::io;
use std::io::Write;

/// A window, and whether it has a history: the calls made it, by a fresh window or a reset and the
/// pushes since.
#[derive(Clone, Copy, Debug)]
pub struct Run {
    /// The window.
    pub window: LiveWindow,
    /// Whether it has a history.
    pub has_history: bool,
}

impl Run {
    /// Makes a new window of a cycle and a length, and prints the answer. In place it is made of
    /// other numbers, which a refusal keeps. It fails where no more can be printed.
    pub fn begin<W: Write>(report: &mut Report<W>, cycle: u32, length: u32) -> io::Result<Run>
        ensures { IfOk result (λ run. IsTrue run.has_history) }
    {
        let before = Run {
            window: garbage(cycle, length),
            has_history: true,
        };
        let call = Call::fresh(cycle, length);
        let in_place = Call::fresh_in(before.window);
        write!(report.out, " {}", call.answer)?;
        report.add_comparison(before.is_same_in_place(&call, &in_place), "NOT SO IN PLACE")?;
        Ok(Run {
            window: call.window,
            ..before
        })
    }

    // Whether a call in place does what the one by value does, as far as that is known.
    fn is_same_in_place(&self, call: &Call, in_place: &Call) -> bool {
        let expected = if in_place.answer.is_refused() {
            self.window
        } else if self.has_history {
            call.window
        } else {
            in_place.window
        };
        call.answer == in_place.answer && in_place.window == expected
    }

    // Prints the answer of a call, and what was found different.
    fn print<W: Write>(
        &self,
        report: &mut Report<W>,
        call: &Call,
        in_place: &Call,
    ) -> io::Result<()> {
        write!(report.out, ", {}", call.answer)?;
        if call.answer.is_refused() {
            let is_unchanged = call.window == self.window;
            if is_unchanged {
                write!(report.out, " kept")?;
            }
            report.add_comparison(is_unchanged, "CHANGED")?;
        }
        report.add_comparison(self.is_same_in_place(call, in_place), "NOT SO IN PLACE")
    }

    /// Resets the window, and prints the answer. One that has a history still has one; one that has
    /// none has one if the reset is accepted. It fails where no more can be printed.
    pub fn reset<W: Write>(&mut self, report: &mut Report<W>) -> io::Result<()>
        ensures { IsTrue self.old.has_history → IsTrue self.new.has_history }
    {
        let before = Run {
            window: self.window,
            has_history: true,
        };
        let call = Call::reset(before.window);
        let in_place = Call::fresh_in(before.window);
        before.print(report, &call, &in_place)?;
        if !call.answer.is_refused() {
            let new = Call::fresh(before.window.cycle, before.window.length);
            report.add_comparison(call.window == new.window, "NOT NEW")?;
            self.has_history = true;
        }
        self.window = call.window;
        Ok(())
    }

    /// Pushes a reading, and prints the answer. Whether the window has a history stays. It fails
    /// where no more can be printed.
    pub fn push<W: Write>(&mut self, report: &mut Report<W>, reading: u16) -> io::Result<()>
        ensures { self.new.has_history ≡ self.old.has_history }
    {
        let call = Call::push(self.window, reading).with_known_answer(self.has_history);
        let in_place = Call::push_in(self.window, reading).with_known_answer(self.has_history);
        self.print(report, &call, &in_place)?;
        report.tally.add_push(call.answer.is_refused());
        self.window = call.window;
        Ok(())
    }
}
