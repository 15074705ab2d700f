//! Calls of a live window, by value and in place, and windows in print.

use crate::answer::{Answer, Repeats};
use live::{LiveWindow, PLACES};
use std::fmt;

// The answer of a call, and the window after it.
#[derive(Clone, Copy, PartialEq, Eq)]
pub(crate) struct Call {
    pub answer: Answer,
    pub window: LiveWindow,
}

impl Call {
    pub(crate) fn fresh(cycle: u32, length: u32) -> Call {
        let made = LiveWindow::fresh(cycle, length);
        Call {
            answer: made.result.into(),
            window: made.window,
        }
    }

    // A new window, or a reset, in place.
    pub(crate) fn fresh_in(before: LiveWindow) -> Call {
        let mut window = before;
        let result = live::fresh_in(
            before.cycle,
            before.length,
            &mut window.readings,
            &mut window.sums,
        );
        if result.is_ok() {
            window.filled = 0;
        }
        Call {
            answer: result.into(),
            window,
        }
    }

    pub(crate) fn reset(before: LiveWindow) -> Call {
        let mut window = before;
        let result = window.reset();
        Call {
            answer: result.into(),
            window,
        }
    }

    pub(crate) fn push(before: LiveWindow, reading: u16) -> Call {
        let mut window = before;
        let result = window.push(reading);
        Call {
            answer: result.into(),
            window,
        }
    }

    pub(crate) fn push_in(before: LiveWindow, reading: u16) -> Call {
        let mut window = before;
        let result = live::push_in(
            before.cycle,
            before.length,
            &mut window.filled,
            reading,
            &mut window.readings,
            &mut window.sums,
        );
        Call {
            answer: result.into(),
            window,
        }
    }

    // The call, with no more of its answer than is known: of a window without history only whether
    // it is refused, and by what.
    pub(crate) fn with_known_answer(self, has_history: bool) -> Call {
        let answer = if has_history || self.answer.is_refused() {
            self.answer
        } else {
            Answer::Unknown
        };
        Call { answer, ..self }
    }
}

// Numbers that no fresh window holds, for a new window to be made in their place.
pub(crate) fn garbage(cycle: u32, length: u32) -> LiveWindow {
    LiveWindow {
        cycle,
        length,
        filled: 0,
        readings: [40503; PLACES],
        sums: [9973; PLACES],
    }
}

/// The members of a window, as a case has them.
#[derive(Clone, Copy, Debug)]
pub struct Members<'a>(pub &'a LiveWindow);

impl<'a> fmt::Display for Members<'a> {
    fn fmt<W: fmt::Write>(&self, f: &mut fmt::Formatter<W>) -> fmt::Result {
        let window = self.0;
        write!(f, "{} by {} ", window.cycle, window.length)?;
        write!(f, "holding {}, ", window.filled)?;
        write!(f, "readings{}, ", Repeats(&window.readings))?;
        write!(f, "sums{}", Repeats(&window.sums))
    }
}
