//! Answers of a live window's calls, and lists of them in print.

use cycle::SILENT;
use live::Live;
use refusal::Refusal;
use std::fmt;

/// What is printed of a call. A refusal is one of its words, so it is no `Result`.
#[derive(Clone, Copy, Debug, PartialEq, Eq)]
pub enum Answer {
    /// A new window, or a reset, was accepted.
    Fresh,
    /// An accepted reading, with fewer than T there.
    Filling,
    /// The phase of the last T readings.
    Phase(u16),
    /// None of the last T readings was heard.
    Silent,
    /// An accepted reading, of whose answer nothing is known: the window has no history.
    Unknown,
    /// A refusal.
    Refused(Refusal),
    /// A refusal, for whatever reason, in a row of readings.
    NoAnswer,
}

// Numbers that no tick of a live window is. They stand for answers in a list of phases, and where a
// window without history holds one of them, it is printed so.
const FILLING: u16 = 60000;

const NO_ANSWER: u16 = 60001;

impl Answer {
    pub(crate) fn is_refused(self) -> bool {
        matches!(self, Answer::Refused(_))
    }
}

impl From<Result<(), Refusal>> for Answer {
    fn from(answer: Result<(), Refusal>) -> Answer {
        match answer {
            Ok(()) => Answer::Fresh,
            Err(refusal) => Answer::Refused(refusal),
        }
    }
}

impl From<Live> for Answer {
    fn from(answer: Live) -> Answer {
        match answer {
            Live::Filling => Answer::Filling,
            Live::Phase(phase) => Answer::Phase(phase),
            Live::Silent => Answer::Silent,
        }
    }
}

impl From<Result<Live, Refusal>> for Answer {
    fn from(answer: Result<Live, Refusal>) -> Answer {
        match answer {
            Ok(live) => live.into(),
            Err(refusal) => Answer::Refused(refusal),
        }
    }
}

// A number of an image or of a window.
impl From<u16> for Answer {
    fn from(number: u16) -> Answer {
        match number {
            FILLING => Answer::Filling,
            NO_ANSWER => Answer::NoAnswer,
            SILENT => Answer::Silent,
            phase => Answer::Phase(phase),
        }
    }
}

impl fmt::Display for Answer {
    fn fmt<W: fmt::Write>(&self, f: &mut fmt::Formatter<W>) -> fmt::Result {
        match self {
            Answer::Fresh => write!(f, "fresh"),
            Answer::Filling => write!(f, "filling"),
            Answer::Phase(phase) => write!(f, "{phase}"),
            Answer::Silent => write!(f, "silent"),
            Answer::Unknown => write!(f, "answered"),
            Answer::Refused(refusal) => write!(f, "{refusal}"),
            Answer::NoAnswer => write!(f, "NO ANSWER"),
        }
    }
}

/// A list as a case has it, each after a space: `3 of 8` is 8, three times.
#[derive(Clone, Copy, Debug)]
pub struct Repeats<'a, T>(pub &'a [T]);

impl<'a, T: Copy + PartialEq + Into<Answer>> fmt::Display for Repeats<'a, T> {
    fn fmt<W: fmt::Write>(&self, f: &mut fmt::Formatter<W>) -> fmt::Result {
        for equals in self.0.chunk_by(|a, b| a == b) {
            let Some(first) = equals.first() else {
                continue;
            };
            let answer: Answer = (*first).into();
            match equals.len() {
                1 => write!(f, " {answer}")?,
                times => write!(f, " {times} of {answer}")?,
            }
        }
        Ok(())
    }
}
