//! The structs that C sees, and what the calls answer turned into them.

ghost use Rattle.std.specs.Prelude.{◌≡◌, ◌<◌, ◌^◌, pos};
ghost use Rattle.refusal.specs.Outcome.{outcome};
ghost use Rattle.circle_median.specs.Answers.{answer_of, value_of, record_of, live_value};
ghost use Rattle.circle_median.specs.Answers.{live_outcome, window_answer_of};

use cycle::SILENT;
use live::Live;
use refusal::Refusal;
use shape::Shape;

/// The answer of a call without a value.
#[repr(C)]
#[derive(Clone, Copy)]
pub struct Answer {
    /// 0 if the call was accepted, else the number of the refusal.
    pub number: u32,
    /// The place of the refusal; 0 where it has none, and of an accepted call.
    pub place: u64,
}

/// The answer of a call with a value.
#[repr(C)]
#[derive(Clone, Copy)]
pub struct ValueAnswer {
    /// 0 if the call was accepted, else the number of the refusal.
    pub number: u32,
    /// The place of the refusal, as of `Answer`.
    pub place: u64,
    /// What the call says; 0 if it was refused.
    pub value: i64,
}

/// The answer of the reader of records. Its five numbers are 0 if the record was refused.
#[repr(C)]
#[derive(Clone, Copy)]
pub struct RecordAnswer {
    /// 0 if the record was accepted, else the number of the refusal.
    pub number: u32,
    /// The place of the refusal, as of `Answer`.
    pub place: u64,
    /// Ticks of the cycle.
    pub cycle: u32,
    /// Labels of the image.
    pub rows: u32,
    /// Wakes of the image.
    pub columns: u32,
    /// Labels of the mask.
    pub mask_rows: u32,
    /// Wakes of the mask.
    pub mask_columns: u32,
}

/// The answer of a push into a live window.
#[repr(C)]
#[derive(Clone, Copy)]
pub struct WindowAnswer {
    /// 0 if the reading was accepted, else the number of the refusal.
    pub number: u32,
    /// The place of the refusal, as of `Answer`.
    pub place: u64,
    /// The chosen phase, a tick; 65,535 if none is heard, -1 while the window fills, and 0 if the
    /// reading was refused.
    pub value: i64,
    /// How many of the window's readings have come.
    pub filled: u32,
}

impl From<Result<(), Refusal>> for Answer {
    ghost from_gives = { λ result answer. answer ≡ answer_of (outcome result) };

    fn from(answer: Result<(), Refusal>) -> Answer {
        match answer {
            Ok(()) => Answer {
                number: 0,
                place: 0,
            },
            Err(refusal) => Answer {
                number: refusal.number(),
                place: refusal.place() as u64,
            },
        }
    }
}

impl From<Result<i64, Refusal>> for ValueAnswer {
    ghost from_gives = { λ result answer. answer ≡ value_of (outcome result) };

    fn from(answer: Result<i64, Refusal>) -> ValueAnswer {
        match answer {
            Ok(value) => ValueAnswer {
                number: 0,
                place: 0,
                value,
            },
            Err(refusal) => ValueAnswer {
                number: refusal.number(),
                place: refusal.place() as u64,
                value: 0,
            },
        }
    }
}

impl From<Result<Shape, Refusal>> for RecordAnswer {
    ghost from_gives = { λ result answer. answer ≡ record_of (outcome result) };

    fn from(answer: Result<Shape, Refusal>) -> RecordAnswer {
        match answer {
            Ok(shape) => RecordAnswer {
                number: 0,
                place: 0,
                cycle: shape.cycle,
                rows: shape.rows,
                columns: shape.columns,
                mask_rows: shape.mask_rows,
                mask_columns: shape.mask_columns,
            },
            Err(refusal) => RecordAnswer {
                number: refusal.number(),
                place: refusal.place() as u64,
                cycle: 0,
                rows: 0,
                columns: 0,
                mask_rows: 0,
                mask_columns: 0,
            },
        }
    }
}

/// The length of a record as a value.
pub fn length_value(length: usize) -> i64
    requires { length < 2 ^ 63 }
    ensures { result ≡ pos length }
{
    length as i64
}

// What a live window answers, as a value.
fn live_value(live: Live) -> i64
    ensures { result ≡ live_value live }
{
    match live {
        Live::Filling => -1,
        Live::Phase(phase) => i64::from(phase),
        Live::Silent => i64::from(SILENT),
    }
}

/// The answer of a push into a live window, with the count of readings after it.
pub fn window_answer(answer: Result<Live, Refusal>, filled: u32) -> WindowAnswer
    ensures { result ≡ window_answer_of (value_of (live_outcome (outcome answer))) filled }
{
    let answer = ValueAnswer::from(answer.map(live_value));
    WindowAnswer {
        number: answer.number,
        place: answer.place,
        value: answer.value,
        filled,
    }
}
