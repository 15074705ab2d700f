//! The proved calls for programs in C and Rust. Each function hands its arguments to one call and
//! gives the answer in plain numbers; include/circle_median.h declares the same functions and
//! structs, for each slice a pointer and a length in elements. Each answers or refuses whatever it
//! is given, and a refusal changes no lent memory.
#![tactic(auto)]

mod answers;

ghost use Rattle.std.specs.Prelude.{◌≡◌};
ghost use Rattle.cycle.specs.Calls.{distance_due, step_due, slot_due, drift_due};
ghost use Rattle.filter.specs.declared.Engine.TheVariants.{Level, Reading};
ghost use Rattle.live.specs.Window.{window_of};
ghost use Rattle.circle_median.specs.Answers.{shape_of, value_of, natural_value, flag_value};
ghost use Rattle.circle_median.specs.Calls.{ExportedFilterCall, ExportedWriteCall};
ghost use Rattle.circle_median.specs.Calls.{ExportedReadCall, ExportedFreshCall, ExportedPushCall};

use answers::{Answer, RecordAnswer, ValueAnswer, WindowAnswer, length_value, window_answer};
use live::PLACES;
use shape::Shape;

// The five numbers of a shape, which C gives one by one.
fn shape_of(cycle: u32, rows: u32, columns: u32, mask_rows: u32, mask_columns: u32) -> Shape
    ensures { result ≡ shape_of cycle rows columns mask_rows mask_columns }
{
    Shape {
        cycle,
        rows,
        columns,
        mask_rows,
        mask_columns,
    }
}

/// Filters rows of an image by the level engine: the rows from `first` up to `end`, without `end`.
///
/// - `cycle`: ticks, 1 to 4,096. `rows`: labels, 1 to 1,024. `columns`: wakes, 1 to 8,192.
/// - `mask_rows`, `mask_columns`: the sides of the mask, each odd, 1 to 255.
/// - `input`: the image row by row, exactly `rows * columns` readings, each a tick, or 65,535 where
///   a wake was silent.
/// - `output`: at least `rows * columns` numbers.
/// - `work`: at least `cycle * (columns + 1)` numbers.
///
/// Refuses the cycle (1), the size of the image (2), the mask (3), the range of rows (5), the
/// length of the input (6), of the output (7), of the work memory (8), then a reading (9, at its
/// index in the image), in this order. Every place but that of 9 is 0.
///
/// Accepted: row i of the range stands in `output` from `i * columns` on, each number the chosen
/// phase of its window, or 65,535 where nothing in it is heard, and the needed numbers of `work`
/// are 0. All else in both is as before. Refused: both are as before.
#[unsafe(no_mangle)]
pub extern "C" fn circle_median_level(
    cycle: u32,
    rows: u32,
    columns: u32,
    mask_rows: u32,
    mask_columns: u32,
    first: u32,
    end: u32,
    input: &[u16],
    output: &mut [u16],
    work: &mut [u32],
) -> Answer
    ensures { ExportedFilterCall Level (shape_of cycle rows columns mask_rows mask_columns) first
        end input.now output.old work.old result output.new work.new }
{
    let shape = shape_of(cycle, rows, columns, mask_rows, mask_columns);
    filter::level(shape, first..end, input, output, work).into()
}

/// Filters rows of an image by the reading engine: as `circle_median_level`, but for `cycle`, up to
/// 65,535 ticks, and for `work`, at least `mask_rows * mask_columns * (columns + 1)` numbers, which
/// are 0 afterwards.
#[unsafe(no_mangle)]
pub extern "C" fn circle_median_reading(
    cycle: u32,
    rows: u32,
    columns: u32,
    mask_rows: u32,
    mask_columns: u32,
    first: u32,
    end: u32,
    input: &[u16],
    output: &mut [u16],
    work: &mut [u32],
) -> Answer
    ensures { ExportedFilterCall Reading (shape_of cycle rows columns mask_rows mask_columns) first
        end input.now output.old work.old result output.new work.new }
{
    let shape = shape_of(cycle, rows, columns, mask_rows, mask_columns);
    filter::reading(shape, first..end, input, output, work).into()
}

/// The value is the distance of two ticks, 0 to `cycle / 2`.
///
/// Refuses the cycle (1), then what is no tick (9): a at place 0, b at place 1. 65,535 is no tick.
#[unsafe(no_mangle)]
pub extern "C" fn circle_median_distance(cycle: u32, a: u16, b: u16) -> ValueAnswer
    ensures { result ≡ value_of (natural_value (distance_due cycle a b)) }
{
    cycle::distance(cycle, a, b).map(i64::from).into()
}

/// The value is the signed step in ticks from one tick to another: above 0 ahead, below 0 back; a
/// step of half a cycle is back.
///
/// Refuses the cycle (1), then what is no tick (9): `from` at place 0, `to` at place 1.
#[unsafe(no_mangle)]
pub extern "C" fn circle_median_step(cycle: u32, from: u16, to: u16) -> ValueAnswer
    ensures { result ≡ value_of (step_due cycle from to) }
{
    cycle::step(cycle, from, to).map(i64::from).into()
}

/// The value is 1 if tick p is in the slot that starts at tick s and ends w ticks later, both ends
/// included, and else 0.
///
/// Refuses the cycle (1), then what is no tick (9): p at place 0, s at place 1, w at place 2.
#[unsafe(no_mangle)]
pub extern "C" fn circle_median_slot(cycle: u32, p: u16, s: u16, w: u16) -> ValueAnswer
    ensures { result ≡ value_of (flag_value (slot_due cycle p s w)) }
{
    cycle::slot(cycle, p, s, w).map(i64::from).into()
}

/// The value is the drift of a row of 1 to 8,192 readings: the sum of the steps in ticks from each
/// heard reading to the next one heard.
///
/// Refuses the cycle (1), the length of the row (2), then a reading that is neither a tick nor
/// silent (9, at its index).
#[unsafe(no_mangle)]
pub extern "C" fn circle_median_drift(cycle: u32, row: &[u16]) -> ValueAnswer
    ensures { result ≡ value_of (drift_due cycle row.now) }
{
    cycle::drift(cycle, row).map(i64::from).into()
}

/// Writes the record of an image at the front of `bytes`; the value is its length in bytes,
/// `22 + rows * (3 + 2 * columns)`.
///
/// Refuses the cycle (1), the size of the image (2), the mask (3), the number of readings (6), the
/// room for bytes (7), then a reading (9, at its index), in this order. Accepted: what is behind
/// the record is as before. Refused: `bytes` is as before.
#[unsafe(no_mangle)]
pub extern "C" fn circle_median_write(
    cycle: u32,
    rows: u32,
    columns: u32,
    mask_rows: u32,
    mask_columns: u32,
    readings: &[u16],
    bytes: &mut [u8],
) -> ValueAnswer
    ensures { ExportedWriteCall (shape_of cycle rows columns mask_rows mask_columns) readings.now
        bytes.old result bytes.new }
{
    let shape = shape_of(cycle, rows, columns, mask_rows, mask_columns);
    record::write(shape, readings, bytes)
        .map(length_value)
        .into()
}

/// Reads a record, which is all of `bytes`; the answer has its five numbers.
///
/// Refuses field by field, each by fewer than three bytes left (10), its tag (11), its length (12)
/// or a body that is not all there (10), at the offset of the field; then by what it holds: the
/// cycle (1), the size of the image (2), the mask (3) and the room in `readings` (7), at place 0, a
/// reading of a row (9, at its index in the image); last, by bytes behind the end field (13, at the
/// offset of the first).
///
/// Accepted: the image stands at the front of `readings`, and what is behind it is as before.
/// Refused: `readings` is as before.
#[unsafe(no_mangle)]
pub extern "C" fn circle_median_read(bytes: &[u8], readings: &mut [u16]) -> RecordAnswer
    ensures { ExportedReadCall bytes.now readings.old result readings.new }
{
    record::read(bytes, readings).into()
}

/// Makes the arrays of a live window fresh, of a cycle in ticks and a length in readings; its count
/// is then 0.
///
/// Refuses the cycle (1: 0 or above 512), then the length (3: even, 0 or above 63), at place 0.
/// Accepted: all readings are silent (65,535) and all sums are 0. Refused: both arrays are as
/// before.
#[unsafe(no_mangle)]
pub extern "C" fn circle_median_window_fresh(
    cycle: u32,
    length: u32,
    readings: &mut [u16; PLACES],
    sums: &mut [u16; PLACES],
) -> Answer
    ensures { ExportedFreshCall cycle length (window_of cycle length 0 readings.old sums.old) result
        (window_of cycle length 0 readings.new sums.new) }
{
    live::fresh_in(cycle, length, readings, sums).into()
}

/// Pushes a reading into the arrays of a live window of which `filled` readings have come: a tick,
/// or 65,535 for a silent wake.
///
/// The value is the chosen phase of the last `length` readings, 65,535 if none of them was heard,
/// and -1 while fewer have come; the answer's `filled` is how many have come now.
///
/// Refuses the cycle (1: 0 or above 512), the length (3: even, 0 or above 63), then the reading
/// (9), at place 0. Accepted: the first `length` places of the arrays are those of the window with
/// the new reading, and the rest are as before. Refused: arrays and count are as before.
#[unsafe(no_mangle)]
pub extern "C" fn circle_median_window_enter(
    cycle: u32,
    length: u32,
    filled: u32,
    reading: u16,
    readings: &mut [u16; PLACES],
    sums: &mut [u16; PLACES],
) -> WindowAnswer
    ensures { ExportedPushCall (window_of cycle length filled readings.old sums.old) reading result
        (window_of cycle length result.filled readings.new sums.new) }
{
    let mut count = filled;
    let answer = live::push_in(cycle, length, &mut count, reading, readings, sums);
    window_answer(answer, count)
}
