//! The filter: two engines over one definition. A call tests everything before it writes, which
//! makes a `Job`; running that filters the rows of its range, and sets the work memory that it
//! needs to 0. The engines take different cycles and different work memory, and differ in speed;
//! they write the same numbers. SPECIFICATION, "Filters".
#![tactic(auto)]

mod checks;
mod job;

ghost use Rattle.std.specs.Prelude.{◌≡◌, length};
ghost use Rattle.refusal.specs.Outcome.{first_due, outcome, IsClear};
ghost use Rattle.shape.specs.Rules.{shape_rules};
ghost use Rattle.lines.specs.Rows.{IsFillable, IsFilled};
ghost use Rattle.filter.specs.declared.Engine.TheVariants.{Level, Reading};
ghost use Rattle.filter.specs.Calls.{limit, need, FilterCall};

pub use checks::{check_memory, check_room};
pub use job::Job;
use lines::Image;
use refusal::Refusal;
use refusal::limits::{LEVEL_CYCLE, LONGEST_CYCLE};
use shape::Shape;
use std::ops::Range;

/// An engine of the filter. SPECIFICATION, "Engines".
#[derive(Clone, Copy, Debug, PartialEq, Eq)]
pub enum Engine {
    /// Weighs every tick of the cycle; takes cycles up to 4,096 ticks.
    Level,
    /// Weighs the readings of the window; takes every cycle, up to 65,535 ticks.
    Reading,
}

impl Engine {
    /// The longest cycle that the engine takes, in ticks.
    pub fn limit(self) -> u32
        ensures { result ≡ limit self }
    {
        match self {
            Engine::Level => LEVEL_CYCLE,
            Engine::Reading => LONGEST_CYCLE,
        }
    }

    // Tests 1 to 3, for the cycles that the engine takes.
    fn check(self, shape: Shape) -> Result<(), Refusal>
        ensures { outcome result ≡ first_due (shape_rules (limit self) shape) tt }
    {
        shape.check(self.limit())
    }

    /// The numbers of work memory that the engine needs, for a shape that has passed its tests.
    pub fn need(self, shape: Shape) -> usize
        requires { IsClear (shape_rules (limit self) shape) }
        ensures { result ≡ need self shape }
    {
        match self {
            Engine::Level => shape.level_need(),
            Engine::Reading => shape.reading_need(),
        }
    }

    // Filters the rows of a range, each at its own place in the output.
    fn fill(self, image: &Image, rows: Range<usize>, output: &mut [u16], work: &mut [u32])
        requires { IsFillable (limit self) (need self) image.now.shape image.now.readings.now
            rows.start rows.end (length output.old) (length work.old) }
        ensures { IsFilled (need self) image.now.shape image.now.readings.now rows.start rows.end
            output.old output.new work.old work.new }
    {
        match self {
            Engine::Level => level::rows::fill(image, rows, output, work),
            Engine::Reading => reading::rows::fill(image, rows, output, work),
        }
    }
}

/// Filters rows of an image by an engine.
///
/// - `shape`: the cycle in ticks, the labels of the image as rows, its wakes as columns, and the
///   sides of the mask.
/// - `rows`: the rows from `start` up to `end`, without `end`; none if the two are equal.
/// - `input`: the image row by row, exactly `rows * columns` readings, each a tick, or 65,535 where
///   a wake was silent.
/// - `output`: at least `rows * columns` numbers.
/// - `work`: at least `cycle * (columns + 1)` numbers for the level engine, and
///   `mask_rows * mask_columns * (columns + 1)` for the reading engine.
///
/// Refuses the cycle (1), the size of the image (2), the mask (3), the range of rows (5), the
/// length of the input (6), the length of the output (7), the length of the work memory (8), then a
/// reading that is neither a tick nor silent (9), in this order. The place of 9 is the index of the
/// first such reading in the image; every other place is 0. All of the image is tested, whatever
/// the rows.
///
/// Accepted: row i of the range stands in `output` from `i * columns` on, each number the chosen
/// phase of its window, or 65,535 where nothing in it is heard; the needed numbers of `work` are 0,
/// also if the range is empty. All else in both is as before, and what they held before makes no
/// difference. Refused: both are as before.
pub fn run(
    engine: Engine,
    shape: Shape,
    rows: Range<u32>,
    input: &[u16],
    output: &mut [u16],
    work: &mut [u32],
) -> Result<(), Refusal>
    ensures { FilterCall engine shape rows.start rows.end input.now output.old work.old result
        output.new work.new }
{
    Job::new(engine, shape, rows, input, output.len(), work.len())?.run(output, work);
    Ok(())
}

/// Filters rows of an image by the level engine: `run` with `Engine::Level`. It takes cycles up to
/// 4,096 ticks and needs `cycle * (columns + 1)` numbers of work memory.
pub fn level(
    shape: Shape,
    rows: Range<u32>,
    input: &[u16],
    output: &mut [u16],
    work: &mut [u32],
) -> Result<(), Refusal>
    ensures { FilterCall Level shape rows.start rows.end input.now output.old work.old result
        output.new work.new }
{
    run(Engine::Level, shape, rows, input, output, work)
}

/// Filters rows of an image by the reading engine: `run` with `Engine::Reading`. It takes every
/// cycle and needs `mask_rows * mask_columns * (columns + 1)` numbers of work memory.
pub fn reading(
    shape: Shape,
    rows: Range<u32>,
    input: &[u16],
    output: &mut [u16],
    work: &mut [u32],
) -> Result<(), Refusal>
    ensures { FilterCall Reading shape rows.start rows.end input.now output.old work.old result
        output.new work.new }
{
    run(Engine::Reading, shape, rows, input, output, work)
}
