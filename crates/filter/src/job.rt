//! A job: an engine, an image and a range of its rows that have passed the tests of a filter call.

ghost use Rattle.std.specs.Prelude.{◌≡◌, ◌≤◌, IfOk, length};
ghost use Rattle.refusal.specs.Outcome.{outcome, and_then};
ghost use Rattle.refusal.specs.Outcome.Outcome.{accepted};
ghost use Rattle.shape.specs.Rules.{area};
ghost use Rattle.window.specs.Ready.{IsReady};
ghost use Rattle.filter.specs.Calls.{limit, need, filter_due, filtered_rows, zeroed_work};

use crate::Engine;
use crate::checks::check_filter;
use lines::Image;
use refusal::Refusal;
use shape::Shape;
use std::ops::Range;

/// An engine, an image and a range of its rows that have passed the tests of a filter call.
///
/// `Job::new` makes the tests. Code that has made them otherwise writes a job as a literal, and
/// proves what they say. A job can be run any number of times, in lent memory that is long enough.
#[derive(Clone, Copy)]
pub struct Job<'a> {
    /// The engine that filters.
    pub engine: Engine,
    /// The image, with the sides of the mask.
    pub image: Image<'a>,
    /// The first row that is filtered.
    pub first: u32,
    /// The row behind the last one that is filtered.
    pub end: u32,
    /// Sizes and readings have passed the tests, and the engine takes the cycle.
    pub ghost ready: { IsReady (limit engine) image.shape image.readings.now },
    /// The range does not end before it starts.
    pub ghost order: { first ≤ end },
    /// The rows of the range are rows of the image.
    pub ghost within: { end ≤ image.shape.rows },
}

impl<'a> Job<'a> {
    ghost use Rattle.filter.specs.Job.{IsJobOf};

    /// All tests of a filter call with `output` numbers of output and `work` numbers of work
    /// memory, and its job if all pass.
    ///
    /// Refuses what `filter::run` refuses, in the same order.
    pub fn new(
        engine: Engine,
        shape: Shape,
        rows: Range<u32>,
        input: &'a [u16],
        output: usize,
        work: usize,
    ) -> Result<Job<'a>, Refusal>
        ensures answer { and_then (outcome result) (λ job. accepted tt)
            ≡ filter_due engine shape rows.start rows.end input.now output work }
        ensures job { IfOk result (IsJobOf engine shape rows.start rows.end input.now) }
    {
        check_filter(engine, shape, &rows, input, output, work)?;
        let image = Image {
            shape,
            readings: input,
        };
        Ok(Job {
            engine,
            image,
            first: rows.start,
            end: rows.end,
        })
    }

    /// Filters the rows of the job.
    ///
    /// - `output`: at least `rows * columns` numbers, of the image and not of the range.
    /// - `work`: at least the numbers of work memory that the engine needs.
    ///
    /// Row i of the range then stands in `output` from `i * columns` on, and the needed numbers of
    /// `work` are 0. All else in both is as before, and what they held before makes no difference.
    pub fn run(&self, output: &mut [u16], work: &mut [u32])
        requires output_room { area self.now.image.shape ≤ length output.old }
        requires work_room { need self.now.engine self.now.image.shape ≤ length work.old }
        ensures filtered { output.new ≡ filtered_rows self.now.image.shape self.now.first
            self.now.end self.now.image.readings.now output.old }
        ensures zeroed { work.new ≡ zeroed_work self.now.engine self.now.image.shape work.old }
    {
        let rows = self.first as usize..self.end as usize;
        // A copy of the image is lent, so that no memory is taken for the job.
        let image = self.image;
        self.engine.fill(&image, rows, output, work);
        let need = self.engine.need(image.shape);
        work[..need].fill(0);
    }
}
