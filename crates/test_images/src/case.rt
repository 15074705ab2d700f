//! A case: an image with the rows to be filtered, and the phases that are expected in them.

ghost use Rattle.std.specs.Prelude.{length};
ghost use Rattle.std.specs.Iterator.{at_most};

use filter::Engine;
use refusal::limits::LEVEL_CYCLE;
use refusal::{Refusal, refuse_if};
use shape::Shape;
use std::alloc::{AllocError, Global};
use std::array;
use std::ops::Range;
use test_support::cases;
use test_support::cases::nth;

// Numbers of a case before its readings.
const HEAD: usize = 7;

/// An image with the rows to be filtered and their phases.
#[derive(Drop)]
pub struct Case<'a> {
    /// Sizes of the image and of the mask.
    pub shape: Shape,
    /// Rows to filter.
    pub rows: Range<u32>,
    /// How many readings the image has. A length and no part, since a case that is cut short goes
    /// on in zeros.
    pub area: usize,
    /// How many phases the range has.
    pub range: usize,
    /// The numbers from the first reading on, also those of the cases behind it.
    pub numbers: &'a [u16],
}

/// What a call writes. By default nothing, as a call that is refused.
#[derive(Clone, Copy, Default)]
pub struct Effect {
    /// How many rows of phases.
    pub rows: usize,
    /// The place in the output at which they begin.
    pub start: usize,
    /// How many phases.
    pub phases: usize,
    /// How many work numbers, from the first on, it leaves 0.
    pub need: usize,
}

/// Cases, by the numbers that are left of them. Where the last one is cut short, 0 stands for what
/// is missing.
#[derive(Clone, Copy)]
pub struct Cases<'a>(pub &'a [u16]);

impl<'a> Iterator for Cases<'a> {
    type Item = Case<'a>;

    ghost remaining = { λ cases. at_most (length cases.0.now) };

    fn next(&mut self) -> Option<Case<'a>> {
        if self.0.is_empty() {
            return None;
        }
        let (head, numbers) = self.0.split_at(self.0.len().min(HEAD));
        let sizes: [u16; HEAD] = array::from_fn(|k| nth(head, k));
        let [_, rows, columns, _, _, first, end] = sizes;
        let area = usize::from(rows) * usize::from(columns);
        let range = usize::from(end.saturating_sub(first)) * usize::from(columns);
        let (_, rest) = numbers.split_at(numbers.len().min(area + range));
        self.0 = rest;
        Some(Case {
            shape: cases::shape(&sizes.map(u32::from)),
            rows: u32::from(first)..u32::from(end),
            area,
            range,
            numbers,
        })
    }
}

impl<'a> Case<'a> {
    pub(crate) fn readings(&self, alloc: Global) -> Result<Vec<u16>, AllocError> {
        (0..self.area).map(|k| nth(self.numbers, k)).collect(alloc)
    }

    // The phase at a place of the range.
    pub(crate) fn phase(&self, k: usize) -> u16 {
        nth(self.numbers, self.area.saturating_add(k))
    }

    // How many numbers of work memory an engine needs: computed here, so that the expected number
    // is not taken from the code that is run.
    fn need(&self, engine: Engine) -> usize {
        let shape = self.shape;
        let blocks = match engine {
            Engine::Level => shape.cycle as usize,
            Engine::Reading => shape.mask_rows as usize * shape.mask_columns as usize,
        };
        blocks.saturating_mul(shape.columns as usize + 1)
    }

    // What an engine must do: its effect, or its refusal of the cycle.
    pub(crate) fn expected_effect(&self, engine: Engine) -> Result<Effect, Refusal> {
        let too_long = engine == Engine::Level && LEVEL_CYCLE < self.shape.cycle;
        refuse_if(too_long, Refusal::Cycle)?;
        Ok(Effect {
            rows: self.rows.end.saturating_sub(self.rows.start) as usize,
            start: self.rows.start as usize * self.shape.columns as usize,
            phases: self.range,
            need: self.need(engine),
        })
    }
}
