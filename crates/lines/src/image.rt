//! An image that has passed its tests: its rows, its readings as it is padded, and the centres of
//! its windows.

ghost use Rattle.std.specs.Prelude.{◌≡◌, ◌+◌, ◌<◌};
ghost use Rattle.refusal.specs.Limits.{longest_cycle};
ghost use Rattle.shape.specs.Rules.{reach, row_of};
ghost use Rattle.window.specs.Mirror.{mirror};
ghost use Rattle.window.specs.Ready.{IsReady};
ghost use Rattle.window.specs.Window.{padded_at};
ghost use Rattle.lines.specs.Lines.{IsPaddedLine, AreCentres, AreCentresSoFar};

use crate::Line;
use crate::centres::{all_heard, stand_in};
use crate::edges::mirror_edges;
use shape::Shape;
use sums::copy;
use window::mirror_index;

/// An image that has passed its tests, with the sizes of the mask.
#[derive(Clone, Copy)]
pub struct Image<'a> {
    /// Ticks of the cycle, rows and columns of the image, rows and columns of the mask.
    pub shape: Shape,
    /// Its readings, row by row.
    pub readings: &'a [u16],
    /// Sizes and readings have passed the tests of a filter, for the longest cycle.
    pub ghost ready: { IsReady longest_cycle shape readings.now },
}

impl<'a> Image<'a> {
    /// The readings of row i.
    pub fn row(&self, i: usize) -> &'a [u16]
        requires { i < self.now.shape.rows }
        ensures { result.now ≡ row_of self.now.shape.columns self.now.readings.now i }
    {
        let columns = self.shape.columns as usize;
        let start = i * columns;
        &self.readings[start..start + columns]
    }

    // The row that a row position of the padded image stands for.
    fn row_at(&self, position: usize) -> usize
        ensures within { result < self.now.shape.rows }
        ensures place { result
            ≡ mirror self.now.shape.rows (reach self.now.shape.mask_rows) position }
    {
        let reach = self.shape.mask_rows / 2;
        mirror_index(self.shape.rows as usize, reach as usize, position)
    }

    // The column that a column position of the padded image stands for.
    fn column_at(&self, position: usize) -> usize
        ensures within { result < self.now.shape.columns }
        ensures place { result
            ≡ mirror self.now.shape.columns (reach self.now.shape.mask_columns) position }
    {
        let reach = self.shape.mask_columns / 2;
        mirror_index(self.shape.columns as usize, reach as usize, position)
    }

    /// The reading at a row position and a column position of the padded image.
    pub fn at(&self, row_position: usize, column_position: usize) -> u16
        ensures { result
            ≡ padded_at 0 self.now.shape self.now.readings.now row_position column_position }
    {
        let row = self.row(self.row_at(row_position));
        row[self.column_at(column_position)]
    }

    /// Fills the front of `line` with the row at a row position of the padded image, its mirrored
    /// edges included. What stands behind that may be anything.
    pub fn pad(&self, position: usize, line: &mut Line)
        ensures { IsPaddedLine self.now.shape self.now.readings.now position line.new }
    {
        let columns = self.shape.columns as usize;
        let reach = (self.shape.mask_columns / 2) as usize;
        let row = self.row(self.row_at(position));
        copy(&mut line[reach..reach + columns], row);
        mirror_edges(line, columns, reach);
    }

    // Looks for what stands in for silent centres in mask row k of every window of row i, one mask
    // column after the other. `row` is memory for a line.
    fn stand_in_row(&self, i: usize, k: usize, line: &mut Line, row: &mut Line)
        requires image_row { i < self.now.shape.rows }
        requires mask_row { k < self.now.shape.mask_rows }
        requires standing { AreCentresSoFar self.now.shape self.now.readings.now i k 0 line.old }
        ensures { AreCentresSoFar self.now.shape self.now.readings.now i (k + 1) 0 line.new }
    {
        let columns = self.shape.columns as usize;
        self.pad(i + k, row);
        for l in 0..self.shape.mask_columns as usize {
            stand_in(&mut line[..columns], &row[l..]);
        }
    }

    /// Fills the front of `line` with the centres of the windows of row i, one for each column: the
    /// reading itself, and in place of a silent one the first heard reading of its window, row by
    /// row. Where none is heard it stays silent.
    ///
    /// `row` is memory for a line. In a row without silent readings no window is looked at.
    pub fn centres(&self, i: usize, line: &mut Line, row: &mut Line)
        requires { i < self.now.shape.rows }
        ensures { AreCentres self.now.shape self.now.readings.now i line.new }
    {
        let columns = self.shape.columns as usize;
        copy(&mut line[..columns], self.row(i));
        for k in 0..self.shape.mask_rows as usize {
            if all_heard(&line[..columns]) {
                break;
            }
            self.stand_in_row(i, k, line, row);
        }
    }
}
