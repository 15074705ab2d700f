//! The sums of a row's columns moved down to the next row, by the differences between the two.

ghost use Rattle.std.specs.Prelude.{◌≡◌, ◌+◌, ◌<◌};
ghost use Rattle.level_sums.specs.Sums.{IsColumn, HoldsColumnSums, HoldsRowChange, IsDescending};
ghost use Rattle.level_sums.specs.Sums.{lowest_sum};

use crate::source::Source;
use sums::{add_lowest, move_sums, swap};

/// The step from row i of an image to row i + 1.
#[derive(Clone, Copy)]
pub struct Step<'a> {
    /// The image, with its table of distances.
    pub source: Source<'a>,
    /// The index of the upper row.
    pub i: usize,
    /// The image has the lower row.
    pub ghost next: { i + 1 < source.image.shape.rows },
}

impl<'a> Step<'a> {
    // The differences between row i + 1 and row i at column 0, one for each tick.
    fn first_change(&self, change: &mut [u32])
        requires { IsColumn self.now.source.image change.old }
        ensures { HoldsRowChange self.now.source.image self.now.i 0 change.new }
    {
        let below = self.i + self.source.image.shape.mask_rows as usize;
        change.fill(0);
        for l in 0..self.source.image.shape.mask_columns as usize {
            let entering = self.source.part_at(below, l);
            let leaving = self.source.part_at(self.i, l);
            swap(change, entering, leaving);
        }
    }

    /// Moves the sums of column 0 from row i to row i + 1; answers the lowest of the new ones.
    ///
    /// `change`, C numbers, whatever they are, gets the differences between the two rows there.
    pub fn start_row(&self, sums: &mut [u32], change: &mut [u32]) -> u32
        requires ticks { IsColumn self.now.source.image change.old }
        requires column { HoldsColumnSums self.now.source.image self.now.i 0 sums.old }
        ensures differences { HoldsRowChange self.now.source.image self.now.i 0 change.new }
        ensures column { HoldsColumnSums self.now.source.image (self.now.i + 1) 0 sums.new }
        ensures lowest { result ≡ lowest_sum self.now.source.image (self.now.i + 1) 0 }
    {
        self.first_change(change);
        add_lowest(sums, change)
    }

    /// Moves the sums of column j + 1 from row i to row i + 1; answers the lowest of the new ones.
    ///
    /// `change` has the C differences between the two rows at column j, then those at column j + 1.
    pub fn advance(&self, j: usize, sums: &mut [u32], change: &mut [u32]) -> u32
        requires next_column { j + 1 < self.now.source.image.shape.columns }
        requires differences { HoldsRowChange self.now.source.image self.now.i j change.old }
        requires column { HoldsColumnSums self.now.source.image self.now.i (j + 1) sums.old }
        ensures differences { HoldsRowChange self.now.source.image self.now.i (j + 1) change.new }
        ensures column { HoldsColumnSums self.now.source.image (self.now.i + 1) (j + 1) sums.new }
        ensures lowest { result ≡ lowest_sum self.now.source.image (self.now.i + 1) (j + 1) }
    {
        let below = self.i + self.source.image.shape.mask_rows as usize;
        let ahead = j + self.source.image.shape.mask_columns as usize;
        let first_in = self.source.part_at(below, ahead);
        let second_in = self.source.part_at(self.i, j);
        let first_out = self.source.part_at(below, j);
        let second_out = self.source.part_at(self.i, ahead);
        move_sums(sums, change, first_in, second_in, first_out, second_out)
    }

    /// Moves the sums of column j from row i to row i + 1, where the columns before it have been
    /// moved, and answers the lowest of the new ones.
    ///
    /// `sums` has C numbers for each column of the image. `change` has the C differences between
    /// the two rows at the column before, and then those at column j; for column 0 they are set up.
    pub fn move_down(&self, j: usize, sums: &mut [u32], change: &mut [u32]) -> u32
        requires image_column { j < self.now.source.image.shape.columns }
        requires before { IsDescending self.now.source.image self.now.i j sums.old change.old }
        ensures after { IsDescending self.now.source.image self.now.i (j + 1) sums.new change.new }
        ensures lowest { result ≡ lowest_sum self.now.source.image (self.now.i + 1) j }
    {
        let cycle = self.source.image.shape.cycle as usize;
        let column = &mut sums[j * cycle..(j + 1) * cycle];
        if j == 0 {
            self.start_row(column, change)
        } else {
            self.advance(j - 1, column, change)
        }
    }
}
