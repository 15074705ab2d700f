//! The sums of a row's columns, set up afresh.

ghost use Rattle.std.specs.Prelude.{◌+◌, ◌*◌, ◌<◌};
ghost use Rattle.sums.specs.Memory.{Outside};
ghost use Rattle.level_sums.specs.Sums.{IsRow, IsColumn, HoldsBlockSums, HoldsColumnSums};
ghost use Rattle.level_sums.specs.Sums.{HoldsRowSums};

use crate::source::Source;
use sums::{add, copy, swap};

/// Row i of an image.
#[derive(Clone, Copy)]
pub struct Row<'a> {
    /// The image, with its table of distances.
    pub source: Source<'a>,
    /// The index of the row.
    pub i: usize,
    /// The image has that row.
    pub ghost inside: { i < source.image.shape.rows },
}

impl<'a> Row<'a> {
    // Adds mask row k of the window of column 0 to the sums of the mask rows before it.
    fn add_mask_row(&self, k: usize, sums: &mut [u32])
        requires mask_row { k < self.now.source.image.shape.mask_rows }
        requires rows { HoldsBlockSums self.now.source.image self.now.i k sums.old }
        ensures { HoldsBlockSums self.now.source.image self.now.i (k + 1) sums.new }
    {
        for l in 0..self.source.image.shape.mask_columns as usize {
            add(sums, self.source.part_at(self.i + k, l));
        }
    }

    /// Makes C numbers, whatever they are, the sums of the window of column 0.
    pub fn first_column(&self, sums: &mut [u32])
        requires { IsColumn self.now.source.image sums.old }
        ensures { HoldsColumnSums self.now.source.image self.now.i 0 sums.new }
    {
        sums.fill(0);
        for k in 0..self.source.image.shape.mask_rows as usize {
            self.add_mask_row(k, sums);
        }
    }

    /// Moves the C sums of column j on to column j + 1: the mask column that comes in is added, the
    /// one that goes out taken off.
    pub fn next_column(&self, j: usize, sums: &mut [u32])
        requires next { j + 1 < self.now.source.image.shape.columns }
        requires column { HoldsColumnSums self.now.source.image self.now.i j sums.old }
        ensures { HoldsColumnSums self.now.source.image self.now.i (j + 1) sums.new }
    {
        let ahead = j + self.source.image.shape.mask_columns as usize;
        for k in 0..self.source.image.shape.mask_rows as usize {
            let entering = self.source.part_at(self.i + k, ahead);
            let leaving = self.source.part_at(self.i + k, j);
            swap(sums, entering, leaving);
        }
    }

    /// Sets up the sums of column j, where those of the columns before it are set up.
    ///
    /// `sums` has C numbers for each column of the image. Column 0 adds up its whole window; each
    /// other column takes the sums of the column before it, adds the mask column that comes in and
    /// takes off the one that goes out. The other columns are as before.
    pub fn set_up(&self, j: usize, sums: &mut [u32])
        requires image_column { j < self.now.source.image.shape.columns }
        requires room { IsRow self.now.source.image sums.old }
        requires before { HoldsRowSums self.now.source.image self.now.i sums.old 0 j }
        ensures sums { HoldsRowSums self.now.source.image self.now.i sums.new 0 (j + 1) }
        ensures others { let c = self.now.source.image.shape.cycle in
            Outside sums.old sums.new (j * c) c }
    {
        let cycle = self.source.image.shape.cycle as usize;
        if j == 0 {
            return self.first_column(&mut sums[..cycle]);
        }
        let (before, rest) = sums.split_at_mut(j * cycle);
        let column = &mut rest[..cycle];
        copy(column, &before[(j - 1) * cycle..]);
        self.next_column(j - 1, column);
    }
}
