//! A row of the output, and one of its mask rows, of which one plane after the other is weighed.

ghost use Rattle.std.specs.Prelude.{◌≡◌, ◌+◌, ◌-◌, ◌<◌, length};
ghost use Rattle.sums.specs.Memory.{Tabulates};
ghost use Rattle.lines.specs.Lines.{IsPaddedLine, AreCentres};
ghost use Rattle.reading_sums.specs.Sums.{reading_sum};
ghost use Rattle.reading.specs.RowWeighed.{IsRowWeighed};

use crate::lowest_pairs::LowestPairs;
use lines::{Image, Line};

/// Row i of the output, with the centres and the last row of its windows.
#[derive(Clone, Copy)]
pub struct Row<'a> {
    /// The image.
    pub image: Image<'a>,
    /// The index of the row.
    pub i: usize,
    /// The line of the centres of its windows, with what stands in for the silent ones.
    pub centres: &'a Line,
    /// The line of the last row of its windows.
    pub last: &'a Line,
    ghost inside: { i < image.shape.rows },
    ghost centred: { AreCentres image.shape image.readings.now i centres.now },
    ghost last_row: { IsPaddedLine image.shape image.readings.now (i + image.shape.mask_rows - 1) last.now },
}

/// Mask row k of a row of the output, with the line of its readings.
#[derive(Clone, Copy)]
pub struct MaskRow<'a> {
    /// The row.
    pub row: Row<'a>,
    /// The index of the mask row.
    pub k: usize,
    /// The line of the readings of the mask row.
    pub own: &'a Line,
    ghost inside: { k < row.image.shape.mask_rows },
    ghost line: { IsPaddedLine row.image.shape row.image.readings.now (row.i + k) own.now },
}

impl<'a> MaskRow<'a> {
    /// Weighs plane l, which has its sums: mask column l of this mask row in every window of the
    /// row.
    ///
    /// The mask rows before this one and the planes before plane l have been weighed. `ranks` is
    /// memory for the ranks of its readings.
    pub fn weigh(&self, l: usize, plane: &[u32], ranks: &mut Line, pairs: &mut LowestPairs)
        requires inside { l < self.now.row.image.shape.mask_columns }
        requires one_plane { length plane.now ≡ self.now.row.image.shape.columns }
        requires sums { Tabulates plane.now
            (reading_sum self.now.row.image.shape self.now.row.image.readings.now self.now.row.i
            (self.now.row.i + self.now.k) l) }
        requires weighed { IsRowWeighed self.now.row.image.shape self.now.row.image.readings.now
            self.now.row.i self.now.k l pairs.old.least pairs.old.nearest }
        ensures { IsRowWeighed self.now.row.image.shape self.now.row.image.readings.now
            self.now.row.i self.now.k (l + 1) pairs.new.least pairs.new.nearest }
    {
        let MaskRow { row, k: _, own } = *self;
        let Row {
            image,
            i: _,
            centres,
            last: _,
        } = row;
        let n = plane.len();
        pairs.weigh(
            image.shape.cycle as u16,
            plane,
            &own[l..l + n],
            &centres[..n],
            &mut ranks[..n],
        );
    }
}
