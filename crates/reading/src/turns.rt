//! A mask row carried from the row above, or built afresh, and weighed plane by plane.

ghost use Rattle.std.specs.Prelude.{◌≡◌, ◌+◌, ◌-◌, ◌<◌, length, IsTrue};
ghost use Rattle.lines.specs.Lines.{IsPaddedLine};
ghost use Rattle.reading_sums.specs.Planes.{planes_length};
ghost use Rattle.reading_sums.specs.Sums.{HoldsPlaneSums};
ghost use Rattle.reading_sums.specs.CarryLines.{IsPlain};
ghost use Rattle.reading.specs.RowWeighed.{IsRowWeighed};

use crate::lowest_pairs::LowestPairs;
use crate::mask_row::{MaskRow, Row};
use crate::memory::Memory;
use lines::{Line, all_heard};
use median::is_short;
use reading_sums::{Built, Carried, Changes};

// Whether silence needs no test where the readings of a mask row are measured against those of the
// row that comes in below the windows and of the one that goes out above them: the cycle is short,
// or all are heard.
fn is_plain(mask_row: &MaskRow, leaving: &Line) -> bool
    ensures { IsTrue result
        → IsPlain mask_row.now.row.image.shape mask_row.now.own.now mask_row.now.row.last.now
        × IsPlain mask_row.now.row.image.shape mask_row.now.own.now leaving.now }
{
    let MaskRow { row, k: _, own } = *mask_row;
    let entering = row.last;
    let shape = row.image.shape;
    let n = shape.columns as usize + shape.mask_columns as usize - 1;
    is_short(shape.cycle)
        || (all_heard(&own[..n]) & all_heard(&entering[..n]) & all_heard(&leaving[..n]))
}

// Carries the planes of a mask row and weighs them, one after the other. `leaving` is the line of
// the row that goes out above the windows, and `gains` memory for steps and ranks.
fn carry(
    mask_row: &MaskRow,
    leaving: &Line,
    planes: &mut [u32],
    changes: &mut Changes,
    gains: &mut Line,
    pairs: &mut LowestPairs,
)
    requires later_row { 0 < mask_row.now.row.i }
    requires all_planes { length planes.old ≡ planes_length mask_row.now.row.image.shape }
    requires leaving_row { IsPaddedLine mask_row.now.row.image.shape
        mask_row.now.row.image.readings.now
        (mask_row.now.row.i - 1) leaving.now }
    requires sums_before { HoldsPlaneSums mask_row.now.row.image.shape
        mask_row.now.row.image.readings.now
        (mask_row.now.row.i - 1) (mask_row.now.row.i + mask_row.now.k) planes.old }
    requires weighed { IsRowWeighed mask_row.now.row.image.shape mask_row.now.row.image.readings.now
        mask_row.now.row.i mask_row.now.k 0
        pairs.old.least pairs.old.nearest }
    ensures sums { HoldsPlaneSums mask_row.now.row.image.shape mask_row.now.row.image.readings.now
        mask_row.now.row.i (mask_row.now.row.i + mask_row.now.k)
        planes.new }
    ensures weighed_next { IsRowWeighed mask_row.now.row.image.shape
        mask_row.now.row.image.readings.now
        mask_row.now.row.i (mask_row.now.k + 1) 0
        pairs.new.least pairs.new.nearest }
{
    let MaskRow { row, k: _, own } = *mask_row;
    let shape = row.image.shape;
    let plain = is_plain(mask_row, leaving);
    let sweep = Carried {
        shape,
        own,
        entering: row.last,
        leaving,
        plain,
    };
    let columns = shape.columns as usize;
    sweep.ahead(planes, changes, gains);
    mask_row.weigh(0, &planes[..columns], gains, pairs);
    for l in 1..shape.mask_columns as usize {
        let start = l * columns;
        let end = start + columns;
        sweep.behind(l, &mut planes[start..end], changes, gains);
        mask_row.weigh(l, &planes[start..end], gains, pairs);
    }
}

// Builds the planes of a mask row and weighs them, one after the other. `gains`, `row` and `other`
// are memory.
fn build(
    mask_row: &MaskRow,
    planes: &mut [u32],
    changes: &mut Changes,
    gains: &mut Line,
    row: &mut Line,
    other: &mut Line,
    pairs: &mut LowestPairs,
)
    requires all_planes { length planes.old ≡ planes_length mask_row.now.row.image.shape }
    requires weighed { IsRowWeighed mask_row.now.row.image.shape mask_row.now.row.image.readings.now
        mask_row.now.row.i mask_row.now.k 0
        pairs.old.least pairs.old.nearest }
    ensures sums { HoldsPlaneSums mask_row.now.row.image.shape mask_row.now.row.image.readings.now
        mask_row.now.row.i (mask_row.now.row.i + mask_row.now.k)
        planes.new }
    ensures weighed_next { IsRowWeighed mask_row.now.row.image.shape
        mask_row.now.row.image.readings.now
        mask_row.now.row.i (mask_row.now.k + 1) 0
        pairs.new.least pairs.new.nearest }
{
    let Row {
        image,
        i,
        centres: _,
        last,
    } = mask_row.row;
    let sweep = Built {
        image,
        i,
        own: mask_row.own,
        last,
    };
    let columns = image.shape.columns as usize;
    sweep.ahead(planes, changes, gains, row, other);
    mask_row.weigh(0, &planes[..columns], gains, pairs);
    for l in 1..image.shape.mask_columns as usize {
        let start = l * columns;
        let end = start + columns;
        sweep.behind(l, &mut planes[start..end], changes, gains, row, other);
        mask_row.weigh(l, &planes[start..end], gains, pairs);
    }
}

/// Carries mask row k of a row from the row above, and weighs it.
///
/// `planes`, its T·N numbers of the work memory, have the sums of the row above and then those of
/// this row. `memory.row` is the line of the row that goes out above the windows, and stays so. The
/// mask rows before k have been weighed.
pub fn carry_mask_row(row: &Row, k: usize, planes: &mut [u32], memory: &mut Memory)
    requires later_row { 0 < row.now.i }
    requires mask_row { k < row.now.image.shape.mask_rows }
    requires all_planes { length planes.old ≡ planes_length row.now.image.shape }
    requires leaving { IsPaddedLine row.now.image.shape row.now.image.readings.now
        (row.now.i - 1) memory.old.row }
    requires sums_before { HoldsPlaneSums row.now.image.shape row.now.image.readings.now
        (row.now.i - 1) (row.now.i + k) planes.old }
    requires weighed { IsRowWeighed row.now.image.shape row.now.image.readings.now row.now.i k 0
        memory.old.pairs.least memory.old.pairs.nearest }
    ensures sums { HoldsPlaneSums row.now.image.shape row.now.image.readings.now row.now.i
        (row.now.i + k) planes.new }
    ensures weighed_next { IsRowWeighed row.now.image.shape row.now.image.readings.now row.now.i
        (k + 1) 0 memory.new.pairs.least memory.new.pairs.nearest }
    ensures leaving_unchanged { memory.new.row ≡ memory.old.row }
{
    row.image.pad(row.i + k, &mut memory.own);
    let mask_row = MaskRow {
        row: *row,
        k,
        own: &memory.own,
    };
    carry(
        &mask_row,
        &memory.row,
        planes,
        &mut memory.changes,
        &mut memory.gains,
        &mut memory.pairs,
    );
}

/// Builds mask row k of a row afresh, and weighs it.
///
/// `planes`, its T·N numbers of the work memory, then have the sums of this row, whatever they had.
/// The mask rows before k have been weighed.
pub fn build_mask_row(row: &Row, k: usize, planes: &mut [u32], memory: &mut Memory)
    requires mask_row { k < row.now.image.shape.mask_rows }
    requires all_planes { length planes.old ≡ planes_length row.now.image.shape }
    requires weighed { IsRowWeighed row.now.image.shape row.now.image.readings.now row.now.i k 0
        memory.old.pairs.least memory.old.pairs.nearest }
    ensures sums { HoldsPlaneSums row.now.image.shape row.now.image.readings.now row.now.i
        (row.now.i + k) planes.new }
    ensures weighed_next { IsRowWeighed row.now.image.shape row.now.image.readings.now row.now.i
        (k + 1) 0 memory.new.pairs.least memory.new.pairs.nearest }
{
    row.image.pad(row.i + k, &mut memory.own);
    let mask_row = MaskRow {
        row: *row,
        k,
        own: &memory.own,
    };
    build(
        &mask_row,
        planes,
        &mut memory.changes,
        &mut memory.gains,
        &mut memory.row,
        &mut memory.other,
        &mut memory.pairs,
    );
}
