//! The rows of the output, one after the other.

ghost use Rattle.std.specs.Prelude.{◌≡◌, ◌+◌, ◌*◌, ◌≤◌, ◌<◌, length};
ghost use Rattle.lists.specs.Tabulate.{tabulate};
ghost use Rattle.refusal.specs.Limits.{longest_cycle};
ghost use Rattle.shape.specs.Need.{reading_need};
ghost use Rattle.sums.specs.Memory.{Outside};
ghost use Rattle.window.specs.Phase.{phase_at};
ghost use Rattle.lines.specs.Rows.{IsFillable, IsFilled};
ghost use Rattle.reading_sums.specs.Sums.{HoldsMaskSums};
ghost use Rattle.reading.specs.RowWeighed.{IsRowWeighed};
ghost use Rattle.reading.specs.Rows.{IsCarried};

use crate::lowest_pairs::LowestPairs;
use crate::mask_row::Row;
use crate::memory::Memory;
use crate::turns::{build_mask_row, carry_mask_row};
use lines::{Image, LINE, Line};
use reading_sums::{planes_at, planes_length};
use std::ops::Range;

// Memory for the lines of a row that its mask rows share: the centres and the last row of its
// windows.
#[derive(Drop)]
struct Lines {
    centres: Line,
    last: Line,
}

// Carries the first `carried_rows` mask rows of a row from the row above, and weighs them.
fn carry_rows(row: &Row, carried_rows: usize, work: &mut [u32], memory: &mut Memory)
    requires carried { IsCarried row.now.image.shape row.now.image.readings.now row.now.i
        carried_rows work.old }
    requires room { reading_need row.now.image.shape ≤ length work.old }
    requires weighed { IsRowWeighed row.now.image.shape row.now.image.readings.now row.now.i 0 0
        memory.old.pairs.least memory.old.pairs.nearest }
    ensures sums { HoldsMaskSums row.now.image.shape row.now.image.readings.now row.now.i work.new
        row.now.i (row.now.i + carried_rows) }
    ensures outside { Outside work.old work.new 0 (reading_need row.now.image.shape) }
    ensures weighed_carried { IsRowWeighed row.now.image.shape row.now.image.readings.now row.now.i
        carried_rows 0 memory.new.pairs.least memory.new.pairs.nearest }
{
    if carried_rows == 0 {
        return;
    }
    let n = planes_length(row.image.shape);
    row.image.pad(row.i - 1, &mut memory.row);
    for k in 0..carried_rows {
        let start = planes_at(row.image.shape, row.i + k);
        carry_mask_row(row, k, &mut work[start..start + n], memory);
    }
}

// Builds the mask rows of a row from `carried_rows` on afresh, and weighs them.
fn build_rows(row: &Row, carried_rows: usize, work: &mut [u32], memory: &mut Memory)
    requires carried { carried_rows ≤ row.now.image.shape.mask_rows }
    requires room { reading_need row.now.image.shape ≤ length work.old }
    requires sums_carried { HoldsMaskSums row.now.image.shape row.now.image.readings.now row.now.i
        work.old row.now.i (row.now.i + carried_rows) }
    requires weighed_carried { IsRowWeighed row.now.image.shape row.now.image.readings.now row.now.i
        carried_rows 0 memory.old.pairs.least memory.old.pairs.nearest }
    ensures sums { HoldsMaskSums row.now.image.shape row.now.image.readings.now row.now.i work.new
        row.now.i (row.now.i + row.now.image.shape.mask_rows) }
    ensures outside { Outside work.old work.new 0 (reading_need row.now.image.shape) }
    ensures weighed { IsRowWeighed row.now.image.shape row.now.image.readings.now row.now.i
        row.now.image.shape.mask_rows 0
        memory.new.pairs.least memory.new.pairs.nearest }
{
    let n = planes_length(row.image.shape);
    for k in carried_rows..row.image.shape.mask_rows as usize {
        let start = planes_at(row.image.shape, row.i + k);
        build_mask_row(row, k, &mut work[start..start + n], memory);
    }
}

// Writes the phases of row i to `out`. Its first `carried_rows` mask rows have the sums of the row
// above.
fn one_row(
    image: &Image,
    i: usize,
    carried_rows: usize,
    work: &mut [u32],
    lines: &mut Lines,
    memory: &mut Memory,
    out: &mut [u16],
)
    requires inside { i < image.now.shape.rows }
    requires carried { IsCarried image.now.shape image.now.readings.now i carried_rows work.old }
    requires room { reading_need image.now.shape ≤ length work.old }
    requires width { length out.old ≡ image.now.shape.columns }
    ensures phases { out.new ≡ tabulate (phase_at image.now.shape image.now.readings.now)
        (i * image.now.shape.columns) image.now.shape.columns }
    ensures sums { HoldsMaskSums image.now.shape image.now.readings.now i work.new i
        (i + image.now.shape.mask_rows) }
    ensures outside { Outside work.old work.new 0 (reading_need image.now.shape) }
{
    let shape = image.shape;
    image.centres(i, &mut lines.centres, &mut memory.own);
    image.pad(i + shape.mask_rows as usize - 1, &mut lines.last);
    memory.pairs.reset(shape.columns as usize);
    let row = Row {
        image: *image,
        i,
        centres: &lines.centres,
        last: &lines.last,
    };
    carry_rows(&row, carried_rows, work, memory);
    build_rows(&row, carried_rows, work, memory);
    memory.pairs.phases(shape.cycle, &lines.centres, out);
}

// Writes the rows of a range, one after the other, each lent as its own part of the output.
fn each_row(
    image: &Image,
    rows: Range<usize>,
    output: &mut [u16],
    work: &mut [u32],
    lines: &mut Lines,
    memory: &mut Memory,
)
    requires { IsFillable longest_cycle reading_need image.now.shape image.now.readings.now
        rows.start rows.end (length output.old) (length work.old) }
    ensures { IsFilled reading_need image.now.shape image.now.readings.now rows.start rows.end
        output.old output.new work.old work.new }
{
    let columns = image.shape.columns as usize;
    let first = rows.start;
    for i in first..rows.end {
        let carried_rows = if i == first {
            0
        } else {
            image.shape.mask_rows as usize - 1
        };
        let start = i * columns;
        let out = &mut output[start..start + columns];
        one_row(image, i, carried_rows, work, lines, memory, out);
    }
}

/// Writes the phases of a range of rows, each at its own spot of the whole output.
///
/// The image has passed the tests of a filter, and the range, the lengths of `output` (at least
/// M·N) and of `work` (at least R·T·(N + 1)) have been tested. The rest of `output` stays as it
/// was, and so does `work` past the need; the numbers of the need may be anything afterwards.
///
/// It is not inlined, so that the lines, its local memory, stay out of its callers' frames, where a
/// call that is refused would pay for them.
#[inline(never)]
pub fn fill(image: &Image, rows: Range<usize>, output: &mut [u16], work: &mut [u32])
    requires { IsFillable longest_cycle reading_need image.now.shape image.now.readings.now
        rows.start rows.end (length output.old) (length work.old) }
    ensures { IsFilled reading_need image.now.shape image.now.readings.now rows.start rows.end
        output.old output.new work.old work.new }
{
    let mut lines = Lines {
        centres: [0; LINE],
        last: [0; LINE],
    };
    let mut memory = Memory {
        own: [0; LINE],
        row: [0; LINE],
        other: [0; LINE],
        gains: [0; LINE],
        changes: [0; LINE],
        pairs: LowestPairs {
            least: [0; LINE],
            nearest: [0; LINE],
        },
    };
    each_row(image, rows, output, work, &mut lines, &mut memory);
}
