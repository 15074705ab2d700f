//! The rows of the output: the first of a range is set up afresh, and each later one follows from
//! the row above it.

ghost use Rattle.std.specs.Prelude.{◌≡◌, ◌+◌, ◌≤◌, ◌<◌, length, slice_index};
ghost use Rattle.refusal.specs.Limits.{level_cycle};
ghost use Rattle.shape.specs.Need.{level_need};
ghost use Rattle.shape.specs.Rules.{area};
ghost use Rattle.sums.specs.Memory.{lowest};
ghost use Rattle.lines.specs.Rows.{IsFillable, IsFilled};
ghost use Rattle.level_sums.specs.Sums.{IsRow, IsColumn, HoldsRowSums};
ghost use Rattle.level.specs.Rows.{IsChoosable, IsChosenBy, HoldsPhases, WritesRows};

use cycle::SILENT;
use level_choice::choose;
use level_sums::row::Row;
use level_sums::source::Source;
use level_sums::step::Step;
use level_sums::table::{TABLE, distances};
use lines::{Image, LINE, Line};
use std::ops::Range;
use sums::lowest_of;

// Memory for two lines: the centres of a row's windows, and a row.
#[derive(Drop)]
struct Lines {
    centres: Line,
    row: Line,
}

// The phase of a window by its centre, or what stands in for it, and its sums, of which `least` is
// the lowest. The centre is silent only where none of the window was heard.
fn phase_by_lowest(centre: u16, sums: &[u32], least: u32) -> u16
    requires choosable { IsChoosable centre sums.now }
    requires lowest { least ≡ lowest (slice_index sums.now) (length sums.now) }
    ensures { IsChosenBy centre sums.now result }
{
    if centre == SILENT {
        SILENT
    } else {
        choose(sums, usize::from(centre), least) as u16
    }
}

// The same, where the lowest sum is not known.
fn phase_by_sums(centre: u16, sums: &[u32]) -> u16
    requires { IsChoosable centre sums.now }
    ensures { IsChosenBy centre sums.now result }
{
    phase_by_lowest(centre, sums, lowest_of(sums))
}

// Sets up the sums of a row afresh and writes its phases to `out`.
fn first_row(row: &Row, sums: &mut [u32], lines: &mut Lines, out: &mut [u16])
    requires room { IsRow row.now.source.image sums.old }
    requires width { length out.old ≡ row.now.source.image.shape.columns }
    ensures phases { HoldsPhases row.now.source.image row.now.i out.new }
    ensures sums { HoldsRowSums row.now.source.image row.now.i sums.new 0
        row.now.source.image.shape.columns }
{
    let image = &row.source.image;
    let cycle = image.shape.cycle as usize;
    image.centres(row.i, &mut lines.centres, &mut lines.row);
    for (j, phase) in out.iter_mut().enumerate() {
        row.set_up(j, sums);
        *phase = phase_by_sums(lines.centres[j], &sums[j * cycle..(j + 1) * cycle]);
    }
}

// Moves the sums down by a step and writes the phases of the lower row to `out`.
fn next_row(step: &Step, sums: &mut [u32], change: &mut [u32], lines: &mut Lines, out: &mut [u16])
    requires room { IsRow step.now.source.image sums.old }
    requires ticks { IsColumn step.now.source.image change.old }
    requires width { length out.old ≡ step.now.source.image.shape.columns }
    requires sums { HoldsRowSums step.now.source.image step.now.i sums.old 0
        step.now.source.image.shape.columns }
    ensures phases { HoldsPhases step.now.source.image (step.now.i + 1) out.new }
    ensures sums { HoldsRowSums step.now.source.image
        (step.now.i + 1) sums.new 0 step.now.source.image.shape.columns }
{
    let image = &step.source.image;
    let cycle = image.shape.cycle as usize;
    image.centres(step.i + 1, &mut lines.centres, &mut lines.row);
    for (j, phase) in out.iter_mut().enumerate() {
        let least = step.move_down(j, sums, change);
        *phase = phase_by_lowest(lines.centres[j], &sums[j * cycle..(j + 1) * cycle], least);
    }
}

// Writes the rows of a range, one after the other, each lent as its own part of the output.
fn each_row(
    source: &Source,
    rows: Range<usize>,
    output: &mut [u16],
    sums: &mut [u32],
    change: &mut [u32],
    lines: &mut Lines,
)
    requires order { rows.start ≤ rows.end }
    requires image_rows { rows.end ≤ source.now.image.shape.rows }
    requires output_room { area source.now.image.shape ≤ length output.old }
    requires room { IsRow source.now.image sums.old }
    requires ticks { IsColumn source.now.image change.old }
    ensures { WritesRows source.now.image rows.start rows.end output.old output.new }
{
    let columns = source.image.shape.columns as usize;
    let first = rows.start;
    for i in first..rows.end {
        let start = i * columns;
        let out = &mut output[start..start + columns];
        if i == first {
            let row = Row { source: *source, i };
            first_row(&row, sums, lines, out);
        } else {
            let step = Step {
                source: *source,
                i: i - 1,
            };
            next_row(&step, sums, change, lines, out);
        }
    }
}

/// Writes the phases of a range of rows, each at its own spot of the whole output.
///
/// The image has passed the tests of the level engine, and the range, the lengths of `output` (at
/// least M·N) and of `work` (at least C·(N + 1)) have been tested. The rest of `output` stays as it
/// was, and so does `work` past the need; the numbers of the need may be anything afterwards.
///
/// It is not inlined, so that the table and the lines, its local memory, stay out of its callers'
/// frames, where a call that is refused would pay for them.
#[inline(never)]
pub fn fill(image: &Image, rows: Range<usize>, output: &mut [u16], work: &mut [u32])
    requires { IsFillable level_cycle level_need image.now.shape image.now.readings.now rows.start
        rows.end (length output.old) (length work.old) }
    ensures { IsFilled level_need image.now.shape image.now.readings.now rows.start rows.end
        output.old output.new work.old work.new }
{
    if rows.is_empty() {
        return;
    }
    let cycle = image.shape.cycle as usize;
    let columns = image.shape.columns as usize;
    let mut table = [0; TABLE];
    let mut lines = Lines {
        centres: [0; LINE],
        row: [0; LINE],
    };
    distances(cycle, &mut table);
    let source = Source {
        image: *image,
        table: &table,
    };
    let (sums, rest) = work.split_at_mut(columns * cycle);
    each_row(&source, rows, output, sums, &mut rest[..cycle], &mut lines);
}
