//! Planes built afresh, from every row of the windows.

ghost use Rattle.std.specs.Prelude.{◌≡◌, ◌+◌, ◌-◌, ◌<◌, length};
ghost use Rattle.sums.specs.Memory.{Tabulates};
ghost use Rattle.lines.specs.Lines.{HoldsReadings, IsPaddedLine};
ghost use Rattle.reading_sums.specs.Planes.{of_rows, no_gain, mark_at, counted_change};
ghost use Rattle.reading_sums.specs.Planes.{IsSweptBehind, HoldsSumsAhead, planes_length};
ghost use Rattle.reading_sums.specs.Planes.{gained_sum};

use crate::Changes;
use crate::passes::{begin, distances, distances_to_two, grow};
use lines::{Image, Line};
use median::is_short;
use sums::{add, copy};

/// A line whose planes are built, for the windows of row i.
#[derive(Clone, Copy)]
pub struct Built<'a> {
    /// The image.
    pub image: Image<'a>,
    /// The index of the row.
    pub i: usize,
    /// The line of the readings at which the sums are made.
    pub own: &'a Line,
    /// The line of the last row of the windows.
    pub last: &'a Line,
    ghost inside: { i < image.shape.rows },
    ghost own_reads: { HoldsReadings image.shape own.now },
    ghost last_row: { IsPaddedLine image.shape image.readings.now (i + image.shape.mask_rows - 1) last.now },
}

impl<'a> Built<'a> {
    // Counts in `changes`, those of the places from `start` on, the columns from `at` on, one each,
    // over all rows of the windows: two rows at a time, which share a pass over the changes, and
    // the last one alone, since the rows are odd in number. `gains`, `row` and `other` are memory.
    fn count(
        &self,
        start: usize,
        at: usize,
        changes: &mut [u32],
        gains: &mut Line,
        row: &mut Line,
        other: &mut Line,
    )
        requires offset { start + at < self.now.image.shape.mask_columns }
        requires rest_of_line { length changes.old ≡ self.now.image.shape.columns
            + (self.now.image.shape.mask_columns - 1 - (start + at)) }
        ensures { Tabulates changes.new
            (counted_change (of_rows self.now.image.shape self.now.image.readings.now self.now.i
            self.now.own.now) no_gain start at changes.old) }
    {
        let Built {
            image,
            i,
            own,
            last,
        } = *self;
        let cycle = image.shape.cycle as u16;
        let plain = is_short(image.shape.cycle);
        let n = changes.len();
        for pair in 0..image.shape.mask_rows as usize / 2 {
            let top = i + 2 * pair;
            image.pad(top, row);
            image.pad(top + 1, other);
            distances_to_two(
                cycle,
                &own[start..start + n],
                &row[at..at + n],
                &other[at..at + n],
                gains,
                plain,
            );
            grow(changes, &gains[..n]);
        }
        distances(
            cycle,
            &own[start..start + n],
            &last[at..at + n],
            gains,
            plain,
        );
        grow(changes, &gains[..n]);
    }

    /// The sweep ahead: each number of `planes`, the T·N of the line, becomes its mark with the
    /// columns from its place on counted.
    ///
    /// `changes` is left as the sweep behind begins: zeros. `gains`, `row` and `other` are memory
    /// for lines.
    pub fn ahead(
        &self,
        planes: &mut [u32],
        changes: &mut Changes,
        gains: &mut Line,
        row: &mut Line,
        other: &mut Line,
    )
        requires { length planes.old ≡ planes_length self.now.image.shape }
        ensures fronts { HoldsSumsAhead self.now.image.shape planes.new (mark_at self.now.own.now)
            (of_rows self.now.image.shape self.now.image.readings.now self.now.i self.now.own.now)
            no_gain 0 }
        ensures behind { IsSweptBehind self.now.image.shape
            (of_rows self.now.image.shape self.now.image.readings.now self.now.i self.now.own.now)
            no_gain changes.new 0 }
    {
        let columns = self.image.shape.columns as usize;
        let mask = self.image.shape.mask_columns as usize;
        let own = self.own;
        begin(&mut changes[..columns + mask], own);
        for m in 0..mask {
            let l = mask - 1 - m;
            let start = l * columns;
            self.count(0, m, &mut changes[..columns + l], gains, row, other);
            copy(
                &mut planes[start..start + columns],
                &changes[l..l + columns],
            );
        }
        changes[..columns + mask].fill(0);
    }

    /// Turn l of the sweep behind, for l from 1: adds to each number of plane l the columns before
    /// its place.
    ///
    /// `changes` is as turn l - 1 left it. `gains`, `row` and `other` are memory for lines.
    pub fn behind(
        &self,
        l: usize,
        plane: &mut [u32],
        changes: &mut Changes,
        gains: &mut Line,
        row: &mut Line,
        other: &mut Line,
    )
        requires later_plane { (0 < l) × (l < self.now.image.shape.mask_columns) }
        requires one_plane { length plane.old ≡ self.now.image.shape.columns }
        requires behind { IsSweptBehind self.now.image.shape
            (of_rows self.now.image.shape self.now.image.readings.now self.now.i self.now.own.now)
            no_gain changes.old (l - 1) }
        ensures behind_next { IsSweptBehind self.now.image.shape
            (of_rows self.now.image.shape self.now.image.readings.now self.now.i self.now.own.now)
            no_gain changes.new l }
        ensures gained { Tabulates plane.new
            (gained_sum plane.old (of_rows self.now.image.shape self.now.image.readings.now
            self.now.i self.now.own.now) no_gain l) }
    {
        let columns = self.image.shape.columns as usize;
        let n = columns + self.image.shape.mask_columns as usize - 1 - l;
        self.count(l, 0, &mut changes[l..l + n], gains, row, other);
        add(plane, &changes[l..l + columns]);
    }
}
