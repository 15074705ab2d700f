//! Planes carried down by a row.

ghost use Rattle.std.specs.Prelude.{◌≡◌, ◌-◌, ◌<◌, length};
ghost use Rattle.refusal.specs.Limits.{longest_cycle};
ghost use Rattle.refusal.specs.Outcome.{IsClear};
ghost use Rattle.shape.specs.Rules.{shape_rules};
ghost use Rattle.sums.specs.Memory.{Tabulates};
ghost use Rattle.reading_sums.specs.Passes.{of_line};
ghost use Rattle.reading_sums.specs.Planes.{IsSweptBehind, HoldsSumsAhead, carried_number};
ghost use Rattle.reading_sums.specs.Planes.{planes_length, gained_sum};
ghost use Rattle.reading_sums.specs.CarryLines.{AreCarryLines};

use crate::Changes;
use crate::passes::{move_add, steps};
use lines::Line;
use shape::Shape;

/// A line whose planes are carried from the windows of a row to those of the next.
#[derive(Clone, Copy)]
pub struct Carried<'a> {
    /// Ticks of the cycle, rows and columns of the image, rows and columns of the mask.
    pub shape: Shape,
    /// The line of the readings at which the sums are made.
    pub own: &'a Line,
    /// The line of the row that comes in below the windows.
    pub entering: &'a Line,
    /// The line of the row that goes out above them.
    pub leaving: &'a Line,
    /// Whether silence needs no test: true only if the cycle is short, or all readings of the three
    /// lines are heard.
    pub plain: bool,
    ghost accepted: { IsClear (shape_rules longest_cycle shape) },
    ghost lines: { ∥ AreCarryLines plain shape own.now entering.now leaving.now ∥₁ },
}

impl<'a> Carried<'a> {
    /// The sweep ahead: to each number of `planes`, the T·N of the line, what its reading gains and
    /// loses over the columns from its place on is added.
    ///
    /// `changes` is left as the sweep behind begins: zeros. `stepped` is memory for the steps.
    pub fn ahead(&self, planes: &mut [u32], changes: &mut Changes, stepped: &mut Line)
        requires { length planes.old ≡ planes_length self.now.shape }
        ensures fronts { HoldsSumsAhead self.now.shape planes.new
            (carried_number self.now.shape planes.old)
            (of_line self.now.shape.cycle self.now.own.now self.now.entering.now)
            (of_line self.now.shape.cycle self.now.own.now self.now.leaving.now) 0 }
        ensures behind { IsSweptBehind self.now.shape
            (of_line self.now.shape.cycle self.now.own.now self.now.entering.now)
            (of_line self.now.shape.cycle self.now.own.now self.now.leaving.now) changes.new 0 }
    {
        let Carried {
            shape,
            own,
            entering,
            leaving,
            plain,
        } = *self;
        let half = shape.cycle / 2;
        let columns = shape.columns as usize;
        let mask = shape.mask_columns as usize;
        changes[..columns + mask].fill(0);
        for m in 0..mask {
            let l = mask - 1 - m;
            let n = columns + l;
            let start = l * columns;
            steps(
                shape.cycle as u16,
                &own[..n],
                &entering[m..m + n],
                &leaving[m..m + n],
                stepped,
                plain,
            );
            move_add(
                &mut changes[..n],
                &stepped[..n],
                half,
                l,
                &mut planes[start..start + columns],
            );
        }
        changes[..columns + mask].fill(0);
    }

    /// Turn l of the sweep behind, for l from 1: adds to each number of plane l what its reading
    /// gains and loses over the columns before its place.
    ///
    /// `changes` is as turn l - 1 left it. `stepped` is memory for the steps.
    pub fn behind(&self, l: usize, plane: &mut [u32], changes: &mut Changes, stepped: &mut Line)
        requires later_plane { (0 < l) × (l < self.now.shape.mask_columns) }
        requires one_plane { length plane.old ≡ self.now.shape.columns }
        requires behind { IsSweptBehind self.now.shape
            (of_line self.now.shape.cycle self.now.own.now self.now.entering.now)
            (of_line self.now.shape.cycle self.now.own.now self.now.leaving.now) changes.old
            (l - 1) }
        ensures behind_next { IsSweptBehind self.now.shape
            (of_line self.now.shape.cycle self.now.own.now self.now.entering.now)
            (of_line self.now.shape.cycle self.now.own.now self.now.leaving.now) changes.new l }
        ensures gained { Tabulates plane.new (gained_sum plane.old
            (of_line self.now.shape.cycle self.now.own.now self.now.entering.now)
            (of_line self.now.shape.cycle self.now.own.now self.now.leaving.now) l) }
    {
        let Carried {
            shape,
            own,
            entering,
            leaving,
            plain,
        } = *self;
        let half = shape.cycle / 2;
        let columns = shape.columns as usize;
        let n = columns + shape.mask_columns as usize - 1 - l;
        steps(
            shape.cycle as u16,
            &own[l..l + n],
            &entering[..n],
            &leaving[..n],
            stepped,
            plain,
        );
        move_add(&mut changes[l..l + n], &stepped[..n], half, 0, plane);
    }
}
