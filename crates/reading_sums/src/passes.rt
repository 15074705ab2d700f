//! The reading engine's passes over lines of readings: what each reading of a line gains by the
//! readings of other rows at the same place, and how the changes of its sums move on.
//!
//! Each pass is a loop without a branch over contiguous numbers, so that it compiles to packed
//! instructions. The passes that measure distances are told by `plain` that silence needs no test:
//! each asks it once and becomes two packed loops. They measure by the formula on every cycle, also
//! on 360 ticks, since packed instructions have no look-up in a list. Changes of sums are held
//! modulo 2^32. Internal: the reading engine meets each `requires`.

ghost use Rattle.std.specs.Prelude.{◌≡◌, ◌+◌, ◌/◌, ◌≤◌, length};
ghost use Rattle.sums.specs.Memory.{Tabulates, Changed};
ghost use Rattle.sums.specs.Parts.{added_sum, increased_sum, number_from};
ghost use Rattle.reading_sums.specs.Passes.{IsMeasurable, between, between_two, step_at};
ghost use Rattle.reading_sums.specs.Passes.{moved_change, mark, marks};

use cycle::SILENT;
use median::share_of;
use sums::{NO_SUM, add};

/// Puts in `gains` what each reading of `own` gains by the reading of `row` at its place: their
/// distance, in ticks, or 0 where one of the two is silent.
///
/// `plain` may be true only where the formula of the distance gives that by itself.
pub fn distances(cycle: u16, own: &[u16], row: &[u16], gains: &mut [u16], plain: bool)
    requires measurable { IsMeasurable plain cycle own.now row.now }
    requires room { length own.now ≤ length gains.old }
    ensures { Changed gains.old gains.new 0 (length own.now) (between cycle own.now row.now) }
{
    for (j, q) in own.iter().enumerate() {
        gains[j] = share_of(cycle, *q, row[j], plain);
    }
}

/// Puts in `gains` what each reading of `own` gains by the readings of `row` and of `other` at its
/// place, together: at most a cycle, which 16 bits hold.
pub fn distances_to_two(
    cycle: u16,
    own: &[u16],
    row: &[u16],
    other: &[u16],
    gains: &mut [u16],
    plain: bool,
)
    requires by_row { IsMeasurable plain cycle own.now row.now }
    requires by_other { IsMeasurable plain cycle own.now other.now }
    requires room { length own.now ≤ length gains.old }
    ensures { Changed gains.old gains.new 0 (length own.now)
        (between_two cycle own.now row.now other.now) }
{
    for (j, q) in own.iter().enumerate() {
        gains[j] = share_of(cycle, *q, row[j], plain) + share_of(cycle, *q, other[j], plain);
    }
}

/// Puts in `steps` the step of each reading of `own`: what it gains by the row that comes in, less
/// what it loses by the one that goes out, and half a cycle more.
///
/// A step is never below 0 and at most a cycle, so that 16 bits hold it.
pub fn steps(
    cycle: u16,
    own: &[u16],
    entering: &[u16],
    leaving: &[u16],
    steps: &mut [u16],
    plain: bool,
)
    requires by_entering { IsMeasurable plain cycle own.now entering.now }
    requires by_leaving { IsMeasurable plain cycle own.now leaving.now }
    requires room { length own.now ≤ length steps.old }
    ensures { Changed steps.old steps.new 0 (length own.now)
        (step_at cycle own.now entering.now leaving.now) }
{
    let half = cycle / 2;
    for (j, q) in own.iter().enumerate() {
        let gain = share_of(cycle, *q, entering[j], plain);
        let loss = share_of(cycle, *q, leaving[j], plain);
        steps[j] = half + gain - loss;
    }
}

// What the sums at a reading begin at: 0, or no sum if it is silent.
fn mark_of(q: u16) -> u32
    ensures { result ≡ mark q }
{
    if q == SILENT { NO_SUM } else { 0 }
}

/// Begins the change of each reading of `own`: at 0, or at no sum if the reading is silent.
pub fn begin(changes: &mut [u32], own: &[u16])
    requires { length changes.old ≤ length own.now }
    ensures { Tabulates changes.new (marks own.now) }
{
    for (j, change) in changes.iter_mut().enumerate() {
        *change = mark_of(own[j]);
    }
}

/// Adds to each change its number of `gains`.
pub fn grow(changes: &mut [u32], gains: &[u16])
    requires { length changes.old ≤ length gains.now }
    ensures { Tabulates changes.new (added_sum changes.old gains.now) }
{
    for (j, change) in changes.iter_mut().enumerate() {
        *change = change.wrapping_add(gains[j] as u32);
    }
}

/// Adds to each change its step and takes off `half`, half a cycle.
pub fn move_on(changes: &mut [u32], steps: &[u16], half: u32)
    requires { length changes.old ≤ length steps.now }
    ensures { Tabulates changes.new (moved_change changes.old steps.now half) }
{
    for (j, change) in changes.iter_mut().enumerate() {
        *change = change.wrapping_add(steps[j] as u32).wrapping_sub(half);
    }
}

/// The same, and then adds the changes from place `at` on to the numbers of a plane.
///
/// All changes move in one pass, which packs; over two parts of them, each lent by itself, it would
/// not.
pub fn move_add(changes: &mut [u32], steps: &[u16], half: u32, at: usize, plane: &mut [u32])
    requires steps_long { length changes.old ≤ length steps.now }
    requires changes_long { at + length plane.old ≤ length changes.old }
    ensures changes_moved { Tabulates changes.new (moved_change changes.old steps.now half) }
    ensures plane_summed { Tabulates plane.new
        (increased_sum plane.old (number_from changes.new at)) }
{
    move_on(changes, steps, half);
    add(plane, &changes[at..]);
}
