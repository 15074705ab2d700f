//! The tests of a filter call, in rising order of number: 1 to 3 on the shape, then 5 to 9.

ghost use Rattle.std.specs.Prelude.{◌≡◌};
ghost use Rattle.refusal.specs.Outcome.{first_due, outcome};
ghost use Rattle.filter.specs.Calls.{memory_rules, image_rules, room_due, filter_due};

use crate::Engine;
use cycle::check_readings;
use refusal::Refusal;
use shape::{Shape, check_buffer, check_input, check_rows, check_work};
use std::ops::Range;

/// Whether lent memory is long enough: `output` numbers for `phases`, and `work` numbers of work
/// memory for the `need` of an engine.
///
/// Refuses the length of the output (7), then that of the work memory (8), at place 0.
#[tactic(auto, using(crate::proofs::Groups::memory_in_row))]
pub fn check_memory(phases: usize, need: usize, output: usize, work: usize) -> Result<(), Refusal>
    ensures { outcome result ≡ first_due (memory_rules phases need output work) tt }
{
    check_buffer(phases, output)?;
    check_work(need, work)
}

/// Tests 5 to 9 of a call, where `need` numbers of work memory are needed: as many as its engine
/// needs, or the fewest of several, or 0 if it takes none.
///
/// Refuses the range of rows (5), the length of the input (6), that of the output (7), that of the
/// work memory (8), then a reading (9), in this order.
#[tactic(auto, using(crate::proofs::Groups::readings_in_row, crate::proofs::Groups::input_in_row, crate::proofs::Groups::rows_in_row))]
pub fn check_image(
    shape: Shape,
    need: usize,
    rows: &Range<u32>,
    input: &[u16],
    output: usize,
    work: usize,
) -> Result<(), Refusal>
    ensures { outcome result
        ≡ first_due (image_rules shape need rows.now.start rows.now.end input.now output work) tt }
{
    let area = shape.area();
    check_rows(shape.rows, rows)?;
    check_input(area, input.len())?;
    check_memory(area, need, output, work)?;
    check_readings(shape.cycle, input)
}

/// Whether an engine filters every good image of a shape, with `output` numbers of output and
/// `work` numbers of work memory.
///
/// Refuses the cycle (1), the size of the image (2), the mask (3), the length of the output (7),
/// then that of the work memory (8), in this order and at place 0.
pub fn check_room(engine: Engine, shape: Shape, output: usize, work: usize) -> Result<(), Refusal>
    ensures { outcome result ≡ room_due engine shape output work }
{
    engine.check(shape)?;
    check_memory(shape.area(), engine.need(shape), output, work)
}

/// All tests of a filter call: 1 to 3 on the shape, then 5 to 9.
pub fn check_filter(
    engine: Engine,
    shape: Shape,
    rows: &Range<u32>,
    input: &[u16],
    output: usize,
    work: usize,
) -> Result<(), Refusal>
    ensures { outcome result
        ≡ filter_due engine shape rows.now.start rows.now.end input.now output work }
{
    engine.check(shape)?;
    check_image(shape, engine.need(shape), rows, input, output, work)
}
