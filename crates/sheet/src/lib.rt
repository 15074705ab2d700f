//! The bench sheet, as a function over lent memory from the bytes of a record to the bytes of a
//! text. All is tested before anything is stored, so that a refused sheet changes nothing but the
//! text. SPECIFICATION, "Sheet".
#![tactic(auto)]

ghost use Rattle.std.specs.Prelude.{◌≡◌, ◌≤◌, IfOk, length};
ghost use Rattle.refusal.specs.Outcome.{outcome};
ghost use Rattle.record.specs.Calls.{outcome_shape};
ghost use Rattle.sheet_text.specs.Lines.{most_text};
ghost use Rattle.sheet.specs.Sheet.{engine_for, sheet_due, FiltersRecord, SheetCall};

use filter::Engine;
use record::Record;
use refusal::limits::{LEVEL_CYCLE, MOST_BYTES};
use refusal::{Refusal, refuse_if};
use shape::Shape;
pub use sheet_text::MOST_TEXT;
use sheet_text::{write_lines, write_refusal};

/// What a sheet answers.
#[derive(Clone, Copy, Debug, PartialEq, Eq)]
pub struct SheetAnswer {
    /// Bytes of the whole text, a refusal's line too; above the length of the text memory if the
    /// text was cut.
    pub length: usize,
    /// Nothing, or the refusal whose line the text is.
    pub result: Result<(), Refusal>,
}

// The engine for an image, with so many numbers of work memory: the level engine wherever it can
// run.
fn engine_for(shape: Shape, room: usize) -> Engine
    ensures { result ≡ engine_for shape room }
{
    if LEVEL_CYCLE < shape.cycle || room < shape.level_need() {
        Engine::Reading
    } else {
        Engine::Level
    }
}

// All tests of a sheet, for buffers of so many numbers: 14, then the reader's, then the filter's.
// Answers with the record that has passed them.
#[tactic(auto, unfolding(refusal::specs::Outcome::first_due, crate::specs::Sheet::sheet_due))]
fn check<'a>(
    bytes: &'a [u8],
    readings: usize,
    output: usize,
    work: usize,
) -> Result<Record<'a>, Refusal>
    ensures answer { outcome_shape result ≡ sheet_due bytes.now readings output work }
    ensures bytes_kept { IfOk result (λ r. r.bytes.now ≡ bytes.now) }
    ensures room_kept { IfOk result (λ r. r.room ≡ readings) }
{
    refuse_if(MOST_BYTES < bytes.len(), Refusal::Record)?;
    let parsed = record::parse(bytes, readings)?;
    let shape = parsed.shape;
    filter::check_room(engine_for(shape, work), shape, output, work)?;
    Ok(parsed)
}

// Reads and filters a record, whose fields are tested once. After the tests no call refuses.
fn filter_record(
    bytes: &[u8],
    readings: &mut [u16],
    output: &mut [u16],
    work: &mut [u32],
) -> Result<Shape, Refusal>
    ensures answer { outcome result
        ≡ sheet_due bytes.now (length readings.old) (length output.old) (length work.old) }
    ensures memory { FiltersRecord (outcome result) bytes.now readings.old output.old work.old
        readings.new output.new work.new }
{
    let parsed = check(bytes, readings.len(), output.len(), work.len())?;
    let shape = parsed.shape;
    let engine = engine_for(shape, work.len());
    parsed.store(readings);
    filter::run(
        engine,
        shape,
        0..shape.rows,
        &readings[..shape.area()],
        output,
        work,
    )?;
    Ok(shape)
}

/// Lays the sheet of a record at the front of `text`, or the line of its refusal.
///
/// - `bytes`: the record, at most 16,384 bytes.
/// - `readings`: at least `rows * columns` numbers, for the image.
/// - `output`: as many, for the filtered image.
/// - `work`: the level engine filters where the cycle has at most 4,096 ticks and
///   `cycle * (columns + 1)` numbers are here; else the reading engine, which needs
///   `mask_rows * mask_columns * (columns + 1)`.
/// - `text`: receives the text, as much of it as there is room for; 65,536 bytes (`MOST_TEXT`) hold
///   every sheet.
///
/// Refuses a record that is too long (14), then as `record::parse` does with room for `readings`,
/// then the length of the output (7) and that of the work memory (8), in this order; the places of
/// 14, 7 and 8 are 0.
///
/// Accepted: the image stands at the front of `readings`, all its rows, filtered, at the front of
/// `output`, and the needed numbers of `work` are 0. All else in them is as before. Refused: all
/// three are as before. What is behind the text is as before in either case.
pub fn sheet(
    bytes: &[u8],
    readings: &mut [u16],
    output: &mut [u16],
    work: &mut [u32],
    text: &mut [u8],
) -> SheetAnswer
    ensures sheet_call { SheetCall bytes.now readings.old output.old work.old text.old result
        readings.new output.new work.new text.new }
    ensures result_bound { result.length ≤ most_text }
{
    match filter_record(bytes, readings, output, work) {
        Ok(shape) => SheetAnswer {
            length: write_lines(text, shape, output),
            result: Ok(()),
        },
        Err(refusal) => SheetAnswer {
            length: write_refusal(text, refusal),
            result: Err(refusal),
        },
    }
}
