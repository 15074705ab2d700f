//! The lines of the bench sheet, laid into lent memory one after the other. Where there is no room
//! left the text is cut, and its length goes on counting, as of `text`. Internal: that each row has
//! a drift is asked of the caller. SPECIFICATION, "Sheet".
#![tactic(auto)]

mod text;

ghost use Rattle.std.specs.Prelude.{◌≡◌, ◌++◌, ℕ, ◌≤◌, ◌<◌, length, codes};
ghost use Rattle.std.specs.Fmt.{signed_decimal};
ghost use Rattle.refusal.specs.Limits.{most_rows, most_columns};
ghost use Rattle.refusal.specs.Table.{number_of, place_of};
ghost use Rattle.refusal.specs.Outcome.{IsClear};
ghost use Rattle.cycle.specs.Calls.{row_rules};
ghost use Rattle.shape.specs.Rules.{area, row_of};
ghost use Rattle.sheet_text.specs.Text.{LaysText, AppendsText};
ghost use Rattle.sheet_text.specs.Lines.{refusal_line, head_line, phase_word, phase_words};
ghost use Rattle.sheet_text.specs.Lines.{row_line, image_lines};

use cycle::SILENT;
use itoa::Integer;
use refusal::Refusal;
use shape::Shape;
use text::Text;

/// Bytes of a text memory that holds every sheet.
pub const MOST_TEXT: usize = 65536;

// A word, and a number behind it.
fn append_counted<I: Integer>(text: &mut Text, word: &[u8], n: I)
    ensures { AppendsText text.old (word.now ++ I.text n) text.new }
{
    text.append(word);
    text.append_number(n);
}

/// Lays the line of a refusal at the front of the memory; returns the length of the whole line in
/// bytes.
pub fn write_refusal(memory: &mut [u8], refusal: Refusal) -> usize
    ensures { LaysText memory.old 0
        (refusal_line (number_of refusal) (place_of refusal)) result memory.new }
{
    let mut text = Text::new(memory);
    append_counted(&mut text, b"refused ", refusal.number());
    append_counted(&mut text, b" at ", refusal.place());
    text.append(b"\n");
    text.length()
}

// The first line: cycle, rows, columns, mask rows and mask columns.
fn append_head(text: &mut Text, shape: Shape)
    ensures { AppendsText text.old (head_line shape) text.new }
{
    append_counted(text, b"cycle ", shape.cycle);
    append_counted(text, b" rows ", shape.rows);
    append_counted(text, b" columns ", shape.columns);
    append_counted(text, b" mask ", shape.mask_rows);
    append_counted(text, b" ", shape.mask_columns);
    text.append(b"\n");
}

// A phase: its number, or `-` if it is silent.
#[tactic(auto, using(crate::proofs::WordLaws::word_silent, crate::proofs::WordLaws::word_heard))]
fn append_phase_word(text: &mut Text, phase: u16)
    ensures { AppendsText text.old (phase_word phase) text.new }
{
    if phase == SILENT {
        text.append(b"-");
    } else {
        text.append_number(phase);
    }
}

// Each phase behind a space.
fn append_phases(text: &mut Text, row: &[u16])
    ensures { AppendsText text.old (phase_words row.now) text.new }
{
    for phase in row {
        text.append(b" ");
        append_phase_word(text, *phase);
    }
}

// A drift, behind its word.
fn append_drift(text: &mut Text, drift: i32)
    ensures { AppendsText text.old (codes " drift " ++ signed_decimal drift) text.new }
{
    append_counted(text, b" drift ", drift);
}

// The line of a row: its index, its phases and their drift.
fn append_row(text: &mut Text, cycle: u32, i: usize, row: &[u16])
    requires { IsClear (row_rules cycle row.now) }
    ensures { AppendsText text.old (row_line cycle i row.now) text.new }
{
    let drift = cycle::drift(cycle, row).unwrap();
    append_counted(text, b"row ", i);
    text.append(b":");
    append_phases(text, row);
    append_drift(text, drift);
    text.append(b"\n");
}

/// Lays all lines of a filtered image at the front of the memory; returns the length of the whole
/// text in bytes.
pub fn write_lines(memory: &mut [u8], shape: Shape, phases: &[u16]) -> usize
    requires rows_fit { shape.rows ≤ most_rows }
    requires columns_fit { shape.columns ≤ most_columns }
    requires phases_there { area shape ≤ length phases.now }
    requires rows_clear { (i : ℕ) → i < shape.rows
        → IsClear (row_rules shape.cycle (row_of shape.columns phases.now i)) }
    ensures { LaysText memory.old 0 (image_lines shape phases.now) result memory.new }
{
    let mut text = Text::new(memory);
    let columns = shape.columns as usize;
    append_head(&mut text, shape);
    for i in 0..shape.rows as usize {
        let start = i * columns;
        append_row(&mut text, shape.cycle, i, &phases[start..start + columns]);
    }
    text.length()
}
