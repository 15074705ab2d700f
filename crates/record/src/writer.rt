//! The writer's tests, and the bytes that it writes. Internal: each `requires` is met by the tests
//! before. SPECIFICATION, "Writer".

ghost use Rattle.std.specs.Prelude.{◌≡◌, ◌+◌, ◌*◌, ◌≤◌, length};
ghost use Rattle.std.proofs.lemmas.List.Edits.{sets};
ghost use Rattle.lists.specs.Joined.{concat_from};
ghost use Rattle.refusal.specs.Limits.{longest_cycle, most_rows, most_columns};
ghost use Rattle.refusal.specs.Outcome.{IsClear, first_due, outcome};
ghost use Rattle.shape.specs.Rules.{shape_rules};
ghost use Rattle.record_format.specs.Layout.{numbers_length, field_length, row_fields_at};
ghost use Rattle.record_format.specs.Fields.{numbers, field};
ghost use Rattle.record_format.specs.Record.{row_field, record_bytes, record_length, write_rules};

use cycle::check_readings;
use record_format::layout::{
    CYCLE_FIELD_AT, HEAD_LENGTH, MASK_FIELD_AT, NUMBER_LENGTH, ROW_FIELDS_AT, SIZE_FIELD_AT,
    TAG_LENGTH,
};
use record_format::{Tag, put_number};
use refusal::Refusal;
use refusal::limits::LONGEST_CYCLE;
use shape::{Shape, check_buffer, check_input};

// The offset of the field of row i, where each row has so many columns; that of the row behind the
// last is the end field's.
fn row_at(columns: usize, i: usize) -> usize
    requires short { columns ≤ most_columns }
    requires few { i ≤ most_rows }
    ensures { result ≡ row_fields_at + i * field_length columns }
{
    ROW_FIELDS_AT + i * (HEAD_LENGTH + NUMBER_LENGTH * columns)
}

// The length of a record in bytes, of a shape that has passed its tests.
#[tactic(auto, unfolding(record_format::specs::Record::record_length))]
fn bytes_needed(shape: Shape) -> usize
    requires { IsClear (shape_rules longest_cycle shape) }
    ensures { result ≡ record_length shape }
{
    row_at(shape.columns as usize, shape.rows as usize) + HEAD_LENGTH
}

/// The tests of the writer, with room for so many bytes: 1 to 3 on the shape, then 6, 7 and 9.
#[tactic(auto, unfolding(refusal::specs::Outcome::first_due))]
pub fn check_write(shape: Shape, readings: &[u16], room: usize) -> Result<(), Refusal>
    ensures { outcome result ≡ first_due (write_rules shape readings.now room) tt }
{
    shape.check(LONGEST_CYCLE)?;
    let need = bytes_needed(shape);
    check_input(shape.area(), readings.len())?;
    check_buffer(need, room)?;
    check_readings(shape.cycle, readings)
}

// Writes numbers at an offset, one after the other.
fn put_numbers(bytes: &mut [u8], at: usize, values: &[u16])
    requires { at + numbers_length (length values.now) ≤ length bytes.old }
    ensures { bytes.new ≡ sets bytes.old at (numbers values.now) }
{
    for (k, value) in values.iter().enumerate() {
        put_number(bytes, at + NUMBER_LENGTH * k, *value);
    }
}

// Writes a field of numbers at an offset: its tag, the length of its body, and the numbers.
fn put_field(bytes: &mut [u8], at: usize, tag: Tag, values: &[u16])
    requires short { length values.now ≤ most_columns }
    requires room { at + field_length (length values.now) ≤ length bytes.old }
    ensures { bytes.new ≡ sets bytes.old at (field tag (numbers values.now)) }
{
    bytes[at] = tag.byte();
    put_number(
        bytes,
        at + TAG_LENGTH,
        (NUMBER_LENGTH * values.len()) as u16,
    );
    put_numbers(bytes, at + HEAD_LENGTH, values);
}

// Writes the fields of all rows, behind the first three fields.
fn put_rows(bytes: &mut [u8], rows: usize, columns: usize, readings: &[u16])
    requires few { rows ≤ most_rows }
    requires short { columns ≤ most_columns }
    requires input { length readings.now ≡ rows * columns }
    requires room { row_fields_at + rows * field_length columns ≤ length bytes.old }
    ensures { bytes.new
        ≡ sets bytes.old row_fields_at (concat_from (row_field columns readings.now) 0 rows) }
{
    for i in 0..rows {
        let start = i * columns;
        let row = &readings[start..start + columns];
        put_field(bytes, row_at(columns, i), Tag::Row, row);
    }
}

/// Writes a record at the front of `bytes`, and returns its length in bytes. What is behind it is
/// as before.
pub fn put_record(shape: Shape, readings: &[u16], bytes: &mut [u8]) -> usize
    requires { IsClear (write_rules shape readings.now (length bytes.old)) }
    ensures length { result ≡ record_length shape }
    ensures stored { bytes.new ≡ sets bytes.old 0 (record_bytes shape readings.now) }
{
    let sizes = [shape.rows as u16, shape.columns as u16];
    let mask = [shape.mask_rows as u16, shape.mask_columns as u16];
    put_field(bytes, CYCLE_FIELD_AT, Tag::Cycle, &[shape.cycle as u16]);
    put_field(bytes, SIZE_FIELD_AT, Tag::Size, &sizes);
    put_field(bytes, MASK_FIELD_AT, Tag::Mask, &mask);
    let (rows, columns) = (shape.rows as usize, shape.columns as usize);
    put_rows(bytes, rows, columns, readings);
    let end = row_at(columns, rows);
    put_field(bytes, end, Tag::End, &[]);
    end + HEAD_LENGTH
}
