//! The tests of a record's first three fields, and the five numbers that they hold.

ghost use Rattle.std.specs.Prelude.{◌≡◌, ◌++◌, ◌+◌, ◌≤◌, length};
ghost use Rattle.refusal.specs.Outcome.{first_due, outcome};
ghost use Rattle.record_format.specs.declared.Tag.TheVariants as tags;
ghost use Rattle.record_format.specs.Layout.{body_of, mask_field_at, mask_columns_at};
ghost use Rattle.record_format.specs.Reading.{mask_due, mask_side_in, shape_in};
ghost use Rattle.record_format.specs.Reading.{field_rules, cycle_field_rules, size_field_rules};
ghost use Rattle.record_format.specs.Reading.{mask_value_rules};
ghost use Rattle.record.specs.Stages.{head_rules};

use crate::reader::field::check_field;
use cycle::check_cycle;
use record_format::layout::{
    COLUMNS_AT, CYCLE_AT, CYCLE_FIELD_AT, HEAD_LENGTH, MASK_COLUMNS_AT, MASK_FIELD_AT,
    MASK_LENGTH_AT, MASK_ROWS_AT, NUMBER_LENGTH, ROWS_AT, SIZE_FIELD_AT,
};
use record_format::{Tag, number_at};
use refusal::limits::LONGEST_CYCLE;
use refusal::{Refusal, refuse_if};
use shape::{Shape, check_buffer, check_size};

// The rows of the default mask, which an empty mask field means.
const DEFAULT_MASK_ROWS: u32 = 1;

// The columns of the default mask.
const DEFAULT_MASK_COLUMNS: u32 = 7;

// Field 01, and then the cycle (1).
#[tactic(auto, unfolding(refusal::specs::Outcome::first_due))]
fn check_cycle_field(bytes: &[u8]) -> Result<(), Refusal>
    ensures { outcome result ≡ first_due (cycle_field_rules bytes.now) tt }
{
    check_field(bytes, CYCLE_FIELD_AT, Tag::Cycle, NUMBER_LENGTH)?;
    check_cycle(LONGEST_CYCLE, number_at(bytes, CYCLE_AT) as u32)
}

// Field 02, and then the sizes (2).
#[tactic(auto, unfolding(refusal::specs::Outcome::first_due))]
fn check_size_field(bytes: &[u8]) -> Result<(), Refusal>
    ensures { outcome result ≡ first_due (size_field_rules bytes.now) tt }
{
    check_field(bytes, SIZE_FIELD_AT, Tag::Size, 2 * NUMBER_LENGTH)?;
    let rows = number_at(bytes, ROWS_AT) as u32;
    let columns = number_at(bytes, COLUMNS_AT) as u32;
    check_size(rows, columns)
}

/// The length that is due in field 03, in bytes: none where it states 0, and else that of two
/// numbers.
#[tactic(auto, unfolding(record_format::specs::Reading::mask_due))]
pub fn mask_due(bytes: &[u8]) -> usize
    requires { body_of mask_field_at ≤ length bytes.now }
    ensures { result ≡ mask_due bytes.now }
{
    if number_at(bytes, MASK_LENGTH_AT) == 0 {
        0
    } else {
        2 * NUMBER_LENGTH
    }
}

// Field 03, without its values.
#[tactic(auto, using(refusal::proofs::Outcome::tests), unfolding(refusal::specs::Outcome::first_due))]
fn check_mask_field(bytes: &[u8]) -> Result<(), Refusal>
    ensures { outcome result
        ≡ first_due (field_rules bytes.now mask_field_at tags.Mask (mask_due bytes.now)) tt }
{
    let left = bytes.len().saturating_sub(MASK_FIELD_AT);
    refuse_if(left < HEAD_LENGTH, Refusal::Cut(MASK_FIELD_AT))?;
    check_field(bytes, MASK_FIELD_AT, Tag::Mask, mask_due(bytes))
}

// A side of the mask: the number at an offset of field 03, or the default if the field is empty.
#[tactic(auto, unfolding(record_format::specs::Reading::mask_due, record_format::specs::Reading::mask_side_in))]
fn mask_side(bytes: &[u8], at: usize, default: u32) -> u32
    requires whole { body_of mask_field_at + mask_due bytes.now ≤ length bytes.now }
    requires inside { at ≤ mask_columns_at }
    ensures { result ≡ mask_side_in bytes.now at default }
{
    if mask_due(bytes) == 0 {
        default
    } else {
        number_at(bytes, at) as u32
    }
}

// The five numbers of a record whose first three fields are there.
fn shape_in(bytes: &[u8]) -> Shape
    requires { body_of mask_field_at + mask_due bytes.now ≤ length bytes.now }
    ensures { result ≡ shape_in bytes.now }
{
    Shape {
        cycle: number_at(bytes, CYCLE_AT) as u32,
        rows: number_at(bytes, ROWS_AT) as u32,
        columns: number_at(bytes, COLUMNS_AT) as u32,
        mask_rows: mask_side(bytes, MASK_ROWS_AT, DEFAULT_MASK_ROWS),
        mask_columns: mask_side(bytes, MASK_COLUMNS_AT, DEFAULT_MASK_COLUMNS),
    }
}

/// The first three fields, then the mask (3) and the room for all readings (7); answers with the
/// five numbers.
#[tactic(auto, unfolding(refusal::specs::Outcome::first_due))]
pub fn check_head(bytes: &[u8], room: usize) -> Result<Shape, Refusal>
    ensures { outcome result ≡ first_due
        (head_rules bytes.now ++ mask_value_rules (shape_in bytes.now) room) (shape_in bytes.now) }
{
    check_cycle_field(bytes)?;
    check_size_field(bytes)?;
    check_mask_field(bytes)?;
    let shape = shape_in(bytes);
    let need = shape.area();
    shape.check_mask()?;
    check_buffer(need, room)?;
    Ok(shape)
}
