//! The tests of a record's row fields and of its end field.

ghost use Rattle.std.specs.Prelude.{◌≡◌, [], ◌∷◌, ◌+◌, ◌*◌, ◌≤◌, ◌<◌, length};
ghost use Rattle.lists.specs.Joined.{concat_from};
ghost use Rattle.refusal.specs.Outcome.{first_due, outcome};
ghost use Rattle.cycle.specs.Calls.{readings_rule};
ghost use Rattle.record_format.specs.Layout.{field_length};
ghost use Rattle.record_format.specs.Reading.{cycle_in, rows_in, columns_in, shape_in, row_at};
ghost use Rattle.record_format.specs.Reading.{row_in, placed_after};
ghost use Rattle.record_format.specs.Reading.{row_field_rules, end_field_rules, body_rules};
ghost use Rattle.record.specs.Stages.{HasHead};

use crate::reader::field::check_field;
use crate::reader::head::mask_due;
use cycle::check_reading;
use record_format::layout::{HEAD_LENGTH, MASK_ROWS_AT, NUMBER_LENGTH};
use record_format::{Tag, number_at};
use refusal::{Refusal, refuse_if};
use shape::Shape;

/// A record whose first three fields have passed their tests, and the five numbers that they hold.
#[derive(Clone, Copy)]
pub struct Head<'a> {
    /// All bytes of the record.
    pub bytes: &'a [u8],
    /// Its five numbers.
    pub shape: Shape,
    ghost shape_is: { shape ≡ shape_in bytes.now },
    ghost headed: { HasHead bytes.now },
}

impl Head<'_> {
    /// The rows of its image.
    pub fn rows(&self) -> usize
        ensures { result ≡ rows_in self.now.bytes.now }
    {
        self.shape.rows as usize
    }

    /// The columns of its image.
    pub fn columns(&self) -> usize
        ensures { result ≡ columns_in self.now.bytes.now }
    {
        self.shape.columns as usize
    }

    /// The offset of the field of row i; that of the row behind the last is the end field's.
    #[tactic(auto, unfolding(record_format::specs::Reading::row_at))]
    pub fn row_at(&self, i: usize) -> usize
        requires { i ≤ rows_in self.now.bytes.now }
        ensures { result ≡ row_at self.now.bytes.now i }
    {
        let length = HEAD_LENGTH + NUMBER_LENGTH * self.columns();
        MASK_ROWS_AT + mask_due(self.bytes) + i * length
    }

    // Test 9 on the readings of row i, whose field is there; its place counts over the whole image.
    fn check_readings(&self, i: usize) -> Result<(), Refusal>
        requires row { i < rows_in self.now.bytes.now }
        requires whole { row_at self.now.bytes.now i + field_length (columns_in self.now.bytes.now)
            ≤ length self.now.bytes.now }
        ensures { let b = self.now.bytes.now in outcome result ≡ first_due
            (placed_after (i * columns_in b) (readings_rule (cycle_in b) (row_in b i)) ∷ []) tt }
    {
        let at = self.row_at(i) + HEAD_LENGTH;
        let columns = self.columns();
        for k in 0..columns {
            let x = number_at(self.bytes, at + NUMBER_LENGTH * k);
            check_reading(self.shape.cycle, x, i * columns + k)?;
        }
        Ok(())
    }

    // Field 04 of row i, and then its readings (9).
    #[tactic(auto, unfolding(refusal::specs::Outcome::first_due, record_format::specs::Reading::row_field_rules))]
    fn check_row(&self, i: usize) -> Result<(), Refusal>
        requires { i < rows_in self.now.bytes.now }
        ensures { outcome result ≡ first_due (row_field_rules self.now.bytes.now i) tt }
    {
        let due = NUMBER_LENGTH * self.columns();
        check_field(self.bytes, self.row_at(i), Tag::Row, due)?;
        self.check_readings(i)
    }

    // The fields of all rows.
    fn check_rows(&self) -> Result<(), Refusal>
        ensures { let b = self.now.bytes.now in
            outcome result ≡ first_due (concat_from (row_field_rules b) 0 (rows_in b)) tt }
    {
        for i in 0..self.rows() {
            self.check_row(i)?;
        }
        Ok(())
    }

    // Field FF, and then what follows it (13).
    #[tactic(auto, unfolding(refusal::specs::Outcome::first_due))]
    fn check_end(&self) -> Result<(), Refusal>
        ensures { outcome result ≡ first_due (end_field_rules self.now.bytes.now) tt }
    {
        let at = self.row_at(self.rows());
        check_field(self.bytes, at, Tag::End, 0)?;
        let end = at + HEAD_LENGTH;
        refuse_if(end < self.bytes.len(), Refusal::Trailing(end))
    }

    /// The fields of all rows, and then FF.
    pub fn check_body(&self) -> Result<(), Refusal>
        ensures { outcome result ≡ first_due (body_rules self.now.bytes.now) tt }
    {
        self.check_rows()?;
        self.check_end()
    }
}
