//! What the reader stores, once a record has passed its tests.

ghost use Rattle.std.specs.Prelude.{◌≡◌, ◌+◌, ◌≤◌, length};
ghost use Rattle.std.proofs.lemmas.List.Edits.{sets};
ghost use Rattle.refusal.specs.Outcome.{IsClear};
ghost use Rattle.record_format.specs.Layout.{numbers_length};
ghost use Rattle.record_format.specs.Fields.{numbers_at};
ghost use Rattle.record_format.specs.Reading.{image_in, read_rules};

use crate::reader::Head;
use record_format::layout::{HEAD_LENGTH, NUMBER_LENGTH};
use record_format::number_at;

// Stores the numbers that stand at an offset, one in each place of a row.
fn store_numbers(bytes: &[u8], at: usize, row: &mut [u16])
    requires { at + numbers_length (length row.old) ≤ length bytes.now }
    ensures { row.new ≡ numbers_at bytes.now at (length row.old) }
{
    for (k, reading) in row.iter_mut().enumerate() {
        *reading = number_at(bytes, at + NUMBER_LENGTH * k);
    }
}

impl Head<'_> {
    /// Stores the readings of all rows at the front of the buffer. What is behind them is as
    /// before.
    pub fn store_rows(&self, readings: &mut [u16])
        requires { IsClear (read_rules self.now.bytes.now (length readings.old)) }
        ensures { readings.new ≡ sets readings.old 0 (image_in self.now.bytes.now) }
    {
        let columns = self.columns();
        for i in 0..self.rows() {
            let start = i * columns;
            let at = self.row_at(i) + HEAD_LENGTH;
            store_numbers(self.bytes, at, &mut readings[start..start + columns]);
        }
    }
}
