//! A record that has passed all tests of the reader.

ghost use Rattle.std.specs.Prelude.{◌≡◌, ◌≤◌, length};
ghost use Rattle.lists.specs.Front.{at_front};
ghost use Rattle.refusal.specs.Outcome.{IsClear};
ghost use Rattle.record_format.specs.Reading.{shape_in, image_in, read_rules};
ghost use Rattle.record.specs.Stages.{IsClear-prop};

use crate::reader::Head;
use shape::Shape;

/// A record that has passed all tests of the reader, with room for so many readings. `parse` makes
/// it, and it needs no test again. SPECIFICATION, "Reader".
#[derive(Clone, Copy)]
pub struct Record<'a> {
    /// All bytes of the record.
    pub bytes: &'a [u8],
    /// Its cycle in ticks, the rows and columns of its image, and the sides of its mask.
    pub shape: Shape,
    /// The room in readings that it was tested with, at least `rows * columns`.
    pub room: usize,
    pub ghost shape_is: { shape ≡ shape_in bytes.now },
    pub ghost tested: { IsClear (read_rules bytes.now room) } by { IsClear-prop _ },
}

impl Record<'_> {
    /// Stores the image row by row at the front of `readings`: `rows * columns` readings, each a
    /// tick, or 65,535 where a wake was silent. What is behind it is as before.
    ///
    /// Requires that `readings` has the room that the record was tested with, and refuses nothing.
    pub fn store(&self, readings: &mut [u16])
        requires { self.now.room ≤ length readings.old }
        ensures { readings.new ≡ at_front (image_in self.now.bytes.now) readings.old }
    {
        let head = Head {
            bytes: self.bytes,
            shape: self.shape,
        };
        head.store_rows(readings);
    }
}
