//! The bench record: its writer and its reader. `parse` makes the reader's tests once, and the
//! record that has passed them (`Record`) stores its readings; `read` is both in one call.
//! SPECIFICATION, "Record".
//!
//! Each function here answers or refuses whatever it is given, and a refusal changes no lent memory.
//! `Record::store` alone requires something: the room that the record was tested with.
#![tactic(auto)]

mod reader;
mod writer;

ghost use Rattle.std.specs.Prelude.{◌≡◌, IfOk};
ghost use Rattle.refusal.specs.Outcome.{outcome};
ghost use Rattle.record_format.specs.Reading.{read_due};
ghost use Rattle.record.specs.Calls.{WriteCall, ReadCall, outcome_shape};

pub use reader::Record;
use reader::{Head, check_head};
use refusal::Refusal;
use shape::Shape;
use writer::{check_write, put_record};

/// Writes the record of an image at the front of `bytes`, and returns its length in bytes,
/// `22 + rows * (3 + 2 * columns)`.
///
/// `readings` is the image row by row, exactly `rows * columns` readings, each a tick of the cycle,
/// or 65,535 where a wake was silent. The mask is always written with its two sides.
///
/// Refuses the cycle (1), the size of the image (2), the mask (3), the number of readings (6), the
/// room for bytes (7), then a reading that is neither a tick nor silent (9), in this order. The
/// place of 9 is the index of the first such reading; every other place is 0.
///
/// Accepted: the record is at the front of `bytes`, and what is behind it is as before. Refused:
/// `bytes` is as before.
pub fn write(shape: Shape, readings: &[u16], bytes: &mut [u8]) -> Result<usize, Refusal>
    ensures { WriteCall shape readings.now bytes.old result bytes.new }
{
    check_write(shape, readings, bytes.len())?;
    Ok(put_record(shape, readings, bytes))
}

/// Makes all tests of the reader on a record, which is all of `bytes`, with room for `room`
/// readings. Answers with the record that has passed them: its bytes, this room, its cycle in
/// ticks, the rows and columns of its image and the sides of its mask. An empty mask field is a
/// mask of 1 row by 7 columns. Stores nothing. SPECIFICATION, "Reader".
///
/// Tests the fields in turn, and refuses by the first test that is due. Each field: fewer than
/// three bytes are left (10), its tag (11), its length (12), its body is not all there (10), each
/// at the offset of the field. Then what it holds: the cycle (1, if 0); the size of the image (2);
/// the mask (3), and then the room for the whole image (7), all at place 0; in each row a reading
/// that is neither a tick nor silent (9), at its index in the image. Last, bytes behind the end
/// field (13), at the offset of the first.
pub fn parse<'a>(bytes: &'a [u8], room: usize) -> Result<Record<'a>, Refusal>
    ensures answer { outcome_shape result ≡ read_due bytes.now room }
    ensures bytes_kept { IfOk result (λ r. r.bytes.now ≡ bytes.now) }
    ensures room_kept { IfOk result (λ r. r.room ≡ room) }
{
    let shape = check_head(bytes, room)?;
    Head { bytes, shape }.check_body()?;
    Ok(Record { bytes, shape, room })
}

/// What `read` answers with room for `room` readings: the cycle of the record in ticks, the rows
/// and columns of its image and the sides of its mask. Stores nothing.
///
/// Refuses as `parse` does, in its order.
pub fn validate(bytes: &[u8], room: usize) -> Result<Shape, Refusal>
    ensures { outcome result ≡ read_due bytes.now room }
{
    Ok(parse(bytes, room)?.shape)
}

/// Reads a record, which is all of `bytes`: `parse` with the room of `readings`, and then `store`.
/// Answers with its cycle in ticks, the rows and columns of its image and the sides of its mask.
///
/// Refuses as `parse` does, in its order. Each field: its bytes, its tag and its length (10, 11,
/// 12, 10), and then what it holds: the cycle (1), the size of the image (2), the mask (3) and the
/// room in `readings` (7), a reading (9). Last, bytes behind the end field (13).
///
/// Accepted: the image stands row by row at the front of `readings`, and what is behind it is as
/// before. Refused: `readings` is as before.
pub fn read(bytes: &[u8], readings: &mut [u16]) -> Result<Shape, Refusal>
    ensures { ReadCall bytes.now readings.old result readings.new }
{
    let parsed = parse(bytes, readings.len())?;
    parsed.store(readings);
    Ok(parsed.shape)
}
