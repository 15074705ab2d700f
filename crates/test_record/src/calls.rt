//! The calls of records, each on lent memory that holds a mark, and its answer in print.

use crate::case::{Lent, MOST_BYTES};
use shape::Shape;
use std::alloc::Global;
use std::io;
use std::io::Write;
use test_support::print::{Bytes, Readings, Sizes};

// Room for readings at most, and the room in which a record that was written is read back.
const MOST_READINGS: usize = 8192;

const READ_BACK_ROOM: usize = 20;

// Marks: no reading of these runs, and no byte of their records.
const READING_MARK: u16 = 60000;

const BYTE_MARK: u8 = 238;

// The word for memory that holds its mark still, or does not.
fn mark_word<T: PartialEq + Copy>(memory: &[T], mark: T) -> &'static str {
    if memory.iter().all(|x| *x == mark) {
        "kept"
    } else {
        "CHANGED"
    }
}

// Reads a record with room for `room` readings.
pub(crate) fn read(
    out: &mut impl Write,
    alloc: Global,
    record: &[u8],
    room: usize,
) -> io::Result<()> {
    if MOST_READINGS < room {
        return writeln!(out, " NO ROOM");
    }
    let mut buffer = vec![in alloc; READING_MARK; room]?;
    match record::read(record, &mut buffer) {
        Err(refusal) => writeln!(out, " {refusal}, {}", mark_word(&buffer, READING_MARK)),
        Ok(shape) => match buffer.split_at_checked(shape.area()) {
            Some((readings, spare)) => {
                write!(out, " {}:{}", Sizes(shape), Readings(readings))?;
                writeln!(out, ", {}", mark_word(spare, READING_MARK))
            }
            None => writeln!(out, " OUT OF RANGE"),
        },
    }
}

// Writes a record with room for `room` bytes, and reads back what was written.
pub(crate) fn write(
    out: &mut impl Write,
    alloc: Global,
    shape: Shape,
    readings: &[u16],
    room: usize,
) -> io::Result<()> {
    if MOST_BYTES < room {
        return writeln!(out, " NO ROOM");
    }
    let mut bytes = vec![in alloc; BYTE_MARK; room]?;
    match record::write(shape, readings, &mut bytes) {
        Err(refusal) => writeln!(out, " {refusal}, {}", mark_word(&bytes, BYTE_MARK)),
        Ok(length) => match bytes.split_at_checked(length) {
            Some((record, spare)) => {
                writeln!(
                    out,
                    " {length}:{}, {}",
                    Bytes(record),
                    mark_word(spare, BYTE_MARK)
                )?;
                write!(out, "  back")?;
                read(out, alloc, record, READ_BACK_ROOM)
            }
            None => writeln!(out, " OUT OF RANGE"),
        },
    }
}

// Reads a record, and writes what was read.
pub(crate) fn write_again(out: &mut impl Write, alloc: Global, record: &[u8]) -> io::Result<()> {
    let mut buffer = vec![in alloc; READING_MARK; READ_BACK_ROOM]?;
    match record::read(record, &mut buffer) {
        Err(refusal) => writeln!(out, " {refusal}"),
        Ok(shape) => match buffer.get(..shape.area()) {
            Some(readings) => write(out, alloc, shape, readings, MOST_BYTES),
            None => writeln!(out, " OUT OF RANGE"),
        },
    }
}

// Reads the first bytes of a record.
pub(crate) fn read_first(
    out: &mut impl Write,
    alloc: Global,
    lent: &Lent,
    length: usize,
) -> io::Result<()> {
    let record = lent.record.get(..length).unwrap_or(&lent.record);
    read(out, alloc, record, lent.room)
}

// Reads a record with one byte changed.
pub(crate) fn read_changed(
    out: &mut impl Write,
    alloc: Global,
    lent: &Lent,
    at: usize,
    value: u8,
) -> io::Result<()> {
    let mut record = lent.record.clone()?;
    match record.get_mut(at) {
        Some(byte) => *byte = value,
        None => return writeln!(out, " NO BYTE"),
    }
    read(out, alloc, &record, lent.room)
}
