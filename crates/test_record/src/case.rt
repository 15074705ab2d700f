//! The cases of records.

use shape::Shape;
use std::alloc::{AllocError, Global};
use std::fmt;
use test_support::cases;
use test_support::cases::{DECIMAL, HEXADECIMAL};
use test_support::print::{Bytes, Readings, Sizes};

/// Bytes of a record, room that is lent for one, and readings that are written, each at most.
pub const MOST_BYTES: usize = 128;

/// A record, and the room for its readings.
#[derive(Drop)]
pub struct Lent {
    /// The bytes of the record.
    pub record: Vec<u8>,
    /// How many readings there is room for.
    pub room: usize,
}

/// A call of the writer or the reader.
#[derive(Drop)]
pub enum Case {
    /// Reads a record.
    Read(Lent),
    /// Reads a record and writes what was read.
    Again(Vec<u8>),
    /// Writes a record, and reads it back.
    Write {
        /// Sizes of the image and of the mask.
        shape: Shape,
        /// Readings, row by row.
        readings: Vec<u16>,
        /// How many bytes there is room for.
        room: usize,
    },
    /// Reads this many bytes of the last record that was read.
    Cut(usize),
    /// Reads that record with one byte changed.
    Byte {
        /// The place of the byte.
        at: usize,
        /// Its new value.
        value: u8,
    },
}

// The first number of a text; 0 if it has none.
fn number(text: &[u8], base: u32) -> u32 {
    let mut numbers = [0];
    cases::numbers(text, base, &mut numbers);
    numbers[0]
}

impl Lent {
    // The bytes before the first comma, and the number behind it.
    pub(crate) fn parse(alloc: Global, text: &[u8]) -> Result<Lent, AllocError> {
        let (record, room) = cases::split_once(text, b',');
        Ok(Lent {
            record: cases::bytes(alloc, record, MOST_BYTES)?,
            room: number(room, DECIMAL) as usize,
        })
    }

    // The last record that was read, after one case more.
    pub(crate) fn after(self, case: Case) -> Lent {
        match case {
            Case::Read(lent) => lent,
            _case => self,
        }
    }
}

fn write_case(alloc: Global, text: &[u8]) -> Result<Case, AllocError> {
    let (numbers, rest) = cases::split_once(text, b':');
    let (readings, _) = cases::split_once(rest, b',');
    let (_, room) = cases::split_once(text, b',');
    let mut sizes = [0; 5];
    cases::numbers(numbers, DECIMAL, &mut sizes);
    Ok(Case::Write {
        shape: cases::shape(&sizes),
        readings: cases::readings(alloc, readings, MOST_BYTES)?,
        room: number(room, DECIMAL) as usize,
    })
}

// A byte's place, and behind the letter `s` its value in hexadecimal: `3 is 4A`.
fn byte_case(text: &[u8]) -> Case {
    let (at, value) = cases::split_once(text, b's');
    Case::Byte {
        at: number(at, DECIMAL) as usize,
        value: (number(value, HEXADECIMAL) % 256) as u8,
    }
}

impl Case {
    // The case of a line, if it is one. A missing number is 0.
    pub(crate) fn parse(alloc: Global, line: &[u8]) -> Result<Option<Case>, AllocError> {
        if let Some(text) = line.strip_prefix(b"read") {
            Ok(Some(Case::Read(Lent::parse(alloc, text)?)))
        } else if let Some(text) = line.strip_prefix(b"again") {
            Ok(Some(Case::Again(Lent::parse(alloc, text)?.record)))
        } else if let Some(text) = line.strip_prefix(b"write") {
            Ok(Some(write_case(alloc, text)?))
        } else if let Some(text) = line.strip_prefix(b"cut") {
            Ok(Some(Case::Cut(number(text, DECIMAL) as usize)))
        } else if let Some(text) = line.strip_prefix(b"byte") {
            Ok(Some(byte_case(text)))
        } else {
            Ok(None)
        }
    }
}

impl fmt::Display for Case {
    fn fmt<W: fmt::Write>(&self, f: &mut fmt::Formatter<W>) -> fmt::Result {
        match self {
            Case::Read(Lent { record, room }) => write!(f, "read{}, room {room}", Bytes(record)),
            Case::Again(record) => write!(f, "again{}", Bytes(record)),
            Case::Write {
                shape,
                readings,
                room,
            } => {
                write!(f, "write {}:{}, ", Sizes(*shape), Readings(readings))?;
                write!(f, "room {room}")
            }
            Case::Cut(at) => write!(f, "cut at {at}"),
            Case::Byte { at, value } => write!(f, "byte {at} is {value:02X}"),
        }
    }
}
