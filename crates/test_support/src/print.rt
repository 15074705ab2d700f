//! Shapes, lists and answers as the programs print them.

use refusal::Refusal;
use shape::Shape;
use std::fmt;

/// The numbers of a shape, as a case has them.
#[derive(Clone, Copy, Debug)]
pub struct Sizes(pub Shape);

impl fmt::Display for Sizes {
    fn fmt<W: fmt::Write>(&self, f: &mut fmt::Formatter<W>) -> fmt::Result {
        let Shape {
            cycle,
            rows,
            columns,
            mask_rows,
            mask_columns,
        } = self.0;
        write!(f, "cycle {cycle} rows {rows} columns {columns} ")?;
        write!(f, "mask {mask_rows} {mask_columns}")
    }
}

/// Readings, each after a space.
#[derive(Clone, Copy, Debug)]
pub struct Readings<'a>(pub &'a [u16]);

impl<'a> fmt::Display for Readings<'a> {
    fn fmt<W: fmt::Write>(&self, f: &mut fmt::Formatter<W>) -> fmt::Result {
        for reading in self.0 {
            write!(f, " {reading}")?;
        }
        Ok(())
    }
}

/// Bytes in hexadecimal, each after a space.
#[derive(Clone, Copy, Debug)]
pub struct Bytes<'a>(pub &'a [u8]);

impl<'a> fmt::Display for Bytes<'a> {
    fn fmt<W: fmt::Write>(&self, f: &mut fmt::Formatter<W>) -> fmt::Result {
        for byte in self.0 {
            write!(f, " {byte:02X}")?;
        }
        Ok(())
    }
}

/// The answer of a call: its result or its refusal.
#[derive(Debug, Drop)]
pub struct Answer<T>(pub Result<T, Refusal>);

impl<T: fmt::Display> fmt::Display for Answer<T> {
    fn fmt<W: fmt::Write>(&self, f: &mut fmt::Formatter<W>) -> fmt::Result {
        match &self.0 {
            Ok(result) => write!(f, "{result}"),
            Err(refusal) => write!(f, "{refusal}"),
        }
    }
}
