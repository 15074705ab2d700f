//! A case of the filter, and the memory that is lent to a call.

use shape::Shape;
use std::alloc::{AllocError, Global};
use std::fmt;
use std::ops::Range;
use test_support::cases;
use test_support::cases::DECIMAL;
use test_support::print::{Readings, Sizes};

// Readings of an image at most.
const MOST_IMAGE: usize = 256;

/// A call of the filter.
#[derive(Drop)]
pub struct Case<'a> {
    /// What the case is called.
    pub name: &'a [u8],
    /// Sizes of the image and of the mask.
    pub shape: Shape,
    /// Rows to filter.
    pub rows: Range<u32>,
    /// Length of the output.
    pub output: usize,
    /// Length of the work memory.
    pub work: usize,
    /// Readings, row by row.
    pub image: Vec<u16>,
}

impl<'a> Case<'a> {
    // The case of a line. A missing number is 0.
    pub(crate) fn parse(alloc: Global, line: &'a [u8]) -> Result<Case<'a>, AllocError> {
        let (name, rest) = cases::split_once(line, b':');
        let (numbers, image) = cases::split_once(rest, b':');
        let mut sizes = [0; 9];
        cases::numbers(numbers, DECIMAL, &mut sizes);
        let [.., first, end, output, work] = sizes;
        Ok(Case {
            name,
            shape: cases::shape(&sizes),
            rows: first..end,
            output: output as usize,
            work: work as usize,
            image: cases::readings(alloc, image, MOST_IMAGE)?,
        })
    }
}

// The case as it was understood, but for its name.
impl<'a> fmt::Display for Case<'a> {
    fn fmt<W: fmt::Write>(&self, f: &mut fmt::Formatter<W>) -> fmt::Result {
        write!(f, " {} ", Sizes(self.shape))?;
        write!(f, "range {} {} ", self.rows.start, self.rows.end)?;
        write!(f, "output {} work {}:", self.output, self.work)?;
        write!(f, "{}", Readings(&self.image))
    }
}

const OUTPUT_MARK: u16 = 9;

const WORK_MARK: u32 = 7;

/// What is lent to a call, filled with marks before it.
#[derive(Drop)]
pub struct Lent {
    /// The output, of marks 9.
    pub output: Vec<u16>,
    /// The work memory, of marks 7.
    pub work: Vec<u32>,
}

impl Lent {
    pub(crate) fn new(alloc: Global, output: usize, work: usize) -> Result<Lent, AllocError> {
        Ok(Lent {
            output: vec![in alloc; OUTPUT_MARK; output]?,
            work: vec![in alloc; WORK_MARK; work]?,
        })
    }
}

// All of the output, and how far the work memory is 0 and how far it has its mark after that.
impl fmt::Display for Lent {
    fn fmt<W: fmt::Write>(&self, f: &mut fmt::Formatter<W>) -> fmt::Result {
        let zeros = self.work.iter().take_while(|x| **x == 0).count();
        let marks = self.work[zeros..]
            .iter()
            .take_while(|x| **x == WORK_MARK)
            .count();
        write!(f, "output:{} | ", Readings(&self.output))?;
        write!(
            f,
            "work: 0 up to {zeros}, 7 up to {} of {}",
            zeros + marks,
            self.work.len()
        )
    }
}
