//! Where answers are printed, and what is counted of them.

use crate::tally::Tally;
use std::io;
use std::io::Write;

/// A writer and the counts of what is written to it.
#[derive(Drop)]
pub struct Report<W> {
    /// Where answers are printed.
    pub out: W,
    /// What is counted.
    pub tally: Tally,
}

impl<W: Write> Report<W> {
    // Counts a comparison, and prints a word if it found a difference.
    pub(crate) fn add_comparison(&mut self, is_equal: bool, word: &str) -> io::Result<()> {
        self.tally.add_comparison(is_equal);
        if is_equal {
            Ok(())
        } else {
            write!(self.out, " {word}")
        }
    }
}
