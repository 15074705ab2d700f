//! The cases of the live window.

use live::{LiveWindow, PLACES};
use std::alloc::{AllocError, Global};
use std::array;
use test_support::cases;
use test_support::cases::{DECIMAL, nth};

/// What a live window is tried on.
#[derive(Clone, Copy)]
pub enum Case<'a> {
    /// A new window.
    Live {
        /// Ticks of the cycle.
        cycle: u32,
        /// Readings that the window holds.
        length: u32,
        /// Its readings and resets.
        wakes: &'a [u8],
    },
    /// A row.
    Row {
        /// Ticks of the cycle.
        cycle: u32,
        /// Readings that the window holds.
        length: u32,
        /// The readings of the row.
        wakes: &'a [u8],
    },
    /// A window that no call made.
    Forged {
        /// The window.
        window: LiveWindow,
        /// Its readings and resets.
        wakes: &'a [u8],
    },
}

// The readings or the sums of a window. A missing number is 0.
fn places(alloc: Global, text: &[u8]) -> Result<[u16; PLACES], AllocError> {
    let numbers = cases::readings(alloc, text, PLACES)?;
    Ok(array::from_fn(|k| nth(&numbers, k)))
}

// The case of a cycle, a length and a count, and after commas readings and sums.
fn forged_case<'a>(alloc: Global, line: &'a [u8]) -> Result<Case<'a>, AllocError> {
    let (sizes, rest) = cases::split_once(line, b',');
    let (readings, rest) = cases::split_once(rest, b',');
    let (sums, wakes) = cases::split_once(rest, b':');
    let mut numbers = [0; 3];
    cases::numbers(sizes, DECIMAL, &mut numbers);
    let [cycle, length, filled] = numbers;
    let window = LiveWindow {
        cycle,
        length,
        filled,
        readings: places(alloc, readings)?,
        sums: places(alloc, sums)?,
    };
    Ok(Case::Forged { window, wakes })
}

impl<'a> Case<'a> {
    // The case of a line, if it is one. A missing number is 0.
    pub(crate) fn parse(alloc: Global, line: &'a [u8]) -> Result<Option<Case<'a>>, AllocError> {
        let (head, wakes) = cases::split_once(line, b':');
        let mut numbers = [0; 2];
        cases::numbers(head, DECIMAL, &mut numbers);
        let [cycle, length] = numbers;
        if line.starts_with(b"live") {
            Ok(Some(Case::Live {
                cycle,
                length,
                wakes,
            }))
        } else if line.starts_with(b"row") {
            Ok(Some(Case::Row {
                cycle,
                length,
                wakes,
            }))
        } else if line.starts_with(b"forged") {
            Ok(Some(forged_case(alloc, line)?))
        } else {
            Ok(None)
        }
    }
}
