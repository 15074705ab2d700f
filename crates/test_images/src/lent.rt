//! The memory that is lent to a call.

use crate::case::{Case, Effect};
use std::alloc::{AllocError, Global};

// Numbers of the output and of the work memory.
const OUTPUT: usize = 512;

const WORK: usize = 168000;

/// The memory that is lent to a call.
#[derive(Drop)]
pub struct Memory {
    /// The output, of 512 numbers.
    pub output: Vec<u16>,
    /// The work memory, of 168,000 numbers.
    pub work: Vec<u32>,
}

// Garbage for the output: never 0, and another at each of its places, as 65,521 is prime.
fn output_garbage(place: usize, call: usize) -> u16 {
    ((place % 65521 * 40503 + call % 65521 * 9973) % 65521 + 1) as u16
}

// Garbage for the work memory: never 0, and another at each of its places, as 4,294,967,291 is
// prime. No product passes 64 bits.
fn work_garbage(place: usize, call: usize) -> u32 {
    ((place % 4294967291 * 2654435761 + call % 4294967291 * 40503) % 4294967291 + 1) as u32
}

// Fills an output with garbage.
fn fill_output(output: &mut [u16], call: usize) {
    for (place, x) in (0..OUTPUT).zip(output) {
        *x = output_garbage(place, call);
    }
}

// Fills work memory with garbage.
fn fill_work(work: &mut [u32], call: usize) {
    for (place, x) in (0..WORK).zip(work) {
        *x = work_garbage(place, call);
    }
}

impl Memory {
    // Memory of zeros, to be filled for each call.
    pub(crate) fn zeros(alloc: Global) -> Result<Memory, AllocError> {
        Ok(Memory {
            output: vec![in alloc; 0; OUTPUT]?,
            work: vec![in alloc; 0; WORK]?,
        })
    }

    // Fills all of it with garbage, which depends on the call's index.
    pub(crate) fn fill_garbage(&mut self, call: usize) {
        fill_output(&mut self.output, call);
        fill_work(&mut self.work, call);
    }
}

/// What lent memory must hold after a call. It is computed anew at each place, so that no second
/// memory is needed.
#[derive(Clone, Copy)]
pub struct Expected<'a> {
    /// The case.
    pub case: &'a Case<'a>,
    /// What the call writes.
    pub effect: Effect,
    /// The call's index, which the garbage depends on.
    pub call: usize,
}

impl<'a> Expected<'a> {
    // The number at a place of the output.
    fn output(&self, place: usize) -> u16 {
        match place.checked_sub(self.effect.start) {
            Some(k) if k < self.effect.phases => self.case.phase(k),
            _ => output_garbage(place, self.call),
        }
    }

    // The number at a place of the work memory.
    fn work(&self, place: usize) -> u32 {
        if place < self.effect.need {
            0
        } else {
            work_garbage(place, self.call)
        }
    }

    // How many numbers of the output are other than expected.
    pub(crate) fn output_differences(&self, output: &[u16]) -> usize {
        let numbers = (0..OUTPUT).zip(output);
        numbers
            .filter(|(place, x)| **x != self.output(*place))
            .count()
    }

    // How many numbers of the work memory are other than expected.
    pub(crate) fn work_differences(&self, work: &[u32]) -> usize {
        let numbers = (0..WORK).zip(work);
        numbers
            .filter(|(place, x)| **x != self.work(*place))
            .count()
    }
}
