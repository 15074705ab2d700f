//! What is counted of an engine's calls.

use crate::lent::Expected;
use refusal::Refusal;
use std::fmt;
use test_support::cases::nth;

/// What is counted of an engine's calls.
#[derive(Clone, Copy, Default)]
pub struct Tally {
    filtered_calls: usize,
    refused_calls: usize,
    // Rows and phases of the ranges, and phases other than the reading at their place.
    rows: usize,
    phases: usize,
    moved_phases: usize,
    // The other numbers of the output.
    other_output: usize,
    // Work numbers that are 0, and those that have to be garbage still.
    zeros: usize,
    other_work: usize,
    /// Answers and numbers that were not those expected.
    pub differences: usize,
}

// Adds to a count, which stops at the largest number.
fn add(count: &mut usize, n: usize) {
    *count = count.saturating_add(n);
}

impl Tally {
    // Counts the answer of a call beside the one that is expected.
    pub(crate) fn add_answer(
        &mut self,
        answer: Result<(), Refusal>,
        expected: Result<(), Refusal>,
    ) {
        match answer {
            Ok(()) => add(&mut self.filtered_calls, 1),
            Err(_) => add(&mut self.refused_calls, 1),
        }
        if answer != expected {
            add(&mut self.differences, 1);
        }
    }

    // Counts the numbers of the output beside those that are expected.
    pub(crate) fn add_output(&mut self, expected: &Expected, output: &[u16]) {
        let effect = expected.effect;
        let phases = effect.phases;
        let range = output.iter().enumerate().skip(effect.start).take(phases);
        let moved_phases = range.filter(|(place, x)| **x != nth(expected.case.numbers, *place));
        add(&mut self.rows, effect.rows);
        add(&mut self.phases, phases);
        add(&mut self.moved_phases, moved_phases.count());
        add(&mut self.other_output, output.len().saturating_sub(phases));
        add(&mut self.differences, expected.output_differences(output));
    }

    // Counts the work numbers beside those that are expected.
    pub(crate) fn add_work(&mut self, expected: &Expected, work: &[u32]) {
        let need = expected.effect.need;
        add(&mut self.zeros, work.iter().filter(|x| **x == 0).count());
        add(&mut self.other_work, work.len().saturating_sub(need));
        add(&mut self.differences, expected.work_differences(work));
    }
}

impl fmt::Display for Tally {
    fn fmt<W: fmt::Write>(&self, f: &mut fmt::Formatter<W>) -> fmt::Result {
        writeln!(f, "  calls that filtered {}", self.filtered_calls)?;
        writeln!(f, "  calls refused {}", self.refused_calls)?;
        writeln!(f, "  rows compared {}", self.rows)?;
        writeln!(f, "  phases compared {}", self.phases)?;
        writeln!(f, "  phases other than their reading {}", self.moved_phases)?;
        writeln!(
            f,
            "  other numbers of the output compared {}",
            self.other_output
        )?;
        writeln!(f, "  work numbers that are 0 {}", self.zeros)?;
        writeln!(f, "  other work numbers compared {}", self.other_work)?;
        writeln!(f, "  differences {}", self.differences)
    }
}
