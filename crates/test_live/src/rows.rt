//! A row pushed into a fresh window, by value and in place, and filtered by both engines as an
//! image of one row. With T readings in the window and t = (T - 1) / 2, the answer to reading k,
//! from T - 1 on, must be the output at column k - t (SPECIFICATION, "Live window").

use filter::Engine;
use live::{Live, LiveWindow, PLACES};
use refusal::Refusal;
use shape::Shape;
use std::alloc::{AllocError, Global};
use std::io;
use std::io::Write;
use test_live_checks::answer::{Answer, Repeats};
use test_live_checks::report::Report;

// Readings of a row at most, and numbers of the work memory: what the level engine needs for 135
// readings on 512 ticks, or for 8,192 on 8.
const MOST_ROW: usize = 8192;

const WORK: usize = 69632;

// No answer, and no phase.
const OUTPUT_MARK: u16 = 60002;

// The answer to a reading of a row, whatever the reason of a refusal.
fn row_answer(answer: Result<Live, Refusal>) -> Answer {
    answer.map_or(Answer::NoAnswer, Answer::from)
}

// The answers to a row's readings by value. It and `push_row_in` are compared, so each is written
// out.
fn push_row(
    alloc: Global,
    cycle: u32,
    length: u32,
    row: &[u16],
) -> Result<Vec<Answer>, AllocError> {
    let made = LiveWindow::fresh(cycle, length);
    let mut window = made.window;
    let mut answers = Vec::new(alloc);
    for reading in row {
        answers.push(row_answer(window.push(*reading)))?;
    }
    Ok(answers)
}

// The answers in place, on two arrays that go from reading to reading.
fn push_row_in(
    alloc: Global,
    cycle: u32,
    length: u32,
    row: &[u16],
) -> Result<Vec<Answer>, AllocError> {
    let mut readings = [0; PLACES];
    let mut sums = [0; PLACES];
    let mut filled = 0;
    let mut answers = Vec::new(alloc);
    let _ = live::fresh_in(cycle, length, &mut readings, &mut sums);
    for reading in row {
        let result = live::push_in(
            cycle,
            length,
            &mut filled,
            *reading,
            &mut readings,
            &mut sums,
        );
        answers.push(row_answer(result))?;
    }
    Ok(answers)
}

// Compares answers with those of another way, and prints how many are equal.
fn compare<W: Write>(
    report: &mut Report<W>,
    name: &str,
    answers: &[Answer],
    others: &[Answer],
) -> io::Result<()> {
    let count = answers.len();
    let equal = answers.iter().zip(others).filter(|(a, b)| a == b).count();
    report.tally.add_comparisons(count, equal);
    write!(report.out, ", {name} equal {equal} of {count}")
}

// Compares the answers from reading T - 1 on with what an engine writes from column t on.
fn compare_engine<W: Write>(
    report: &mut Report<W>,
    alloc: Global,
    engine: Engine,
    shape: Shape,
    row: &[u16],
    answers: &[Answer],
) -> io::Result<()> {
    let mut output = vec![in alloc; OUTPUT_MARK; row.len()]?;
    let mut work = vec![in alloc; 0; WORK]?;
    if let Err(refusal) = filter::run(engine, shape, 0..1, row, &mut output, &mut work) {
        write!(report.out, "{refusal}")?;
    }
    let length = shape.mask_columns as usize;
    let phases = output
        .iter()
        .skip(length / 2)
        .map(|phase| Answer::from(*phase));
    let phases: Vec<Answer> = phases.collect(alloc)?;
    let answers = answers.get(length.saturating_sub(1)..).unwrap_or(&[]);
    let name = match engine {
        Engine::Level => "level",
        Engine::Reading => "reading",
    };
    compare(report, name, answers, &phases)
}

// Pushes a row in both ways, filters it, and prints the answers and what was compared.
pub(crate) fn run<W: Write>(
    report: &mut Report<W>,
    alloc: Global,
    cycle: u32,
    length: u32,
    row: &[u16],
) -> io::Result<()> {
    if MOST_ROW < row.len() {
        return write!(report.out, " NO ROOM");
    }
    let answers = push_row(alloc, cycle, length, row)?;
    let in_place = push_row_in(alloc, cycle, length, row)?;
    let shape = Shape {
        cycle,
        rows: 1,
        columns: u32::try_from(row.len()).unwrap_or(u32::MAX),
        mask_rows: 1,
        mask_columns: length,
    };
    report.tally.add_pushes(row.len());
    write!(report.out, "{}", Repeats(&answers))?;
    compare(report, "in place", &answers, &in_place)?;
    compare_engine(report, alloc, Engine::Level, shape, row, &answers)?;
    compare_engine(report, alloc, Engine::Reading, shape, row, &answers)
}
