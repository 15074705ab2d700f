//! Runs both engines on many images, and compares all that a call leaves in lent memory with phases
//! that another program found by direct sums.
//!
//! Standard input holds one case after the other: the cycle, the rows and columns of the image, the
//! sides of the mask, the first row and the end row, then the readings of the image, then the
//! phases of the range. Each number has two bytes, the high byte first. Where the last case is cut
//! short, 0 stands for what is missing.
//!
//! Before a call all of the output and of the work memory is garbage, which depends on the place
//! and on the call. After it the rows of the range must hold the phases, the needed work numbers
//! must be 0, and every other number must be its garbage still; so must all of them where the level
//! engine has to refuse the cycle. For each engine the program prints what it counted, and how many
//! numbers and answers were not those expected; an image that has no room is one more of them.
//!
//! Where input cannot be read, no more can be printed or memory runs out, it ends with an error and
//! the exit status 1.
#![tactic(auto)]

mod case;
mod lent;
mod tally;

use case::{Case, Cases};
use filter::Engine;
use lent::{Expected, Memory};
use std::alloc::{AllocError, Global};
use std::io;
use std::io::{BufWriter, Write};
use tally::Tally;
use test_support::input;

// Readings of an image at most.
const MOST_READINGS: usize = 480;

// What was counted of each engine's calls.
#[derive(Clone, Copy, Default)]
struct Counts {
    images: usize,
    level: Tally,
    reading: Tally,
}

impl Counts {
    fn differences(&self) -> usize {
        self.level
            .differences
            .saturating_add(self.reading.differences)
    }
}

// Makes a call of an engine on garbage of its own, and counts its effect beside the expected one.
fn run_engine(
    memory: &mut Memory,
    tally: &mut Tally,
    engine: Engine,
    case: &Case,
    readings: &[u16],
    call: usize,
) -> Result<(), AllocError> {
    memory.fill_garbage(call);
    let answer = filter::run(
        engine,
        case.shape,
        case.rows.clone()?,
        readings,
        &mut memory.output,
        &mut memory.work,
    );
    let effect = case.expected_effect(engine);
    tally.add_answer(answer, effect.map(|_| ()));
    let expected = Expected {
        case,
        effect: effect.unwrap_or_default(),
        call,
    };
    tally.add_output(&expected, &memory.output);
    tally.add_work(&expected, &memory.work);
    Ok(())
}

// Runs a case on both engines. An image that has no room counts as a difference.
fn run_case(
    alloc: Global,
    memory: &mut Memory,
    counts: &mut Counts,
    case: &Case,
) -> Result<(), AllocError> {
    if MOST_READINGS < case.area {
        counts.level.differences = counts.level.differences.saturating_add(1);
        return Ok(());
    }
    let readings = case.readings(alloc)?;
    let level = counts.images.saturating_mul(2);
    let reading = level.saturating_add(1);
    run_engine(
        memory,
        &mut counts.level,
        Engine::Level,
        case,
        &readings,
        level,
    )?;
    run_engine(
        memory,
        &mut counts.reading,
        Engine::Reading,
        case,
        &readings,
        reading,
    )?;
    counts.images = counts.images.saturating_add(1);
    Ok(())
}

fn run_all(alloc: Global, numbers: &[u16]) -> Result<Counts, AllocError> {
    let mut memory = Memory::zeros(alloc)?;
    let mut counts = Counts::default();
    for case in Cases(numbers) {
        run_case(alloc, &mut memory, &mut counts, &case)?;
    }
    Ok(counts)
}

// The number of two bytes; 0 where there are no two.
fn number(bytes: &[u8]) -> u16 {
    match *bytes {
        [high, low] => u16::from_be_bytes([high, low]),
        _ => 0,
    }
}

fn print(rt: &(impl Print + AllocGlobal), bytes: usize, counts: &Counts) -> io::Result<()> {
    let mut out = BufWriter::new(rt.alloc(), io::writer(rt))?;
    writeln!(out, "bytes {bytes}")?;
    writeln!(out, "images {}", counts.images)?;
    write!(out, "level engine\n{}", counts.level)?;
    write!(out, "reading engine\n{}", counts.reading)?;
    writeln!(out, "differences {}", counts.differences())?;
    out.flush()
}

// How many bytes standard input has, and its numbers. The bytes themselves are not kept.
fn read(rt: &(impl Input + AllocGlobal)) -> io::Result<(usize, Vec<u16>)> {
    let bytes = input::bytes(rt)?;
    let numbers = bytes.chunks(2).map(number).collect(rt.alloc())?;
    Ok((bytes.len(), numbers))
}

fn run(rt: &(impl Input + Print + AllocGlobal)) -> io::Result<()> {
    let (bytes, numbers) = read(rt)?;
    let counts = run_all(rt.alloc(), &numbers)?;
    print(rt, bytes, &counts)
}

fn main(rt: HostRuntime) -> io::Result<()> {
    run(&rt)
}
