//! Runs both engines on each case, and the reading engine once more with memory to spare: the
//! worked examples that concern the filter, its refusals alone and together, cases in which
//! mistakes are easily made, and edges of the image, the mask and the range. Output and work memory
//! are filled with 9 and 7 before each call.
//!
//! Standard input holds one case to a line: a name; after a colon the cycle, the rows and columns
//! of the image, the sides of the mask, the first and the end row, the lengths of the output and of
//! the work memory; after a colon the image. Each case is printed as it was understood, and then
//! for each call the answer, all of the output, and how much of the work memory is 0 and how much
//! is still 7.
//!
//! Where input cannot be read, no more can be printed or memory runs out, it ends with an error and
//! the exit status 1.
#![tactic(auto)]

mod case;

use case::{Case, Lent};
use filter::Engine;
use std::alloc::Global;
use std::io;
use std::io::{BufWriter, Write};
use test_support::input;
use test_support::input::Lines;
use test_support::print::Answer;

// Numbers of an output and of a work memory at most.
const MOST_OUTPUT: usize = 128;

const MOST_WORK: usize = 20736;

// Runs an engine on a case with `work` numbers of work memory.
fn call(
    out: &mut impl Write,
    alloc: Global,
    case: &Case,
    engine: Engine,
    work: usize,
) -> io::Result<()> {
    if MOST_OUTPUT < case.output || MOST_WORK < work {
        return writeln!(out, "NO ROOM");
    }
    let mut lent = Lent::new(alloc, case.output, work)?;
    let answer = filter::run(
        engine,
        case.shape,
        case.rows.clone()?,
        &case.image,
        &mut lent.output,
        &mut lent.work,
    );
    writeln!(out, "{} | {lent}", Answer(answer.map(|()| "filtered")))
}

fn run_case(out: &mut impl Write, alloc: Global, case: &Case) -> io::Result<()> {
    out.write_all(case.name)?;
    writeln!(out, ":{case}")?;
    out.write_all(case.name)?;
    write!(out, ", level: ")?;
    call(out, alloc, case, Engine::Level, case.work)?;
    out.write_all(case.name)?;
    write!(out, ", reading: ")?;
    call(out, alloc, case, Engine::Reading, case.work)?;
    out.write_all(case.name)?;
    write!(out, ", memory to spare: ")?;
    call(out, alloc, case, Engine::Reading, MOST_WORK)
}

fn run(rt: &(impl Input + Print + AllocGlobal)) -> io::Result<()> {
    let alloc = rt.alloc();
    let cases = input::bytes(rt)?;
    let mut out = BufWriter::new(alloc, io::writer(rt))?;
    for line in Lines(&cases) {
        run_case(&mut out, alloc, &Case::parse(alloc, line)?)?;
    }
    out.flush()
}

fn main(rt: HostRuntime) -> io::Result<()> {
    run(&rt)
}
