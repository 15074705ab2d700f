//! Runs the live window and prints each answer: the limits of the cycle and of the length, filling,
//! the worked examples, silent and refused readings, resets, rows beside both engines, and windows
//! without history, which no call made.
//!
//! Standard input holds one case to a line, which is printed before its answers. `live` has the
//! cycle and the length of a new window, and after a colon the readings pushed, with the word
//! `reset` among them; after the answers stands what the window holds. `row` has readings alone,
//! all accepted, which both engines filter too. `forged` has the cycle, the length and the count of
//! a window without history, and after commas its readings and its sums: they are printed as they
//! were understood, and of such a window only whether a push is refused, until a reset has made it
//! fresh. At last stands what was counted.
//!
//! Where input cannot be read, no more can be printed or memory runs out, it ends with an error and
//! the exit status 1.
#![tactic(auto)]

mod case;
mod rows;

use case::Case;
use std::alloc::Global;
use std::io;
use std::io::{BufWriter, Write};
use test_live_checks::report::Report;
use test_live_checks::run::Run;
use test_live_checks::tally::Tally;
use test_live_checks::windows::Members;
use test_support::cases::MOST_NUMBERS;
use test_support::input::Lines;
use test_support::{cases, input};

// Pushes the readings of a text, which are stored in lent memory.
fn push_all<W: Write>(
    report: &mut Report<W>,
    memory: &mut [u16],
    run: &mut Run,
    text: &[u8],
) -> io::Result<()> {
    let count = cases::store_readings(text, memory);
    for reading in &memory[..count] {
        run.push(report, *reading)?;
    }
    Ok(())
}

// Pushes the readings of a text, with a reset at each `r`, the first letter of that word.
fn play<W: Write>(
    report: &mut Report<W>,
    memory: &mut [u16],
    run: &mut Run,
    text: &[u8],
) -> io::Result<()> {
    for (k, readings) in text.split(|byte| *byte == b'r').enumerate() {
        if k > 0 {
            run.reset(report)?;
        }
        push_all(report, memory, run, readings)?;
    }
    Ok(())
}

fn run_case<W: Write>(
    report: &mut Report<W>,
    alloc: Global,
    memory: &mut [u16],
    case: &Case,
) -> io::Result<()> {
    match case {
        Case::Live {
            cycle,
            length,
            wakes,
        } => {
            let mut run = Run::begin(report, *cycle, *length)?;
            play(report, memory, &mut run, wakes)?;
            write!(report.out, "; {}", Members(&run.window))
        }
        Case::Row {
            cycle,
            length,
            wakes,
        } => {
            let count = cases::store_readings(wakes, memory);
            rows::run(report, alloc, *cycle, *length, &memory[..count])
        }
        Case::Forged { window, wakes } => {
            let mut run = Run {
                window: *window,
                has_history: false,
            };
            write!(report.out, " {}", Members(&run.window))?;
            play(report, memory, &mut run, wakes)
        }
    }
}

fn run(rt: &(impl Input + Print + AllocGlobal)) -> io::Result<()> {
    let alloc = rt.alloc();
    let cases = input::bytes(rt)?;
    let mut report = Report {
        out: BufWriter::new(alloc, io::writer(rt))?,
        tally: Tally::default(),
    };
    let mut memory = [0; MOST_NUMBERS];
    for line in Lines(&cases) {
        report.out.write_all(line)?;
        write!(report.out, " ->")?;
        match Case::parse(alloc, line)? {
            Some(case) => run_case(&mut report, alloc, &mut memory, &case)?,
            None => write!(report.out, " NO CASE")?,
        }
        writeln!(report.out)?;
    }
    let tally = report.tally;
    write!(report.out, "{tally}")?;
    report.out.flush()
}

fn main(rt: HostRuntime) -> io::Result<()> {
    run(&rt)
}
