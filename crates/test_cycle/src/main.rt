//! Runs the calls on a cycle and prints each answer: the worked examples that concern them, odd
//! cycles, steps of half a cycle, slots over tick 0, and each refusal with its place.
//!
//! Standard input holds one case to a line: a call, its cycle, and after a colon its ticks, 0 for
//! each that is missing. Each case is printed as it was understood, and after it the answer; the
//! ticks of a drift are printed as they stand.
//!
//! Where input cannot be read, no more can be printed or memory runs out, it ends with an error and
//! the exit status 1.
#![tactic(auto)]

use refusal::Refusal;
use std::io::{BufWriter, Write};
use std::{array, fmt, io};
use test_support::cases::{DECIMAL, MOST_NUMBERS};
use test_support::input::Lines;
use test_support::print::{Answer, Readings};
use test_support::{cases, input};

// The answer of a slot as a word.
fn slot_word(inside: bool) -> &'static str {
    if inside { "inside" } else { "outside" }
}

// Prints a call on some ticks, and its answer.
fn print<T: fmt::Display + Drop>(
    out: &mut impl Write,
    call: &str,
    cycle: u32,
    ticks: &[u16],
    answer: Result<T, Refusal>,
) -> io::Result<()> {
    write!(out, "{call} on {cycle}:{} -> ", Readings(ticks))?;
    writeln!(out, "{}", Answer(answer))
}

// Runs the case of a line, whose ticks are stored in lent memory. Each word is a call with
// arguments of its own.
fn run_line(out: &mut impl Write, memory: &mut [u16], line: &[u8]) -> io::Result<()> {
    let (head, ticks) = cases::split_once(line, b':');
    let mut cycle = [0];
    cases::numbers(head, DECIMAL, &mut cycle);
    let [cycle] = cycle;
    let count = cases::store_readings(ticks, memory);
    let ticks = &memory[..count];
    let first: [u16; 3] = array::from_fn(|k| cases::nth(ticks, k));
    let [a, b, w] = first;
    if line.starts_with(b"distance") {
        print(
            out,
            "distance",
            cycle,
            &[a, b],
            cycle::distance(cycle, a, b),
        )
    } else if line.starts_with(b"step") {
        print(out, "step", cycle, &[a, b], cycle::step(cycle, a, b))
    } else if line.starts_with(b"slot") {
        let answer = cycle::slot(cycle, a, b, w).map(slot_word);
        print(out, "slot", cycle, &[a, b, w], answer)
    } else {
        out.write_all(line)?;
        if line.starts_with(b"drift") {
            writeln!(out, " -> {}", Answer(cycle::drift(cycle, ticks)))
        } else {
            writeln!(out, " -> NO CASE")
        }
    }
}

fn run(rt: &(impl Input + Print + AllocGlobal)) -> io::Result<()> {
    let cases = input::bytes(rt)?;
    let mut out = BufWriter::new(rt.alloc(), io::writer(rt))?;
    let mut memory = [0; MOST_NUMBERS];
    for line in Lines(&cases) {
        run_line(&mut out, &mut memory, line)?;
    }
    out.flush()
}

fn main(rt: HostRuntime) -> io::Result<()> {
    run(&rt)
}
