//! Runs the writer and the reader of records and prints each answer: the worked examples, each
//! refusal with its place, a record of 35 bytes cut short and with single bytes changed, and what
//! was written read back.
//!
//! Standard input holds one case to a line, which is printed as it was understood before its
//! answer. `read` and `again` have a record's bytes in hexadecimal: `read` reads them, with room
//! for some readings, and `again` reads them and writes what was read. `write` has the sizes and
//! the readings that are written, with room for some bytes. `cut` and `byte` are on the record of
//! the last `read` before them: its first bytes, and all of them with one changed. Lent memory
//! holds a mark before each call, and the line ends in `kept` if all that the call may not change
//! still has it, else in `CHANGED`.
//!
//! Where input cannot be read, no more can be printed or memory runs out, it ends with an error and
//! the exit status 1.
#![tactic(auto)]

mod calls;
mod case;

use calls::{read, read_changed, read_first, write, write_again};
use case::{Case, Lent};
use std::alloc::Global;
use std::io;
use std::io::{BufWriter, Write};
use test_support::input;
use test_support::input::Lines;

// Runs a case, with the last `read` before it.
fn run_case(out: &mut impl Write, alloc: Global, case: &Case, last: &Lent) -> io::Result<()> {
    match case {
        Case::Read(lent) => read(out, alloc, &lent.record, lent.room),
        Case::Again(record) => write_again(out, alloc, record),
        Case::Write {
            shape,
            readings,
            room,
        } => write(out, alloc, *shape, readings, *room),
        Case::Cut(at) => read_first(out, alloc, last, *at),
        Case::Byte { at, value } => read_changed(out, alloc, last, *at, *value),
    }
}

fn run(rt: &(impl Input + Print + AllocGlobal)) -> io::Result<()> {
    let alloc = rt.alloc();
    let cases = input::bytes(rt)?;
    let mut out = BufWriter::new(alloc, io::writer(rt))?;
    // Until a `read` comes, the first line stands for it.
    let mut last = Lent::parse(alloc, Lines(&cases).next().unwrap_or(&[]))?;
    for line in Lines(&cases) {
        let Some(case) = Case::parse(alloc, line)? else {
            out.write_all(line)?;
            writeln!(out, " -> NO CASE")?;
            continue;
        };
        write!(out, "{case} ->")?;
        run_case(&mut out, alloc, &case, &last)?;
        last = last.after(case);
    }
    out.flush()
}

fn main(rt: HostRuntime) -> io::Result<()> {
    run(&rt)
}
