//! Prints the list of distances on 360 ticks: the distance from tick 0 to each tick, computed by
//! the formula and not taken from the list that `distance` looks in. Each number is followed by a
//! comma and a line feed. There is no input, and no memory that could run out.
//!
//! Where no more can be printed, it ends with an error and the exit status 1.
#![tactic(auto)]

use std::{fmt, io};

const TICKS: u16 = 360;

// The list in print.
#[derive(Drop)]
struct List;

impl fmt::Display for List {
    fn fmt<W: fmt::Write>(&self, f: &mut fmt::Formatter<W>) -> fmt::Result {
        for tick in 0..TICKS {
            let distance = cycle::apart_by_formula(TICKS, 0, tick);
            writeln!(f, "{distance},")?;
        }
        Ok(())
    }
}

fn print_list(rt: &impl Print) -> io::Result<()> {
    rt.print(List)
}

fn main(rt: HostRuntime) -> io::Result<()> {
    print_list(&rt)
}
