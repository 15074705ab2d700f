//! Prints the sheets of many records, one after the other.
//!
//! Standard input holds one record after the other, each after its length in two bytes, the high
//! byte first. A line with the record's index, from 0, is printed before each sheet. The same
//! memory is lent to each call and never cleared, so a record finds in it what those before it
//! left.
//!
//! Where input cannot be read, no more can be printed or memory runs out, it ends with an error and
//! the exit status 1.
#![tactic(auto)]

mod records;

use records::Records;
use sheet::MOST_TEXT;
use sheet_stdio::print_sheet;
use std::io;
use std::io::{BufWriter, Write};
use test_support::input;

fn run(rt: &(impl Input + Print + AllocGlobal)) -> io::Result<()> {
    let bytes = input::bytes(rt)?;
    let mut out = BufWriter::new(rt.alloc(), io::writer(rt))?;
    let mut readings = [60000u16; 8192];
    let mut output = [60000u16; 8192];
    let mut work = [4000000000u32; 16384];
    let mut text = [63u8; MOST_TEXT];
    for (index, record) in Records(&bytes).enumerate() {
        writeln!(out, "record {index}")?;
        print_sheet(
            &mut out,
            record,
            &mut readings,
            &mut output,
            &mut work,
            &mut text,
        )?;
    }
    out.flush()
}

fn main(rt: HostRuntime) -> io::Result<()> {
    run(&rt)
}
