//! Prints the bench sheet of the record on standard input, or the line of its refusal.
//!
//! The exit status is 0 for both. Where the input cannot be read or the text cannot be written, one
//! line on standard error says so, and the status is 1.
#![tactic(auto)]

use sheet_stdio::{StdioError, print_record};
use std::io;

fn main(rt: HostRuntime) -> Result<(), StdioError> {
    print_record(&mut rt.reader(), &mut io::writer(&rt))
}
