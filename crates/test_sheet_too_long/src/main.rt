//! The program `bench_sheet` again, run on a record of 16,385 zero bytes, one too many.
#![tactic(auto)]

use sheet_stdio::{StdioError, print_record};
use std::io;

fn main(rt: HostRuntime) -> Result<(), StdioError> {
    print_record(&mut rt.reader(), &mut io::writer(&rt))
}
