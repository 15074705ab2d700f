//! Standard input, and its lines. It is bytes, which need not be text.

ghost use Rattle.std.specs.Prelude.{◌≤◌, IfOk, length, vec_len};
ghost use Rattle.std.specs.Iterator.{at_most};

use crate::cases;
use std::io;
use std::io::Read;

/// Bytes that a program reads at most; what follows them is left.
pub const MOST_INPUT: usize = 524288;

/// The bytes of standard input, `MOST_INPUT` at most. It fails if they cannot be read, or if memory
/// runs out.
pub fn bytes(rt: &(impl Input + AllocGlobal)) -> io::Result<Vec<u8>>
    ensures { IfOk result (λ bytes. vec_len bytes ≤ MOST_INPUT) }
{
    let mut bytes = Vec::new(rt.alloc());
    let mut reader = rt.reader().take(MOST_INPUT as u64);
    reader.read_to_end(&mut bytes)?;
    bytes.truncate(MOST_INPUT);
    Ok(bytes)
}

/// The lines of bytes, each without its line feed. No line follows the last line feed.
#[derive(Clone, Copy, Debug)]
pub struct Lines<'a>(pub &'a [u8]);

impl<'a> Iterator for Lines<'a> {
    type Item = &'a [u8];

    ghost remaining = { λ lines. at_most (length lines.0.now) };

    fn next(&mut self) -> Option<&'a [u8]> {
        if self.0.is_empty() {
            return None;
        }
        let (line, rest) = cases::split_once(self.0, b'\n');
        self.0 = rest;
        Some(line)
    }
}
