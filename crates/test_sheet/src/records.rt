//! Records, each after its length in two bytes, the high byte first.

ghost use Rattle.std.specs.Prelude.{length};
ghost use Rattle.std.specs.Iterator.{at_most};

/// Records, by the bytes that are left of them. The last one may be cut short: it has the bytes
/// that are there, and none if its length is cut.
#[derive(Clone, Copy)]
pub struct Records<'a>(pub &'a [u8]);

impl<'a> Iterator for Records<'a> {
    type Item = &'a [u8];

    ghost remaining = { λ records. at_most (length records.0.now) };

    fn next(&mut self) -> Option<&'a [u8]> {
        let (length, rest) = match *self.0 {
            [] => return None,
            [_] => (0, &[][..]),
            [high, low, ..] => (u16::from_be_bytes([high, low]), &self.0[2..]),
        };
        let (record, rest) = rest.split_at(rest.len().min(usize::from(length)));
        self.0 = rest;
        Some(record)
    }
}
