//! Numbers and fields of a record as bytes: a number is two bytes, high byte first. All offsets
//! count from the start of the record. Internal: each `requires` is met by the tests of the writer
//! or the reader. SPECIFICATION, "Fields".
#![tactic(auto)]

pub mod layout;

ghost use Rattle.std.specs.Prelude.{◌≡◌, ◌+◌, ◌≤◌, length};
ghost use Rattle.std.proofs.lemmas.List.Edits.{sets};
ghost use Rattle.record_format.specs.Fields.{tag_byte, number, number_at};
ghost use Rattle.record_format.specs.Layout.{number_length};

use layout::NUMBER_LENGTH;

/// What a field holds, by its tag.
#[derive(Clone, Copy, Debug, PartialEq, Eq)]
pub enum Tag {
    /// The cycle, one number.
    Cycle = 0x01,
    /// The rows and the columns, two numbers.
    Size = 0x02,
    /// The sides of the mask, rows and then columns; or nothing, which is the default mask.
    Mask = 0x03,
    /// A row of readings, a number for each column.
    Row = 0x04,
    /// Nothing; the last field.
    End = 0xFF,
}

impl Tag {
    /// The byte that a field begins with.
    pub fn byte(self) -> u8
        ensures { result ≡ tag_byte self }
    {
        self as u8
    }
}

/// The number at an offset.
#[tactic(auto, unfolding(crate::specs::Fields::number_at))]
pub fn number_at(bytes: &[u8], at: usize) -> u16
    requires { at + number_length ≤ length bytes.now }
    ensures { result ≡ number_at bytes.now at }
{
    u16::from_be_bytes([bytes[at], bytes[at + 1]])
}

/// Writes a number at an offset.
pub fn put_number(bytes: &mut [u8], at: usize, x: u16)
    requires { at + number_length ≤ length bytes.old }
    ensures { bytes.new ≡ sets bytes.old at (number x) }
{
    bytes[at..at + NUMBER_LENGTH].copy_from_slice(&x.to_be_bytes());
}
