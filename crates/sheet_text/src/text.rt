//! Text laid into lent memory piece by piece: bytes, and numbers in decimal. Where there is no room
//! left, what fits is laid and the rest dropped, while the length goes on counting: so at the end
//! it is that of the whole text. Internal: pieces lie one behind the other as long as this length
//! fits 64 bits.

ghost use Rattle.std.specs.Prelude.{◌≡◌};
ghost use Rattle.sheet_text.specs.Text.{AppendsText};

use itoa::{Buffer, Integer};

/// A text in lent memory, from its front on.
#[derive(Drop)]
pub struct Text<'a> {
    // The memory.
    memory: &'a mut [u8],
    // Bytes of the whole text so far, also of what was dropped.
    length: usize,
}

impl<'a> Text<'a> {
    /// An empty text. The memory stays as it is.
    pub fn new(memory: &'a mut [u8]) -> Text<'a>
        ensures same_memory { result.memory.ghost_name ≡ memory.entry.ghost_name }
        ensures untouched { result.memory.now ≡ memory.old }
        ensures empty { result.length ≡ 0 }
    {
        Text { memory, length: 0 }
    }

    /// Bytes of the whole text so far; above the length of the memory if some were dropped.
    pub fn length(&self) -> usize
        ensures { result ≡ self.now.length }
    {
        self.length // That of the whole text.
    }

    /// Lays bytes behind the text, as many as there is room for.
    pub fn append(&mut self, bytes: &[u8])
        ensures { AppendsText self.old bytes.now self.new }
    {
        let start = self.length.min(self.memory.len());
        let fitting = bytes.len().min(self.memory.len() - start);
        self.memory[start..start + fitting].copy_from_slice(&bytes[..fitting]);
        self.length = self.length.saturating_add(bytes.len());
    }

    /// Lays a number in decimal behind the text, with a sign only below 0.
    pub fn append_number<I: Integer>(&mut self, n: I)
        ensures { AppendsText self.old (I.text n) self.new }
    {
        let mut digits = Buffer::new();
        self.append(digits.format(n).as_bytes());
    }
}
