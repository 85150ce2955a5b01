//! Short texts on the stack.

ghost use Rattle.std.specs.Prelude.{◌≡◌, ◌+◌, ◌≤◌, [], ◌++◌, decimal, length};

use itoa::Buffer;
use std::marker::Model;

/// A line has no more bytes.
const MOST_BYTES: usize = 64;

/// A text of at most 64 bytes, kept on the stack. Contracts see it as the list of its bytes.
#[derive(Drop)]
pub struct Line {
    bytes: [u8; MOST_BYTES],
    length: usize,
}

impl Model for Line {
    ghost use Rattle.std.specs.Prelude.{ℕ, List, ◌≤◌, take};
    ghost use Rattle.byte_text.specs.declared.lines.TheConstants.{MOST_BYTES};

    ghost Value = { List ℕ };

    ghost view = { λ l. take l.length l.bytes };

    ghost invariant = { λ l. l.length ≤ MOST_BYTES };
}

impl Line {
    /// A line of no bytes.
    pub fn new() -> Line
        ensures { result ≡ [] }
    {
        Line {
            bytes: [0; MOST_BYTES],
            length: 0,
        }
    }

    /// Its bytes.
    pub fn as_slice(&self) -> &[u8]
        ensures { result.now ≡ self.now }
    {
        &self.bytes[..self.length]
    }

    /// Appends a text. Both together may have at most 64 bytes.
    pub fn put(&mut self, text: &[u8])
        requires room { length self.old + length text.now ≤ 64 }
        ensures { self.new ≡ self.old ++ text.now }
    {
        let end = self.length + text.len();
        self.bytes[self.length..end].copy_from_slice(text);
        self.length = end;
    }

    /// Appends a number in decimal. 10 bytes have to be free, and it takes no more.
    pub fn put_number(&mut self, number: u32)
        requires room { length self.old + 10 ≤ 64 }
        ensures put { self.new ≡ self.old ++ decimal number }
        ensures room { length self.new ≤ length self.old + 10 }
    {
        self.put(Buffer::new().format(number).as_bytes());
    }

    /// Appends a number of 64 bits in decimal. 20 bytes have to be free, and it takes no more.
    pub fn put_long_number(&mut self, number: u64)
        requires room { length self.old + 20 ≤ 64 }
        ensures put { self.new ≡ self.old ++ decimal number }
        ensures room { length self.new ≤ length self.old + 20 }
    {
        self.put(Buffer::new().format(number).as_bytes());
    }
}
