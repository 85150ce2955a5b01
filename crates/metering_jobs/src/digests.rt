//! A writer that keeps of what it is given a number alone.

use std::io;
use std::io::Write;

/// What was written, as a number: the same however the bytes came in pieces. Each eight bytes are a word, and the words are
/// taken by four sums in turn, so that the processor works at several at once.
#[derive(Drop)]
pub struct Digest {
    sums: [u64; 4],
    /// How many words they have taken.
    words: u64,
    /// The bytes behind them, fewer than eight.
    tail: u64,
    tail_length: u32,
}

impl Digest {
    pub fn new() -> Digest {
        Digest {
            sums: [0; 4],
            words: 0,
            tail: 0,
            tail_length: 0,
        }
    }

    /// How many bytes were written.
    pub fn bytes(&self) -> u64 {
        self.words
            .wrapping_mul(8)
            .wrapping_add(u64::from(self.tail_length))
    }

    /// The number of all that was written.
    pub fn value(&self) -> u64 {
        let mut value = mixed(self.bytes(), self.tail);
        for sum in self.sums.iter() {
            value = mixed(value, *sum);
        }
        value
    }

    fn take_word(&mut self, word: u64) {
        let sum = (self.words % 4) as usize;
        self.sums[sum] = mixed(self.sums[sum], word);
        self.words = self.words.wrapping_add(1);
    }

    fn take_words(&mut self, words: &[[u8; 8]]) {
        for word in words.iter() {
            self.take_word(u64::from_le_bytes(*word));
        }
    }

    fn take_bytes(&mut self, bytes: &[u8]) {
        for byte in bytes.iter() {
            self.tail |= u64::from(*byte) << (8 * (self.tail_length % 8));
            self.tail_length = self.tail_length % 8 + 1;
            if self.tail_length == 8 {
                self.take_word(self.tail);
                self.tail = 0;
                self.tail_length = 0;
            }
        }
    }
}

/// One word more of a sum, by a product and a turn, as multiplicative hashes do.
fn mixed(sum: u64, word: u64) -> u64 {
    (sum ^ word)
        .wrapping_mul(0x9E37_79B9_7F4A_7C15)
        .rotate_left(29)
}

impl Write for Digest {
    fn write(&mut self, bytes: &[u8]) -> io::Result<usize> {
        // What the word that was begun lacks, and then what the four sums lack.
        let lacks = ((8 - self.tail_length % 8) % 8) as usize;
        let (before, rest) = bytes.split_at(lacks.min(bytes.len()));
        self.take_bytes(before);
        if self.tail_length != 0 {
            return Ok(bytes.len());
        }
        let (words, behind) = rest.as_chunks::<8>();
        let lacks = ((4 - self.words % 4) % 4) as usize;
        let (first, others) = words.split_at(lacks.min(words.len()));
        self.take_words(first);
        let (blocks, last) = others.as_chunks::<4>();
        let [mut one, mut two, mut three, mut four] = self.sums;
        if self.words % 4 == 0 {
            for block in blocks.iter() {
                one = mixed(one, u64::from_le_bytes(block[0]));
                two = mixed(two, u64::from_le_bytes(block[1]));
                three = mixed(three, u64::from_le_bytes(block[2]));
                four = mixed(four, u64::from_le_bytes(block[3]));
            }
            self.sums = [one, two, three, four];
            self.words = self
                .words
                .wrapping_add((blocks.len() as u64).wrapping_mul(4));
            self.take_words(last);
        }
        self.take_bytes(behind);
        Ok(bytes.len())
    }

    fn flush(&mut self) -> io::Result<()> {
        Ok(())
    }
}
