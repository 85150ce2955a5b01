//! The text of a schedule, as it grows.

use crate::faults::Stop;
use byte_text::{put_if_any, put_numbered};
use std::alloc::Global;

/// A schedule has no more bytes than this.
const MOST_BYTES: usize = 16_777_216;

/// A group sends no more packets than this.
const MOST_PACKETS: u32 = 1_000_000;

/// A schedule's text so far, and how many packets its group has sent. Where it is given up, the first reason is kept, and nothing
/// more is put: so whoever puts much of it need not ask after each line.
#[derive(Drop)]
pub(crate) struct Draft {
    text: Vec<u8>,
    packets: u32,
    stop: Option<Stop>,
}

impl Draft {
    pub(crate) fn new(alloc: Global) -> Draft {
        Draft {
            text: Vec::new(alloc),
            packets: 0,
            stop: None,
        }
    }

    /// Whether it was given up.
    pub(crate) fn has_stopped(&self) -> bool {
        self.stop.is_some()
    }

    /// Gives it up, where it was not given up before.
    pub(crate) fn give_up(&mut self, stop: Stop) {
        if self.stop.is_none() {
            self.stop = Some(stop);
        }
    }

    /// All of it, or why it was given up.
    pub(crate) fn finish(self) -> Result<Vec<u8>, Stop> {
        match self.stop {
            Some(stop) => Err(stop),
            None => Ok(self.text),
        }
    }

    /// The number of the next packet that is sent.
    pub(crate) fn packet(&mut self) -> u32 {
        let number = self.packets;
        if number < MOST_PACKETS {
            self.packets = number + 1;
        } else {
            self.give_up(Stop::TooLong);
        }
        number
    }

    /// Appends a text.
    pub(crate) fn put(&mut self, text: &[u8]) {
        if self.stop.is_some() {
            return;
        }
        if MOST_BYTES.saturating_sub(self.text.len()) < text.len() {
            self.stop = Some(Stop::TooLong);
        } else if self.text.extend_from_slice(text).is_err() {
            self.stop = Some(Stop::OutOfMemory);
        }
    }

    /// Appends a line: words, a number, and where there is one more, other words and that.
    pub(crate) fn put_line(
        &mut self,
        words: &[u8],
        number: u128,
        other_words: &[u8],
        other: Option<u32>,
    ) {
        if self.stop.is_some() {
            return;
        }
        let text = &mut self.text;
        let is_put = put_numbered(text, words, number).is_ok()
            && put_if_any(text, other_words, other).is_ok()
            && text.push(b'\n').is_ok();
        if !is_put {
            self.stop = Some(Stop::OutOfMemory);
        } else if self.text.len() > MOST_BYTES {
            self.stop = Some(Stop::TooLong);
        }
    }

    /// Appends that a packet reaches a node.
    pub(crate) fn deliver(&mut self, packet: u32, node: u8) {
        self.put_line(b"deliver ", u128::from(packet), b" ", Some(u32::from(node)));
    }

    /// Appends that a packet reaches the nodes from one to another.
    pub(crate) fn deliver_to(&mut self, packet: u32, from: u8, to: u8) {
        for node in from..to {
            self.deliver(packet, node);
        }
    }
}
